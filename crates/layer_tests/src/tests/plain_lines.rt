//! Lines are read if there is memory: plain ones, and one with an escape. No clause promises that
//! NoMemory comes only after an allocation failed.
use borrowed_json::{Fields, TextFault, TokenScratch, Value};
use bumpalo::Bump;
use std::test::Fail;

// A line as a station sends it, and the same with spaces.
const LINES: &[&[u8]] = &[
    b"{\"station\":\"GAL\",\"n\":7,\"message\":{\"objects\":[\"A.1\",\"A.2\"]}}",
    b" {\"message\": {\"objects\": [\"A.1\" , \"A.2\"]}, \"n\": 7,\t\"station\" :\"GAL\"}\r",
];

#[test]
fn read(rt: HostRuntime) -> Result<(), Fail> {
    let mut tokens = TokenScratch::new(rt.alloc());
    let lists = Bump::new(rt.alloc());
    for line in LINES {
        assert!(rt; number_of(line, &mut tokens, &lists) == Some(7));
    }
    Ok(())
}

// The number of a line, if the line is read.
fn number_of(line: &[u8], tokens: &mut TokenScratch, lists: &Bump) -> Option<u64> {
    match Value::in_lists(line, tokens, lists) {
        Ok(value) => value.at("n").and_then(|n| n.whole_number()),
        Err(_) => None,
    }
}

// A line with an escape, and one that isn't JSON, are not plain.
#[test]
fn unusual(rt: HostRuntime) -> Result<(), Fail> {
    let mut tokens = TokenScratch::new(rt.alloc());
    let lists = Bump::new(rt.alloc());
    assert!(rt; is_line_feed(b"\"\\n\"", &mut tokens, &lists));
    assert!(rt; is_no_json(b"[7", &mut tokens, &lists));
    Ok(())
}

// Whether a line is read as a line feed.
fn is_line_feed(line: &[u8], tokens: &mut TokenScratch, lists: &Bump) -> bool {
    match Value::in_lists(line, tokens, lists) {
        Ok(value) => value.text() == Some("\n"),
        Err(_) => false,
    }
}

// Whether a line is rejected as no JSON.
fn is_no_json(line: &[u8], tokens: &mut TokenScratch, lists: &Bump) -> bool {
    match Value::in_lists(line, tokens, lists) {
        Ok(_) => false,
        Err(fault) => fault == TextFault::NotJson,
    }
}
