//! The texts of a message's faults, which the program never prints.
use register_store::ReadFault::{BadField, BadKind, Missing, NotJson};
use register_store::{Key, ReadFault};
use std::test::Fail;

const SHOWN: &[(ReadFault, &str)] = &[
    (NotJson, "no JSON object"),
    (Missing(Key::Thing), "no key thing"),
    (BadKind, "unknown kind of message"),
    (BadField(Key::Day), "a wrong value for the key day"),
    (ReadFault::NoMemory, "out of memory"),
];

#[test]
fn shown(rt: HostRuntime) -> Result<(), Fail> {
    for (fault, want) in SHOWN {
        let shown = format!(in rt.alloc(); "{fault}")?;
        assert!(rt; shown.as_str() == *want);
    }
    Ok(())
}
