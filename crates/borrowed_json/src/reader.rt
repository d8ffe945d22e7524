//! Reads a value: a plain text straight from its bytes, any other text from its tokens.
ghost use Rattle.std.specs.Prelude.{◌≡◌, ◌<◌, length, Some, None, Err};
ghost use Rattle.std.specs.Prelude.{IfOk, OnOk, IsUtf8};
ghost use Rattle.json.specs.Json.{value, items, members};
ghost use Rattle.serde_json.specs.Data.{no_members};
ghost use Rattle.serde_json.specs.Read.{of_json, of_items, of_members, converted};
ghost use Rattle.serde_json.specs.Read.{read as read_text};
ghost use Rattle.borrowed_json.specs.View.{view, items_view, members_view};

use crate::number::number_of;
use crate::plain::plain_value;
use crate::{Scratch, TextFault, TokenScratch, Value};
use bumpalo::Bump;
use bumpalo::collections::into_bump_slice;
use json::{Reader, Token};
use std::alloc::Global;

/// How deep arrays and objects may nest: the limit of `serde_json`.
const MAX_DEPTH: usize = 127;

/// How many members a new object has room for.
const MEMBERS: usize = 8;

impl<'a> Value<'a> {
    /// Returns the value that the bytes spell, as `from_slice` of `serde_json` does. The scratch
    /// can be used for the next text as soon as the value is gone.
    ///
    /// Fails with `NotJson` if the bytes are not UTF-8 of one JSON value, if arrays and objects
    /// nest more than 127 deep, or if a number is out of range. Any call may fail with `NoMemory`
    /// instead.
    #[inline(always)]
    pub fn from_slice(
        alloc: Global,
        bytes: &'a [u8],
        scratch: &'a mut Scratch,
    ) -> Result<Value<'a>, TextFault>
        ensures ok { IfOk result (λ v. IsUtf8 bytes.now × (read_text bytes.now ≡ Some (view v))) }
        ensures not_json { result ≡ Err TextFault.NotJson → IsUtf8 bytes.now
            → read_text bytes.now ≡ None }
    {
        let (tokens, lists) = scratch.lend(alloc)?;
        Value::in_lists(bytes, tokens, lists)
    }

    /// The same as [`from_slice`](Self::from_slice), with the lists of arrays and objects in this
    /// arena.
    #[inline(always)]
    pub fn in_lists(
        bytes: &'a [u8],
        tokens: &'a mut TokenScratch,
        lists: &'a Bump,
    ) -> Result<Value<'a>, TextFault>
        ensures ok { IfOk result (λ v. IsUtf8 bytes.now × (read_text bytes.now ≡ Some (view v))) }
        ensures not_json { result ≡ Err TextFault.NotJson → IsUtf8 bytes.now
            → read_text bytes.now ≡ None }
    {
        match plain_value(bytes, lists) {
            Ok(value) => Ok(value),
            Err(_) => from_tokens(bytes, tokens, lists),
        }
    }
}

/// Returns the value that the bytes spell, read from the tokens of their text.
fn from_tokens<'a>(
    bytes: &'a [u8],
    tokens: &'a mut TokenScratch,
    lists: &'a Bump,
) -> Result<Value<'a>, TextFault>
    ensures ok { IfOk result (λ v. IsUtf8 bytes.now × (read_text bytes.now ≡ Some (view v))) }
    ensures not_json { result ≡ Err TextFault.NotJson → IsUtf8 bytes.now
        → read_text bytes.now ≡ None }
{
    match str::from_utf8(bytes) {
        Ok(text) => read_all(text, tokens, lists),
        Err(_) => Err(TextFault::NotJson),
    }
}

/// Returns the value that a text spells.
fn read_all<'a>(
    text: &'a str,
    tokens: &'a mut TokenScratch,
    lists: &'a Bump,
) -> Result<Value<'a>, TextFault>
    ensures ok { IfOk result (λ v. read_text text.now ≡ Some (view v)) }
    ensures not_json { result ≡ Err TextFault.NotJson → read_text text.now ≡ None }
{
    let mut reader = Reader::new(text, tokens)?;
    let value = read(lists, &mut reader, MAX_DEPTH)?;
    if reader.next().is_some() {
        return Err(TextFault::NotJson);
    }
    Ok(value)
}

/// Returns the value that starts at the next token, with at most `depth` levels of arrays and
/// objects.
#[cycle(read)]
#[inline(always)]
fn read<'a>(lists: &'a Bump, reader: &mut Reader<'a>, depth: usize) -> Result<Value<'a>, TextFault>
    ensures ok { IfOk result
        (λ v. converted of_json (value depth reader.old) ≡ Some (view v, reader.new)) }
    ensures shorter { OnOk result (length reader.new < length reader.old) }
    ensures err { result ≡ Err TextFault.NotJson
        → converted of_json (value depth reader.old) ≡ None }
{
    let token = reader.next().ok_or(TextFault::NotJson)?;
    match token {
        Token::String(text) => Ok(Value::String(text)),
        Token::Number(text) => match number_of(text) {
            Some(number) => Ok(Value::Number(number)),
            None => Err(TextFault::NotJson),
        },
        Token::Bool(b) => Ok(Value::Bool(b)),
        Token::Null => Ok(Value::Null),
        Token::EndObject | Token::EndArray | Token::Key(_) | Token::Bad => Err(TextFault::NotJson),
        Token::BeginArray => {
            if depth == 0 {
                return Err(TextFault::NotJson);
            }
            Ok(Value::Array(read_items(lists, reader, depth - 1)?))
        }
        Token::BeginObject => {
            if depth == 0 {
                return Err(TextFault::NotJson);
            }
            Ok(Value::Object(read_members(lists, reader, depth - 1)?))
        }
    }
}

/// Returns the items of an array, after its opening bracket.
#[cycle(read)]
#[inline(never)]
fn read_items<'a>(
    lists: &'a Bump,
    reader: &mut Reader<'a>,
    depth: usize,
) -> Result<&'a [Value<'a>], TextFault>
    ensures ok { IfOk result
        (λ v. converted of_items (items (value depth) (length reader.old) reader.old)
        ≡ Some (items_view v.now, reader.new)) }
    ensures shorter { OnOk result (length reader.new < length reader.old) }
    ensures err { result ≡ Err TextFault.NotJson
        → converted of_items (items (value depth) (length reader.old) reader.old) ≡ None }
{
    let mut found = Vec::new(lists);
    'items: while !reader.take_end_array() {
        let item = read(lists, reader, depth)?;
        found.push(item)?;
    }
    Ok(into_bump_slice(found))
}

/// Returns the members of an object, after its opening brace, in the order of the text.
#[cycle(read)]
#[inline(never)]
fn read_members<'a>(
    lists: &'a Bump,
    reader: &mut Reader<'a>,
    depth: usize,
) -> Result<&'a [(&'a str, Value<'a>)], TextFault>
    ensures ok { IfOk result
        (λ v. converted (λ ms. of_members ms no_members)
        (members (value depth) (length reader.old) reader.old)
        ≡ Some (members_view v.now, reader.new)) }
    ensures shorter { OnOk result (length reader.new < length reader.old) }
    ensures err { result ≡ Err TextFault.NotJson
        → converted (λ ms. of_members ms no_members)
        (members (value depth) (length reader.old) reader.old) ≡ None }
{
    let mut found = Vec::with_capacity(lists, MEMBERS)?;
    'members: while let Some(name) = reader.next_key()? {
        let member = read(lists, reader, depth)?;
        found.push((name, member))?;
    }
    Ok(into_bump_slice(found))
}
