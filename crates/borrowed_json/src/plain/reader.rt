//! Reads a value in one pass over a plain text.
ghost use Rattle.std.specs.Prelude.{◌≡◌, Some, None, Err, IfOk, IsUtf8, MatchOption};
ghost use Rattle.serde_json.specs.Read.{read as read_text};
ghost use Rattle.borrowed_json.specs.View.{view, items_view, members_view};
ghost use Rattle.borrowed_json.specs.Plain.{IsPlain};
ghost use Rattle.borrowed_json.specs.Steps.{Reads, ReadsItems, ReadsMembers, Begins, Lasts};
ghost use Rattle.borrowed_json.specs.Steps.{TakesName, LacksName};
ghost use Rattle.borrowed_json.specs.Steps.{HasNone, HasNoItems, HasNoMembers};

use crate::Value;
use crate::plain::lexeme::{after, from_lexeme, string};
use crate::plain::number::whole_number;
use bumpalo::Bump;
use bumpalo::collections::into_bump_slice;

/// How deep arrays and objects may nest: the limit of `serde_json`.
const MAX_DEPTH: usize = 127;

/// How many members a new object has room for.
const MEMBERS: usize = 8;

/// Why a text isn't read.
#[derive(Clone, Copy)]
pub(crate) enum Unread {
    /// It isn't plain, or it isn't JSON.
    Unusual,
    /// Memory could not be allocated.
    NoMemory,
}

/// Returns the value that a plain text spells, with its lists in this arena.
///
/// Fails with `Unusual` only if the text is not plain, or not UTF-8 of one JSON value, or if arrays
/// and objects nest more than 127 deep. Any call may fail with `NoMemory`.
#[inline(always)]
pub(crate) fn plain_value<'a>(bytes: &'a [u8], lists: &'a Bump) -> Result<Value<'a>, Unread>
    ensures ok { IfOk result (λ v. IsUtf8 bytes.now × (read_text bytes.now ≡ Some (view v))) }
    ensures unusual { result ≡ Err Unread.Unusual → IsUtf8 bytes.now → IsPlain bytes.now
        → read_text bytes.now ≡ None }
{
    match str::from_utf8(bytes) {
        Ok(text) => whole_value(text, lists),
        Err(_) => Err(Unread::Unusual),
    }
}

/// Returns the value that a text spells.
#[inline(always)]
fn whole_value<'a>(text: &'a str, lists: &'a Bump) -> Result<Value<'a>, Unread>
    ensures ok { IfOk result (λ v. read_text text.now ≡ Some (view v)) }
    ensures unusual { result ≡ Err Unread.Unusual → IsPlain text.now
        → read_text text.now ≡ None }
{
    let (value, rest) = read_value(lists, text, MAX_DEPTH)?;
    if !from_lexeme(rest).is_empty() {
        return Err(Unread::Unusual);
    }
    Ok(value)
}

/// Returns the value that a text begins with, with at most `depth` levels of arrays and objects,
/// and the rest.
#[cycle(read)]
#[inline(always)]
fn read_value<'a>(
    lists: &'a Bump,
    text: &'a str,
    depth: usize,
) -> Result<(Value<'a>, &'a str), Unread>
    ensures ok { IfOk result (λ r. Reads depth text.now (view r.0) r.1.now) }
    ensures unusual { result ≡ Err Unread.Unusual → IsPlain text.now
        → HasNone depth text.now }
{
    if let Some((found, rest)) = string(text) {
        if let Some(_) = after(rest, b':') {
            return Err(Unread::Unusual);
        }
        return Ok((Value::String(found), rest));
    }
    if let Some(inside) = after(text, b'{') {
        if depth == 0 {
            return Err(Unread::Unusual);
        }
        let (members, rest) = read_members(lists, inside, depth - 1)?;
        return Ok((Value::Object(members), rest));
    }
    if let Some(inside) = after(text, b'[') {
        if depth == 0 {
            return Err(Unread::Unusual);
        }
        let (items, rest) = read_items(lists, inside, depth - 1)?;
        return Ok((Value::Array(items), rest));
    }
    let Some((number, rest)) = whole_number(text) else {
        return Err(Unread::Unusual);
    };
    Ok((Value::Number(number), rest))
}

/// The text from the next item or member on: after a comma, if an earlier one was read.
#[inline(always)]
fn next_start(text: &str, later: bool) -> Option<&str>
    ensures { MatchOption result (Lasts later text.now)
        (λ rest. Begins later text.now rest.now) }
{
    if !later {
        return Some(text);
    }
    let Some(rest) = after(text, b',') else {
        return None;
    };
    Some(rest)
}

/// Returns the items of an array, after its opening bracket, and the rest.
#[cycle(read)]
#[inline(never)]
fn read_items<'a>(
    lists: &'a Bump,
    text: &'a str,
    depth: usize,
) -> Result<(&'a [Value<'a>], &'a str), Unread>
    ensures ok { IfOk result (λ r. ReadsItems depth text.now (items_view r.0.now) r.1.now) }
    ensures unusual { result ≡ Err Unread.Unusual → IsPlain text.now
        → HasNoItems depth text.now }
{
    let mut found = Vec::new(lists);
    let mut left = text;
    let mut later = false;
    'items: while !left.is_empty() {
        if let Some(rest) = after(left, b']') {
            return Ok((into_bump_slice(found), rest));
        }
        let Some(start) = next_start(left, later) else {
            return Err(Unread::Unusual);
        };
        let (item, rest) = read_value(lists, start, depth)?;
        if found.push(item).is_err() {
            return Err(Unread::NoMemory);
        }
        left = rest;
        later = true;
    }
    Err(Unread::Unusual)
}

/// Returns the name of the member that a text begins with, and the text of its value.
#[inline(always)]
fn read_name(text: &str) -> Option<(&str, &str)>
    ensures { MatchOption result (IsPlain text.now → LacksName text.now)
        (λ r. TakesName text.now r.0.now r.1.now) }
{
    let Some((name, rest)) = string(text) else {
        return None;
    };
    let Some(rest) = after(rest, b':') else {
        return None;
    };
    Some((name, rest))
}

/// Returns the members of an object, after its opening brace, in the order of the text, and the
/// rest.
#[cycle(read)]
#[inline(never)]
fn read_members<'a>(
    lists: &'a Bump,
    text: &'a str,
    depth: usize,
) -> Result<(&'a [(&'a str, Value<'a>)], &'a str), Unread>
    ensures ok { IfOk result (λ r. ReadsMembers depth text.now (members_view r.0.now) r.1.now) }
    ensures unusual { result ≡ Err Unread.Unusual → IsPlain text.now
        → HasNoMembers depth text.now }
{
    let Ok(mut found) = Vec::with_capacity(lists, MEMBERS) else {
        return Err(Unread::NoMemory);
    };
    let mut left = text;
    let mut later = false;
    'members: while !left.is_empty() {
        if let Some(rest) = after(left, b'}') {
            return Ok((into_bump_slice(found), rest));
        }
        let Some(start) = next_start(left, later) else {
            return Err(Unread::Unusual);
        };
        let Some((name, inside)) = read_name(start) else {
            return Err(Unread::Unusual);
        };
        let (member, rest) = read_value(lists, inside, depth)?;
        if found.push((name, member)).is_err() {
            return Err(Unread::NoMemory);
        }
        left = rest;
        later = true;
    }
    Err(Unread::Unusual)
}
