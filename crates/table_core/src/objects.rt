//! The objects in a cell.
ghost use Rattle.std.specs.Prelude.{◌≡◌, ◌≤◌, ◌<◌, ◌++◌, ◌∷◌, [], not, None, Some, length};
ghost use Rattle.std.specs.Prelude.{take_while, IfOk, OnOk, MatchResult};
ghost use Rattle.std.specs.List.{before_first, after_first};
ghost use Rattle.table_core.specs.Cells.{is_separator, objects_fault, object_count_fault};
ghost use Rattle.table_core.specs.Cells.{object_texts, objects_among, first_object_fault};

use crate::CellFault;
use codes_core::{CodeFault, NoMemory, ThingCode};
use posting_core::{MOST_OBJECTS, Objects};
use std::alloc::Global;

/// The fault of the objects in a cell: that of the first that is not the code of a thing; or there
/// is none, or more than [`MOST_OBJECTS`].
pub(crate) fn objects_fault(text: &[u8]) -> Option<CellFault>
    ensures { result ≡ objects_fault text.now }
{
    let mut count: usize = 0;
    let mut rest = text;
    while !rest.is_empty() {
        match count_object(first_part(rest)) {
            Ok(found) => count += found,
            Err(fault) => return Some(CellFault::BadObject(fault)),
        }
        rest = behind_part(rest);
    }
    object_count_fault(count)
}

/// 1 for the code of a thing, 0 for no text. Fails if the text is not the code of a thing.
fn count_object(text: &[u8]) -> Result<usize, CodeFault>
    ensures exact { MatchResult result
        (λ count. (count ≡ length (objects_among (text.now ∷ [])))
        × (first_object_fault (objects_among (text.now ∷ [])) ≡ None))
        (λ fault. first_object_fault (objects_among (text.now ∷ [])) ≡ Some fault) }
    ensures few { IfOk result (λ count. count ≤ 1) }
{
    if text.is_empty() {
        return Ok(0);
    }
    match ThingCode::parse(text) {
        Ok(_) => Ok(1),
        Err(fault) => Err(fault),
    }
}

fn object_count_fault(count: usize) -> Option<CellFault>
    ensures { result ≡ object_count_fault count }
{
    if count == 0 {
        return Some(CellFault::Empty);
    }
    if count > MOST_OBJECTS {
        return Some(CellFault::TooManyObjects);
    }
    None
}

/// The objects in a cell without a fault. Fails with `NoMemory`.
pub(crate) fn objects_in(alloc: Global, text: &[u8]) -> Result<Objects, NoMemory>
    requires { objects_fault text.now ≡ None }
    ensures { IfOk result (λ objects. objects ≡ object_texts text.now) }
{
    let mut codes = Vec::new(alloc);
    let mut rest = text;
    while !rest.is_empty() {
        push_object(&mut codes, first_part(rest))?;
        rest = behind_part(rest);
    }
    match Objects::new(codes) {
        Ok(objects) => Ok(objects),
        Err(_) => unreachable!(),
    }
}

/// Adds the code of a thing, or nothing for no text. Fails with `NoMemory`.
fn push_object(codes: &mut Vec<ThingCode>, text: &[u8]) -> Result<(), NoMemory>
    requires { first_object_fault (objects_among (text.now ∷ [])) ≡ None }
    ensures { OnOk result (codes.new.items ≡ codes.old.items ++ objects_among (text.now ∷ [])) }
{
    if text.is_empty() {
        return Ok(());
    }
    match ThingCode::parse(text) {
        Ok(code) => codes.push(code)?,
        Err(_) => unreachable!(),
    }
    Ok(())
}

fn is_separator(byte: u8) -> bool
    ensures { result ≡ is_separator byte }
{
    byte == b' ' || byte == b',' || byte == b';'
}

/// The number of bytes before the first separator.
fn part_length(text: &[u8]) -> usize
    ensures count { result ≡ length (take_while (λ b. not (is_separator b)) text.now) }
    ensures within { result ≤ length text.now }
{
    text.iter().take_while(|b| !is_separator(**b)).count()
}

/// The text before the first separator.
fn first_part(text: &[u8]) -> &[u8]
    ensures { result.now ≡ before_first is_separator text.now }
{
    &text[..part_length(text)]
}

/// The text after the first separator.
fn behind_part(text: &[u8]) -> &[u8]
    ensures part { result.now ≡ after_first is_separator text.now }
    ensures less { 0 < length text.now → length result.now < length text.now }
{
    let length = part_length(text);
    if length < text.len() {
        &text[length + 1..]
    } else {
        &[]
    }
}
