//! The words of a heading.
ghost use Rattle.std.specs.Prelude.{◌≡◌, ◌≤◌, IfOk, length, map, reverse, take_while};
ghost use Rattle.std.specs.Char.{to_ascii_lowercase};
ghost use Rattle.table_core.specs.Columns.{is_blank_byte, front_trimmed, back_trimmed, word_of};

use codes_core::NoMemory;
use std::alloc::{AllocError, Global};
use std::marker::Model;

/// A field of a heading without spaces at its ends, in small letters. Contracts see it as its
/// bytes.
#[derive(Drop)]
pub(crate) struct Word {
    bytes: Vec<u8>,
}

impl Model for Word {
    ghost use Rattle.std.specs.Prelude.{List, ℕ};

    ghost Value = { List ℕ };

    ghost view = { λ w. w.bytes.items };
}

impl Word {
    /// The word of a field. Fails with `NoMemory`.
    pub(crate) fn new(alloc: Global, field: &str) -> Result<Word, NoMemory>
        ensures { IfOk result (λ word. word ≡ word_of field.now) }
    {
        let text = back_trimmed(front_trimmed(field.as_bytes()));
        Ok(Word {
            bytes: lowered(alloc, text)?,
        })
    }

    /// The word's bytes.
    pub(crate) fn as_bytes(&self) -> &[u8]
        ensures { result.now ≡ self.now }
    {
        &self.bytes
    }
}

fn lowered(alloc: Global, text: &[u8]) -> Result<Vec<u8>, AllocError>
    ensures { IfOk result (λ bytes. bytes.items ≡ map to_ascii_lowercase text.now) }
{
    text.iter()
        .map(|byte| byte.to_ascii_lowercase())
        .collect(alloc)
}

/// The number of spaces before a text.
fn spaces_before(text: &[u8]) -> usize
    ensures count { result ≡ length (take_while is_blank_byte text.now) }
    ensures within { result ≤ length text.now }
{
    text.iter().take_while(|b| **b == b' ').count()
}

/// The number of spaces behind a text.
fn spaces_behind(text: &[u8]) -> usize
    ensures count { result ≡ length (take_while is_blank_byte (reverse text.now)) }
    ensures within { result ≤ length text.now }
{
    text.iter().rev().take_while(|b| **b == b' ').count()
}

fn front_trimmed(text: &[u8]) -> &[u8]
    ensures { result.now ≡ front_trimmed text.now }
{
    &text[spaces_before(text)..]
}

fn back_trimmed(text: &[u8]) -> &[u8]
    ensures { result.now ≡ back_trimmed text.now }
{
    &text[..text.len() - spaces_behind(text)]
}
