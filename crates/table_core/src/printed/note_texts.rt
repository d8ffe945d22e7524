//! Notes for the user about a table.
ghost use Rattle.std.specs.Prelude.{◌≡◌, ◌++◌, IfOk, OnOk, map, string_bytes};
ghost use Rattle.table_core.specs.NoteTexts.{note_text, notes_text};

use crate::SheetLines;
use crate::row_cells::field_at;
use codes_core::{NoMemory, add_quoted};
use std::alloc::Global;

/// Returns a note for each column of the heading that is not used, each with its line feed. Fails
/// with `NoMemory`.
pub fn notes_text(alloc: Global, lines: &SheetLines) -> Result<String, NoMemory>
    ensures { IfOk result (λ text. string_bytes text
        ≡ notes_text (map string_bytes lines.now.heading.items) lines.now.table.unknown.items) }
{
    let mut text = String::new(alloc);
    add_notes(
        &mut text,
        lines.heading.as_slice(),
        lines.table.unknown.as_slice(),
    )?;
    Ok(text)
}

/// Appends a note for each of these fields of the heading. Fails with `NoMemory`.
fn add_notes(text: &mut String, heading: &[String], unknown: &[usize]) -> Result<(), NoMemory>
    ensures { OnOk result (string_bytes text.new
        ≡ string_bytes text.old ++ notes_text (map string_bytes heading.now) unknown.now) }
{
    for field in unknown {
        add_note(text, heading, *field)?;
    }
    Ok(())
}

/// Appends the note for a field of the heading, which counts from 1. Fails with `NoMemory`.
fn add_note(text: &mut String, heading: &[String], field: usize) -> Result<(), NoMemory>
    ensures { OnOk result (string_bytes text.new
        ≡ string_bytes text.old ++ note_text (map string_bytes heading.now) field) }
{
    write!(text, "note: column {field} ")?;
    add_quoted(text, field_at(heading, field.saturating_sub(1)))?;
    text.push_str(" is not used\n")?;
    Ok(())
}
