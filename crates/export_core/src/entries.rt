//! The rows of the entries: each message, what it moved, and how far it brought loans.
ghost use Rattle.std.specs.Prelude.{◌≡◌, ◌<◌, ◌+◌, ◌++◌, All, IfOk, OnOk, length, map};
ghost use Rattle.std.specs.Prelude.{string_bytes};
ghost use Rattle.posting_core.specs.Past.{upto};
ghost use Rattle.export_core.specs.Entries.{line_texts, message_row, movement_rows};
ghost use Rattle.export_core.specs.Entries.{values_with};
ghost use Rattle.export_core.specs.Rows.{AddsChanges, AddsEntry, HasEntries};
ghost use Rattle.export_core.specs.Statements.{row};

use crate::changes::{line_texts, push_movements};
use crate::statements::row;
use codes_core::NoMemory;
use posting_core::{Changes, Ledger, PostedEntry, kind_name, past};
use register_store::message_text;
use reports::cause_text;
use reports::sections::{Value, entry_at, post_planned, station_name, word_if};
use std::alloc::Global;

/// What the entries of a record add to its script.
#[derive(Drop)]
pub(crate) struct EntryRows {
    /// The rows of the table `message`.
    pub messages: Vec<String>,
    /// The rows of the table `movement`.
    pub movements: Vec<String>,
    /// The statements for the entries at which the objects of loans left, arrived and went back.
    pub lines: String,
}

/// Returns the rows of all entries, oldest first. Fails with `NoMemory`. Takes memory for a second
/// ledger, to which it posts the entries once more.
pub(crate) fn entry_rows(alloc: Global, ledger: &Ledger) -> Result<EntryRows, NoMemory>
    ensures { IfOk result (HasEntries ledger.now (length ledger.now.posted)) }
{
    let mut rows = EntryRows {
        messages: Vec::new(alloc),
        movements: Vec::new(alloc),
        lines: String::new(alloc),
    };
    push_all(alloc, ledger, &mut rows)?;
    Ok(rows)
}

/// Adds the rows of all entries to `rows`, which has none yet.
fn push_all(alloc: Global, ledger: &Ledger, rows: &mut EntryRows) -> Result<(), NoMemory>
    requires { HasEntries ledger.now 0 rows.old }
    ensures { OnOk result (HasEntries ledger.now (length ledger.now.posted) rows.new) }
{
    let mut so_far = past(alloc, ledger, 0)?;
    let ended = push_posted(alloc, ledger, &mut so_far, rows);
    drop(so_far);
    ended
}

/// Adds the rows of all entries, and posts them to `so_far`, which has none yet.
fn push_posted(
    alloc: Global,
    ledger: &Ledger,
    so_far: &mut Ledger,
    rows: &mut EntryRows,
) -> Result<(), NoMemory>
    requires before { so_far.old ≡ upto ledger.now 0 }
    requires empty { HasEntries ledger.now 0 rows.old }
    ensures { OnOk result (HasEntries ledger.now (length ledger.now.posted) rows.new) }
{
    for i in 0..ledger.entry_count() as usize {
        push_entry(alloc, ledger, so_far, i, rows)?;
    }
    Ok(())
}

/// Adds the rows of the entry at this index, from 0. Posts it to `so_far`, which has the entries
/// before it.
fn push_entry(
    alloc: Global,
    ledger: &Ledger,
    so_far: &mut Ledger,
    i: usize,
    rows: &mut EntryRows,
) -> Result<(), NoMemory>
    requires within { i < length ledger.now.posted }
    requires before { so_far.old ≡ upto ledger.now i }
    ensures rows { OnOk result (AddsEntry ledger.now i rows.old rows.new) }
    ensures after { OnOk result (so_far.new ≡ upto ledger.now (i + 1)) }
{
    let entry = entry_at(ledger, i);
    let _ = ledger.entry_count();
    rows.messages
        .push(message_row(alloc, so_far, i as u64 + 1, entry)?)?;
    let changes = post_planned(alloc, ledger, so_far, i)?;
    push_changes(alloc, so_far, entry, &changes, rows)?;
    Ok(())
}

/// The row of an entry's message, by the record before it.
fn message_row(
    alloc: Global,
    before: &Ledger,
    number: u64,
    entry: &PostedEntry,
) -> Result<String, NoMemory>
    ensures { IfOk result (λ row. string_bytes row ≡ message_row before.now number entry.now) }
{
    let message = entry.message().to_message(alloc)?;
    let cause = cause_text(alloc, before, &message, entry.verdict())?;
    let text = message_text(alloc, &message)?;
    let station = station_name(before.setup(), entry.station());
    let kind = kind_name(&message);
    row_with(
        alloc,
        number,
        station,
        entry,
        kind,
        cause.as_str(),
        text.as_str(),
    )
}

/// The row of an entry of this station, with its message of this kind and text, and its cause.
fn row_with<'a>(
    alloc: Global,
    number: u64,
    station: &'a str,
    entry: &PostedEntry,
    kind: &'a str,
    cause: &'a str,
    text: &'a str,
) -> Result<String, NoMemory>
    ensures { IfOk result (λ sql. string_bytes sql
        ≡ row (values_with number station.now entry.now kind.now cause.now text.now)) }
{
    let values = [
        Value::Number(number),
        Value::Word(station),
        Value::Number(u64::from(entry.n())),
        Value::Word(kind),
        Value::Word(entry.verdict().name()),
        word_if(cause),
        Value::Word(text),
    ];
    row(alloc, &values)
}

/// Adds what an entry moved, and how far it brought loans, by the record after it.
fn push_changes(
    alloc: Global,
    after: &Ledger,
    entry: &PostedEntry,
    changes: &Changes,
    rows: &mut EntryRows,
) -> Result<(), NoMemory>
    requires { All (λ s. s.thing < length after.now.museum.things) changes.now.spots }
    ensures { OnOk result (AddsChanges after.now entry.now changes.now rows.old rows.new) }
{
    push_movements(
        alloc,
        after,
        entry,
        changes.spots.as_slice(),
        &mut rows.movements,
    )?;
    let lines = line_texts(
        alloc,
        after.setup(),
        changes.entry,
        changes.lines.as_slice(),
    )?;
    rows.lines.push_str(lines.as_str())?;
    Ok(())
}
