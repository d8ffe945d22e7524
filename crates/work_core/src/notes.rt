//! The `note:` lines on standard error after a command that is done.

use codes_core::{NoMemory, ThingCode, ThingKind, add_on_one_line};
use hub_core::Hub;
use nest_core::Setup;
use posting_core::Ledger;
use register_store::Register;
use reports::{EntryFilter, Form, Question, print};
use std::alloc::{AllocError, Global};
use std::str;
use std::thread::Threads;

/// Appends a note if the report is to be about an entry that the record doesn't have yet, and one
/// if it prints no row because the setup does not have a code or a station, or because an object
/// has no contents.
pub(crate) fn add_unanswered(
    notes: &mut String,
    ledger: &Ledger,
    question: &Question,
    upto: Option<u64>,
) -> Result<(), AllocError> {
    add_no_entry(notes, ledger, upto)?;
    if let Question::Why(filter) = question {
        add_unexplained(notes, ledger, filter.from, upto)?;
    }
    add_unknown(notes, ledger.setup(), question)
}

/// Appends a note if the record doesn't have this entry, or not yet after the entry `upto`.
fn add_unexplained(
    notes: &mut String,
    ledger: &Ledger,
    entry: u64,
    upto: Option<u64>,
) -> Result<(), AllocError> {
    if entry == 0 {
        return notes.push_str("note: there is no entry 0; the first is 1\n");
    }
    match upto {
        Some(last) if last < entry && entry <= u64::from(ledger.entry_count()) => {
            writeln!(notes, "note: entry {entry} is later than entry {last}")
        }
        _ => add_no_entry(notes, ledger, Some(entry)),
    }
}

/// Appends a note if the record doesn't have this entry.
fn add_no_entry(notes: &mut String, ledger: &Ledger, entry: Option<u64>) -> Result<(), AllocError> {
    let count = ledger.entry_count();
    match entry {
        Some(entry) if entry > u64::from(count) => writeln!(
            notes,
            "note: there is no entry {entry} yet; the last is {count}"
        ),
        _ => Ok(()),
    }
}

/// Appends a note if the question has a code or a station that the setup does not have, or asks for
/// the contents of an object.
fn add_unknown(notes: &mut String, setup: &Setup, question: &Question) -> Result<(), AllocError> {
    match question {
        Question::At(place) if setup.place(place).is_none() => {
            writeln!(notes, "note: {} is not in the setup", place.as_str())
        }
        Question::History(code) | Question::LongHistory(code) if setup.thing(code).is_none() => {
            writeln!(notes, "note: {} is not in the setup", code.as_str())
        }
        Question::Contents(code) if is_object(setup, code) => {
            writeln!(
                notes,
                "note: {} is an object; only containers have contents",
                code.as_str()
            )
        }
        Question::Posted(filter) => add_unlisted(notes, setup, filter),
        _ => Ok(()),
    }
}

/// Appends a note for a station and a thing that are asked for, if the setup does not have them.
fn add_unlisted(notes: &mut String, setup: &Setup, filter: &EntryFilter) -> Result<(), AllocError> {
    if let Some(name) = &filter.station {
        if setup.station(name.as_str()).is_none() {
            notes.push_str("note: ")?;
            add_on_one_line(notes, name.as_str())?;
            notes.push_str(" is not in the setup\n")?;
        }
    }
    if let Some(code) = &filter.thing {
        if setup.thing(code).is_none() {
            writeln!(notes, "note: {} is not in the setup", code.as_str())?;
        }
    }
    Ok(())
}

/// Whether the setup has this code for an object.
fn is_object(setup: &Setup, code: &ThingCode) -> bool {
    setup.thing(code).is_some() && !matches!(code.kind(), ThingKind::Container)
}

/// Appends a note for each station that still has held messages. Held messages are not in the
/// record, so the user has to send them again.
pub(crate) fn add_held<S: Register>(notes: &mut String, hub: &Hub<S>) -> Result<(), AllocError> {
    for station in 0..hub.ledger().setup().stations() {
        let held = hub.held_count(station);
        let name = hub.ledger().setup().station_name(station);
        let awaited = hub.awaited(station);
        if held == 1 {
            writeln!(
                notes,
                "note: {name}: 1 message held, waiting for {awaited}; it is not kept, send it again"
            )?;
        } else if held > 1 {
            writeln!(
                notes,
                "note: {name}: {held} messages held, waiting for {awaited}; they are not kept, \
                 send them again"
            )?;
        }
    }
    Ok(())
}

/// Appends a note on each entry from this one on that isn't applied: why it got its verdict, as
/// `why` prints it.
pub(crate) fn add_causes<T: Threads + Sync>(
    threads: &T,
    alloc: Global,
    notes: &mut String,
    ledger: &Ledger,
    from: u64,
) -> Result<(), NoMemory> {
    let question = Question::Why(EntryFilter {
        from,
        to: None,
        station: None,
        thing: None,
        loan: None,
        refused: true,
    });
    let mut text = Vec::new(alloc);
    if print(threads, alloc, ledger, &question, Form::Plain, &mut text).is_err() {
        // A text in memory fails for want of memory alone.
        return Err(NoMemory);
    }
    if let Ok(text) = str::from_utf8(&text) {
        for line in text.lines() {
            writeln!(notes, "note: {line}")?;
        }
    }
    Ok(())
}
