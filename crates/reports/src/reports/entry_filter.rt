//! Which posted entries a list has.
ghost use Rattle.std.specs.Prelude.{◌≡◌, IfOk};
ghost use Rattle.std.specs.List.{list_any};
ghost use Rattle.std.specs.Str.{bytes_eq};
ghost use Rattle.reports.specs.EntryFilters.{is_about, is_from, is_in_range, is_wanted};
ghost use Rattle.reports.specs.EntryFilters.{names_loan, names_thing};

use crate::EntryFilter;
use crate::sections::station_name;
use codes_core::{LoanCode, NoMemory, ThingCode};
use nest_core::Setup;
use posting_core::{Message, PostedEntry, Verdict};
use std::alloc::Global;

/// Whether the list has the entry with this number. Fails with `NoMemory`.
pub(crate) fn is_wanted(
    alloc: Global,
    setup: &Setup,
    asked: &EntryFilter,
    number: u64,
    entry: &PostedEntry,
) -> Result<bool, NoMemory>
    ensures { IfOk result (λ wanted. wanted ≡ is_wanted setup.now asked.now number entry.now) }
{
    if !is_in_range(asked, number) || !is_from(setup, asked, entry) {
        return Ok(false);
    }
    if asked.refused && matches!(entry.verdict(), Verdict::Applied) {
        return Ok(false);
    }
    let message = entry.message().to_message(alloc)?;
    Ok(is_about(asked, &message))
}

fn is_in_range(asked: &EntryFilter, number: u64) -> bool
    ensures { result ≡ is_in_range asked.now number }
{
    if number < asked.from {
        return false;
    }
    match asked.to {
        Some(to) => number <= to,
        None => true,
    }
}

/// Whether the entry is from the station that is asked for, if one is.
fn is_from(setup: &Setup, asked: &EntryFilter, entry: &PostedEntry) -> bool
    ensures { result ≡ is_from setup.now asked.now entry.now.station }
{
    match &asked.station {
        Some(name) => station_name(setup, entry.station()) == name.as_str(),
        None => true,
    }
}

/// Whether the message names the thing and the loan that are asked for.
fn is_about(asked: &EntryFilter, message: &Message) -> bool
    ensures { result ≡ is_about asked.now message.now }
{
    if let Some(code) = &asked.thing {
        if !names_thing(message, code) {
            return false;
        }
    }
    match &asked.loan {
        Some(code) => names_loan(message, code),
        None => true,
    }
}

fn names_thing(message: &Message, code: &ThingCode) -> bool
    ensures { result ≡ names_thing message.now code.now }
{
    match message {
        Message::Move { thing, .. } => *thing == *code,
        Message::Pack {
            thing,
            container,
            ..
        } => *thing == *code || *container == *code,
        Message::Agree { objects, .. } => has_object(objects.as_slice(), code),
        Message::Exit { thing, .. } => *thing == *code,
        Message::Return { thing, .. } => *thing == *code,
        Message::Receive { thing, .. } => *thing == *code,
        Message::Authorise { .. } | Message::SignOff { .. } | Message::Extend { .. } => false,
    }
}

fn has_object(objects: &[ThingCode], code: &ThingCode) -> bool
    ensures { result ≡ list_any (λ o. bytes_eq o code.now) objects.now }
{
    for i in 0..objects.len() {
        if objects[i] == *code {
            return true;
        }
    }
    false
}

fn names_loan(message: &Message, code: &LoanCode) -> bool
    ensures { result ≡ names_loan message.now code.now }
{
    match message {
        Message::Agree { loan, .. } => *loan == *code,
        Message::Authorise { loan, .. } => *loan == *code,
        Message::Exit { loan, .. } => *loan == *code,
        Message::Return { loan, .. } => *loan == *code,
        Message::Receive { loan, .. } => *loan == *code,
        Message::Extend { loan, .. } => *loan == *code,
        Message::Move { .. } | Message::Pack { .. } | Message::SignOff { .. } => false,
    }
}
