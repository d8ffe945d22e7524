//! What is found of the lines of a station's file, with the messages known before each.
ghost use Rattle.std.specs.Prelude.{◌≡◌, ◌++◌, ℕ, IfOk, OnOk, map, nat_eq};
ghost use Rattle.std.specs.HashMap.{get};
ghost use Rattle.std.specs.Option.{option_copied};
ghost use Rattle.line_files.specs.Known.{Messages, HasMessages, file_messages};
ghost use Rattle.line_files.specs.Known.{with_line, with_reading};
ghost use Rattle.line_files.specs.Standings.{beside, finding, findings, found_at, is_same};
ghost use Rattle.line_files.specs.Standings.{line_finding};

use crate::Standing;
use crate::known::add_message;
use crate::lines::is_blank;
use crate::reading::{Reading, read_as};
use borrowed_json::Scratch;
use codes_core::NoMemory;
use nest_core::{Setup, StationNo};
use posting_core::Message;
use register_store::message_text;
use std::alloc::Global;
use std::collections::HashMap;

/// What is found of a line: its standing, or its number, if that is new.
#[derive(Drop)]
pub(crate) enum Finding {
    Known(Standing),
    New(u32),
}

/// The finding of a line, and the line's place in the file.
#[derive(Drop)]
pub(crate) struct Found {
    pub(crate) row: usize,
    pub(crate) finding: Finding,
}

/// The findings of the lines, which makes their messages known. Fails with `NoMemory`.
pub(crate) fn findings(
    alloc: Global,
    setup: &Setup,
    station: StationNo,
    lines: &[&[u8]],
    known: &mut HashMap<u32, Message>,
) -> Result<Vec<Found>, NoMemory>
    ensures found { IfOk result (λ found. (them : Messages) → HasMessages known.old station them
        → found.items
        ≡ findings setup.now station them 1 (map (λ line. line.now) lines.now)) }
    ensures known { OnOk result ((them : Messages) → HasMessages known.old station them
        → HasMessages known.new station
        (them ++ file_messages setup.now station (map (λ line. line.now) lines.now))) }
{
    let mut found = Vec::new(alloc);
    let mut scratch = Scratch::new(alloc);
    for i in 0..lines.len() {
        let line = lines[i];
        let finding = line_finding(alloc, &mut scratch, setup, station, line, known)?;
        add_finding(&mut found, i + 1, finding)?;
    }
    Ok(found)
}

fn add_finding(found: &mut Vec<Found>, row: usize, finding: Option<Finding>) -> Result<(), NoMemory>
    ensures { OnOk result (found.new.items ≡ found.old.items ++ found_at row finding) }
{
    if let Some(finding) = finding {
        found.push(Found { row, finding })?;
    }
    Ok(())
}

/// The finding of a line, which makes its message known. An empty line has none. Fails with
/// `NoMemory`.
fn line_finding(
    alloc: Global,
    scratch: &mut Scratch,
    setup: &Setup,
    station: StationNo,
    line: &[u8],
    known: &mut HashMap<u32, Message>,
) -> Result<Option<Finding>, NoMemory>
    ensures found { IfOk result (λ found. found
        ≡ line_finding setup.now station (get nat_eq known.old) line.now) }
    ensures known { OnOk result ((q : ℕ) → get nat_eq known.new q
        ≡ with_line setup.now station (get nat_eq known.old) line.now q) }
{
    if is_blank(line) {
        return Ok(None);
    }
    let reading = read_as(alloc, scratch, setup, station, line)?;
    let finding = find(alloc, known, reading)?;
    Ok(Some(finding))
}

/// The finding of a line, which makes its message known. Fails with `NoMemory`.
fn find(
    alloc: Global,
    known: &mut HashMap<u32, Message>,
    reading: Reading,
) -> Result<Finding, NoMemory>
    ensures found { IfOk result (λ found. found ≡ finding (get nat_eq known.old) reading) }
    ensures known { OnOk result ((q : ℕ) → get nat_eq known.new q
        ≡ with_reading (get nat_eq known.old) reading q) }
{
    match reading {
        Reading::Bad(fault) => Ok(Finding::Known(Standing::Bad(fault))),
        Reading::Numbered { n, message } => {
            let finding = beside(alloc, n, &message, known.get(&n))?;
            add_message(known, n, message)?;
            Ok(finding)
        }
    }
}

/// A message beside the one that is known under its number. Fails with `NoMemory`.
fn beside(
    alloc: Global,
    n: u32,
    message: &Message,
    known: Option<&Message>,
) -> Result<Finding, NoMemory>
    ensures { IfOk result
        (λ found. found ≡ beside n message.now (option_copied known.entry)) }
{
    match known {
        None => Ok(Finding::New(n)),
        Some(known) => {
            if is_same(alloc, message, known)? {
                return Ok(Finding::Known(Standing::Same));
            }
            Ok(Finding::Known(Standing::Other(known.copy(alloc)?)))
        }
    }
}

/// Whether two messages have the same text. Fails with `NoMemory`.
fn is_same(alloc: Global, message: &Message, known: &Message) -> Result<bool, NoMemory>
    ensures { IfOk result (λ same. same ≡ is_same message.now known.now) }
{
    let text = message_text(alloc, message)?;
    let known_text = message_text(alloc, known)?;
    Ok(text == known_text)
}
