//! Prints which refused messages name something that is listed now.
ghost use Rattle.std.specs.Prelude.{◌≡◌, ◌<◌, ◌≤◌, ◌+◌, ◌++◌, ◌∷◌, [], IfOk, OnOk, codes, decimal};
ghost use Rattle.std.specs.Prelude.{length, option_map, string_bytes, unwrap_or};
ghost use Rattle.std.specs.Option.{option_to_list};
ghost use Rattle.nest_core.specs.Museum.{station_name_of};
ghost use Rattle.reports.specs.Lines.{lines};
ghost use Rattle.reports.specs.NowKnown.{cause_text, entry_row, new_code, now_known_text};
ghost use Rattle.reports.specs.Writing.{Prints};

use crate::PrintFault;
use crate::sections::station_name;
use crate::setups::rows::push_line;
use crate::setups::unknown_code::{code_text, new_code};
use crate::writing::write_text;
use codes_core::NoMemory;
use nest_core::Setup;
use posting_core::{Culprit, MOST_ENTRIES, PostedEntry, Verdict};
use std::alloc::Global;
use std::io::Write;

/// Prints a line for each entry that was refused for an unknown code, if `after` lists what it
/// lacked and `before` doesn't. The entries are those of the record, oldest first. An agreement is
/// printed once all its objects are listed.
///
/// Fails with `NoMemory`, and then nothing is written, or with `WriteFailed`, after a
/// prefix of the text. It takes memory for the whole text.
pub fn print_now_known<W: Write>(
    alloc: Global,
    before: &Setup,
    after: &Setup,
    entries: &[PostedEntry],
    output: &mut W,
) -> Result<(), PrintFault>
    requires { length entries.now ≤ MOST_ENTRIES }
    ensures { Prints (W.contents output.old) (W.contents output.new) result
        (now_known_text before.now after.now entries.now) }
{
    let text = now_known_text(alloc, before, after, entries)?;
    write_text(output, text.as_bytes())
}

fn now_known_text(
    alloc: Global,
    before: &Setup,
    after: &Setup,
    entries: &[PostedEntry],
) -> Result<String, NoMemory>
    requires { length entries.now ≤ MOST_ENTRIES }
    ensures { IfOk result
        (λ text. string_bytes text ≡ now_known_text before.now after.now entries.now) }
{
    let mut text = String::new(alloc);
    for i in 0..entries.len() {
        push_entry(alloc, &mut text, before, after, i as u32, &entries[i])?;
    }
    Ok(text)
}

/// Adds a line for the entry after `earlier` others, if its code is new.
fn push_entry(
    alloc: Global,
    text: &mut String,
    before: &Setup,
    after: &Setup,
    earlier: u32,
    entry: &PostedEntry,
) -> Result<(), NoMemory>
    requires { earlier < MOST_ENTRIES }
    ensures { OnOk result (string_bytes text.new
        ≡ string_bytes text.old ++ lines (codes "entry ") (option_to_list
        (option_map (entry_row before.now earlier entry.now)
        (new_code before.now after.now earlier entry.now)))) }
{
    match new_code(alloc, before, after, earlier, entry)? {
        Some(code) => {
            let row = entry_row(alloc, before, earlier, entry, &code)?;
            push_line(text, "entry ", row.as_str())
        }
        None => Ok(()),
    }
}

fn entry_row(
    alloc: Global,
    setup: &Setup,
    earlier: u32,
    entry: &PostedEntry,
    code: &Culprit,
) -> Result<String, NoMemory>
    requires { earlier < MOST_ENTRIES }
    ensures { IfOk result
        (λ row. string_bytes row ≡ entry_row setup.now earlier entry.now code.now) }
{
    let station = station_name(setup, entry.station());
    let cause = cause_text(alloc, entry.verdict(), code)?;
    numbered(alloc, earlier + 1, station, entry.n(), cause.as_str())
}

/// The message with the number `n` of a station, posted as entry `number`.
fn numbered(
    alloc: Global,
    number: u32,
    station: &str,
    n: u32,
    cause: &str,
) -> Result<String, NoMemory>
    ensures { IfOk result (λ row. string_bytes row
        ≡ decimal number ++ codes " " ++ station.now ++ codes " " ++ decimal n ++ codes " "
        ++ cause.now) }
{
    Ok(format!(in alloc; "{number} {station} {n} {cause}")?)
}

/// Why a message was refused, and what to do.
fn cause_text(alloc: Global, verdict: Verdict, code: &Culprit) -> Result<String, NoMemory>
    ensures { IfOk result (λ text. string_bytes text ≡ cause_text verdict code.now) }
{
    let name = verdict.name();
    let code = code_text(code);
    let advice = ": send it again under a new number";
    Ok(format!(in alloc; "{name} {code}{advice}")?)
}
