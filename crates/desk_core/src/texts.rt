//! The words of the answers that need no hub.
ghost use Rattle.std.specs.Prelude.{◌≡◌, ◌++◌, IfOk, OnOk, flat_map, string_bytes};
ghost use Rattle.std.specs.List.{list_all};
ghost use Rattle.codes_core.specs.Day.{day_text};
ghost use Rattle.desk_core.specs.Texts.{aim_line, back_line, code_text, day_line, in_line};
ghost use Rattle.desk_core.specs.Texts.{into_line, is_printable, is_shown, line_end, not_listed};
ghost use Rattle.desk_core.specs.Texts.{out_line, rejection_line, rejection_words, shown};
ghost use Rattle.desk_core.specs.Texts.{target_line, to_line};

use crate::{Code, Rejection, Target};
use codes_core::{Day, LoanCode, NoMemory, PlaceCode, ThingCode};
use posting_core::Ledger;
use reports::{partner_of, where_text};
use std::alloc::Global;
use std::str;

/// The most bytes of a line that are shown in an answer.
pub(crate) const MOST_SHOWN: usize = 60;

/// Appends the pieces, one after another. Fails with `NoMemory`.
pub(crate) fn add(text: &mut Vec<u8>, pieces: &[&str]) -> Result<(), NoMemory>
    ensures { OnOk result
        (text.new.items ≡ text.old.items ++ flat_map (λ piece. piece.now) pieces.now) }
{
    for piece in pieces {
        text.extend_from_slice(piece.as_bytes())?;
    }
    Ok(())
}

/// The end of an answer, with the bell if it rings.
pub(crate) fn line_end(rings: bool) -> &'static str
    ensures { result.now ≡ line_end rings }
{
    if rings { "\u{7}\n" } else { "\n" }
}

/// Appends the answer to a new target.
pub(crate) fn add_target(
    alloc: Global,
    ledger: &Ledger,
    target: Option<Target>,
    text: &mut Vec<u8>,
) -> Result<(), NoMemory>
    ensures { OnOk result (text.new.items ≡ text.old.items ++ target_line ledger.now target) }
{
    match target {
        None => add(text, &["no target\n"]),
        Some(target) => add_aim(alloc, ledger, target, text),
    }
}

fn add_aim(
    alloc: Global,
    ledger: &Ledger,
    target: Target,
    text: &mut Vec<u8>,
) -> Result<(), NoMemory>
    ensures { OnOk result (text.new.items ≡ text.old.items ++ aim_line ledger.now target) }
{
    match target {
        Target::Place(place) => add_to(place, text),
        Target::Container(container) => add_into(alloc, ledger, container, text),
        Target::Out(loan) => add_out(alloc, ledger, loan, text),
        Target::Back(loan, place) => add_back(loan, place, text),
        Target::In(loan, place) => add_in(loan, place, text),
    }
}

fn add_to(place: PlaceCode, text: &mut Vec<u8>) -> Result<(), NoMemory>
    ensures { OnOk result (text.new.items ≡ text.old.items ++ to_line place) }
{
    add(text, &["to ", place.as_str(), "\n"])
}

fn add_into(
    alloc: Global,
    ledger: &Ledger,
    container: ThingCode,
    text: &mut Vec<u8>,
) -> Result<(), NoMemory>
    ensures { OnOk result (text.new.items ≡ text.old.items ++ into_line ledger.now container) }
{
    let found = where_text(alloc, ledger, container)?;
    add(text, &["into ", found.as_str(), "\n"])
}

fn add_back(loan: LoanCode, place: PlaceCode, text: &mut Vec<u8>) -> Result<(), NoMemory>
    ensures { OnOk result (text.new.items ≡ text.old.items ++ back_line loan place) }
{
    add(
        text,
        &["back ", loan.as_str(), " to ", place.as_str(), "\n"],
    )
}

fn add_in(loan: LoanCode, place: PlaceCode, text: &mut Vec<u8>) -> Result<(), NoMemory>
    ensures { OnOk result (text.new.items ≡ text.old.items ++ in_line loan place) }
{
    add(text, &["in ", loan.as_str(), " at ", place.as_str(), "\n"])
}

/// Appends the answer to the target of a loan out, with the partner and the last day if it is
/// agreed.
fn add_out(
    alloc: Global,
    ledger: &Ledger,
    loan: LoanCode,
    text: &mut Vec<u8>,
) -> Result<(), NoMemory>
    ensures { OnOk result (text.new.items ≡ text.old.items ++ out_line ledger.now loan) }
{
    match (partner_of(ledger, &loan), ledger.last_day(&loan)) {
        (Some(partner), Some(last)) => {
            let last = day_text(alloc, last)?;
            add(
                text,
                &[
                    "out ",
                    loan.as_str(),
                    " to ",
                    partner.as_str(),
                    " until ",
                    last.as_str(),
                    "\n",
                ],
            )
        }
        _ => add(text, &["out ", loan.as_str(), ", which is not agreed\n"]),
    }
}

/// The day as YYYY-MM-DD.
fn day_text(alloc: Global, day: Day) -> Result<String, NoMemory>
    ensures { IfOk result (λ text. string_bytes text ≡ day_text day) }
{
    let mut text = String::new(alloc);
    day.write(alloc, &mut text)?;
    Ok(text)
}

/// Appends the answer to a new day.
pub(crate) fn add_day(alloc: Global, day: Day, text: &mut Vec<u8>) -> Result<(), NoMemory>
    ensures { OnOk result (text.new.items ≡ text.old.items ++ day_line day) }
{
    let day = day_text(alloc, day)?;
    add(text, &["day ", day.as_str(), "\n"])
}

/// Appends the answer to a line that isn't done.
pub(crate) fn add_rejection(
    has_bell: bool,
    rejection: Rejection,
    line: &[u8],
    text: &mut Vec<u8>,
) -> Result<(), NoMemory>
    ensures { OnOk result
        (text.new.items ≡ text.old.items ++ rejection_line has_bell rejection line.now) }
{
    add_reason(rejection, line, text)?;
    add(text, &[line_end(has_bell)])
}

/// Appends why a line isn't done.
fn add_reason(rejection: Rejection, line: &[u8], text: &mut Vec<u8>) -> Result<(), NoMemory>
    ensures { OnOk result
        (text.new.items ≡ text.old.items ++ rejection_words rejection line.now) }
{
    match rejection {
        Rejection::NotListed(code) => add_unlisted(code, text),
        Rejection::OtherCase(code) => add_about(code, " differs only in case: not sent", text),
        Rejection::Ambiguous => {
            add(
                text,
                &["a place and a container have this code: type to or into before it"],
            )
        }
        Rejection::NoTarget => add(text, &["no target: scan a place or a container first"]),
        Rejection::NoDay => add(text, &["no day: type day 2024-05-01"]),
        Rejection::NotUnderstood => add(text, &["not understood: ", shown(line), "; type help"]),
    }
}

/// Appends the answer to a code that the setup doesn't list. It may list the code for the other
/// kind.
fn add_unlisted(code: Code, text: &mut Vec<u8>) -> Result<(), NoMemory>
    ensures { OnOk result (text.new.items ≡ text.old.items ++ (code_text code ++ not_listed code)) }
{
    match code {
        Code::Thing(thing) => add(text, &[thing.as_str(), " is not in the setup: not sent"]),
        Code::Place(place) => {
            add(
                text,
                &[place.as_str(), " is not a place of the setup: not sent"],
            )
        }
    }
}

/// Appends the code, and what is said of it.
fn add_about(code: Code, words: &str, text: &mut Vec<u8>) -> Result<(), NoMemory>
    ensures { OnOk result
        (text.new.items ≡ text.old.items ++ (code_text code ++ words.now)) }
{
    match code {
        Code::Thing(thing) => add(text, &[thing.as_str(), words]),
        Code::Place(place) => add(text, &[place.as_str(), words]),
    }
}

/// The line as an answer shows it: as it is, if it is short and has only printable ASCII.
fn shown(line: &[u8]) -> &str
    ensures { result.now ≡ shown line.entry.now }
{
    if !is_shown(line) {
        return "this line";
    }
    match str::from_utf8(line) {
        Ok(text) => text,
        Err(_) => "this line",
    }
}

fn is_shown(line: &[u8]) -> bool
    ensures { result ≡ is_shown line.now }
{
    line.len() <= MOST_SHOWN && are_printable(line)
}

fn are_printable(line: &[u8]) -> bool
    ensures { result ≡ list_all is_printable line.now }
{
    line.iter().all(|byte| *byte >= 32 && *byte <= 126)
}
