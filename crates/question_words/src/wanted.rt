//! Which question the words of a report ask.
ghost use Rattle.std.specs.Prelude.{◌≡◌, None, Some, MatchResult, IsTrue, is_some, option_map};
ghost use Rattle.std.specs.Prelude.{string_bytes};
ghost use Rattle.command_words.specs.Words.{text_of};
ghost use Rattle.question_words.specs.Questions.{AreAsked, IsEntriesFault, IsFault, IsWanted};
ghost use Rattle.question_words.specs.Questions.{faulty, faulty_days, faulty_entries, history_of};
ghost use Rattle.question_words.specs.Questions.{loans_asked, one_entry};

use crate::values::{day, day_if, loan, loan_if, number, number_if, place, thing, thing_if};
use crate::{ValueFault, WantedFault};
use codes_core::ThingCode;
use command_words::{Asked, Entries};
use reports::{EntryFilter, LoanFilter, Question};
use std::alloc::{AllocError, Global};

/// What a report's words want.
#[derive(Drop)]
pub enum Wanted<'a> {
    /// The answer to a question.
    Answer(Question),
    /// The comparison of a count list with the record.
    Count { list: &'a str, sealed: bool },
}

/// Returns what the words of a report want. Fault: Value, for the first value that is not in its
/// form, in the order in which [`Asked`] has them. NoMemory can come instead of a result, but only
/// if the words name a station and no value is faulty.
pub fn wanted_of<'a>(alloc: Global, asked: Asked<'a>) -> Result<Wanted<'a>, WantedFault<'a>>
    ensures { MatchResult result
        (λ wanted. (faulty asked.entry ≡ None) × IsWanted asked.entry wanted)
        (IsFault asked.entry) }
{
    match asked {
        Asked::Count { list, sealed } => Ok(Wanted::Count { list, sealed }),
        Asked::Overdue(on) => Ok(Wanted::Answer(Question::Overdue(day(on)?))),
        Asked::Away => Ok(Wanted::Answer(Question::Away)),
        Asked::History { code, long } => Ok(Wanted::Answer(history_of(thing(code)?, long))),
        Asked::Stations => Ok(Wanted::Answer(Question::Stations)),
        Asked::Where(code) => Ok(Wanted::Answer(Question::Where(thing(code)?))),
        Asked::Contents(code) => Ok(Wanted::Answer(Question::Contents(thing(code)?))),
        Asked::Loan(code) => Ok(Wanted::Answer(Question::Loan(loan(code)?))),
        Asked::At(code) => Ok(Wanted::Answer(Question::At(place(code)?))),
        Asked::Posted(entries) => {
            let filter = entry_filter(alloc, entries)?;
            Ok(Wanted::Answer(Question::Posted(filter)))
        }
        Asked::Loans { on, by, open } => {
            let filter = loan_filter(on, by, open)?;
            Ok(Wanted::Answer(Question::Loans(filter)))
        }
        Asked::Dues(by) => Ok(Wanted::Answer(Question::Dues(day(by)?))),
        Asked::Why(entry) => Ok(Wanted::Answer(Question::Why(one_entry(number(entry)?)))),
    }
}

/// The question where a thing has been.
fn history_of(thing: ThingCode, long: bool) -> Question
    ensures { result ≡ history_of thing long }
{
    if long {
        Question::LongHistory(thing)
    } else {
        Question::History(thing)
    }
}

/// Which loans the words ask for. Fault: Day.
fn loan_filter<'a>(
    on: Option<&'a str>,
    by: Option<&'a str>,
    open: bool,
) -> Result<LoanFilter, ValueFault<'a>>
    ensures { MatchResult result
        (λ filter. (faulty_days on.entry by.entry ≡ None)
        × (filter ≡ loans_asked on.entry by.entry «open»))
        (λ fault. faulty_days on.entry by.entry ≡ Some fault) }
{
    let on = day_if(on)?;
    let by = day_if(by)?;
    Ok(LoanFilter { on, by, open })
}

/// Which entries the words ask for. Fault: Value, for the first of --from, --to, --thing and --loan
/// that is not in its form. NoMemory can come instead of a result, but only if the words name a
/// station.
fn entry_filter<'a>(alloc: Global, entries: Entries<'a>) -> Result<EntryFilter, WantedFault<'a>>
    ensures { MatchResult result
        (λ filter. (faulty_entries entries.entry ≡ None) × AreAsked entries.entry filter)
        (IsEntriesFault entries.entry) }
{
    let from = number_if(entries.from)?.unwrap_or(1);
    let to = number_if(entries.to)?;
    let thing = thing_if(entries.thing)?;
    let loan = loan_if(entries.loan)?;
    let station = text_if(alloc, entries.station)?;
    Ok(EntryFilter {
        from,
        to,
        station,
        thing,
        loan,
        refused: entries.refused,
    })
}

/// Only the entry of this number.
fn one_entry(number: u64) -> EntryFilter
    ensures { result ≡ one_entry number }
{
    EntryFilter {
        from: number,
        to: Some(number),
        station: None,
        thing: None,
        loan: None,
        refused: false,
    }
}

/// The text, if there is one. Fails with `AllocError` only if there is one.
fn text_if(alloc: Global, text: Option<&str>) -> Result<Option<String>, AllocError>
    ensures { MatchResult result
        (λ copy. option_map string_bytes copy ≡ text_of text.entry)
        (λ _. IsTrue (is_some text.entry)) }
{
    match text {
        Some(text) => Ok(Some(String::from_str(alloc, text)?)),
        None => Ok(None),
    }
}
