//! Reads the values of a report's words: days, codes and numbers.
ghost use Rattle.std.specs.Prelude.{◌≡◌, None, Some, MatchResult, option_map};
ghost use Rattle.std.specs.Option.{option_and_then};
ghost use Rattle.codes_core.specs.Day.{day_number};
ghost use Rattle.command_words.specs.Words.{text_of};
ghost use Rattle.question_words.specs.Values.{faulty_day, faulty_loan, faulty_number};
ghost use Rattle.question_words.specs.Values.{faulty_place, faulty_thing, number_in};

use crate::ValueFault;
use codes_core::{Day, LoanCode, PlaceCode, ThingCode};

/// The day that the text spells. Fault: Day, if it spells none.
pub(crate) fn day<'a>(text: &'a str) -> Result<Day, ValueFault<'a>>
    ensures { MatchResult result
        (λ day. (day ≡ day_number text.now) × (faulty_day text.entry ≡ None))
        (λ fault. faulty_day text.entry ≡ Some fault) }
{
    match Day::parse(text.as_bytes()) {
        Ok(day) => Ok(day),
        Err(fault) => Err(ValueFault::Day(fault, text)),
    }
}

/// Returns the day that the text spells, or None if there is no text. Fault: Day, if the text is
/// not a day.
pub fn day_if<'a>(text: Option<&'a str>) -> Result<Option<Day>, ValueFault<'a>>
    ensures { MatchResult result
        (λ day. (day ≡ option_map (λ t. day_number t.now) text.entry)
        × (option_and_then faulty_day text.entry ≡ None))
        (λ fault. option_and_then faulty_day text.entry ≡ Some fault) }
{
    match text {
        Some(text) => Ok(Some(day(text)?)),
        None => Ok(None),
    }
}

/// The number that the text spells. Fault: Number, if it spells none below 2^64.
pub(crate) fn number<'a>(text: &'a str) -> Result<u64, ValueFault<'a>>
    ensures { MatchResult result
        (λ number. (number ≡ number_in text.now) × (faulty_number text.entry ≡ None))
        (λ fault. faulty_number text.entry ≡ Some fault) }
{
    match text.parse() {
        Ok(number) => Ok(number),
        Err(_) => Err(ValueFault::Number(text)),
    }
}

/// Returns the number that the text spells, or None if there is no text. Fault: Number, if the
/// text is not a number below 2^64.
pub fn number_if<'a>(text: Option<&'a str>) -> Result<Option<u64>, ValueFault<'a>>
    ensures { MatchResult result
        (λ number. (number ≡ option_map (λ t. number_in t.now) text.entry)
        × (option_and_then faulty_number text.entry ≡ None))
        (λ fault. option_and_then faulty_number text.entry ≡ Some fault) }
{
    match text {
        Some(text) => Ok(Some(number(text)?)),
        None => Ok(None),
    }
}

/// The thing's code that the text is. Fault: Thing, if it is none.
pub(crate) fn thing<'a>(text: &'a str) -> Result<ThingCode, ValueFault<'a>>
    ensures { MatchResult result
        (λ code. (code ≡ text.now) × (faulty_thing text.entry ≡ None))
        (λ fault. faulty_thing text.entry ≡ Some fault) }
{
    match ThingCode::parse(text.as_bytes()) {
        Ok(code) => Ok(code),
        Err(fault) => Err(ValueFault::Thing(fault, text)),
    }
}

/// The thing's code that the text is, or None if there is no text. Fault: Thing.
pub(crate) fn thing_if<'a>(text: Option<&'a str>) -> Result<Option<ThingCode>, ValueFault<'a>>
    ensures { MatchResult result
        (λ code. (code ≡ text_of text.entry) × (option_and_then faulty_thing text.entry ≡ None))
        (λ fault. option_and_then faulty_thing text.entry ≡ Some fault) }
{
    match text {
        Some(text) => Ok(Some(thing(text)?)),
        None => Ok(None),
    }
}

/// The loan's code that the text is. Fault: Loan, if it is none.
pub(crate) fn loan<'a>(text: &'a str) -> Result<LoanCode, ValueFault<'a>>
    ensures { MatchResult result
        (λ code. (code ≡ text.now) × (faulty_loan text.entry ≡ None))
        (λ fault. faulty_loan text.entry ≡ Some fault) }
{
    match LoanCode::parse(text.as_bytes()) {
        Ok(code) => Ok(code),
        Err(fault) => Err(ValueFault::Loan(fault, text)),
    }
}

/// The loan's code that the text is, or None if there is no text. Fault: Loan.
pub(crate) fn loan_if<'a>(text: Option<&'a str>) -> Result<Option<LoanCode>, ValueFault<'a>>
    ensures { MatchResult result
        (λ code. (code ≡ text_of text.entry) × (option_and_then faulty_loan text.entry ≡ None))
        (λ fault. option_and_then faulty_loan text.entry ≡ Some fault) }
{
    match text {
        Some(text) => Ok(Some(loan(text)?)),
        None => Ok(None),
    }
}

/// The place's code that the text is. Fault: Place, if it is none.
pub(crate) fn place<'a>(text: &'a str) -> Result<PlaceCode, ValueFault<'a>>
    ensures { MatchResult result
        (λ code. (code ≡ text.now) × (faulty_place text.entry ≡ None))
        (λ fault. faulty_place text.entry ≡ Some fault) }
{
    match PlaceCode::parse(text.as_bytes()) {
        Ok(code) => Ok(code),
        Err(fault) => Err(ValueFault::Place(fault, text)),
    }
}
