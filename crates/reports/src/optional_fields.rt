//! Fields for values that may be missing.
ghost use Rattle.std.specs.Prelude.{◌≡◌, ◌<◌, length};
ghost use Rattle.std.specs.Prelude.{IfSome, option_map};
ghost use Rattle.reports.specs.Texts.{place_text_if};
ghost use Rattle.reports.specs.Cells.{day_if, in_if, number_if, or_dash, text_if, cell_of};

use crate::field::Field;
use codes_core::{Day, LoanCode, Name, PlaceCode, ThingCode};
use nest_core::{PlaceNo, Setup};

/// The number, if there is one.
pub(crate) fn number_if<'a>(number: Option<u64>) -> Field<'a>
    ensures { cell_of result ≡ number_if number }
{
    match number {
        Some(number) => Field::Number(number),
        None => Field::Nothing,
    }
}

/// The day, if there is one.
pub(crate) fn day_if<'a>(day: Option<Day>) -> Field<'a>
    ensures { cell_of result ≡ day_if day }
{
    match day {
        Some(day) => Field::Day(day),
        None => Field::Nothing,
    }
}

/// The place, if there is one.
pub(crate) fn place_if<'a>(place: Option<PlaceCode>) -> Field<'a>
    ensures { cell_of result ≡ text_if place }
{
    match place {
        Some(place) => Field::Place(place),
        None => Field::Nothing,
    }
}

/// The thing, if there is one.
pub(crate) fn thing_if<'a>(thing: Option<ThingCode>) -> Field<'a>
    ensures { cell_of result ≡ text_if thing }
{
    match thing {
        Some(thing) => Field::Thing(thing),
        None => Field::Nothing,
    }
}

/// The loan, if there is one.
pub(crate) fn loan_if<'a>(loan: Option<LoanCode>) -> Field<'a>
    ensures { cell_of result ≡ text_if loan }
{
    match loan {
        Some(loan) => Field::Loan(loan),
        None => Field::Nothing,
    }
}

/// The name, if there is one.
pub(crate) fn name_if<'a>(name: Option<&'a Name>) -> Field<'a>
    ensures { cell_of result ≡ text_if (option_map (λ name. name.now) name.entry) }
{
    match name {
        Some(name) => Field::Word(name.as_str()),
        None => Field::Nothing,
    }
}

/// The place, or a dash if there is none.
pub(crate) fn place_or_dash<'a>(place: Option<PlaceCode>) -> Field<'a>
    ensures { cell_of result ≡ or_dash place }
{
    match place {
        Some(place) => Field::Place(place),
        None => Field::Word("-"),
    }
}

/// The word `in` that goes before these codes, if there are any.
pub(crate) fn in_if<'a>(codes: &[ThingCode]) -> Field<'a>
    ensures { cell_of result ≡ in_if codes.now }
{
    if codes.is_empty() {
        Field::Nothing
    } else {
        Field::Word("in")
    }
}

/// The code of the place, if there is one. The place must be in the setup.
pub(crate) fn place_code_if(setup: &Setup, place: Option<PlaceNo>) -> Option<PlaceCode>
    requires { IfSome place (λ p. p < length setup.now.places) }
    ensures { result ≡ place_text_if setup.now place }
{
    match place {
        Some(place) => Some(setup.place_code(place)),
        None => None,
    }
}
