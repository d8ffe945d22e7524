//! The values of a row.
ghost use Rattle.std.specs.Prelude.{◌≡◌, ◌<◌, IfSome, length, option_map};
ghost use Rattle.reports.specs.Cells.{Cell, day_if, text_if};
ghost use Rattle.reports.specs.Loans.{stage_word, state_word};
ghost use Rattle.reports.specs.Texts.{place_text, place_text_if, station_text, thing_text};
ghost use Rattle.reports.specs.Values.{value_of, word_if};

use codes_core::{Day, LoanCode, PlaceCode, ThingCode};
use nest_core::{PlaceNo, Setup, StationNo, ThingNo};
use posting_core::{LineStage, LoanState};

/// A value of a row. Codes and days are copied without memory.
#[derive(Clone, Copy)]
pub enum Value<'a> {
    /// No value.
    Nothing,
    Number(u64),
    Word(&'a str),
    Day(Day),
    Thing(ThingCode),
    Place(PlaceCode),
    Loan(LoanCode),
}

/// The day, if there is one.
pub fn day_if<'a>(day: Option<Day>) -> Value<'a>
    ensures { value_of result ≡ day_if day }
{
    match day {
        Some(day) => Value::Day(day),
        None => Value::Nothing,
    }
}

/// The code of the place, if there is one. The place must be in the setup.
pub fn place_if<'a>(setup: &Setup, place: Option<PlaceNo>) -> Value<'a>
    requires { IfSome place (λ p. p < length setup.now.places) }
    ensures { value_of result ≡ text_if (place_text_if setup.now place) }
{
    match place {
        Some(place) => Value::Place(setup.place_code(place)),
        None => Value::Nothing,
    }
}

/// The word for the state of a loan.
pub fn state_if<'a>(state: Option<LoanState>) -> Value<'a>
    ensures { value_of result ≡ text_if (option_map state_word state) }
{
    match state {
        None => Value::Nothing,
        Some(LoanState::Draft) => Value::Word("Draft"),
        Some(LoanState::Authorised) => Value::Word("Authorised"),
        Some(LoanState::Running) => Value::Word("Running"),
        Some(LoanState::Closed) => Value::Word("Closed"),
    }
}

/// The word for the stage of a loan's object.
pub fn stage_if<'a>(stage: Option<LineStage>) -> Value<'a>
    ensures { value_of result ≡ text_if (option_map stage_word stage) }
{
    match stage {
        None => Value::Nothing,
        Some(LineStage::Awaiting) => Value::Word("Awaiting"),
        Some(LineStage::Away) => Value::Word("Away"),
        Some(LineStage::Back) => Value::Word("Back"),
        Some(LineStage::Here) => Value::Word("Here"),
        Some(LineStage::GivenBack) => Value::Word("GivenBack"),
    }
}

/// The code of a thing. An empty text if the setup doesn't have the thing.
pub fn thing_value<'a>(setup: &Setup, thing: ThingNo) -> Value<'a>
    ensures { value_of result ≡ Cell.text (thing_text setup.now thing) }
{
    if thing < setup.things() {
        Value::Thing(setup.thing_code(thing))
    } else {
        Value::Word("")
    }
}

/// The text. No value if it is empty.
pub fn word_if(text: &str) -> Value<'_>
    ensures { value_of result ≡ word_if text.entry.now }
{
    if text.is_empty() {
        Value::Nothing
    } else {
        Value::Word(text)
    }
}

/// The code of a place. An empty text if the setup doesn't have the place.
pub fn place_value<'a>(setup: &Setup, place: PlaceNo) -> Value<'a>
    ensures { value_of result ≡ Cell.text (place_text setup.now place) }
{
    if place < setup.places() {
        Value::Place(setup.place_code(place))
    } else {
        Value::Word("")
    }
}

/// The name of a station. Empty if the setup doesn't have the station.
pub fn station_name(setup: &Setup, station: StationNo) -> &str
    ensures { result.now ≡ station_text setup.entry.now station }
{
    if station < setup.stations() {
        setup.station_name(station)
    } else {
        ""
    }
}
