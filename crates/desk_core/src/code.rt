//! Reads a word as a code, a day or a name.
ghost use Rattle.std.specs.Prelude.{◌≡◌, ◌&&◌, IfOk, MatchOption, MatchResult, None, OnErr, Some};
ghost use Rattle.std.specs.Prelude.{false, not, true};
ghost use Rattle.codes_core.specs.Day.{day_number};
ghost use Rattle.posting_core.specs.Verdicts.{is_container_code};
ghost use Rattle.desk_core.specs.Codes.{as_place, as_thing, container_rejection, day_rejection};
ghost use Rattle.desk_core.specs.Codes.{is_thing, lists_place, lists_thing, loan_rejection};
ghost use Rattle.desk_core.specs.Codes.{name_rejection, place_rejection, thing_rejection};

use crate::casing::{parse_as_place, parse_as_thing};
use crate::said::{Code, Rejection};
use codes_core::{Day, LoanCode, Name, NameFault, NoMemory, PlaceCode, ThingCode, ThingKind};
use nest_core::Setup;
use std::alloc::Global;

/// The word as the code of a place, or why it is none. With `forced` the setup need not list it.
#[tactic(auto, unfolding(crate::specs::Codes::place_rejection))]
pub(crate) fn read_place(setup: &Setup, forced: bool, word: &[u8]) -> Result<PlaceCode, Rejection>
    ensures { MatchResult result
        (λ code. (code ≡ word.now) × (place_rejection setup.now forced word.now ≡ None))
        (λ rejection. place_rejection setup.now forced word.now ≡ Some rejection) }
{
    match PlaceCode::parse(word) {
        Ok(code) => {
            if forced || setup.place(&code).is_some() {
                Ok(code)
            } else {
                Err(Rejection::NotListed(Code::Place(code)))
            }
        }
        Err(_) => match listed_as_place(setup, word) {
            Some(code) => Err(Rejection::OtherCase(Code::Place(code))),
            None => Err(Rejection::NotUnderstood),
        },
    }
}

/// The word as the code of a thing, or why it is none. With `forced` the setup need not list it.
#[tactic(auto, unfolding(crate::specs::Codes::thing_rejection))]
pub(crate) fn read_thing(setup: &Setup, forced: bool, word: &[u8]) -> Result<ThingCode, Rejection>
    ensures { MatchResult result
        (λ code. (code ≡ word.now) × (thing_rejection setup.now forced word.now ≡ None))
        (λ rejection. thing_rejection setup.now forced word.now ≡ Some rejection) }
{
    match ThingCode::parse(word) {
        Ok(code) => {
            if forced || setup.thing(&code).is_some() {
                Ok(code)
            } else {
                Err(Rejection::NotListed(Code::Thing(code)))
            }
        }
        Err(_) => match listed_as_thing(setup, word) {
            Some(code) => Err(Rejection::OtherCase(Code::Thing(code))),
            None => Err(Rejection::NotUnderstood),
        },
    }
}

/// The code of a place of the setup that the word is in upper case.
pub(crate) fn listed_as_place(setup: &Setup, word: &[u8]) -> Option<PlaceCode>
    ensures { MatchOption result (lists_place setup.now (as_place word.now) ≡ false)
        (λ code. (code ≡ as_place word.now) × (lists_place setup.now (as_place word.now) ≡ true)) }
{
    let code = parse_as_place(word)?;
    if setup.place(&code).is_some() {
        Some(code)
    } else {
        None
    }
}

/// The code of a thing of the setup that the word is, but for upper and lower case.
fn listed_as_thing(setup: &Setup, word: &[u8]) -> Option<ThingCode>
    ensures { MatchOption result (lists_thing setup.now (as_thing word.now) ≡ false)
        (λ code. (code ≡ as_thing word.now) × (lists_thing setup.now (as_thing word.now) ≡ true)) }
{
    let code = parse_as_thing(word)?;
    if setup.thing(&code).is_some() {
        Some(code)
    } else {
        None
    }
}

/// The word as the code of a container, or why it is none. With `forced` the setup need not list
/// it.
#[tactic(auto, unfolding(crate::specs::Codes::container_rejection))]
pub(crate) fn read_container(
    setup: &Setup,
    forced: bool,
    word: &[u8],
) -> Result<ThingCode, Rejection>
    ensures { MatchResult result
        (λ code. (code ≡ word.now) × (container_rejection setup.now forced word.now ≡ None))
        (λ rejection. container_rejection setup.now forced word.now ≡ Some rejection) }
{
    if is_object(word) {
        return Err(Rejection::NotUnderstood);
    }
    read_thing(setup, forced, word)
}

/// Whether the word is an object's code.
fn is_object(word: &[u8]) -> bool
    ensures { result ≡ is_thing word.now && not (is_container_code word.now) }
{
    match ThingCode::parse(word) {
        Ok(code) => !matches!(code.kind(), ThingKind::Container),
        Err(_) => false,
    }
}

/// The word as the code of a loan, or why it is none.
#[tactic(auto, unfolding(crate::specs::Codes::loan_rejection))]
pub(crate) fn read_loan(word: &[u8]) -> Result<LoanCode, Rejection>
    ensures { MatchResult result
        (λ code. (code ≡ word.now) × (loan_rejection word.now ≡ None))
        (λ rejection. loan_rejection word.now ≡ Some rejection) }
{
    match LoanCode::parse(word) {
        Ok(code) => Ok(code),
        Err(_) => Err(Rejection::NotUnderstood),
    }
}

/// The word as a day, or why it is none.
#[tactic(auto, unfolding(crate::specs::Codes::day_rejection))]
pub(crate) fn read_day(word: &[u8]) -> Result<Day, Rejection>
    ensures { MatchResult result
        (λ day. (day ≡ day_number word.now) × (day_rejection word.now ≡ None))
        (λ rejection. day_rejection word.now ≡ Some rejection) }
{
    match Day::parse(word) {
        Ok(day) => Ok(day),
        Err(_) => Err(Rejection::NotUnderstood),
    }
}

/// The text as a name, or why it is none. Fails with `NoMemory`, but only for a name.
#[tactic(auto, using(crate::proofs::Names::name_passes, crate::proofs::Names::name_fails))]
pub(crate) fn read_name(alloc: Global, text: &[u8]) -> Result<Result<Name, Rejection>, NoMemory>
    ensures ok { IfOk result (λ read. MatchResult read
        (λ name. (name ≡ text.now) × (name_rejection text.now ≡ None))
        (λ rejection. name_rejection text.now ≡ Some rejection)) }
    ensures err { OnErr result (name_rejection text.now ≡ None) }
{
    match Name::new(alloc, text) {
        Ok(name) => Ok(Ok(name)),
        Err(NameFault::NoMemory) => Err(NoMemory),
        Err(_) => Ok(Err(Rejection::NotUnderstood)),
    }
}
