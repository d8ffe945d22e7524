//! A line that begins with a verb.
ghost use Rattle.std.specs.Prelude.{◌≡◌, IfOk, MatchResult, None, OnErr, Some, true};
ghost use Rattle.codes_core.specs.Day.{day_number};
ghost use Rattle.desk_core.specs.Codes.{container_rejection, day_rejection, loan_rejection};
ghost use Rattle.desk_core.specs.Codes.{place_rejection};
ghost use Rattle.desk_core.specs.Desks.{unless};
ghost use Rattle.desk_core.specs.DeskStep.{aims, cleared, crossing_rejection, report_said};
ghost use Rattle.desk_core.specs.DeskStep.{verb_said};
ghost use Rattle.desk_core.specs.LineTexts.{after, word};
ghost use Rattle.desk_core.specs.Verbs.{takes_memory, verb_word};

use crate::Words;
use crate::code::{read_container, read_day, read_loan, read_place};
use crate::desk::Target;
use crate::message::{agree, authorise, extend, sign_off};
use crate::said::{Rejection, Said};
use crate::text::{after_word, first_word, next_word};
use crate::verb::{Verb, word_of};
use codes_core::{LoanCode, NoMemory, PlaceCode};
use nest_core::Setup;
use std::alloc::Global;

/// What a line says that begins with the verb, by the rest of the line. Fails with `NoMemory`, but
/// only for a verb that takes memory.
pub(crate) fn read_command(
    alloc: Global,
    setup: &Setup,
    forced: bool,
    verb: Verb,
    rest: &[u8],
) -> Result<Said, NoMemory>
    ensures ok { IfOk result (λ said. said ≡ verb_said setup.now forced verb rest.now) }
    ensures err { OnErr result (takes_memory verb ≡ true) }
{
    match verb {
        Verb::To => Ok(aim_at_place(setup, forced, rest)),
        Verb::Into => Ok(aim_into_container(setup, forced, rest)),
        Verb::Out => Ok(aim_out(rest)),
        Verb::Back => Ok(aim_back(setup, forced, rest)),
        Verb::In => Ok(aim_in(setup, forced, rest)),
        Verb::Clear => Ok(clear(rest)),
        Verb::Day => Ok(set_day(rest)),
        Verb::Agree => agree(alloc, setup, forced, rest),
        Verb::Authorise => authorise(alloc, rest),
        Verb::Extend => Ok(extend(rest)),
        Verb::SignOff => sign_off(alloc, rest),
        Verb::Help => Ok(Said::Help),
        Verb::Ask => read_report(alloc, Verb::Where, rest),
        _ => read_report(alloc, verb, rest),
    }
}

/// `to PLACE`
fn aim_at_place(setup: &Setup, forced: bool, rest: &[u8]) -> Said
    ensures { result ≡ unless (place_rejection setup.now forced rest.now)
        (aims (Target.Place rest.now)) }
{
    match read_place(setup, forced, rest) {
        Ok(place) => Said::Target(Some(Target::Place(place))),
        Err(rejection) => Said::Rejected(rejection),
    }
}

/// `into CONTAINER`
fn aim_into_container(setup: &Setup, forced: bool, rest: &[u8]) -> Said
    ensures { result ≡ unless (container_rejection setup.now forced rest.now)
        (aims (Target.Container rest.now)) }
{
    match read_container(setup, forced, rest) {
        Ok(container) => Said::Target(Some(Target::Container(container))),
        Err(rejection) => Said::Rejected(rejection),
    }
}

/// `out LOAN`
fn aim_out(rest: &[u8]) -> Said
    ensures { result ≡ unless (loan_rejection rest.now) (aims (Target.Out rest.now)) }
{
    match read_loan(rest) {
        Ok(loan) => Said::Target(Some(Target::Out(loan))),
        Err(rejection) => Said::Rejected(rejection),
    }
}

/// `back LOAN PLACE`
fn aim_back(setup: &Setup, forced: bool, rest: &[u8]) -> Said
    ensures { result ≡ unless (crossing_rejection setup.now forced rest.now)
        (aims (Target.Back (word 0 rest.now) (after 1 rest.now))) }
{
    match read_crossing(setup, forced, rest) {
        Ok((loan, place)) => Said::Target(Some(Target::Back(loan, place))),
        Err(rejection) => Said::Rejected(rejection),
    }
}

/// `in LOAN PLACE`
fn aim_in(setup: &Setup, forced: bool, rest: &[u8]) -> Said
    ensures { result ≡ unless (crossing_rejection setup.now forced rest.now)
        (aims (Target.In (word 0 rest.now) (after 1 rest.now))) }
{
    match read_crossing(setup, forced, rest) {
        Ok((loan, place)) => Said::Target(Some(Target::In(loan, place))),
        Err(rejection) => Said::Rejected(rejection),
    }
}

/// `LOAN PLACE`, or why the words are none.
#[tactic(auto, unfolding(crate::specs::DeskStep::crossing_rejection))]
fn read_crossing(
    setup: &Setup,
    forced: bool,
    rest: &[u8],
) -> Result<(LoanCode, PlaceCode), Rejection>
    ensures { MatchResult result
        (λ found. (found.0 ≡ word 0 rest.now) × (found.1 ≡ after 1 rest.now)
        × (crossing_rejection setup.now forced rest.now ≡ None))
        (λ rejection. crossing_rejection setup.now forced rest.now ≡ Some rejection) }
{
    match read_loan(first_word(rest)) {
        Ok(loan) => match read_place(setup, forced, after_word(rest)) {
            Ok(place) => Ok((loan, place)),
            Err(rejection) => Err(rejection),
        },
        Err(rejection) => Err(rejection),
    }
}

/// `.`
fn clear(rest: &[u8]) -> Said
    ensures { result ≡ cleared rest.now }
{
    if rest.is_empty() {
        Said::Target(None)
    } else {
        Said::Rejected(Rejection::NotUnderstood)
    }
}

/// `day DAY`
fn set_day(rest: &[u8]) -> Said
    ensures { result ≡ unless (day_rejection rest.now) (Said.Day (day_number rest.now)) }
{
    match read_day(rest) {
        Ok(day) => Said::Day(day),
        Err(rejection) => Said::Rejected(rejection),
    }
}

/// The report of the verb's name, with the words of the rest.
#[tactic(auto, unfolding(crate::specs::DeskStep::report_said))]
fn read_report(alloc: Global, verb: Verb, rest: &[u8]) -> Result<Said, NoMemory>
    ensures { IfOk result (λ said. said ≡ report_said (verb_word verb) rest.now) }
{
    let mut words = Words::new(alloc);
    words.push(alloc, word_of(verb))?;
    let mut left = rest;
    while let Some((word, after)) = next_word(left) {
        match str::from_utf8(word) {
            Ok(text) => words.push(alloc, text)?,
            Err(_) => return Ok(Said::Rejected(Rejection::NotUnderstood)),
        }
        left = after;
    }
    Ok(Said::Report(words))
}
