//! The messages that a line says in words.
ghost use Rattle.std.specs.Prelude.{◌≡◌, IfOk, MatchResult, None, Some, length};
ghost use Rattle.codes_core.specs.Day.{day_number};
ghost use Rattle.desk_core.specs.Codes.{count_rejection, day_rejection, loan_rejection};
ghost use Rattle.desk_core.specs.Codes.{name_rejection, objects_rejection, things_rejection};
ghost use Rattle.desk_core.specs.Desks.{unless};
ghost use Rattle.desk_core.specs.Messages.{agreed, authorised, extended, signed_off};
ghost use Rattle.desk_core.specs.Messages.{parties_rejection, term_rejection};
ghost use Rattle.desk_core.specs.LineTexts.{word, words};

use crate::code::{read_day, read_loan, read_name, read_place, read_thing};
use crate::said::{Rejection, Said};
use crate::text::{after_word, first_word, next_word};
use codes_core::{Day, LoanCode, NoMemory, PlaceCode, ThingCode};
use nest_core::Setup;
use posting_core::{Message, Objects};
use std::alloc::Global;

/// `signoff NAME`
#[tactic(auto, unfolding(crate::specs::Messages::signed_off))]
pub(crate) fn sign_off(alloc: Global, rest: &[u8]) -> Result<Said, NoMemory>
    ensures { IfOk result (λ said. said ≡ signed_off rest.now) }
{
    match read_name(alloc, rest)? {
        Ok(name) => Ok(Said::Message(Message::SignOff { name })),
        Err(rejection) => Ok(Said::Rejected(rejection)),
    }
}

/// `authorise LOAN NAME`
#[tactic(auto, unfolding(crate::specs::Messages::authorised))]
pub(crate) fn authorise(alloc: Global, rest: &[u8]) -> Result<Said, NoMemory>
    ensures { IfOk result (λ said. said ≡ authorised rest.now) }
{
    match read_loan(first_word(rest)) {
        Ok(loan) => authorise_loan(alloc, loan, after_word(rest)),
        Err(rejection) => Ok(Said::Rejected(rejection)),
    }
}

fn authorise_loan(alloc: Global, loan: LoanCode, name: &[u8]) -> Result<Said, NoMemory>
    ensures { IfOk result (λ said. said ≡ unless (name_rejection name.now)
        (Said.Message (Message.Authorise name.now loan))) }
{
    match read_name(alloc, name)? {
        Ok(name) => Ok(Said::Message(Message::Authorise { name, loan })),
        Err(rejection) => Ok(Said::Rejected(rejection)),
    }
}

/// `extend LOAN DAY`
#[tactic(auto, unfolding(crate::specs::Messages::extended))]
pub(crate) fn extend(rest: &[u8]) -> Said
    ensures { result ≡ extended rest.now }
{
    match read_loan(first_word(rest)) {
        Ok(loan) => extend_loan(loan, after_word(rest)),
        Err(rejection) => Said::Rejected(rejection),
    }
}

fn extend_loan(loan: LoanCode, last: &[u8]) -> Said
    ensures { result ≡ unless (day_rejection last.now)
        (Said.Message (Message.Extend (day_number last.now) loan)) }
{
    match read_day(last) {
        Ok(last) => Said::Message(Message::Extend { last, loan }),
        Err(rejection) => Said::Rejected(rejection),
    }
}

/// `agree LOAN PARTNER FIRST LAST THING ..`
#[tactic(auto, unfolding(crate::specs::Messages::agreed))]
pub(crate) fn agree(
    alloc: Global,
    setup: &Setup,
    forced: bool,
    rest: &[u8],
) -> Result<Said, NoMemory>
    ensures { IfOk result (λ said. said ≡ agreed setup.now forced rest.now) }
{
    let (loan, partner) = match read_parties(setup, forced, rest) {
        Ok(parties) => parties,
        Err(rejection) => return Ok(Said::Rejected(rejection)),
    };
    let term = after_word(after_word(rest));
    let (first, last) = match read_term(term) {
        Ok(days) => days,
        Err(rejection) => return Ok(Said::Rejected(rejection)),
    };
    let things = after_word(after_word(term));
    match read_objects(alloc, setup, forced, things)? {
        Ok(objects) => Ok(Said::Message(Message::Agree {
            first,
            last,
            loan,
            partner,
            objects,
        })),
        Err(rejection) => Ok(Said::Rejected(rejection)),
    }
}

/// `LOAN PARTNER`, or why the words are none.
#[tactic(auto, unfolding(crate::specs::Messages::parties_rejection))]
fn read_parties(
    setup: &Setup,
    forced: bool,
    rest: &[u8],
) -> Result<(LoanCode, PlaceCode), Rejection>
    ensures { MatchResult result
        (λ found. (found.0 ≡ word 0 rest.now) × (found.1 ≡ word 1 rest.now)
        × (parties_rejection setup.now forced rest.now ≡ None))
        (λ rejection. parties_rejection setup.now forced rest.now ≡ Some rejection) }
{
    match read_loan(first_word(rest)) {
        Ok(loan) => match read_place(setup, forced, first_word(after_word(rest))) {
            Ok(partner) => Ok((loan, partner)),
            Err(rejection) => Err(rejection),
        },
        Err(rejection) => Err(rejection),
    }
}

/// `FIRST LAST`, or why the words are none.
#[tactic(auto, unfolding(crate::specs::Messages::term_rejection))]
fn read_term(rest: &[u8]) -> Result<(Day, Day), Rejection>
    ensures { MatchResult result
        (λ found. (found.0 ≡ day_number (word 0 rest.now))
        × (found.1 ≡ day_number (word 1 rest.now)) × (term_rejection rest.now ≡ None))
        (λ rejection. term_rejection rest.now ≡ Some rejection) }
{
    match read_day(first_word(rest)) {
        Ok(first) => match read_day(first_word(after_word(rest))) {
            Ok(last) => Ok((first, last)),
            Err(rejection) => Err(rejection),
        },
        Err(rejection) => Err(rejection),
    }
}

/// The words as the objects of a loan, or why they are none.
#[tactic(auto, unfolding(crate::specs::Codes::objects_rejection))]
fn read_objects(
    alloc: Global,
    setup: &Setup,
    forced: bool,
    text: &[u8],
) -> Result<Result<Objects, Rejection>, NoMemory>
    ensures { IfOk result (λ read. MatchResult read
        (λ objects. (objects ≡ words text.now)
        × (objects_rejection setup.now forced (words text.now) ≡ None))
        (λ rejection. objects_rejection setup.now forced (words text.now) ≡ Some rejection)) }
{
    match read_things(alloc, setup, forced, text)? {
        Ok(things) => Ok(list_objects(things)),
        Err(rejection) => Ok(Err(rejection)),
    }
}

/// The things as the objects of a loan, or why they are none.
fn list_objects(things: Vec<ThingCode>) -> Result<Objects, Rejection>
    ensures { MatchResult result
        (λ objects. (objects ≡ things.items) × (count_rejection (length things.items) ≡ None))
        (λ rejection. count_rejection (length things.items) ≡ Some rejection) }
{
    if things.is_empty() {
        return Err(Rejection::NotUnderstood);
    }
    match Objects::new(things) {
        Ok(objects) => Ok(objects),
        Err(_) => Err(Rejection::NotUnderstood),
    }
}

/// The words as the codes of things, or why one of them is none. The first counts.
fn read_things(
    alloc: Global,
    setup: &Setup,
    forced: bool,
    text: &[u8],
) -> Result<Result<Vec<ThingCode>, Rejection>, NoMemory>
    ensures { IfOk result (λ read. MatchResult read
        (λ things. (things.items ≡ words text.now)
        × (things_rejection setup.now forced (words text.now) ≡ None))
        (λ rejection. things_rejection setup.now forced (words text.now) ≡ Some rejection)) }
{
    let mut things = Vec::new(alloc);
    let mut rest = text;
    while let Some((word, after)) = next_word(rest) {
        match read_thing(setup, forced, word) {
            Ok(thing) => things.push(thing)?,
            Err(rejection) => return Ok(Err(rejection)),
        }
        rest = after;
    }
    Ok(Ok(things))
}
