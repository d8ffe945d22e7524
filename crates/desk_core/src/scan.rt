//! A line that is a code alone, as a scanner reads it.
ghost use Rattle.std.specs.Prelude.{◌≡◌};
ghost use Rattle.desk_core.specs.Codes.{is_place, is_thing, lists_place, lists_thing};
ghost use Rattle.desk_core.specs.DeskStep.{code_said, is_ambiguous, means_place};
ghost use Rattle.desk_core.specs.Messages.{message_at, scanned};

use crate::code::{listed_as_place, read_place, read_thing};
use crate::desk::{Desk, Target};
use crate::said::{Rejection, Said};
use codes_core::{Day, PlaceCode, ThingCode, ThingKind};
use nest_core::Setup;
use posting_core::Message;

/// What a code alone says.
#[tactic(auto, unfolding(crate::specs::DeskStep::code_said))]
pub(crate) fn read_code(setup: &Setup, forced: bool, desk: &Desk, code: &[u8]) -> Said
    ensures { result ≡ code_said setup.now forced desk.now code.now }
{
    if is_ambiguous(setup, code) {
        return Said::Rejected(Rejection::Ambiguous);
    }
    if means_place(setup, code) {
        return match read_place(setup, forced, code) {
            Ok(place) => Said::Target(Some(Target::Place(place))),
            Err(rejection) => Said::Rejected(rejection),
        };
    }
    match read_thing(setup, forced, code) {
        Ok(thing) => scan(desk, thing),
        Err(rejection) => Said::Rejected(rejection),
    }
}

/// Whether the setup lists the code as a place and as a container.
#[tactic(auto, unfolding(crate::specs::DeskStep::is_ambiguous))]
fn is_ambiguous(setup: &Setup, code: &[u8]) -> bool
    ensures { result ≡ is_ambiguous setup.now code.now }
{
    lists_thing(setup, code) && lists_place(setup, code)
}

fn lists_place(setup: &Setup, code: &[u8]) -> bool
    ensures { result ≡ lists_place setup.now code.now }
{
    match PlaceCode::parse(code) {
        Ok(place) => setup.place(&place).is_some(),
        Err(_) => false,
    }
}

fn lists_thing(setup: &Setup, code: &[u8]) -> bool
    ensures { result ≡ lists_thing setup.now code.now }
{
    match ThingCode::parse(code) {
        Ok(thing) => setup.thing(&thing).is_some(),
        Err(_) => false,
    }
}

/// Whether the code is taken for a place's.
#[tactic(auto, unfolding(crate::specs::DeskStep::means_place))]
fn means_place(setup: &Setup, code: &[u8]) -> bool
    ensures { result ≡ means_place setup.now code.now }
{
    if is_thing(code) {
        lists_place(setup, code)
    } else {
        is_place(code) || listed_as_place(setup, code).is_some()
    }
}

fn is_thing(code: &[u8]) -> bool
    ensures { result ≡ is_thing code.now }
{
    ThingCode::parse(code).is_ok()
}

fn is_place(code: &[u8]) -> bool
    ensures { result ≡ is_place code.now }
{
    PlaceCode::parse(code).is_ok()
}

/// What the code of a thing says: the message of the target.
#[tactic(auto, unfolding(crate::specs::Messages::scanned))]
fn scan(desk: &Desk, thing: ThingCode) -> Said
    ensures { result ≡ scanned desk.now thing }
{
    match (desk.target, desk.day) {
        (None, _) => {
            if matches!(thing.kind(), ThingKind::Container) {
                Said::Target(Some(Target::Container(thing)))
            } else {
                Said::Rejected(Rejection::NoTarget)
            }
        }
        (Some(_), None) => Said::Rejected(Rejection::NoDay),
        (Some(target), Some(day)) => Said::Message(make_message(target, day, thing)),
    }
}

/// The message that the target makes of the thing.
fn make_message(target: Target, day: Day, thing: ThingCode) -> Message
    ensures { result ≡ message_at target day thing }
{
    match target {
        Target::Place(place) => Message::Move { day, thing, place },
        Target::Container(container) => Message::Pack {
            day,
            thing,
            container,
        },
        Target::Out(loan) => Message::Exit { day, thing, loan },
        Target::Back(loan, place) => Message::Return {
            day,
            thing,
            loan,
            place,
        },
        Target::In(loan, place) => Message::Receive {
            day,
            thing,
            loan,
            place,
        },
    }
}
