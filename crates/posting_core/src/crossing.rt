//! The objects of a crossing that its loan has no line for, or not at the right stage.
ghost use Rattle.std.specs.Prelude.{◌≡◌, ◌<◌, All, IfOk, None, OnErr, Some, length, option_map};
ghost use Rattle.std.specs.Prelude.{true};
ghost use Rattle.std.specs.List.{find};
ghost use Rattle.std.specs.Option.{option_and_then};
ghost use Rattle.nest_core.specs.Museum.{thing_code_of};
ghost use Rattle.posting_core.specs.Book.{crosses_with};
ghost use Rattle.posting_core.specs.History.{holds_at};
ghost use Rattle.posting_core.specs.Loans.{crossing_in, wanted_by_exit};
ghost use Rattle.posting_core.specs.Messages.{thing_no};
ghost use Rattle.posting_core.specs.Culprits.{first_crossing_off, first_off, is_off, wanted_if};

use crate::{Ledger, LineStage, Message};
use codes_core::{LoanCode, NoMemory, ThingCode, ThingKind};
use nest_core::{Setup, ThingNo};
use std::alloc::Global;

/// The first object that crosses without a line of the loan, or, unless `any_stage`, without one at
/// the stage that the crossing needs. `None` if the message is no crossing. Fails with `NoMemory`,
/// but only if a container with something in it crosses.
pub(crate) fn first_crossing_off(
    alloc: Global,
    ledger: &Ledger,
    message: &Message,
    any_stage: bool,
) -> Result<Option<ThingCode>, NoMemory>
    ensures ok { IfOk result
        (λ found. found ≡ first_crossing_off ledger.now message.now any_stage) }
    ensures err { OnErr result (crosses_with ledger.now message.now ≡ true) }
{
    match message {
        Message::Exit { thing, loan, .. } => {
            let wanted = wanted_if(any_stage, wanted_by_exit(loan));
            first_off(alloc, ledger, thing, loan, wanted)
        }
        Message::Return { thing, loan, .. } => {
            let wanted = wanted_if(any_stage, LineStage::Away);
            first_off(alloc, ledger, thing, loan, wanted)
        }
        Message::Receive { thing, loan, .. } => {
            let wanted = wanted_if(any_stage, LineStage::Awaiting);
            first_off(alloc, ledger, thing, loan, wanted)
        }
        _ => Ok(None),
    }
}

fn wanted_if(any_stage: bool, wanted: LineStage) -> Option<LineStage>
    ensures { result ≡ wanted_if any_stage wanted }
{
    if any_stage { None } else { Some(wanted) }
}

/// The stage at which an object leaves: awaited under a loan out, here under a loan in.
fn wanted_by_exit(loan: &LoanCode) -> LineStage
    ensures { result ≡ wanted_by_exit loan.now }
{
    if loan.is_out() {
        LineStage::Awaiting
    } else {
        LineStage::Here
    }
}

/// The first object among what crosses with the thing that has no line of the loan, or none at the
/// wanted stage.
fn first_off(
    alloc: Global,
    ledger: &Ledger,
    thing: &ThingCode,
    loan: &LoanCode,
    wanted: Option<LineStage>,
) -> Result<Option<ThingCode>, NoMemory>
    ensures ok { IfOk result
        (λ found. found ≡ first_off ledger.now thing.now loan.now wanted) }
    ensures err { OnErr result (holds_at ledger.now.museum ledger.now.posted
        (thing_no ledger.now.museum thing.now) ≡ true) }
{
    let Some(x) = ledger.setup().thing(thing) else {
        return Ok(None);
    };
    let carried = ledger.carried(alloc, x)?;
    let found = first_off_among(ledger, loan, wanted, carried.as_slice());
    Ok(code_of(ledger.setup(), found.copied()))
}

/// The first of these things that is such an object.
fn first_off_among<'a>(
    ledger: &Ledger,
    loan: &LoanCode,
    wanted: Option<LineStage>,
    things: &'a [ThingNo],
) -> Option<&'a ThingNo>
    requires { All (λ x. x < length ledger.now.museum.things) things.now }
    ensures { option_map (λ x. x.now) result
        ≡ find (is_off ledger.now loan.now wanted) things.now }
{
    things.iter().find(|x| is_off(ledger, loan, wanted, **x))
}

/// The code of this thing, if it is in the setup.
fn code_of(setup: &Setup, thing: Option<ThingNo>) -> Option<ThingCode>
    ensures { result ≡ option_and_then (thing_code_of setup.now) thing }
{
    let thing = thing?;
    if thing < setup.things() {
        Some(setup.thing_code(thing))
    } else {
        None
    }
}

/// Whether the thing is an object, and the loan has no line for it, or none at the wanted stage.
fn is_off(ledger: &Ledger, loan: &LoanCode, wanted: Option<LineStage>, thing: ThingNo) -> bool
    requires { thing < length ledger.now.museum.things }
    ensures { result ≡ is_off ledger.now loan.now wanted thing }
{
    if matches!(ledger.setup().kind(thing), ThingKind::Container) {
        return false;
    }
    match (ledger.line(loan, thing), wanted) {
        (None, _) => true,
        (Some(_), None) => false,
        (Some(stage), Some(wanted)) => stage != wanted,
    }
}
