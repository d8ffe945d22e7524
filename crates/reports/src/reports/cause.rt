//! The sentence on why a message got its verdict.
ghost use Rattle.std.specs.Prelude.{◌≡◌, IfOk, map, option_map};
ghost use Rattle.reports.specs.Causes.{code_of, destination, details, direction_of, direction_word};
ghost use Rattle.reports.specs.Causes.{inside};
ghost use Rattle.reports.specs.Causes.{last_day_of, location_of, or_no_place, owner_of, owner_word};
ghost use Rattle.reports.specs.Causes.{phrase};
ghost use Rattle.reports.specs.Causes.{sentence, sentence_on, stage_on, stage_under, subject};
ghost use Rattle.reports.specs.Causes.{thing_crossing};
ghost use Rattle.reports.specs.Cells.{Cell, cell_of, text_if};
ghost use Rattle.reports.specs.Loans.{stage_word};

use crate::field::Field;
use crate::optional_fields::{day_if, loan_if, place_code_if, place_if, thing_if};
use crate::reports::loan::{partner_of, stage_field};
use codes_core::{Day, LoanCode, NoMemory, PlaceCode, ThingCode, ThingKind};
use posting_core::{
    Culprit, Ledger, LineStage, Message, Verdict, container_named, find_culprit, loan_named,
    thing_named,
};
use std::alloc::Global;

/// The words of the sentence on a verdict, from the record before the message. Empty for an applied
/// message that puts nothing.
pub(crate) fn sentence<'a>(
    alloc: Global,
    ledger: &Ledger,
    message: &Message,
    verdict: Verdict,
) -> Result<Vec<Field<'a>>, NoMemory>
    ensures { IfOk result
        (λ words. map cell_of words.items ≡ sentence ledger.now message.now verdict) }
{
    match subject(alloc, ledger, message, verdict)? {
        None => Ok(Vec::new(alloc)),
        Some(subject) => sentence_on(alloc, ledger, message, verdict, subject),
    }
}

/// What the sentence is about: the culprit, or the thing that an applied message puts.
fn subject(
    alloc: Global,
    ledger: &Ledger,
    message: &Message,
    verdict: Verdict,
) -> Result<Option<Culprit>, NoMemory>
    ensures { IfOk result (λ found. found ≡ subject ledger.now message.now verdict) }
{
    if matches!(verdict, Verdict::Applied) {
        return Ok(thing_named(message).map(Culprit::Thing));
    }
    find_culprit(alloc, ledger, message, verdict)
}

/// The words of the sentence on this culprit.
fn sentence_on<'a>(
    alloc: Global,
    ledger: &Ledger,
    message: &Message,
    verdict: Verdict,
    culprit: Culprit,
) -> Result<Vec<Field<'a>>, NoMemory>
    ensures { IfOk result
        (λ words. map cell_of words.items ≡ sentence_on ledger.now message.now verdict culprit) }
{
    let mut words = vec![in alloc; code_field(culprit)]?;
    words.append(&mut inside(alloc, culprit, thing_crossing(message))?)?;
    words.push(Field::Word(phrase(verdict)))?;
    words.append(&mut details(alloc, ledger, message, verdict, culprit)?)?;
    Ok(words)
}

/// The code of a culprit.
pub(crate) fn code_field<'a>(culprit: Culprit) -> Field<'a>
    ensures { cell_of result ≡ Cell.text (code_of culprit) }
{
    match culprit {
        Culprit::Thing(code) => Field::Thing(code),
        Culprit::Place(code) => Field::Place(code),
        Culprit::Loan(code) => Field::Loan(code),
    }
}

/// The thing that crosses under a loan.
fn thing_crossing(message: &Message) -> Option<ThingCode>
    ensures { result ≡ thing_crossing message.now }
{
    match message {
        Message::Exit { thing, .. }
        | Message::Return { thing, .. }
        | Message::Receive { thing, .. } => Some(*thing),
        _ => None,
    }
}

/// The container that a thing crosses in, if it isn't what crosses.
fn inside<'a>(
    alloc: Global,
    culprit: Culprit,
    crossing: Option<ThingCode>,
) -> Result<Vec<Field<'a>>, NoMemory>
    ensures { IfOk result (λ words. map cell_of words.items ≡ inside culprit crossing) }
{
    let Culprit::Thing(code) = culprit else {
        return Ok(Vec::new(alloc));
    };
    let Some(thing) = crossing else {
        return Ok(Vec::new(alloc));
    };
    if code == thing {
        return Ok(Vec::new(alloc));
    }
    Ok(vec![in alloc; Field::Word("in"), Field::Thing(thing)]?)
}

/// What a verdict says of its culprit, up to the details.
fn phrase(verdict: Verdict) -> &'static str
    ensures { result.now ≡ phrase verdict }
{
    match verdict {
        Verdict::Applied => "went to",
        Verdict::UnknownThing | Verdict::UnknownPlace => "was not in the setup",
        Verdict::ElsewherePlace => "is outside the museum",
        Verdict::UnknownContainer => "was not a container in the setup",
        Verdict::UnknownLoan => "is not agreed",
        Verdict::LoanKnown => "is already agreed",
        Verdict::InsidePartner => "is inside the museum",
        Verdict::NoObjects => "lists no objects",
        Verdict::NotObject => "is a container",
        Verdict::Repeated => "is listed twice",
        Verdict::WrongOwner => "belongs to",
        Verdict::BadTerm => "ends before it begins",
        Verdict::AlreadyAuthorised => "is already authorised",
        Verdict::NotAuthorised => "is not authorised",
        Verdict::WrongDirection | Verdict::WrongStage => "is",
        Verdict::NotHere
        | Verdict::ContainerNotHere
        | Verdict::NotWithPartner
        | Verdict::AlreadyHere => "is at",
        Verdict::Cycle => "would be inside itself",
        Verdict::TooDeep => "would be too deep in",
        Verdict::NotListed => "is not on",
        Verdict::TermOver => "ended on",
        Verdict::NotLater => "ends on",
    }
}

/// The details that follow the phrase on a culprit.
fn details<'a>(
    alloc: Global,
    ledger: &Ledger,
    message: &Message,
    verdict: Verdict,
    culprit: Culprit,
) -> Result<Vec<Field<'a>>, NoMemory>
    ensures { IfOk result
        (λ words. map cell_of words.items ≡ details ledger.now message.now verdict culprit) }
{
    match verdict {
        Verdict::Applied => Ok(vec![in alloc; destination(ledger, message)]?),
        Verdict::WrongOwner => Ok(vec![in alloc; owner_of(culprit)]?),
        Verdict::WrongDirection => Ok(vec![in alloc; direction_of(culprit)]?),
        Verdict::NotHere
        | Verdict::ContainerNotHere
        | Verdict::NotWithPartner
        | Verdict::AlreadyHere => Ok(vec![in alloc; location_of(ledger, culprit)]?),
        Verdict::TooDeep => Ok(vec![in alloc; thing_if(container_named(message))]?),
        Verdict::NotListed => Ok(vec![in alloc; loan_if(loan_named(message))]?),
        Verdict::WrongStage => Ok(vec![in alloc;
            stage_under(ledger, message, culprit),
            Field::Word("on"),
            loan_if(loan_named(message)),
        ]?),
        Verdict::TermOver | Verdict::NotLater => {
            Ok(vec![in alloc; day_if(last_day_of(ledger, culprit))]?)
        }
        _ => Ok(Vec::new(alloc)),
    }
}

/// Where an applied message puts its thing: at its place, into its container, or at the place of
/// the loan's partner.
fn destination<'a>(ledger: &Ledger, message: &Message) -> Field<'a>
    ensures { cell_of result ≡ text_if (destination ledger.now message.now) }
{
    match message {
        Message::Move { place, .. } => Field::Place(*place),
        Message::Pack { container, .. } => Field::Thing(*container),
        Message::Exit { loan, .. } => place_if(partner_of(ledger, loan)),
        Message::Return { place, .. } => Field::Place(*place),
        Message::Receive { place, .. } => Field::Place(*place),
        _ => Field::Nothing,
    }
}

/// The owner of a thing.
fn owner_of<'a>(culprit: Culprit) -> Field<'a>
    ensures { cell_of result ≡ text_if (owner_of culprit) }
{
    match culprit {
        Culprit::Thing(code) => Field::Word(owner_word(code.kind())),
        _ => Field::Nothing,
    }
}

fn owner_word(kind: ThingKind) -> &'static str
    ensures { result.now ≡ owner_word kind }
{
    match kind {
        ThingKind::Borrowed => "a lender",
        ThingKind::Own | ThingKind::Container => "the museum",
    }
}

/// The direction of a loan.
fn direction_of<'a>(culprit: Culprit) -> Field<'a>
    ensures { cell_of result ≡ text_if (direction_of culprit) }
{
    match culprit {
        Culprit::Loan(code) => Field::Word(direction_word(code.is_out())),
        _ => Field::Nothing,
    }
}

fn direction_word(is_out: bool) -> &'static str
    ensures { result.now ≡ direction_word is_out }
{
    if is_out { "a loan out" } else { "a loan in" }
}

/// The location of a thing, or that it has none.
fn location_of<'a>(ledger: &Ledger, culprit: Culprit) -> Field<'a>
    ensures { cell_of result ≡ or_no_place (location_of ledger.now culprit) }
{
    match location(ledger, culprit) {
        Some(place) => Field::Place(place),
        None => Field::Word("no place"),
    }
}

fn location(ledger: &Ledger, culprit: Culprit) -> Option<PlaceCode>
    ensures { result ≡ location_of ledger.now culprit }
{
    let Culprit::Thing(code) = culprit else {
        return None;
    };
    let thing = ledger.setup().thing(&code)?;
    place_code_if(ledger.setup(), ledger.place_of(thing))
}

/// The last day of a loan.
fn last_day_of(ledger: &Ledger, culprit: Culprit) -> Option<Day>
    ensures { result ≡ last_day_of ledger.now culprit }
{
    match culprit {
        Culprit::Loan(code) => ledger.last_day(&code),
        _ => None,
    }
}

/// The stage of a thing's loan line, under the message's loan.
fn stage_under<'a>(ledger: &Ledger, message: &Message, culprit: Culprit) -> Field<'a>
    ensures { cell_of result ≡ text_if (stage_under ledger.now message.now culprit) }
{
    match loan_named(message) {
        Some(loan) => stage_field(stage_on(ledger, &loan, culprit)),
        None => Field::Nothing,
    }
}

/// The stage of a thing's line of this loan.
fn stage_on(ledger: &Ledger, loan: &LoanCode, culprit: Culprit) -> Option<LineStage>
    ensures { option_map stage_word result ≡ stage_on ledger.now loan.now culprit }
{
    let Culprit::Thing(code) = culprit else {
        return None;
    };
    ledger.line(loan, ledger.setup().thing(&code)?)
}
