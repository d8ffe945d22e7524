//! The code that broke a rule.
ghost use Rattle.std.specs.Prelude.{◌≡◌, ◌==◌, IfOk, OnErr, option_map, true};
ghost use Rattle.std.specs.List.{find, list_any};
ghost use Rattle.std.specs.Str.{bytes_eq};
ghost use Rattle.posting_core.specs.Book.{crosses_with};
ghost use Rattle.posting_core.specs.Verdicts.{is_container_code, is_of_wrong_owner};
ghost use Rattle.posting_core.specs.Culprits.{a_loan, a_place, a_thing, culprit};
ghost use Rattle.posting_core.specs.Culprits.{first_of_wrong_owner};
ghost use Rattle.posting_core.specs.Culprits.{first_repeated, is_unknown};
ghost use Rattle.posting_core.specs.Named.{things_named};

use crate::crossing::first_crossing_off;
use crate::named::{container_named, loan_named, place_named, thing_named, things_named};
use crate::{Ledger, Message, Verdict};
use codes_core::{LoanCode, NoMemory, PlaceCode, ThingCode, ThingKind};
use std::alloc::Global;

/// A code that broke a rule.
#[derive(Clone, Copy)]
pub enum Culprit {
    Thing(ThingCode),
    Place(PlaceCode),
    Loan(LoanCode),
}

/// Returns what made this verdict on the message true, in the record before it: the first object of
/// a loan's list, the first object that crosses, or another code that the message names. `None` if
/// it is applied. Fails with `NoMemory`, but only if a container with something in it crosses.
pub fn find_culprit(
    alloc: Global,
    ledger: &Ledger,
    message: &Message,
    verdict: Verdict,
) -> Result<Option<Culprit>, NoMemory>
    ensures ok { IfOk result (λ found. found ≡ culprit ledger.now message.now verdict) }
    ensures err { OnErr result (crosses_with ledger.now message.now ≡ true) }
{
    match verdict {
        Verdict::Applied => Ok(None),
        Verdict::UnknownThing => Ok(a_thing(first_unknown(ledger, things_named(message)).copied())),
        Verdict::UnknownPlace | Verdict::ElsewherePlace | Verdict::InsidePartner => {
            Ok(a_place(place_named(message)))
        }
        Verdict::UnknownContainer | Verdict::ContainerNotHere => {
            Ok(a_thing(container_named(message)))
        }
        Verdict::NotObject => Ok(a_thing(first_container(things_named(message)).copied())),
        Verdict::Repeated => Ok(a_thing(first_repeated(things_named(message)).copied())),
        Verdict::WrongOwner => Ok(a_thing(first_of_wrong_owner(message).copied())),
        Verdict::NotHere
        | Verdict::Cycle
        | Verdict::TooDeep
        | Verdict::NotWithPartner
        | Verdict::AlreadyHere => Ok(a_thing(thing_named(message))),
        Verdict::NotListed => Ok(a_thing(first_crossing_off(alloc, ledger, message, true)?)),
        Verdict::WrongStage => Ok(a_thing(first_crossing_off(alloc, ledger, message, false)?)),
        _ => Ok(a_loan(loan_named(message))),
    }
}

fn a_thing(code: Option<ThingCode>) -> Option<Culprit>
    ensures { result ≡ a_thing code }
{
    Some(Culprit::Thing(code?))
}

fn a_place(code: Option<PlaceCode>) -> Option<Culprit>
    ensures { result ≡ a_place code }
{
    Some(Culprit::Place(code?))
}

fn a_loan(code: Option<LoanCode>) -> Option<Culprit>
    ensures { result ≡ a_loan code }
{
    Some(Culprit::Loan(code?))
}

/// The first of these that wasn't listed yet after the record's last entry.
fn first_unknown<'a>(ledger: &Ledger, codes: &'a [ThingCode]) -> Option<&'a ThingCode>
    ensures { option_map (λ x. x.now) result
        ≡ find (is_unknown ledger.now) codes.now }
{
    let setup = ledger.setup();
    let posted = ledger.entry_count();
    codes
        .iter()
        .find(|code| setup.thing_at(code, posted).is_none())
}

fn first_container(codes: &[ThingCode]) -> Option<&ThingCode>
    ensures { option_map (λ x. x.now) result ≡ find is_container_code codes.now }
{
    codes.iter().find(|code| is_container(code))
}

fn is_container(code: &ThingCode) -> bool
    ensures { result ≡ is_container_code code.now }
{
    matches!(code.kind(), ThingKind::Container)
}

/// The first of these that comes again later.
fn first_repeated(codes: &[ThingCode]) -> Option<&ThingCode>
    ensures { option_map (λ x. x.now) result ≡ first_repeated codes.now }
{
    let (first, rest) = codes.split_first()?;
    if is_among(rest, first) {
        Some(first)
    } else {
        first_repeated(rest)
    }
}

fn is_among(codes: &[ThingCode], code: &ThingCode) -> bool
    ensures { result ≡ list_any (bytes_eq code.now) codes.now }
{
    codes.iter().any(|other| code.as_str() == other.as_str())
}

/// The first object that the loan may not list, because of its owner.
fn first_of_wrong_owner(message: &Message) -> Option<&ThingCode>
    ensures { option_map (λ x. x.now) result ≡ first_of_wrong_owner message.now }
{
    let loan = loan_named(message)?;
    first_not_for(things_named(message), &loan)
}

/// The first of these that the loan may not list, because of its owner.
fn first_not_for<'a>(codes: &'a [ThingCode], loan: &LoanCode) -> Option<&'a ThingCode>
    ensures { option_map (λ x. x.now) result ≡ find (is_of_wrong_owner loan.now) codes.now }
{
    codes.iter().find(|code| is_of_wrong_owner(loan, code))
}

/// Whether it is a borrowed object and the loan is one out, or an own object and the loan is one
/// in.
fn is_of_wrong_owner(loan: &LoanCode, code: &ThingCode) -> bool
    ensures { result ≡ is_of_wrong_owner loan.now code.now }
{
    if loan.is_out() {
        matches!(code.kind(), ThingKind::Borrowed)
    } else {
        matches!(code.kind(), ThingKind::Own)
    }
}
