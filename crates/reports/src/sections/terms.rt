//! The terms of a loan, and its objects.
ghost use Rattle.std.specs.Prelude.{◌≡◌, option_map};
ghost use Rattle.posting_core.specs.Agreements.{agreement, agreement_by};
ghost use Rattle.reports.specs.LoanLists.{stage_in};
ghost use Rattle.reports.specs.Terms.{agreement_with, is_out};

use codes_core::{Day, LoanCode, PlaceCode, ThingCode};
use posting_core::{Ledger, LineStage, Message, PostedEntry, Verdict};

/// The terms of an agreement.
#[derive(Clone, Copy)]
pub struct Terms<'a> {
    pub loan: LoanCode,
    pub partner: PlaceCode,
    pub objects: &'a [ThingCode],
    pub first: Day,
    pub last: Day,
}

/// The terms of a loan, if it is agreed.
pub fn agreed_terms<'a>(ledger: &'a Ledger, loan: &LoanCode) -> Option<Terms<'a>>
    ensures { option_map agreement_with result ≡ agreement ledger.entry.now.posted loan.now }
{
    terms_in(ledger.agreement(loan)?)
}

/// The terms that an entry agrees, if it agrees a loan.
fn terms_in(entry: &PostedEntry) -> Option<Terms<'_>>
    ensures { option_map agreement_with result
        ≡ agreement_by entry.entry.now.verdict entry.entry.now.message }
{
    match entry.message().as_message() {
        Some(
            Message::Agree {
                first,
                last,
                loan,
                partner,
                objects,
            },
        ) if matches!(entry.verdict(), Verdict::Applied) => Some(Terms {
            loan: *loan,
            partner: *partner,
            objects: objects.as_slice(),
            first: *first,
            last: *last,
        }),
        _ => None,
    }
}

/// Whether the object has left or arrived under the loan, and has not gone back.
pub fn is_out(ledger: &Ledger, terms: &Terms<'_>, object: &ThingCode) -> bool
    ensures { result ≡ is_out ledger.now (agreement_with terms.now) object.now }
{
    let stage = stage_of(ledger, terms, object);
    matches!(stage, Some(LineStage::Away | LineStage::Here))
}

/// The stage of an object under the loan with these terms.
pub fn stage_of(ledger: &Ledger, terms: &Terms<'_>, object: &ThingCode) -> Option<LineStage>
    ensures { result ≡ stage_in ledger.now (agreement_with terms.now) object.now }
{
    let thing = ledger.setup().thing(object)?;
    ledger.line(&terms.loan, thing)
}
