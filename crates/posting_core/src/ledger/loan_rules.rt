//! The rules of a loan's terms: agreement, authorisation and extension.
ghost use Rattle.std.specs.Prelude.{◌≡◌, ◌≤◌, ◌∷◌, [], true, false, length, map, take, int_lt, not};
ghost use Rattle.std.specs.Prelude.{None, if◌then◌else◌};
ghost use Rattle.std.specs.Bool.{Decides};
ghost use Rattle.std.specs.List.{list_any};
ghost use Rattle.posting_core.specs.declared.verdict.Verdict.TheVariants.{NoObjects, NotObject};
ghost use Rattle.posting_core.specs.declared.verdict.Verdict.TheVariants.{Repeated, WrongOwner};
ghost use Rattle.posting_core.specs.declared.verdict.Verdict.TheVariants.{BadTerm};
ghost use Rattle.nest_core.specs.InOrder.{◌if◌};
ghost use Rattle.posting_core.specs.VerdictNames.{is_applied};
ghost use Rattle.posting_core.specs.Agreements.{loan_no, is_agreed};
ghost use Rattle.posting_core.specs.LoanRows.{AreOnce};
ghost use Rattle.posting_core.specs.Messages.{thing_no};
ghost use Rattle.posting_core.specs.Verdicts.{first_of, agree_rows, authorise_rows, extend_rows};
ghost use Rattle.posting_core.specs.Verdicts.{is_known_at, is_container_code, is_of_wrong_owner};
ghost use Rattle.posting_core.specs.Verdicts.{is_empty, repeats};

use super::Ledger;
use super::judged::{Judged, going_on, unput};
use crate::{MOST_OBJECTS, Verdict};
use codes_core::{Day, LoanCode, PlaceCode, ThingCode, ThingKind};
use nest_core::ThingNo;

impl Ledger {
    pub(crate) fn judge_agree(
        &self,
        loan: &LoanCode,
        partner: &PlaceCode,
        objects: &[ThingCode],
        first: Day,
        last: Day,
    ) -> Verdict
        requires few { length objects.now ≤ MOST_OBJECTS }
        ensures { result
            ≡ first_of (agree_rows self.now.museum self.now.posted loan.now partner.now objects.now
            first last) }
    {
        let mut numbers = [0; MOST_OBJECTS];
        if self.any_unknown(objects, &mut numbers) {
            return Verdict::UnknownThing;
        }
        let Some(place) = self.place(partner) else {
            return Verdict::UnknownPlace;
        };
        if self.is_agreed(loan) {
            return Verdict::LoanKnown;
        }
        if self.setup.is_inside(place) {
            return Verdict::InsidePartner;
        }
        // Different codes have different numbers, so that comparing numbers is enough.
        let repeated = !are_once(&numbers[..objects.len()]);
        judge_terms(loan, objects, repeated, first, last)
    }

    /// Whether the setup doesn't list one of these codes yet. If it lists all, `numbers` begins
    /// with their numbers.
    fn any_unknown(&self, codes: &[ThingCode], numbers: &mut [ThingNo]) -> bool
        requires { length codes.now ≤ length numbers.old }
        ensures unknown { result
            ≡ list_any (λ x. not (is_known_at self.now.museum self.now.posted x)) codes.now }
        ensures numbers { result ≡ false
            → take (length codes.now) numbers.new ≡ map (thing_no self.now.museum) codes.now }
        ensures room { length numbers.new ≡ length numbers.old }
    {
        for i in 0..codes.len() {
            let Some(x) = self.thing(&codes[i]) else {
                return true;
            };
            numbers[i] = x;
        }
        false
    }

    /// Whether the loan is agreed.
    fn is_agreed(&self, loan: &LoanCode) -> bool
        ensures { result ≡ is_agreed self.now.posted loan.now }
    {
        self.loan(loan).is_some()
    }

    pub(crate) fn judge_authorise(&self, loan: &LoanCode) -> Judged
        ensures verdict { result.verdict ≡ first_of (authorise_rows self.now.posted loan.now) }
        ensures put { result.put ≡ None }
        ensures carried { result.carried ≡ None }
        ensures loan { result.loan
            ≡ (if is_applied result.verdict then loan_no self.now.posted loan.now else None) }
    {
        let Some((number, kept)) = self.loan(loan) else {
            return unput(Verdict::UnknownLoan);
        };
        if kept.is_authorised() {
            return unput(Verdict::AlreadyAuthorised);
        }
        going_on(number)
    }

    pub(crate) fn judge_extend(&self, loan: &LoanCode, last: Day) -> Judged
        ensures verdict { result.verdict ≡ first_of (extend_rows self.now.posted loan.now last) }
        ensures put { result.put ≡ None }
        ensures carried { result.carried ≡ None }
        ensures loan { result.loan
            ≡ (if is_applied result.verdict then loan_no self.now.posted loan.now else None) }
    {
        let Some((number, kept)) = self.loan(loan) else {
            return unput(Verdict::UnknownLoan);
        };
        if !kept.is_authorised() {
            return unput(Verdict::NotAuthorised);
        }
        if last <= kept.last() {
            return unput(Verdict::NotLater);
        }
        going_on(number)
    }
}

/// Checks the rows of an agreement that need neither the setup nor the entries: those of its
/// objects and its days. `repeated` is whether an object is listed twice.
fn judge_terms(
    loan: &LoanCode,
    objects: &[ThingCode],
    repeated: bool,
    first: Day,
    last: Day,
) -> Verdict
    requires { repeated ≡ repeats objects.now }
    ensures { result ≡ first_of (
        (NoObjects if is_empty objects.now)
        ∷ (NotObject if list_any is_container_code objects.now)
        ∷ (Repeated if repeats objects.now)
        ∷ (WrongOwner if list_any (is_of_wrong_owner loan.now) objects.now)
        ∷ (BadTerm if int_lt last first)
        ∷ []) }
{
    if objects.is_empty() {
        return Verdict::NoObjects;
    }
    if any_container(objects) {
        return Verdict::NotObject;
    }
    if repeated {
        return Verdict::Repeated;
    }
    if any_of_wrong_owner(loan, objects) {
        return Verdict::WrongOwner;
    }
    if last < first {
        return Verdict::BadTerm;
    }
    Verdict::Applied
}

/// Whether a code is a container's.
pub(crate) fn is_container_code(code: &ThingCode) -> bool
    ensures { result ≡ is_container_code code.now }
{
    matches!(code.kind(), ThingKind::Container)
}

fn any_container(objects: &[ThingCode]) -> bool
    ensures { result ≡ list_any is_container_code objects.now }
{
    objects.iter().any(is_container_code)
}

/// Whether a loan out lists a borrowed object, or a loan in an own one.
fn is_of_wrong_owner(loan: &LoanCode, object: &ThingCode) -> bool
    ensures { result ≡ is_of_wrong_owner loan.now object.now }
{
    if loan.is_out() {
        matches!(object.kind(), ThingKind::Borrowed)
    } else {
        matches!(object.kind(), ThingKind::Own)
    }
}

fn any_of_wrong_owner(loan: &LoanCode, objects: &[ThingCode]) -> bool
    ensures { result ≡ list_any (is_of_wrong_owner loan.now) objects.now }
{
    objects.iter().any(|x| is_of_wrong_owner(loan, x))
}

/// Whether no number occurs twice.
fn are_once(numbers: &[ThingNo]) -> bool
    ensures { Decides result (AreOnce numbers.now) }
{
    for i in 0..numbers.len() {
        if numbers[..i].contains(&numbers[i]) {
            return false;
        }
    }
    true
}
