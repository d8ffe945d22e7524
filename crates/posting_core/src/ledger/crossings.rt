//! The rules of crossings under a loan: exit, return and receipt.
ghost use Rattle.std.specs.Prelude.{ℤ, ◌≡◌, ◌<◌, ◌&&◌, true, false, List, length, All, filter, not};
ghost use Rattle.std.specs.Prelude.{IfOk, IfSome, OnErr, MatchResult, Some, None, if◌then◌else◌, ℕ};
ghost use Rattle.std.specs.Option.{option_map_or};
ghost use Rattle.posting_core.specs.declared.message.Message.TheVariants.{Exit, Return, Receive};
ghost use Rattle.posting_core.specs.declared.stage.LineStage.TheVariants.{Awaiting, Away};
ghost use Rattle.posting_core.specs.declared.verdict.Verdict.{Verdict};
ghost use Rattle.posting_core.specs.History.{put_by, carried_with, holds_at};
ghost use Rattle.posting_core.specs.Messages.{thing_no};
ghost use Rattle.posting_core.specs.Loans.{line, wanted_by_exit, objects_with};
ghost use Rattle.nest_core.specs.Museum.{is_container, is_elsewhere, find_place, find_place_at};
ghost use Rattle.nest_core.specs.InOrder.{Row};
ghost use Rattle.posting_core.specs.Verdicts.{first_of, exit_rows, return_rows, receive_rows};
ghost use Rattle.posting_core.specs.Verdicts.{stage_eq, is_over, any_unlisted, any_not_at};
ghost use Rattle.posting_core.specs.Verdicts.{line_rows, hangs_on_lines};
ghost use Rattle.codes_core.specs.Loan.{is_out};
ghost use Rattle.posting_core.specs.VerdictNames.{is_applied};
ghost use Rattle.posting_core.specs.Agreements.{last_day, loan_no};
ghost use Rattle.posting_core.specs.LoanRows.{line_of};
ghost use Rattle.posting_core.specs.Crossings.{IsFound, incoming_rows};

use super::Ledger;
use super::judged::{Judged, putting, unput};
use super::loan_rules::is_container_code;
use super::planning::objects_among;
use crate::kept_loan::KeptLoan;
use crate::{LineStage, Verdict};
use codes_core::{Day, LoanCode, NoMemory, PlaceCode, ThingCode};
use nest_core::{PlaceNo, Target, ThingNo};
use std::alloc::Global;

impl Ledger {
    /// Judges an exit. Fails with `NoMemory`, but only if the thing has something in it and the
    /// verdict depends on the loan lines.
    pub(crate) fn judge_exit(
        &self,
        alloc: Global,
        thing: &ThingCode,
        loan: &LoanCode,
        day: Day,
    ) -> Result<Judged, NoMemory>
        ensures verdict { IfOk result (λ judged. judged.verdict
            ≡ first_of (exit_rows self.now.museum self.now.posted thing.now loan.now day)) }
        ensures put { IfOk result (λ judged. judged.put
            ≡ put_by self.now.museum self.now.posted judged.verdict
            (Exit day thing.now loan.now)) }
        ensures carried { IfOk result (λ judged. IfSome judged.carried
            (λ carried. carried ≡ carried_with self.now.museum self.now.posted judged.put)) }
        ensures loan { IfOk result (λ judged. judged.loan
            ≡ (if is_applied judged.verdict then loan_no self.now.posted loan.now else None)) }
        ensures err { OnErr result
            ((holds_at self.now.museum self.now.posted (thing_no self.now.museum thing.now)
            && hangs_on_lines
            (first_of (exit_rows self.now.museum self.now.posted thing.now loan.now day))) ≡ true) }
    {
        match self.exit_asked(thing, loan) {
            Err(refusal) => Ok(unput(refusal)),
            Ok((x, number, kept)) => {
                let to = Target::At(kept.partner());
                let carried = self.carried(alloc, x)?;
                let verdict = self.judge_lines_out(alloc, carried.as_slice(), loan, kept, day)?;
                Ok(putting(verdict, x, to, Some(carried), Some(number)))
            }
        }
    }

    /// Checks the rows of an exit that come before its loan lines. Returns the first refusal as the
    /// error. If there is none, returns the number of the thing, the number of the loan, and the
    /// loan.
    fn exit_asked(
        &self,
        thing: &ThingCode,
        loan: &LoanCode,
    ) -> Result<(ThingNo, usize, &KeptLoan), Verdict>
        ensures { let S = self.now.museum in let P = self.now.posted in MatchResult result
            (λ asked. IsFound S P thing.now loan.now asked.0 asked.1 asked.2.now
            × ((day : ℤ) → first_of (exit_rows S P thing.now loan.now day)
            ≡ first_of (line_rows (line S P loan.now) (wanted_by_exit loan.now)
            (objects_with S P asked.0) (is_out loan.now && is_over P loan.now day))))
            (λ refusal. (is_applied refusal ≡ false)
            × ((day : ℤ) → first_of (exit_rows S P thing.now loan.now day) ≡ refusal)) }
    {
        let Some(x) = self.thing(thing) else {
            return Err(Verdict::UnknownThing);
        };
        let Some((number, kept)) = self.loan(loan) else {
            return Err(Verdict::UnknownLoan);
        };
        if !loan.is_out() && is_container_code(thing) {
            return Err(Verdict::NotObject);
        }
        if !kept.is_authorised() {
            return Err(Verdict::NotAuthorised);
        }
        if !self.is_inside(x) {
            return Err(Verdict::NotHere);
        }
        Ok((x, number, kept))
    }

    /// Judges a return. Fails as `judge_exit` does.
    pub(crate) fn judge_return(
        &self,
        alloc: Global,
        thing: &ThingCode,
        loan: &LoanCode,
        place: &PlaceCode,
    ) -> Result<Judged, NoMemory>
        ensures verdict { IfOk result (λ judged. judged.verdict ≡ first_of
            (return_rows self.now.museum self.now.posted thing.now loan.now place.now)) }
        ensures put { IfOk result (λ judged. (day : ℤ) → judged.put
            ≡ put_by self.now.museum self.now.posted judged.verdict
            (Return day thing.now loan.now place.now)) }
        ensures carried { IfOk result (λ judged. IfSome judged.carried
            (λ carried. carried ≡ carried_with self.now.museum self.now.posted judged.put)) }
        ensures loan { IfOk result (λ judged. judged.loan
            ≡ (if is_applied judged.verdict then loan_no self.now.posted loan.now else None)) }
        ensures err { OnErr result
            ((holds_at self.now.museum self.now.posted (thing_no self.now.museum thing.now)
            && hangs_on_lines
            (first_of (return_rows self.now.museum self.now.posted thing.now loan.now place.now)))
            ≡ true) }
    {
        match self.return_asked(thing, loan, place) {
            Err(refusal) => Ok(unput(refusal)),
            Ok((x, p, number, kept)) => {
                let carried = self.carried(alloc, x)?;
                let verdict = self.judge_lines(
                    alloc,
                    carried.as_slice(),
                    kept,
                    LineStage::Away,
                    false,
                )?;
                Ok(putting(verdict, x, Target::At(p), Some(carried), Some(number)))
            }
        }
    }

    /// Checks the rows of a return that come before its loan lines. Returns the first refusal as
    /// the error. If there is none, returns the result of `incoming_asked`.
    fn return_asked(
        &self,
        thing: &ThingCode,
        loan: &LoanCode,
        place: &PlaceCode,
    ) -> Result<(ThingNo, PlaceNo, usize, &KeptLoan), Verdict>
        ensures { let S = self.now.museum in let P = self.now.posted in MatchResult result
            (λ asked. IsFound S P thing.now loan.now asked.0 asked.2 asked.3.now
            × (find_place S place.now ≡ Some asked.1)
            × (first_of (return_rows S P thing.now loan.now place.now)
            ≡ first_of (line_rows (line S P loan.now) Away (objects_with S P asked.0) false)))
            (λ refusal. (is_applied refusal ≡ false)
            × (first_of (return_rows S P thing.now loan.now place.now) ≡ refusal)) }
    {
        let (x, p, number, kept) = self.incoming_asked(thing, loan, place)?;
        if !kept.is_authorised() {
            return Err(Verdict::NotAuthorised);
        }
        if !loan.is_out() {
            return Err(Verdict::WrongDirection);
        }
        if self.place_of(x) != Some(kept.partner()) {
            return Err(Verdict::NotWithPartner);
        }
        Ok((x, p, number, kept))
    }

    /// Judges a receipt. Fails as `judge_exit` does.
    pub(crate) fn judge_receive(
        &self,
        alloc: Global,
        thing: &ThingCode,
        loan: &LoanCode,
        place: &PlaceCode,
        day: Day,
    ) -> Result<Judged, NoMemory>
        ensures verdict { IfOk result (λ judged. judged.verdict ≡ first_of
            (receive_rows self.now.museum self.now.posted thing.now loan.now place.now day)) }
        ensures put { IfOk result (λ judged. judged.put
            ≡ put_by self.now.museum self.now.posted judged.verdict
            (Receive day thing.now loan.now place.now)) }
        ensures carried { IfOk result (λ judged. IfSome judged.carried
            (λ carried. carried ≡ carried_with self.now.museum self.now.posted judged.put)) }
        ensures loan { IfOk result (λ judged. judged.loan
            ≡ (if is_applied judged.verdict then loan_no self.now.posted loan.now else None)) }
        ensures err { OnErr result
            ((holds_at self.now.museum self.now.posted (thing_no self.now.museum thing.now)
            && hangs_on_lines
            (first_of (receive_rows self.now.museum self.now.posted thing.now loan.now place.now
            day))) ≡ true) }
    {
        match self.receive_asked(thing, loan, place) {
            Err(refusal) => Ok(unput(refusal)),
            Ok((x, p, number, kept)) => {
                let is_over = kept.last() < day;
                let carried = self.carried(alloc, x)?;
                let verdict = self.judge_lines(
                    alloc,
                    carried.as_slice(),
                    kept,
                    LineStage::Awaiting,
                    is_over,
                )?;
                Ok(putting(verdict, x, Target::At(p), Some(carried), Some(number)))
            }
        }
    }

    /// Checks the rows of a receipt that come before its loan lines. Returns the first refusal as
    /// the error. If there is none, returns the result of `incoming_asked`.
    fn receive_asked(
        &self,
        thing: &ThingCode,
        loan: &LoanCode,
        place: &PlaceCode,
    ) -> Result<(ThingNo, PlaceNo, usize, &KeptLoan), Verdict>
        ensures { let S = self.now.museum in let P = self.now.posted in MatchResult result
            (λ asked. IsFound S P thing.now loan.now asked.0 asked.2 asked.3.now
            × (find_place S place.now ≡ Some asked.1)
            × ((day : ℤ) → first_of (receive_rows S P thing.now loan.now place.now day)
            ≡ first_of (line_rows (line S P loan.now) Awaiting (objects_with S P asked.0)
            (is_over P loan.now day))))
            (λ refusal. (is_applied refusal ≡ false) × ((day : ℤ)
            → first_of (receive_rows S P thing.now loan.now place.now day) ≡ refusal)) }
    {
        let (x, p, number, kept) = self.incoming_asked(thing, loan, place)?;
        if is_container_code(thing) {
            return Err(Verdict::NotObject);
        }
        if !kept.is_authorised() {
            return Err(Verdict::NotAuthorised);
        }
        if loan.is_out() {
            return Err(Verdict::WrongDirection);
        }
        if self.is_inside(x) {
            return Err(Verdict::AlreadyHere);
        }
        Ok((x, p, number, kept))
    }

    /// Checks the rows with which a return and a receipt begin. Returns the first refusal as the
    /// error. If there is none, returns the numbers of the thing, the place and the loan, and the
    /// loan.
    fn incoming_asked(
        &self,
        thing: &ThingCode,
        loan: &LoanCode,
        place: &PlaceCode,
    ) -> Result<(ThingNo, PlaceNo, usize, &KeptLoan), Verdict>
        ensures { let S = self.now.museum in let P = self.now.posted in MatchResult result
            (λ asked. IsFound S P thing.now loan.now asked.0 asked.2 asked.3.now
            × (find_place S place.now ≡ Some asked.1)
            × (find_place_at S (length P) place.now ≡ Some asked.1)
            × (is_elsewhere S asked.1 ≡ false))
            (λ refusal. (is_applied refusal ≡ false) × ((rest : List (Row Verdict))
            → first_of (incoming_rows S P thing.now loan.now place.now rest) ≡ refusal)) }
    {
        let Some(x) = self.thing(thing) else {
            return Err(Verdict::UnknownThing);
        };
        let Some(p) = self.place(place) else {
            return Err(Verdict::UnknownPlace);
        };
        if !self.setup.is_inside(p) {
            return Err(Verdict::ElsewherePlace);
        }
        let Some((number, kept)) = self.loan(loan) else {
            return Err(Verdict::UnknownLoan);
        };
        Ok((x, p, number, kept))
    }

    /// Checks the last rows of an exit: the loan lines of the objects carried and, under a loan
    /// out, the last day. Fails with `NoMemory`, but only if several things are carried.
    fn judge_lines_out(
        &self,
        alloc: Global,
        carried: &[ThingNo],
        loan: &LoanCode,
        kept: &KeptLoan,
        day: Day,
    ) -> Result<Verdict, NoMemory>
        requires known { All (λ y. y < length self.now.museum.things) carried.now }
        requires lines { (o : ℕ)
            → line_of kept.now o ≡ line self.now.museum self.now.posted loan.now o }
        requires last { last_day self.now.posted loan.now ≡ Some kept.now.last }
        ensures verdict { IfOk result (λ verdict. verdict ≡ first_of (line_rows
            (line self.now.museum self.now.posted loan.now) (wanted_by_exit loan.now)
            (filter (λ o. not (is_container self.now.museum o)) carried.now)
            (is_out loan.now && is_over self.now.posted loan.now day))) }
        ensures gives_up { OnErr result (1 < length carried.now) }
    {
        let is_over = loan.is_out() && kept.last() < day;
        self.judge_lines(alloc, carried, kept, wanted_by_exit(loan), is_over)
    }

    /// Checks the last rows of a crossing: the loan lines of the objects carried, which must be at
    /// the wanted stage, and whether the loan is over. `is_over` is false for a crossing that may
    /// be late. Fails with `NoMemory`, but only if several things are carried.
    fn judge_lines(
        &self,
        alloc: Global,
        carried: &[ThingNo],
        kept: &KeptLoan,
        wanted: LineStage,
        is_over: bool,
    ) -> Result<Verdict, NoMemory>
        requires { All (λ y. y < length self.now.museum.things) carried.now }
        ensures verdict { IfOk result (λ verdict. verdict ≡ first_of (line_rows
            (line_of kept.now) wanted
            (filter (λ o. not (is_container self.now.museum o)) carried.now) is_over)) }
        ensures gives_up { OnErr result (1 < length carried.now) }
    {
        let objects = objects_among(alloc, &self.setup, carried)?;
        Ok(judge_objects(kept, wanted, &objects, is_over))
    }
}

/// Checks these rows for the objects that cross.
#[tactic(auto, using(crate::proofs::Asked::all_listed))]
fn judge_objects(kept: &KeptLoan, wanted: LineStage, objects: &[ThingNo], is_over: bool) -> Verdict
    ensures { result ≡ first_of (line_rows (line_of kept.now) wanted objects.now is_over) }
{
    // An object that isn't listed has no line at any stage. If all is right, one pass is enough.
    if any_not_at(kept, wanted, objects) {
        return if any_unlisted(kept, objects) {
            Verdict::NotListed
        } else {
            Verdict::WrongStage
        };
    }
    if is_over {
        return Verdict::TermOver;
    }
    Verdict::Applied
}

/// Whether the loan doesn't list one of the objects.
fn any_unlisted(kept: &KeptLoan, objects: &[ThingNo]) -> bool
    ensures { result ≡ any_unlisted (line_of kept.now) objects.now }
{
    objects.iter().any(|o| kept.stage_of(*o).is_none())
}

/// Whether one of the objects has no line at the wanted stage.
fn any_not_at(kept: &KeptLoan, wanted: LineStage, objects: &[ThingNo]) -> bool
    ensures { result ≡ any_not_at (line_of kept.now) wanted objects.now }
{
    objects.iter().any(|o| !is_at(kept, wanted, *o))
}

/// Whether an object has a line at the wanted stage.
fn is_at(kept: &KeptLoan, wanted: LineStage, object: ThingNo) -> bool
    ensures { result ≡ option_map_or (stage_eq wanted) (line_of kept.now object) false }
{
    match kept.stage_of(object) {
        Some(stage) => stage == wanted,
        None => false,
    }
}

/// The stage that the lines of an exit must have: awaited under a loan out, here under a loan in.
fn wanted_by_exit(loan: &LoanCode) -> LineStage
    ensures { result ≡ wanted_by_exit loan.now }
{
    if loan.is_out() {
        LineStage::Awaiting
    } else {
        LineStage::Here
    }
}
