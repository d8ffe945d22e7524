//! One loan, as a ledger keeps it.
ghost use Rattle.std.specs.Prelude.{◌≡◌, ◌<◌, false, map, IfOk};
ghost use Rattle.posting_core.specs.Messages.{place_no};
ghost use Rattle.posting_core.specs.Loans.{is_done, is_awaiting, state_by};
ghost use Rattle.posting_core.specs.LoanRows.{LoanRow, AreOnce, line_of, state_of, authorised_row};
ghost use Rattle.posting_core.specs.LoanRows.{extended_row, with_stage, with_lines};

use crate::numbers::place_no;
use crate::{LineStage, LoanState, NewLine};
use codes_core::{Day, LoanCode, NoMemory, PlaceCode};
use indexmap::IndexSet;
use nest_core::{PlaceNo, Setup, ThingNo};
use std::alloc::Global;
use std::marker::Model;

/// A loan whose objects are found by number. Contracts see it as its row.
pub(crate) struct KeptLoan {
    loan: LoanCode,
    partner: PlaceNo,
    objects: IndexSet<ThingNo>,
    stages: Vec<LineStage>,
    last: Day,
    authorised: bool,
}

impl Model for KeptLoan {
    ghost use Rattle.std.specs.Prelude.{◌≡◌, length};
    ghost use Rattle.posting_core.specs.LoanRows.{LoanRow};

    ghost Value = { LoanRow };

    ghost view = { λ k.
        record {
          loan = k.loan;
          partner = k.partner;
          objects = k.objects.keys;
          stages = k.stages.items;
          last = k.last;
          authorised = k.authorised;
        } };

    ghost invariant = { λ k. length k.stages.items ≡ length k.objects.keys };
}

/// Manual `Drop`: a derived one is inlined at every return and slows the proof.
impl Drop for KeptLoan {
    fn drop(self) {
        let KeptLoan {
            loan: _,
            partner: _,
            objects,
            stages,
            last: _,
            authorised: _,
        } = self;
        drop(objects);
        drop(stages);
    }
}

impl KeptLoan {
    /// A loan that was just agreed, with a line for each of its objects. No object may have two
    /// lines. Fails with `NoMemory`.
    pub(crate) fn new(
        alloc: Global,
        setup: &Setup,
        loan: LoanCode,
        partner: &PlaceCode,
        lines: &[NewLine],
        last: Day,
    ) -> Result<KeptLoan, NoMemory>
        requires { AreOnce (map (λ l. l.object) lines.now) }
        ensures { IfOk result (λ row. row ≡ record {
          loan = loan;
          partner = place_no setup.now partner.now;
          objects = map (λ l. l.object) lines.now;
          stages = map (λ l. l.stage) lines.now;
          last = last;
          authorised = false;
        }) }
    {
        let stages = stages_of(alloc, lines)?;
        let objects = objects_of(alloc, lines)?;
        Ok(KeptLoan {
            loan,
            partner: place_no(setup, partner),
            objects,
            stages,
            last,
            authorised: false,
        })
    }

    /// The loan's code.
    pub(crate) fn loan(&self) -> LoanCode
        ensures { result ≡ self.now.loan }
    {
        self.loan
    }

    /// The partner's place.
    pub(crate) fn partner(&self) -> PlaceNo
        ensures { result ≡ self.now.partner }
    {
        self.partner
    }

    /// The objects by number, in the order of the agreement.
    pub(crate) fn objects(&self) -> &[ThingNo]
        ensures { result.now ≡ self.now.objects }
    {
        self.objects.as_slice()
    }

    /// The stage of an object's line, or `None` if the loan doesn't list the object.
    pub(crate) fn stage_of(&self, object: ThingNo) -> Option<LineStage>
        ensures { result ≡ line_of self.now object }
    {
        let i = self.objects.get_index_of(&object)?;
        Some(self.stages[i])
    }

    /// The state of the loan.
    pub(crate) fn state(&self) -> LoanState
        ensures { result ≡ state_of self.now }
    {
        state_of(self.authorised, &self.stages)
    }

    /// The last day.
    pub(crate) fn last(&self) -> Day
        ensures { result ≡ self.now.last }
    {
        self.last
    }

    /// Whether the loan is authorised.
    pub(crate) fn is_authorised(&self) -> bool
        ensures { result ≡ self.now.authorised }
    {
        self.authorised
    }

    /// Marks the loan as authorised.
    pub(crate) fn authorise(&mut self)
        ensures { self.new ≡ authorised_row self.old }
    {
        self.authorised = true;
    }

    /// Sets the last day.
    pub(crate) fn extend(&mut self, last: Day)
        ensures { self.new ≡ extended_row last self.old }
    {
        self.last = last;
    }

    /// Sets the stages of these lines, one after another. A line of an object that the loan doesn't
    /// list changes nothing.
    pub(crate) fn cross(&mut self, lines: &[NewLine])
        ensures { self.new ≡ with_lines lines.now self.old }
    {
        for i in 0..lines.len() {
            self.set_stage(lines[i].object, lines[i].stage);
        }
    }

    fn set_stage(&mut self, object: ThingNo, stage: LineStage)
        ensures { self.new ≡ with_stage self.old object stage }
    {
        if let Some(i) = self.objects.get_index_of(&object) {
            self.stages[i] = stage;
        }
    }
}

/// The objects of these lines, which must differ. Fails with `NoMemory`.
fn objects_of(alloc: Global, lines: &[NewLine]) -> Result<IndexSet<ThingNo>, NoMemory>
    requires { AreOnce (map (λ l. l.object) lines.now) }
    ensures { IfOk result (λ objects. objects.keys ≡ map (λ l. l.object) lines.now) }
{
    let mut objects = IndexSet::with_capacity(alloc, lines.len())?;
    for i in 0..lines.len() {
        objects.insert(lines[i].object)?;
    }
    Ok(objects)
}

/// The stages of these lines. Fails with `NoMemory`.
fn stages_of(alloc: Global, lines: &[NewLine]) -> Result<Vec<LineStage>, NoMemory>
    ensures { IfOk result (λ stages. stages.items ≡ map (λ l. l.stage) lines.now) }
{
    let mut stages = Vec::with_capacity(alloc, lines.len())?;
    for i in 0..lines.len() {
        stages.push(lines[i].stage)?;
    }
    Ok(stages)
}

fn state_of(authorised: bool, stages: &[LineStage]) -> LoanState
    ensures { result ≡ state_by authorised stages.now }
{
    if !authorised {
        return LoanState::Draft;
    }
    if stages.iter().all(|s| is_done(*s)) {
        return LoanState::Closed;
    }
    if stages.iter().any(|s| !is_awaiting(*s)) {
        return LoanState::Running;
    }
    LoanState::Authorised
}

fn is_done(stage: LineStage) -> bool
    ensures { result ≡ is_done stage }
{
    matches!(stage, LineStage::Back | LineStage::GivenBack)
}

fn is_awaiting(stage: LineStage) -> bool
    ensures { result ≡ is_awaiting stage }
{
    matches!(stage, LineStage::Awaiting)
}
