//! The rows that a store has for a setup and a ledger.
ghost use Rattle.std.specs.Prelude.{◌≡◌, ◌≤◌, ◌++◌, length, map, IfOk, OnOk, string_bytes};
ghost use Rattle.nest_core.specs.SetupTexts.{setup_rows};
ghost use Rattle.register_store.specs.StoredRows.{spots_of_thing, spots_by_thing, lines_by_loan};
ghost use Rattle.register_store.specs.StoredRows.{rows_of_terms};
ghost use Rattle.register_store.specs.Plain.{held_lines, term_rows, lines_of_loan, day_of_loan};

use crate::LineKey;
use codes_core::{Day, LoanCode, NoMemory};
use nest_core::{Setup, ThingNo};
use posting_core::{Ledger, LineStage, MOST_ENTRIES, NewSpot, Spot};
use std::alloc::Global;

/// The texts of a setup's rows, row 1 first. Fails with `NoMemory`.
pub fn row_texts(alloc: Global, setup: &Setup) -> Result<Vec<String>, NoMemory>
    ensures { IfOk result (λ texts. map string_bytes texts.items ≡ setup_rows setup.now) }
{
    let mut texts = Vec::new(alloc);
    for i in 0..setup.rows() {
        texts.push(setup.row_text(alloc, i + 1)?)?;
    }
    Ok(texts)
}

/// The spots of all things, by looking back, in ascending order: thing by thing, and each thing's
/// from spot 1 on. Fails with `NoMemory`.
pub fn spot_rows(alloc: Global, ledger: &Ledger) -> Result<Vec<NewSpot>, NoMemory>
    ensures { IfOk result
        (λ rows. rows.items ≡ spots_by_thing ledger.now.museum ledger.now.posted) }
{
    let mut rows = Vec::new(alloc);
    for thing in 0..ledger.setup().things() {
        let spots = ledger.spots(thing).to_vec(alloc)?;
        push_spots(&mut rows, thing, &spots)?;
    }
    Ok(rows)
}

/// Adds the spots of a thing, numbered from 1. Fails with `NoMemory`.
fn push_spots(rows: &mut Vec<NewSpot>, thing: ThingNo, spots: &[Spot]) -> Result<(), NoMemory>
    requires few { length spots.now ≤ MOST_ENTRIES }
    ensures { OnOk result (rows.new.items ≡ rows.old.items ++ spots_of_thing thing 1 spots.now) }
{
    for i in 0..spots.len() {
        rows.push(NewSpot {
            thing,
            k: i as u32 + 1,
            spot: spots[i],
        })?;
    }
    Ok(())
}

/// The lines of all loans at their present stages, in the order of the agreements. Fails with
/// `NoMemory`.
pub fn lines_of(alloc: Global, ledger: &Ledger) -> Result<Vec<(LineKey, LineStage)>, NoMemory>
    ensures { IfOk result
        (λ rows. held_lines rows.items ≡ lines_by_loan ledger.now.museum ledger.now.posted) }
{
    ledger.is_lawful();
    let mut rows = Vec::new(alloc);
    for i in 0..ledger.loan_count() {
        push_lines(&mut rows, ledger, ledger.loan_at(i), ledger.objects(i))?;
    }
    Ok(rows)
}

/// Adds the lines of a loan for these objects. Fails with `NoMemory`.
fn push_lines(
    rows: &mut Vec<(LineKey, LineStage)>,
    ledger: &Ledger,
    loan: LoanCode,
    objects: &[ThingNo],
) -> Result<(), NoMemory>
    ensures { OnOk result
        (held_lines rows.new.items
        ≡ held_lines rows.old.items ++ lines_of_loan ledger.now loan objects.now) }
{
    for i in 0..objects.len() {
        let object = objects[i];
        if let Some(stage) = ledger.line(&loan, object) {
            rows.push((LineKey { loan, object }, stage))?;
        }
    }
    Ok(())
}

/// The last days of all loans, in the order of the agreements. Fails with `NoMemory`.
pub fn terms_of(alloc: Global, ledger: &Ledger) -> Result<Vec<(LoanCode, Day)>, NoMemory>
    ensures { IfOk result (λ rows. term_rows rows.items ≡ rows_of_terms ledger.now.posted) }
{
    ledger.is_lawful();
    let mut rows = Vec::new(alloc);
    for i in 0..ledger.loan_count() {
        push_day(&mut rows, ledger, ledger.loan_at(i))?;
    }
    Ok(rows)
}

/// Adds the last day of a loan. Fails with `NoMemory`.
fn push_day(
    rows: &mut Vec<(LoanCode, Day)>,
    ledger: &Ledger,
    loan: LoanCode,
) -> Result<(), NoMemory>
    ensures { OnOk result
        (term_rows rows.new.items ≡ term_rows rows.old.items ++ day_of_loan ledger.now loan) }
{
    if let Some(day) = ledger.last_day(&loan) {
        rows.push((loan, day))?;
    }
    Ok(())
}
