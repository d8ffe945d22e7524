//! The objects that are due by a day.
ghost use Rattle.std.specs.Prelude.{◌≡◌, ◌++◌, [], IfOk, OnOk, map};
ghost use Rattle.std.specs.Option.{option_map_or};
ghost use Rattle.posting_core.specs.Agreements.{agreement};
ghost use Rattle.reports.specs.LoanLists.{due_row, due_rows, dues, dues_of};
ghost use Rattle.reports.specs.Terms.{agreement_with};
ghost use Rattle.reports.specs.Cells.{cell_of};

use crate::Form;
use crate::field::Field;
use crate::optional_fields::{day_if, place_if};
use crate::reports::loan::{partner_of, stage_field, stage_of};
use crate::reports::loans::{Phase, ends_by, is_at};
use crate::rows::Rows;
use crate::sections::{Terms, agreed_terms};
use codes_core::{Day, LoanCode, NoMemory, ThingCode};
use posting_core::Ledger;
use std::alloc::Global;

/// An object that is due, and its loan.
#[derive(Clone, Copy)]
pub(crate) struct Due {
    loan: LoanCode,
    object: ThingCode,
}

/// The objects that are due by a day, in the order of the agreements and of each loan's objects.
#[derive(Drop)]
pub(crate) struct Dues<'a> {
    ledger: &'a Ledger,
    dues: Vec<Due>,
}

impl<'a> Rows for Dues<'a> {
    ghost use Rattle.std.specs.Prelude.{map};
    ghost use Rattle.reports.specs.LoanLists.{due_row};

    ghost rows = { λ s form. map (due_row s.ledger.now) s.dues.items };

    fn len(&self, _form: Form) -> usize {
        self.dues.len()
    }

    fn row(&self, alloc: Global, _form: Form, i: usize) -> Result<Vec<Field<'_>>, NoMemory> {
        due_row(alloc, self.ledger, self.dues[i])
    }
}

impl<'a> Dues<'a> {
    /// Finds the objects that are due by the day.
    pub(crate) fn find(alloc: Global, ledger: &'a Ledger, day: Day) -> Result<Dues<'a>, NoMemory>
        ensures { IfOk result (λ found. map (due_row found.ledger.now) found.dues.items
            ≡ due_rows ledger.entry.now day) }
    {
        let dues = list_dues(alloc, ledger, day)?;
        Ok(Dues { ledger, dues })
    }
}

fn list_dues(alloc: Global, ledger: &Ledger, day: Day) -> Result<Vec<Due>, NoMemory>
    ensures { IfOk result (λ found. found.items ≡ dues ledger.now day) }
{
    let mut found = Vec::new(alloc);
    for i in 0..ledger.loan_count() {
        let loan = ledger.loan_at(i);
        if ends_by(ledger, day, &loan) {
            add_dues(&mut found, ledger, &loan)?;
        }
    }
    Ok(found)
}

/// Adds the objects that are due under the loan.
fn add_dues(found: &mut Vec<Due>, ledger: &Ledger, loan: &LoanCode) -> Result<(), NoMemory>
    ensures { OnOk result (found.new.items ≡ found.old.items
        ++ option_map_or (dues_of ledger.now) (agreement ledger.now.posted loan.now) []) }
{
    match agreed_terms(ledger, loan) {
        Some(terms) => add_owed(found, ledger, &terms),
        None => Ok(()),
    }
}

/// Adds the objects that are still owed under the loan with these terms.
fn add_owed(found: &mut Vec<Due>, ledger: &Ledger, terms: &Terms<'_>) -> Result<(), NoMemory>
    ensures { OnOk result (found.new.items ≡ found.old.items
        ++ dues_of ledger.now (agreement_with terms.now)) }
{
    for i in 0..terms.objects.len() {
        let object = terms.objects[i];
        if is_at(ledger, terms, Phase::Out, &object) {
            found.push(Due {
                loan: terms.loan,
                object,
            })?;
        }
    }
    Ok(())
}

fn due_row<'a>(alloc: Global, ledger: &Ledger, due: Due) -> Result<Vec<Field<'a>>, NoMemory>
    ensures { IfOk result (λ row. map cell_of row.items ≡ due_row ledger.now due) }
{
    let stage = stage_field(stage_of(ledger, &due.loan, &due.object));
    let last = day_if(ledger.last_day(&due.loan));
    let partner = place_if(partner_of(ledger, &due.loan));
    Ok(vec![in alloc;
        Field::Loan(due.loan),
        Field::Thing(due.object),
        last,
        stage,
        partner,
    ]?)
}
