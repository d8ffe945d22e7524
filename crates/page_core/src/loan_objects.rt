//! The table of the objects of all loans.
ghost use Rattle.std.specs.Prelude.{◌≡◌, IfOk, map, string_bytes};
ghost use Rattle.std.specs.List.{flat_map};
ghost use Rattle.page_core.specs.Pieces.{page_text};
ghost use Rattle.page_core.specs.LoanObjects.{object_row, objects_text, terms_row};
ghost use Rattle.reports.specs.Terms.{agreement_with};

use crate::values::values_row;
use codes_core::{LoanCode, NoMemory, ThingCode};
use posting_core::Ledger;
use reports::sections::{Rows, Terms, Value, agreed_terms, stage_if, stage_of};
use std::alloc::Global;

/// The agreed loans, in the order of their agreements.
#[derive(Drop)]
pub(crate) struct LoanObjects<'a> {
    pub ledger: &'a Ledger,
}

impl<'a> Rows for LoanObjects<'a> {
    ghost use Rattle.std.specs.Prelude.{map};
    ghost use Rattle.posting_core.specs.Book.{loans_in};
    ghost use Rattle.page_core.specs.LoanObjects.{objects_text};

    ghost texts = { λ s. map (objects_text s.ledger.now) (loans_in s.ledger.now) };

    fn len(&self) -> usize {
        self.ledger.loan_count()
    }

    fn row(&self, alloc: Global, i: usize) -> Result<String, NoMemory> {
        objects_row(alloc, self.ledger, &self.ledger.loan_at(i))
    }
}

/// The rows of a loan's objects.
fn objects_row(alloc: Global, ledger: &Ledger, loan: &LoanCode) -> Result<String, NoMemory>
    ensures { IfOk result (λ row. string_bytes row ≡ objects_text ledger.now loan.now) }
{
    match agreed_terms(ledger, loan) {
        Some(terms) => terms_row(alloc, ledger, &terms),
        None => Ok(String::new(alloc)),
    }
}

/// The rows of the objects of the loan with these terms.
fn terms_row(alloc: Global, ledger: &Ledger, terms: &Terms<'_>) -> Result<String, NoMemory>
    ensures { IfOk result (λ row. string_bytes row
        ≡ page_text (terms_row ledger.now (agreement_with terms.now))) }
{
    let mut row = String::new(alloc);
    for i in 0..terms.objects.len() {
        let object = object_row(alloc, ledger, terms, &terms.objects[i])?;
        row.push_str(object.as_str())?;
    }
    Ok(row)
}

/// The row of an object.
fn object_row(
    alloc: Global,
    ledger: &Ledger,
    terms: &Terms<'_>,
    object: &ThingCode,
) -> Result<String, NoMemory>
    ensures { IfOk result (λ row. string_bytes row
        ≡ page_text (object_row ledger.now (agreement_with terms.now) object.now)) }
{
    let stage = stage_if(stage_of(ledger, terms, object));
    values_row(
        alloc,
        &[Value::Loan(terms.loan), Value::Thing(*object), stage],
    )
}
