//! The rows of the table `loan`.
ghost use Rattle.std.specs.Prelude.{◌≡◌, ◌++◌, IfOk, OnOk, map, string_bytes};
ghost use Rattle.reports.specs.Terms.{agreement_with};
ghost use Rattle.export_core.specs.Loans.{all_loan_rows, loan_row, loan_values};
ghost use Rattle.export_core.specs.Statements.{row};

use crate::statements::row;
use codes_core::{LoanCode, NoMemory};
use posting_core::Ledger;
use reports::sections::{Terms, Value, agreed_terms, day_if, state_if};
use std::alloc::Global;

/// Returns the rows of the agreed loans, in the order of their agreements. Fails with `NoMemory`.
pub(crate) fn loan_rows(alloc: Global, ledger: &Ledger) -> Result<Vec<String>, NoMemory>
    ensures { IfOk result (λ rows. map string_bytes rows.items ≡ all_loan_rows ledger.now) }
{
    let mut rows = Vec::new(alloc);
    for i in 0..ledger.loan_count() {
        push_loan(alloc, ledger, &ledger.loan_at(i), &mut rows)?;
    }
    Ok(rows)
}

/// Adds the row of a loan.
fn push_loan(
    alloc: Global,
    ledger: &Ledger,
    loan: &LoanCode,
    rows: &mut Vec<String>,
) -> Result<(), NoMemory>
    ensures { OnOk result (map string_bytes rows.new.items
        ≡ map string_bytes rows.old.items ++ loan_row ledger.now loan.now) }
{
    if let Some(terms) = agreed_terms(ledger, loan) {
        rows.push(terms_row(alloc, ledger, &terms)?)?;
    }
    Ok(())
}

/// The row of the loan with these terms.
fn terms_row(alloc: Global, ledger: &Ledger, terms: &Terms<'_>) -> Result<String, NoMemory>
    ensures { IfOk result (λ sql. string_bytes sql
        ≡ row (loan_values ledger.now (agreement_with terms.now))) }
{
    let values = [
        Value::Loan(terms.loan),
        Value::Place(terms.partner),
        Value::Day(terms.first),
        day_if(ledger.last_day(&terms.loan)),
        state_if(ledger.loan_state(&terms.loan)),
    ];
    row(alloc, &values)
}
