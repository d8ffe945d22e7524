//! The loans that are overdue.
ghost use Rattle.std.specs.Prelude.{◌≡◌, IfOk, map};
ghost use Rattle.reports.specs.Loans.{overdue_row, overdue_rows};
ghost use Rattle.reports.specs.Cells.{cell_of};

use crate::Form;
use crate::field::Field;
use crate::optional_fields::day_if;
use crate::rows::Rows;
use codes_core::{Day, LoanCode, NoMemory};
use posting_core::Ledger;
use std::alloc::Global;

/// The loans that are overdue on a day, in the order of their agreements.
#[derive(Drop)]
pub(crate) struct Overdue<'a> {
    ledger: &'a Ledger,
    loans: Vec<LoanCode>,
}

impl<'a> Rows for Overdue<'a> {
    ghost use Rattle.std.specs.Prelude.{map};
    ghost use Rattle.reports.specs.Loans.{overdue_row};

    ghost rows = { λ s form. map (overdue_row s.ledger.now) s.loans.items };

    fn len(&self, _form: Form) -> usize {
        self.loans.len()
    }

    fn row(&self, alloc: Global, _form: Form, i: usize) -> Result<Vec<Field<'_>>, NoMemory> {
        overdue_row(alloc, self.ledger, self.loans[i])
    }
}

impl<'a> Overdue<'a> {
    /// Finds the loans that are overdue on the day.
    pub(crate) fn find(alloc: Global, ledger: &'a Ledger, day: Day) -> Result<Overdue<'a>, NoMemory>
        ensures { IfOk result (λ found. map (overdue_row found.ledger.now) found.loans.items
            ≡ overdue_rows ledger.entry.now day) }
    {
        let loans = count_core::overdue(alloc, ledger, day)?;
        Ok(Overdue { ledger, loans })
    }
}

fn overdue_row<'a>(
    alloc: Global,
    ledger: &Ledger,
    loan: LoanCode,
) -> Result<Vec<Field<'a>>, NoMemory>
    ensures { IfOk result (λ row. map cell_of row.items ≡ overdue_row ledger.now loan) }
{
    let last = ledger.last_day(&loan);
    Ok(vec![in alloc; Field::Loan(loan), day_if(last)]?)
}
