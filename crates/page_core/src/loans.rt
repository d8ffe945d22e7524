//! The table of the loans.
ghost use Rattle.std.specs.Prelude.{◌≡◌, IfOk, map, string_bytes};
ghost use Rattle.posting_core.specs.Book.{loans_in};
ghost use Rattle.page_core.specs.Pieces.{page_text};
ghost use Rattle.page_core.specs.Loans.{count_out, is_among, loan_text, loan_values};
ghost use Rattle.page_core.specs.Loans.{overdue_cell};
ghost use Rattle.page_core.specs.Loans.{overdue_on};
ghost use Rattle.reports.specs.Terms.{agreement_with};
ghost use Rattle.reports.specs.Values.{value_of};
ghost use Rattle.page_core.specs.Values.{values_row};

use crate::values::values_row;
use codes_core::{Day, LoanCode, NoMemory};
use posting_core::Ledger;
use reports::sections::{Rows, Terms, Value, agreed_terms, day_if, is_out, state_if};
use std::alloc::Global;

/// The agreed loans, in the order of their agreements, and those of them that are overdue.
#[derive(Drop)]
pub(crate) struct Loans<'a> {
    ledger: &'a Ledger,
    overdue: Vec<LoanCode>,
}

impl<'a> Rows for Loans<'a> {
    ghost use Rattle.std.specs.Prelude.{map};
    ghost use Rattle.posting_core.specs.Book.{loans_in};
    ghost use Rattle.page_core.specs.Loans.{loan_text};

    ghost texts = { λ s. map (loan_text s.ledger.now s.overdue.items) (loans_in s.ledger.now) };

    fn len(&self) -> usize {
        self.ledger.loan_count()
    }

    fn row(&self, alloc: Global, i: usize) -> Result<String, NoMemory> {
        let loan = self.ledger.loan_at(i);
        loan_row(alloc, self.ledger, self.overdue.as_slice(), &loan)
    }
}

impl<'a> Loans<'a> {
    /// Finds the loans that are overdue on the day, if one is given. Fails with `NoMemory`.
    pub(crate) fn find(
        alloc: Global,
        ledger: &'a Ledger,
        on: Option<Day>,
    ) -> Result<Loans<'a>, NoMemory>
        ensures { IfOk result
            (λ found. map (loan_text found.ledger.now found.overdue.items)
            (loans_in found.ledger.now)
            ≡ map (loan_text ledger.entry.now (overdue_on ledger.entry.now on))
            (loans_in ledger.entry.now)) }
    {
        let overdue = overdue_on(alloc, ledger, on)?;
        Ok(Loans { ledger, overdue })
    }
}

/// The loans that are overdue on the day. None without a day.
fn overdue_on(alloc: Global, ledger: &Ledger, on: Option<Day>) -> Result<Vec<LoanCode>, NoMemory>
    ensures { IfOk result (λ loans. loans.items ≡ overdue_on ledger.now on) }
{
    match on {
        Some(day) => count_core::overdue(alloc, ledger, day),
        None => Ok(Vec::new(alloc)),
    }
}

/// The row of a loan.
fn loan_row(
    alloc: Global,
    ledger: &Ledger,
    overdue: &[LoanCode],
    loan: &LoanCode,
) -> Result<String, NoMemory>
    ensures { IfOk result
        (λ row. string_bytes row ≡ loan_text ledger.now overdue.now loan.now) }
{
    match agreed_terms(ledger, loan) {
        Some(terms) => terms_row(alloc, ledger, overdue, &terms),
        None => Ok(String::new(alloc)),
    }
}

/// The row of the loan with these terms.
fn terms_row(
    alloc: Global,
    ledger: &Ledger,
    overdue: &[LoanCode],
    terms: &Terms<'_>,
) -> Result<String, NoMemory>
    ensures { IfOk result (λ row. string_bytes row ≡ page_text (values_row
        (loan_values ledger.now overdue.now (agreement_with terms.now)))) }
{
    let values = [
        Value::Loan(terms.loan),
        state_if(ledger.loan_state(&terms.loan)),
        Value::Place(terms.partner),
        Value::Day(terms.first),
        day_if(ledger.last_day(&terms.loan)),
        Value::Number(terms.objects.len() as u64),
        Value::Number(count_out(ledger, terms)),
        overdue_if(overdue, &terms.loan),
    ];
    values_row(alloc, &values)
}

/// The word `overdue`, if the loan is one of these.
fn overdue_if<'a>(overdue: &[LoanCode], loan: &LoanCode) -> Value<'a>
    ensures { value_of result ≡ overdue_cell overdue.now loan.now }
{
    if is_among(overdue, loan) {
        Value::Word("overdue")
    } else {
        Value::Nothing
    }
}

fn is_among(loans: &[LoanCode], loan: &LoanCode) -> bool
    ensures { result ≡ is_among loans.now loan.now }
{
    loans.iter().any(|other| *other == *loan)
}

/// The number of the loan's objects that have left or arrived and have not gone back.
fn count_out(ledger: &Ledger, terms: &Terms<'_>) -> u64
    ensures { result ≡ count_out ledger.now (agreement_with terms.now) }
{
    let mut count = 0;
    for i in 0..terms.objects.len() {
        if is_out(ledger, terms, &terms.objects[i]) {
            count += 1;
        }
    }
    count
}
