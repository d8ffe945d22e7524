//! All loans, as a ledger keeps them.
ghost use Rattle.std.specs.Prelude.{◌≡◌, ◌<◌, ◌++◌, ◌∷◌, [], List, ℕ, length, map, slice_get, Some};
ghost use Rattle.std.specs.Prelude.{IfSome, OnOk, OnErr};
ghost use Rattle.std.specs.List.{find, position};
ghost use Rattle.std.specs.Option.{option_map};
ghost use Rattle.std.specs.Str.{bytes_eq};
ghost use Rattle.posting_core.specs.LoanRows.{changed, authorised_row, extended_row, with_lines};

use crate::NewLine;
use crate::kept_loan::KeptLoan;
use codes_core::{Day, LoanCode, NoMemory};
use indexmap::IndexSet;
use std::alloc::Global;
use std::marker::Model;

/// The loans, in the order of their agreements. Each is found by its code or by its number.
/// Contracts see them as their rows.
#[derive(Drop)]
pub(crate) struct KeptLoans {
    codes: IndexSet<LoanCode>,
    rows: Vec<KeptLoan>,
}

impl Model for KeptLoans {
    ghost use Rattle.std.specs.Prelude.{◌≡◌, List, map};
    ghost use Rattle.posting_core.specs.LoanRows.{LoanRow};

    ghost Value = { List LoanRow };

    ghost view = { λ k. k.rows.items };

    ghost invariant = { λ k. k.codes.keys ≡ map (λ row. row.loan) k.rows.items };
}

impl KeptLoans {
    /// An empty list of loans. Takes no memory.
    pub(crate) fn new(alloc: Global) -> KeptLoans
        ensures { result ≡ [] }
    {
        KeptLoans {
            codes: IndexSet::new(alloc),
            rows: Vec::new(alloc),
        }
    }

    /// The number of loans.
    pub(crate) fn len(&self) -> usize
        ensures { result ≡ length self.now }
    {
        self.rows.len()
    }

    /// The loan with this number, from 0 in the order of the agreements.
    pub(crate) fn at(&self, i: usize) -> &KeptLoan
        requires { i < length self.now }
        ensures { slice_get self.now i ≡ Some result.now }
    {
        &self.rows[i]
    }

    /// The loan with this code, and its number. `None` if there is none.
    pub(crate) fn get(&self, loan: &LoanCode) -> Option<(usize, &KeptLoan)>
        ensures number { option_map (λ found. found.0) result
            ≡ position (bytes_eq loan.now) (map (λ row. row.loan) self.now) }
        ensures row { option_map (λ found. found.1.now) result
            ≡ find (λ row. bytes_eq loan.now row.loan) self.now }
    {
        let i = self.codes.get_index_of(loan)?;
        Some((i, &self.rows[i]))
    }

    /// Adds a loan, whose code must be new. Fails with `NoMemory`, and then the loans are unchanged
    /// and the new one is dropped.
    pub(crate) fn push(&mut self, loan: KeptLoan) -> Result<(), NoMemory>
        requires { find (λ row. bytes_eq loan.loan row.loan) self.old ≡ None }
        ensures ok { OnOk result (self.new ≡ self.old ++ loan ∷ []) }
        ensures err { OnErr result (self.new ≡ self.old) }
    {
        self.rows.reserve(1)?;
        self.codes.insert(loan.loan())?;
        self.rows.push_reserved(loan);
        Ok(())
    }

    /// Marks the loan with this number, if there is a number, as authorised.
    pub(crate) fn authorise(&mut self, number: Option<usize>)
        requires { IfSome number (λ i. i < length self.old) }
        ensures { (loan : List ℕ)
            → number ≡ position (bytes_eq loan) (map (λ row. row.loan) self.old)
            → self.new ≡ changed authorised_row loan self.old }
    {
        if let Some(i) = number {
            self.rows[i].authorise();
        }
    }

    /// Sets the last day of the loan with this number, if there is a number.
    pub(crate) fn extend(&mut self, number: Option<usize>, last: Day)
        requires { IfSome number (λ i. i < length self.old) }
        ensures { (loan : List ℕ)
            → number ≡ position (bytes_eq loan) (map (λ row. row.loan) self.old)
            → self.new ≡ changed (extended_row last) loan self.old }
    {
        if let Some(i) = number {
            self.rows[i].extend(last);
        }
    }

    /// Sets the stages of these lines of the loan with this number, if there is a number, one after
    /// another.
    pub(crate) fn cross(&mut self, number: Option<usize>, lines: &[NewLine])
        requires { IfSome number (λ i. i < length self.old) }
        ensures { (loan : List ℕ)
            → number ≡ position (bytes_eq loan) (map (λ row. row.loan) self.old)
            → self.new ≡ changed (with_lines lines.now) loan self.old }
    {
        if let Some(i) = number {
            self.rows[i].cross(lines);
        }
    }
}
