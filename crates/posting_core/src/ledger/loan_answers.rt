//! What a ledger answers of its loans.
ghost use Rattle.std.specs.Prelude.{◌≡◌, ◌<◌, All, Some, length, is_some, slice_get, true};
ghost use Rattle.std.specs.Option.{option_map};
ghost use Rattle.nest_core.specs.Puts.{is_among};
ghost use Rattle.posting_core.specs.Agreements.{agreement, agreement_by, is_agreed};
ghost use Rattle.posting_core.specs.Book.{last_day_in, line_in, loans_in, objects_of_loan};
ghost use Rattle.posting_core.specs.Book.{state_in};

use super::Ledger;
use crate::{LineStage, LoanState, PostedEntry};
use codes_core::{Day, LoanCode};
use nest_core::ThingNo;

impl Ledger {
    /// The number of agreed loans.
    pub fn loan_count(&self) -> usize
        ensures { result ≡ length (loans_in self.now) }
    {
        self.loans.len()
    }

    /// The code of loan `i`. Loans are numbered from 0, in the order of their agreements. `i` must
    /// be below [`loan_count`](Self::loan_count).
    pub fn loan_at(&self, i: usize) -> LoanCode
        requires { i < length (loans_in self.now) }
        ensures loan { slice_get (loans_in self.now) i ≡ Some result }
        ensures agreed { is_agreed self.now.posted result ≡ true }
    {
        self.loans.at(i).loan()
    }

    /// The objects of loan `i` by number, in the order of its agreement. `i` must be below
    /// [`loan_count`](Self::loan_count).
    pub fn objects(&self, i: usize) -> &[ThingNo]
        requires { i < length (loans_in self.now) }
        ensures objects { option_map (objects_of_loan self.now) (slice_get (loans_in self.now) i)
            ≡ Some result.now }
        ensures within { All (λ o. o < length self.now.museum.things) result.now }
    {
        self.loans.at(i).objects()
    }

    /// The stage of an object's line. `None` if the loan isn't agreed or doesn't list the object.
    pub fn line(&self, loan: &LoanCode, object: ThingNo) -> Option<LineStage>
        ensures line { result ≡ line_in self.now loan.now object }
        ensures listed { is_some result ≡ is_among object (objects_of_loan self.now loan.now) }
    {
        self.loan(loan)?.1.stage_of(object)
    }

    /// The entry that agreed a loan. `None` if the loan isn't agreed.
    pub fn agreement(&self, loan: &LoanCode) -> Option<&PostedEntry>
        ensures agreement { option_map (λ e. agreement_by e.now.verdict e.now.message) result
            ≡ option_map Some (agreement self.now.posted loan.now) }
        ensures agreed { is_some result ≡ is_agreed self.now.posted loan.now }
    {
        let (i, _) = self.loan(loan)?;
        let number = self.agreed[i];
        Some(&self.posted[number as usize - 1])
    }

    /// The state of a loan. `None` if it isn't agreed.
    pub fn loan_state(&self, loan: &LoanCode) -> Option<LoanState>
        ensures state { result ≡ state_in self.now loan.now }
        ensures agreed { is_some result ≡ is_agreed self.now.posted loan.now }
    {
        Some(self.loan(loan)?.1.state())
    }

    /// The last day of a loan. `None` if it isn't agreed.
    pub fn last_day(&self, loan: &LoanCode) -> Option<Day>
        ensures day { result ≡ last_day_in self.now loan.now }
        ensures agreed { is_some result ≡ is_agreed self.now.posted loan.now }
    {
        Some(self.loan(loan)?.1.last())
    }
}
