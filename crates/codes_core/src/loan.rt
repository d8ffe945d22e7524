//! The codes of loans.
ghost use Rattle.std.specs.Prelude.{◌≡◌, ◌++◌, None, Some, OnOk, OnErr, MatchResult, string_bytes};
ghost use Rattle.std.specs.Prelude.{◌≤◌, ◌<◌, length, MatchOption};
ghost use Rattle.codes_core.specs.Grammar.{numbers_of};
ghost use Rattle.codes_core.specs.Loan.{is_out, is_loan_shape, has_loan_number, loan_fault};

use crate::fault::test;
use crate::groups::numbers_of;
use crate::spelling::Spelling;
use crate::{CodeFault, NoMemory};
use std::alloc::Global;
use std::marker::Model;

/// A loan's code (`LO2024.1`): `LO` for a loan out or `LI` for a loan in, any four digits, a dot,
/// and a number from 1 to 999,999 without a leading 0. Contracts see it as its bytes.
#[derive(Clone, Copy, Debug, PartialEq, Eq, Hash)]
pub struct LoanCode {
    // at most `LO` or `LI`, four digits, a dot and six digits
    spelling: Spelling<13>,
}

impl Model for LoanCode {
    ghost use Rattle.std.specs.Prelude.{List, ℕ, ◌≡◌, None};
    ghost use Rattle.codes_core.specs.Loan.{loan_fault};

    ghost Value = { List ℕ };

    ghost view = { λ c. c.spelling };

    ghost invariant = { λ c. loan_fault c.spelling ≡ None };

    ghost inverse = { λ v. record { spelling = v } };
}

impl LoanCode {
    /// Returns the code that the bytes spell. Fails with the first of `Empty`, `BadShape` and
    /// `BadNumber` that applies.
    pub fn parse(bytes: &[u8]) -> Result<LoanCode, CodeFault>
        // The code is the bytes themselves. Parsing fails only for bytes that are not a code.
        ensures exact { MatchResult result
            (λ code. (code ≡ bytes.now) × (loan_fault bytes.now ≡ None))
            (λ fault. loan_fault bytes.now ≡ Some fault) }
    {
        test(bytes, loan_number(bytes))?;
        Ok(LoanCode {
            spelling: Spelling::new(bytes),
        })
    }

    /// The code as text.
    pub fn as_str(&self) -> &str
        ensures text { result.now ≡ self.now }
        ensures code { loan_fault self.now ≡ None }
    {
        self.spelling.as_str()
    }

    /// The code with room for only `K` bytes, or `None` if it is longer.
    pub fn shortened<const K: usize>(&self) -> Option<Spelling<K>>
        requires { K ≤ 13 }
        ensures { MatchOption result (K < length self.now)
            (λ short. (short ≡ self.now) × (loan_fault self.now ≡ None)) }
    {
        self.spelling.shortened()
    }

    /// The code as bytes.
    pub fn as_bytes(&self) -> &[u8]
        ensures text { result.now ≡ self.now }
        ensures code { loan_fault self.now ≡ None }
    {
        self.spelling.as_bytes()
    }

    /// Appends the code. Fails with `NoMemory`, and then `out` is unchanged.
    pub fn write(&self, _alloc: Global, out: &mut String) -> Result<(), NoMemory>
        ensures ok { OnOk result (string_bytes out.new ≡ string_bytes out.old ++ self.now) }
        ensures err { OnErr result (string_bytes out.new ≡ string_bytes out.old) }
    {
        self.spelling.write(out)
    }

    /// Whether this is a loan out. Otherwise it is a loan in.
    pub fn is_out(&self) -> bool
        ensures { result ≡ is_out self.now }
    {
        is_out(self.spelling.as_bytes())
    }
}

fn is_out(text: &[u8]) -> bool
    ensures { result ≡ is_out text.now }
{
    text.starts_with(b"LO")
}

/// Whether the number in a loan's code is valid. `None` if the text does not have the shape of a
/// loan's code.
fn loan_number(text: &[u8]) -> Option<bool>
    ensures { result ≡ numbers_of (is_loan_shape text.now) (has_loan_number text.now) }
{
    if !is_out(text) && !text.starts_with(b"LI") {
        return None;
    }
    numbers_of(&text[2..], 1)
}
