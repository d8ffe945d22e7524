//! Why a report's words ask no question.

use codes_core::CodeFault;
use std::alloc::AllocError;
use thiserror::Error;

/// Why a value of a report's words is not in its form, with the text of the value.
#[derive(Clone, Copy, Debug, PartialEq, Eq, Error)]
pub enum ValueFault<'a> {
    /// The text is not a day.
    #[error("{1}: no day: {0}")]
    Day(CodeFault, &'a str),
    /// The text is not the code of a thing.
    #[error("{1}: no code of a thing: {0}")]
    Thing(CodeFault, &'a str),
    /// The text is not the code of a loan.
    #[error("{1}: no code of a loan: {0}")]
    Loan(CodeFault, &'a str),
    /// The text is not the code of a place.
    #[error("{1}: no code of a place: {0}")]
    Place(CodeFault, &'a str),
    /// The text is not a number.
    #[error("{0}: no number")]
    Number(&'a str),
}

/// Why the words of a report want nothing.
#[derive(Clone, Copy, Debug, PartialEq, Eq, Error)]
pub enum WantedFault<'a> {
    /// A value is not in its form.
    #[error("{0}")]
    Value(ValueFault<'a>),
    /// A request for memory was refused.
    #[error("out of memory")]
    NoMemory,
}

impl<'a> From<ValueFault<'a>> for WantedFault<'a> {
    ghost use Rattle.std.specs.Prelude.{◌≡◌};
    ghost use Rattle.question_words.specs.declared.fault.WantedFault.TheVariants as faults;

    ghost from_gives = { λ fault e. e ≡ faults.Value fault };

    fn from(fault: ValueFault<'a>) -> WantedFault<'a> {
        WantedFault::Value(fault)
    }
}

impl<'a> From<AllocError> for WantedFault<'a> {
    ghost use Rattle.std.specs.Prelude.{◌≡◌};
    ghost use Rattle.question_words.specs.declared.fault.WantedFault.TheVariants as faults;

    ghost from_gives = { λ _ e. e ≡ faults.NoMemory };

    fn from(_error: AllocError) -> WantedFault<'a> {
        WantedFault::NoMemory
    }
}
