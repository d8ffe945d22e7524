//! Why a text is rejected as a code or a name, and the fault for failed allocations.
ghost use Rattle.std.specs.Prelude.{◌≡◌, Bool, None, Some, MatchResult};
ghost use Rattle.codes_core.specs.declared.fault.CodeFault.TheVariants.{BadNumber};
ghost use Rattle.codes_core.specs.Grammar.{code_fault, numbers_of};

use std::alloc::{AllocError, AllocFailed};
use thiserror::Error;

/// Why a text is rejected as a code or a day. If several apply, the first in this order is
/// returned. `BadNumber` is for things and loans only, `NoSuchDay` for days only.
#[derive(Clone, Copy, Debug, PartialEq, Eq, Error)]
pub enum CodeFault {
    #[error("empty")]
    Empty,
    #[error("not the form of this code")]
    BadShape,
    #[error("a number outside 1 to 999999, or one that begins with 0")]
    BadNumber,
    #[error("no such day")]
    NoSuchDay,
}

/// Why a text is rejected as a name. If several apply, the first in this order is returned.
#[derive(Clone, Copy, Debug, PartialEq, Eq, Error)]
pub enum NameFault {
    #[error("empty")]
    Empty,
    #[error("not UTF-8 of at most 60 bytes without control bytes")]
    BadShape,
    #[error("out of memory")]
    NoMemory,
}

/// Memory could not be allocated.
#[derive(Clone, Copy, Debug, PartialEq, Eq, Error)]
#[error("out of memory")]
pub struct NoMemory;

impl From<AllocError> for NoMemory {
    fn from(_error: AllocError) -> NoMemory {
        NoMemory
    }
}

impl<T: Drop> From<AllocFailed<T>> for NoMemory {
    fn from(_error: AllocFailed<T>) -> NoMemory {
        NoMemory
    }
}

impl From<AllocError> for NameFault {
    ghost use Rattle.std.specs.Prelude.{◌≡◌};
    ghost use Rattle.codes_core.specs.declared.fault.NameFault.TheVariants as faults;

    ghost from_gives = { λ _ e. e ≡ faults.NoMemory };

    fn from(_error: AllocError) -> NameFault {
        NameFault::NoMemory
    }
}

/// Returns the first fault of a code's text: `Empty`; `BadShape`, if `numbers` is `None`;
/// `BadNumber`, if it is `Some(false)`.
///
/// `numbers` is `None` if the text does not have the code's shape, otherwise whether the numbers in
/// it are valid.
pub(crate) fn test(bytes: &[u8], numbers: Option<bool>) -> Result<(), CodeFault>
    ensures { (has_shape is_right : Bool) → numbers ≡ numbers_of has_shape is_right
        → MatchResult result (λ _. code_fault BadNumber has_shape is_right bytes.now ≡ None)
        (λ fault. code_fault BadNumber has_shape is_right bytes.now ≡ Some fault) }
{
    if bytes.is_empty() {
        return Err(CodeFault::Empty);
    }
    match numbers {
        None => Err(CodeFault::BadShape),
        Some(false) => Err(CodeFault::BadNumber),
        Some(true) => Ok(()),
    }
}
