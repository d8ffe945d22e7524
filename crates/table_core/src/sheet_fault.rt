//! Why bytes aren't a table.
ghost use Rattle.std.specs.Prelude.{◌≡◌};
ghost use Rattle.table_core.specs.SheetFaults.{name_of};

use std::alloc::{AllocError, AllocFailed};
use thiserror::Error;

/// Why bytes aren't a table. The first that applies is returned.
#[derive(Clone, Copy, Debug, PartialEq, Eq, Error)]
pub enum SheetFault {
    /// The bytes begin with a byte order mark of UTF-16, or a byte of the heading is zero.
    #[error("UTF-16, not UTF-8")]
    Utf16,
    /// The bytes aren't UTF-8.
    #[error("not UTF-8")]
    NotUtf8,
    /// The first line is empty.
    #[error("no heading")]
    Empty,
    /// The heading has two or three of comma, semicolon and tab outside quotes.
    #[error("more than one separator in the heading")]
    TwoSeparators,
    /// A request for memory was refused.
    #[error("out of memory")]
    NoMemory,
}

impl SheetFault {
    /// The name of the fault.
    pub fn name(&self) -> &'static str
        ensures { result.now ≡ name_of self.now }
    {
        match self {
            SheetFault::Utf16 => "Utf16",
            SheetFault::NotUtf8 => "NotUtf8",
            SheetFault::Empty => "Empty",
            SheetFault::TwoSeparators => "TwoSeparators",
            SheetFault::NoMemory => "NoMemory",
        }
    }
}

impl From<AllocError> for SheetFault {
    ghost use Rattle.std.specs.Prelude.{◌≡◌};
    ghost use Rattle.table_core.specs.declared.sheet_fault.SheetFault.TheVariants as faults;

    ghost from_gives = { λ _ e. e ≡ faults.NoMemory };

    fn from(_error: AllocError) -> SheetFault {
        SheetFault::NoMemory
    }
}

impl<T: Drop> From<AllocFailed<T>> for SheetFault {
    ghost use Rattle.std.specs.Prelude.{◌≡◌};
    ghost use Rattle.table_core.specs.declared.sheet_fault.SheetFault.TheVariants as faults;

    ghost from_gives = { λ _ e. e ≡ faults.NoMemory };

    fn from(_error: AllocFailed<T>) -> SheetFault {
        SheetFault::NoMemory
    }
}
