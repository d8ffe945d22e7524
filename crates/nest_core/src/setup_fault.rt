//! Why a setup file is rejected.
ghost use Rattle.std.specs.Prelude.{◌≡◌};
ghost use Rattle.nest_core.specs.SetupFaults.{name_of, row_of};

use std::alloc::{AllocError, AllocFailed};
use thiserror::Error;

/// Why a setup file is rejected. `NotCsv` comes before all others, then the first fault of the
/// first row that has one, in this order, then `NoStation`. A row's number counts from 1 the rows
/// that `csv` returns.
#[derive(Clone, Copy, Debug, PartialEq, Eq, Error)]
pub enum SetupFault {
    #[error("not UTF-8")]
    NotCsv,
    #[error("row {0}: not a station, place, box, own or lent")]
    BadKind(u64),
    #[error("row {0}: wrong fields for its kind")]
    BadFields(u64),
    #[error("row {0}: not a code or name of this kind")]
    BadCode(u64),
    #[error("row {0}: listed in an earlier row")]
    Repeated(u64),
    #[error("row {0}: no earlier row lists the normal place")]
    UnknownNormal(u64),
    #[error("row {0}: one more than the limit")]
    TooMany(u64),
    #[error("no station")]
    NoStation,
    #[error("out of memory")]
    NoMemory,
}

impl SetupFault {
    /// The name of the fault.
    pub fn name(&self) -> &'static str
        ensures { result.now ≡ name_of self.now }
    {
        match self {
            SetupFault::NotCsv => "NotCsv",
            SetupFault::BadKind(_) => "BadKind",
            SetupFault::BadFields(_) => "BadFields",
            SetupFault::BadCode(_) => "BadCode",
            SetupFault::Repeated(_) => "Repeated",
            SetupFault::UnknownNormal(_) => "UnknownNormal",
            SetupFault::TooMany(_) => "TooMany",
            SetupFault::NoStation => "NoStation",
            SetupFault::NoMemory => "NoMemory",
        }
    }

    /// The row that has the fault, from 1. `None` if the fault isn't one of a row.
    pub fn row(&self) -> Option<u64>
        ensures { result ≡ row_of self.now }
    {
        match self {
            SetupFault::BadKind(row)
            | SetupFault::BadFields(row)
            | SetupFault::BadCode(row)
            | SetupFault::Repeated(row)
            | SetupFault::UnknownNormal(row)
            | SetupFault::TooMany(row) => Some(*row),
            SetupFault::NotCsv | SetupFault::NoStation | SetupFault::NoMemory => None,
        }
    }
}

impl From<AllocError> for SetupFault {
    ghost use Rattle.std.specs.Prelude.{◌≡◌};
    ghost use Rattle.nest_core.specs.declared.setup_fault.SetupFault.TheVariants.{NoMemory};

    ghost from_gives = { λ _ e. e ≡ NoMemory };

    fn from(_error: AllocError) -> SetupFault {
        SetupFault::NoMemory
    }
}

impl<T: Drop> From<AllocFailed<T>> for SetupFault {
    ghost use Rattle.std.specs.Prelude.{◌≡◌};
    ghost use Rattle.nest_core.specs.declared.setup_fault.SetupFault.TheVariants.{NoMemory};

    ghost from_gives = { λ _ e. e ≡ NoMemory };

    fn from(_error: AllocFailed<T>) -> SetupFault {
        SetupFault::NoMemory
    }
}
