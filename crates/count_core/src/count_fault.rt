//! The faults of a count list.
ghost use Rattle.std.specs.Prelude.{◌≡◌};
ghost use Rattle.count_core.specs.CountFaults.{name_of, row_of};

use std::alloc::{AllocError, AllocFailed};
use thiserror::Error;

/// Why bytes aren't a count list. NotCsv comes first, then the first row with a fault, and in that
/// row the first of these. A number is that of the row, counted from 1 among the rows that `csv`
/// returns.
#[derive(Clone, Copy, Debug, PartialEq, Eq, Error)]
pub enum CountFault {
    /// The bytes aren't UTF-8.
    #[error("not UTF-8")]
    NotCsv,
    /// The row has more than two fields.
    #[error("row {0}: more than a place and a thing")]
    BadFields(u64),
    /// The first field isn't a place's code, or the second isn't a thing's.
    #[error("row {0}: not a code of a place or of a thing")]
    BadCode(u64),
    /// The row is one over the limit of [`MOST_COUNT_ROWS`](crate::MOST_COUNT_ROWS).
    #[error("row {0}: one more than the limit")]
    TooMany(u64),
    /// A request for memory was refused. It can come at any row.
    #[error("out of memory")]
    NoMemory,
}

impl CountFault {
    /// Returns the fault's name.
    pub fn name(&self) -> &'static str
        ensures { result.now ≡ name_of self.now }
    {
        match self {
            CountFault::NotCsv => "NotCsv",
            CountFault::BadFields(_) => "BadFields",
            CountFault::BadCode(_) => "BadCode",
            CountFault::TooMany(_) => "TooMany",
            CountFault::NoMemory => "NoMemory",
        }
    }

    /// Returns the number of the row that has the fault, from 1, or None for a fault of the whole
    /// list.
    pub fn row(&self) -> Option<u64>
        ensures { result ≡ row_of self.now }
    {
        match self {
            CountFault::BadFields(row) | CountFault::BadCode(row) | CountFault::TooMany(row) => {
                Some(*row)
            }
            CountFault::NotCsv | CountFault::NoMemory => None,
        }
    }
}

impl From<AllocError> for CountFault {
    ghost use Rattle.std.specs.Prelude.{◌≡◌};
    ghost use Rattle.count_core.specs.declared.count_fault.CountFault.TheVariants.{NoMemory};

    ghost from_gives = { λ _ e. e ≡ NoMemory };

    fn from(_error: AllocError) -> CountFault {
        CountFault::NoMemory
    }
}

impl<T: Drop> From<AllocFailed<T>> for CountFault {
    ghost use Rattle.std.specs.Prelude.{◌≡◌};
    ghost use Rattle.count_core.specs.declared.count_fault.CountFault.TheVariants.{NoMemory};

    ghost from_gives = { λ _ e. e ≡ NoMemory };

    fn from(_error: AllocFailed<T>) -> CountFault {
        CountFault::NoMemory
    }
}
