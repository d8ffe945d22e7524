//! Why printing stopped.

use codes_core::NoMemory;
use std::alloc::{AllocError, AllocFailed};
use thiserror::Error;

/// Why printing stopped.
#[derive(Clone, Copy, Debug, PartialEq, Eq, Error)]
pub enum PrintFault {
    /// Out of memory.
    #[error("out of memory")]
    NoMemory,
    /// The writer failed, accepted no byte, or did not accept a text in 4,294,967,295 writes.
    #[error("the output could not be written")]
    WriteFailed,
}

impl From<NoMemory> for PrintFault {
    ghost use Rattle.std.specs.Prelude.{◌≡◌};
    ghost use Rattle.reports.specs.declared.fault.PrintFault.TheVariants.{NoMemory};

    ghost from_gives = { λ _ e. e ≡ NoMemory };

    fn from(_fault: NoMemory) -> PrintFault {
        PrintFault::NoMemory
    }
}

impl From<AllocError> for PrintFault {
    ghost use Rattle.std.specs.Prelude.{◌≡◌};
    ghost use Rattle.reports.specs.declared.fault.PrintFault.TheVariants.{NoMemory};

    ghost from_gives = { λ _ e. e ≡ NoMemory };

    fn from(_error: AllocError) -> PrintFault {
        PrintFault::NoMemory
    }
}

impl<T: Drop> From<AllocFailed<T>> for PrintFault {
    ghost use Rattle.std.specs.Prelude.{◌≡◌};
    ghost use Rattle.reports.specs.declared.fault.PrintFault.TheVariants.{NoMemory};

    ghost from_gives = { λ _ e. e ≡ NoMemory };

    fn from(_error: AllocFailed<T>) -> PrintFault {
        PrintFault::NoMemory
    }
}
