//! The faults that stop a run.

use crate::ReplayFault;
use nest_core::SetupFault;
use std::alloc::AllocError;
use thiserror::Error;

/// Why a run stopped.
#[derive(Clone, Copy, Debug, PartialEq, Eq, Error)]
pub enum RunFault {
    /// A request for memory was refused.
    #[error("out of memory")]
    NoMemory,
    /// The store failed, for another reason than memory. A run's store is in memory, so this never
    /// comes from [`run`](crate::run).
    #[error("the store failed")]
    Store,
    /// The reader failed, or the input didn't end within 4,294,967,295 reads.
    #[error("the input could not be read")]
    ReadFailed,
    /// The writer failed, took no byte, or didn't take a reply within 4,294,967,295 writes.
    #[error("the output could not be written")]
    WriteFailed,
    /// The setup has this fault, which is its first.
    #[error("the setup: {0}")]
    Setup(SetupFault),
    /// The head has more than [`LONGEST_HEAD`](crate::LONGEST_HEAD) bytes.
    #[error("the setup is too long")]
    HeadTooLong,
}

impl From<AllocError> for RunFault {
    ghost use Rattle.std.specs.Prelude.{◌≡◌};
    ghost use Rattle.hub_core.specs.declared.run_fault.RunFault.TheVariants as faults;

    ghost from_gives = { λ _ e. e ≡ faults.NoMemory };

    fn from(_error: AllocError) -> RunFault {
        RunFault::NoMemory
    }
}

impl From<SetupFault> for RunFault {
    ghost use Rattle.std.specs.Prelude.{◌≡◌};
    ghost use Rattle.hub_core.specs.WholeRun.{told_fault};

    ghost from_gives = { λ fault e. e ≡ told_fault fault };

    fn from(fault: SetupFault) -> RunFault {
        match fault {
            SetupFault::NoMemory => RunFault::NoMemory,
            _ => RunFault::Setup(fault),
        }
    }
}

impl From<ReplayFault> for RunFault {
    ghost use Rattle.std.specs.Prelude.{◌≡◌};
    ghost use Rattle.hub_core.specs.WholeRun.{run_fault};

    ghost from_gives = { λ fault e. e ≡ run_fault fault };

    fn from(fault: ReplayFault) -> RunFault {
        match fault {
            ReplayFault::NoMemory => RunFault::NoMemory,
            ReplayFault::Store => RunFault::Store,
            ReplayFault::ReadFailed => RunFault::ReadFailed,
            ReplayFault::WriteFailed => RunFault::WriteFailed,
        }
    }
}
