//! The faults that stop the work at a desk.

use crate::line_fault::LineFault;
use hub_core::ReplayFault;
use thiserror::Error;

/// Why the work at a desk stopped.
#[derive(Clone, Copy, Debug, PartialEq, Eq, Error)]
pub enum DeskFault {
    /// A request for memory was refused.
    #[error("out of memory")]
    NoMemory,
    /// The store failed, for another reason than memory.
    #[error("the store failed")]
    Store,
    /// The reader failed, or the input didn't end within 4,294,967,295 reads.
    #[error("the input could not be read")]
    ReadFailed,
    /// The writer failed, took no byte, or didn't take an answer within 4,294,967,295 writes.
    #[error("the output could not be written")]
    WriteFailed,
    /// The log failed, took no byte, or didn't take a line within 4,294,967,295 writes.
    #[error("the log could not be written")]
    LogFailed,
}

impl From<ReplayFault> for DeskFault {
    ghost use Rattle.std.specs.Prelude.{◌≡◌};
    ghost use Rattle.desk_core.specs.Faults.{of_replay};

    ghost from_gives = { λ fault e. e ≡ of_replay fault };

    fn from(fault: ReplayFault) -> DeskFault {
        match fault {
            ReplayFault::NoMemory => DeskFault::NoMemory,
            ReplayFault::Store => DeskFault::Store,
            ReplayFault::ReadFailed => DeskFault::ReadFailed,
            ReplayFault::WriteFailed => DeskFault::WriteFailed,
        }
    }
}

impl From<LineFault> for DeskFault {
    ghost use Rattle.std.specs.Prelude.{◌≡◌};
    ghost use Rattle.desk_core.specs.Faults.{of_line};

    ghost from_gives = { λ fault e. e ≡ of_line fault };

    fn from(fault: LineFault) -> DeskFault {
        match fault {
            LineFault::Hub(fault) => DeskFault::from(ReplayFault::from(fault)),
            LineFault::Log => DeskFault::LogFailed,
        }
    }
}
