//! The faults that stop a replay.

use crate::HubFault;
use thiserror::Error;

/// Why a replay stopped.
#[derive(Clone, Copy, Debug, PartialEq, Eq, Error)]
pub enum ReplayFault {
    /// A request for memory was refused.
    #[error("out of memory")]
    NoMemory,
    /// The store failed, for another reason than memory.
    #[error("the store failed")]
    Store,
    /// The reader failed, or the input didn't end within 4,294,967,295 reads.
    #[error("the input could not be read")]
    ReadFailed,
    /// The writer failed, took no byte, or didn't take a reply within 4,294,967,295 writes.
    #[error("the output could not be written")]
    WriteFailed,
}

impl From<HubFault> for ReplayFault {
    ghost use Rattle.std.specs.Prelude.{◌≡◌};
    ghost use Rattle.hub_core.specs.Faults.{replay_fault};

    ghost from_gives = { λ fault e. e ≡ replay_fault fault };

    fn from(fault: HubFault) -> ReplayFault {
        match fault {
            HubFault::Store => ReplayFault::Store,
            // The hub of a replay isn't down, so Down never comes.
            HubFault::NoMemory | HubFault::Down => ReplayFault::NoMemory,
        }
    }
}
