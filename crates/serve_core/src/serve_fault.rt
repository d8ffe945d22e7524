//! The faults that stop a serving.

use hub_core::HubFault;
use nest_core::StationNo;
use thiserror::Error;

/// Why a serving stopped.
#[derive(Clone, Copy, Debug, PartialEq, Eq, Error)]
pub enum ServeFault {
    /// A request for memory was refused, or a thread could not be started.
    #[error("out of memory")]
    NoMemory,
    /// The register's store failed, for another reason than memory.
    #[error("the store failed")]
    Store,
    /// The lane of this station had no end.
    #[error("a lane has no end")]
    Unfinished(StationNo),
}

impl From<HubFault> for ServeFault {
    ghost use Rattle.std.specs.Prelude.{◌≡◌};
    ghost use Rattle.serve_core.specs.Sending.{serve_fault};

    ghost from_gives = { λ fault e. e ≡ serve_fault fault };

    fn from(fault: HubFault) -> ServeFault {
        match fault {
            HubFault::NoMemory => ServeFault::NoMemory,
            HubFault::Store => ServeFault::Store,
            // The hub of a serving isn't down before its first fault.
            HubFault::Down => ServeFault::NoMemory,
        }
    }
}
