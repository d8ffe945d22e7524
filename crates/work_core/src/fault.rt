//! Why work on a record stops.

use codes_core::NoMemory;
use desk_core::DeskFault;
use hub_core::ReplayFault;
use register_store::StoreFault;
use reports::PrintFault;
use std::alloc::AllocError;
use thiserror::Error;

/// Why work on a record stops.
#[derive(Debug, Drop, Error)]
pub enum WorkFault {
    /// A request for memory was refused.
    #[error("out of memory")]
    NoMemory,
    /// The input could not be read.
    #[error("the input could not be read")]
    ReadFailed,
    /// The output could not be written.
    #[error("the output could not be written")]
    WriteFailed,
    /// The store failed, or cannot be used with this setup.
    #[error("the store cannot be used")]
    Store(StoreFault),
    /// The log of the desk could not be written.
    #[error("the log could not be written")]
    LogFailed,
    /// The station of the desk has signed off.
    #[error("the station has signed off")]
    SignedOff,
    /// The lines of the station of this name did not come to their end.
    #[error("the lines of station {0} did not come to their end")]
    Unfinished(String),
}

impl From<NoMemory> for WorkFault {
    ghost use Rattle.std.specs.Prelude.{◌≡◌};
    ghost use Rattle.work_core.specs.declared.fault.WorkFault.TheVariants as faults;

    ghost from_gives = { λ _ e. e ≡ faults.NoMemory };

    fn from(_fault: NoMemory) -> WorkFault {
        WorkFault::NoMemory
    }
}

impl From<AllocError> for WorkFault {
    ghost use Rattle.std.specs.Prelude.{◌≡◌};
    ghost use Rattle.work_core.specs.declared.fault.WorkFault.TheVariants as faults;

    ghost from_gives = { λ _ e. e ≡ faults.NoMemory };

    fn from(_error: AllocError) -> WorkFault {
        WorkFault::NoMemory
    }
}

impl From<StoreFault> for WorkFault {
    ghost use Rattle.std.specs.Prelude.{◌≡◌};
    ghost use Rattle.work_core.specs.Faults.{of_store};

    ghost from_gives = { λ fault e. e ≡ of_store fault };

    fn from(fault: StoreFault) -> WorkFault {
        match fault {
            StoreFault::NoMemory => WorkFault::NoMemory,
            _ => WorkFault::Store(fault),
        }
    }
}

impl From<ReplayFault> for WorkFault {
    ghost use Rattle.std.specs.Prelude.{◌≡◌};
    ghost use Rattle.work_core.specs.Faults.{of_replay};

    ghost from_gives = { λ fault e. e ≡ of_replay fault };

    fn from(fault: ReplayFault) -> WorkFault {
        match fault {
            ReplayFault::NoMemory => WorkFault::NoMemory,
            ReplayFault::Store => WorkFault::Store(StoreFault::Store),
            ReplayFault::ReadFailed => WorkFault::ReadFailed,
            ReplayFault::WriteFailed => WorkFault::WriteFailed,
        }
    }
}

impl From<DeskFault> for WorkFault {
    ghost use Rattle.std.specs.Prelude.{◌≡◌};
    ghost use Rattle.work_core.specs.Faults.{of_desk};

    ghost from_gives = { λ fault e. e ≡ of_desk fault };

    fn from(fault: DeskFault) -> WorkFault {
        match fault {
            DeskFault::NoMemory => WorkFault::NoMemory,
            DeskFault::Store => WorkFault::Store(StoreFault::Store),
            DeskFault::ReadFailed => WorkFault::ReadFailed,
            DeskFault::WriteFailed => WorkFault::WriteFailed,
            DeskFault::LogFailed => WorkFault::LogFailed,
        }
    }
}

impl From<PrintFault> for WorkFault {
    ghost use Rattle.std.specs.Prelude.{◌≡◌};
    ghost use Rattle.work_core.specs.Faults.{of_printing};

    ghost from_gives = { λ fault e. e ≡ of_printing fault };

    fn from(fault: PrintFault) -> WorkFault {
        match fault {
            PrintFault::NoMemory => WorkFault::NoMemory,
            PrintFault::WriteFailed => WorkFault::WriteFailed,
        }
    }
}
