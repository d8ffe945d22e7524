//! Why a call of a register fails.

use codes_core::NoMemory;
use std::alloc::{AllocError, AllocFailed};
use thiserror::Error;

/// Why a call of a register fails.
#[derive(Clone, Copy, Debug, PartialEq, Eq, Error)]
pub enum StoreFault {
    /// Memory could not be allocated.
    #[error("out of memory")]
    NoMemory,
    /// The store failed, but not for lack of memory.
    #[error("the store failed")]
    Store,
    /// The store was made for another setup.
    #[error("the store is of another setup")]
    OtherSetup,
    /// The store is damaged at the row of this entry, from 1, or elsewhere if the number is 0.
    #[error("the store is damaged at {0}")]
    Damaged(u64),
    /// The store has another version.
    #[error("the store is of another version")]
    OtherVersion,
}

impl From<AllocError> for StoreFault {
    ghost use Rattle.std.specs.Prelude.{◌≡◌};
    ghost use Rattle.register_store.specs.declared.store_fault.StoreFault.TheVariants as faults;

    ghost from_gives = { λ _ e. e ≡ faults.NoMemory };

    fn from(_error: AllocError) -> StoreFault {
        StoreFault::NoMemory
    }
}

impl From<NoMemory> for StoreFault {
    ghost use Rattle.std.specs.Prelude.{◌≡◌};
    ghost use Rattle.register_store.specs.declared.store_fault.StoreFault.TheVariants as faults;

    ghost from_gives = { λ _ e. e ≡ faults.NoMemory };

    fn from(_fault: NoMemory) -> StoreFault {
        StoreFault::NoMemory
    }
}

impl<T: Drop> From<AllocFailed<T>> for StoreFault {
    ghost use Rattle.std.specs.Prelude.{◌≡◌};
    ghost use Rattle.register_store.specs.declared.store_fault.StoreFault.TheVariants as faults;

    ghost from_gives = { λ _ e. e ≡ faults.NoMemory };

    fn from(_error: AllocFailed<T>) -> StoreFault {
        StoreFault::NoMemory
    }
}
