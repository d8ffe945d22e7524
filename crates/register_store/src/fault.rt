//! Why a text is rejected as a message.

use crate::Key;
use codes_core::NoMemory;
use std::alloc::AllocError;
use thiserror::Error;

/// Why a text is rejected as a message. `NotJson` comes first, then the faults of its kind
/// (`Missing`, `BadKind`), then those of its other keys (`Missing`, `BadField`) in the order of
/// `specs/Kinds.antt`. `NoMemory` may come instead.
#[derive(Clone, Copy, Debug, PartialEq, Eq, Error)]
pub enum ReadFault {
    #[error("no JSON object")]
    NotJson,
    #[error("no key {0}")]
    Missing(Key),
    #[error("unknown kind of message")]
    BadKind,
    #[error("a wrong value for the key {0}")]
    BadField(Key),
    #[error("out of memory")]
    NoMemory,
}

impl From<AllocError> for ReadFault {
    ghost use Rattle.std.specs.Prelude.{◌≡◌};
    ghost use Rattle.register_store.specs.declared.fault.ReadFault.TheVariants as faults;

    ghost from_gives = { λ _ e. e ≡ faults.NoMemory };

    fn from(_error: AllocError) -> ReadFault {
        ReadFault::NoMemory
    }
}

impl From<NoMemory> for ReadFault {
    ghost use Rattle.std.specs.Prelude.{◌≡◌};
    ghost use Rattle.register_store.specs.declared.fault.ReadFault.TheVariants as faults;

    ghost from_gives = { λ _ e. e ≡ faults.NoMemory };

    fn from(_error: NoMemory) -> ReadFault {
        ReadFault::NoMemory
    }
}
