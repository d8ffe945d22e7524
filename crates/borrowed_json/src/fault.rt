//! Why bytes are rejected as a JSON value.
use bumpalo::ResetError;
use json::Invalid;
use std::alloc::{AllocError, AllocFailed};

/// Why bytes are rejected.
#[derive(Clone, Copy, Debug, PartialEq, Eq)]
pub enum TextFault {
    /// They are not UTF-8, not JSON, nested too deep, or have a number that is out of range.
    NotJson,
    /// Memory could not be allocated.
    NoMemory,
}

impl From<Invalid> for TextFault {
    ghost use Rattle.std.specs.Prelude.{◌≡◌};
    ghost use Rattle.borrowed_json.specs.declared.fault.TextFault.TheVariants as faults;

    ghost from_gives = { λ _ e. e ≡ faults.NotJson };

    fn from(_invalid: Invalid) -> TextFault {
        TextFault::NotJson
    }
}

impl From<AllocError> for TextFault {
    ghost use Rattle.std.specs.Prelude.{◌≡◌};
    ghost use Rattle.borrowed_json.specs.declared.fault.TextFault.TheVariants as faults;

    ghost from_gives = { λ _ e. e ≡ faults.NoMemory };

    fn from(_error: AllocError) -> TextFault {
        TextFault::NoMemory
    }
}

impl<T: Drop> From<AllocFailed<T>> for TextFault {
    ghost use Rattle.std.specs.Prelude.{◌≡◌};
    ghost use Rattle.borrowed_json.specs.declared.fault.TextFault.TheVariants as faults;

    ghost from_gives = { λ _ e. e ≡ faults.NoMemory };

    fn from(_failed: AllocFailed<T>) -> TextFault {
        TextFault::NoMemory
    }
}

impl From<ResetError> for TextFault {
    ghost use Rattle.std.specs.Prelude.{◌≡◌};
    ghost use Rattle.borrowed_json.specs.declared.fault.TextFault.TheVariants as faults;

    ghost from_gives = { λ _ e. e ≡ faults.NoMemory };

    fn from(_error: ResetError) -> TextFault {
        TextFault::NoMemory
    }
}
