//! Why a station has no number to fill.

use std::alloc::AllocError;
use thiserror::Error;

/// Why there is no line that fills a station's next number. If several apply, the first in this
/// order is returned; `NoMemory` can come instead of any.
#[derive(Clone, Copy, Debug, PartialEq, Eq, Error)]
pub enum GapFault {
    /// The station's sign-off is posted.
    #[error("the station has signed off")]
    SignedOff,
    /// The last number that a message may have is posted.
    #[error("the station has no number left")]
    Full,
    /// The loan of the message was agreed, so the message could take effect.
    #[error("loan LO0000.1 was agreed")]
    KnownLoan,
    /// A request for memory was refused.
    #[error("out of memory")]
    NoMemory,
}

impl From<codes_core::NoMemory> for GapFault {
    ghost use Rattle.std.specs.Prelude.{◌≡◌};
    ghost use Rattle.line_files.specs.declared.gap_fault.GapFault.TheVariants as faults;

    ghost from_gives = { λ _ e. e ≡ faults.NoMemory };

    fn from(_fault: codes_core::NoMemory) -> GapFault {
        GapFault::NoMemory
    }
}

impl From<AllocError> for GapFault {
    ghost use Rattle.std.specs.Prelude.{◌≡◌};
    ghost use Rattle.line_files.specs.declared.gap_fault.GapFault.TheVariants as faults;

    ghost from_gives = { λ _ e. e ≡ faults.NoMemory };

    fn from(_error: AllocError) -> GapFault {
        GapFault::NoMemory
    }
}
