//! Why there is no audit.

use codes_core::NoMemory;
use std::alloc::AllocError;
use thiserror::Error;

/// Why a count list has no audit. `NoMemory` can come instead of `NumberOutside`.
#[derive(Clone, Copy, Debug, PartialEq, Eq, Error)]
pub enum AuditFault {
    /// A line would have the number 0, or one above [`LAST_NUMBER`](posting_core::LAST_NUMBER).
    #[error("the numbers of the lines are not all from 1 to 999,999")]
    NumberOutside,
    /// A request for memory was refused.
    #[error("out of memory")]
    NoMemory,
}

impl From<NoMemory> for AuditFault {
    ghost use Rattle.std.specs.Prelude.{◌≡◌};
    ghost use Rattle.line_files.specs.declared.audits.audit_fault.AuditFault.TheVariants as faults;

    ghost from_gives = { λ _ e. e ≡ faults.NoMemory };

    fn from(_fault: NoMemory) -> AuditFault {
        AuditFault::NoMemory
    }
}
