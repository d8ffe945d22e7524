//! Why a receipt is not read.

use thiserror::Error;

/// Why bytes are not read as a receipt.
#[derive(Clone, Copy, Debug, PartialEq, Eq, Error)]
pub enum ReceiptFault {
    /// They are not the text of a receipt.
    #[error("not a receipt")]
    NotReceipt,
    /// A request for memory was refused.
    #[error("out of memory")]
    NoMemory,
}

impl From<codes_core::NoMemory> for ReceiptFault {
    ghost use Rattle.std.specs.Prelude.{◌≡◌};
    ghost use Rattle.seal_core.specs.declared.receipt_fault.ReceiptFault.TheVariants as faults;

    ghost from_gives = { λ _ e. e ≡ faults.NoMemory };

    fn from(_fault: codes_core::NoMemory) -> ReceiptFault {
        ReceiptFault::NoMemory
    }
}
