//! Why a table has no messages.

use crate::{FaultyCell, HeadingFault};
use codes_core::NoMemory;

/// Why a table has no messages.
#[derive(Drop)]
pub enum TableFault {
    Heading(HeadingFault),
    /// All faults of all rows, in their order. There is at least one.
    Rows(Vec<FaultyCell>),
    NoMemory,
}

impl From<NoMemory> for TableFault {
    ghost use Rattle.std.specs.Prelude.{◌≡◌};
    ghost use Rattle.table_core.specs.declared.table_fault.TableFault.TheVariants as faults;

    ghost from_gives = { λ _ e. e ≡ faults.NoMemory };

    fn from(_fault: NoMemory) -> TableFault {
        TableFault::NoMemory
    }
}
