//! Why a table has no lines.

use crate::{FaultyCell, HeadingFault, SheetFault, TableFault};
use codes_core::NoMemory;

/// Why a table has no lines. The first that applies is returned.
#[derive(Drop)]
pub enum LinesFault {
    /// The bytes aren't a table. Never `SheetFault::NoMemory`.
    Sheet(SheetFault),
    Heading(HeadingFault),
    /// All faults of all rows, in their order. There is at least one.
    Rows(Vec<FaultyCell>),
    /// A request for memory was refused. It can come instead of any.
    NoMemory,
}

impl From<NoMemory> for LinesFault {
    ghost use Rattle.std.specs.Prelude.{◌≡◌};
    ghost use Rattle.table_core.specs.declared.printed.lines_fault.LinesFault.TheVariants as faults;

    ghost from_gives = { λ _ e. e ≡ faults.NoMemory };

    fn from(_fault: NoMemory) -> LinesFault {
        LinesFault::NoMemory
    }
}

impl From<SheetFault> for LinesFault {
    ghost use Rattle.std.specs.Prelude.{◌≡◌};
    ghost use Rattle.table_core.specs.LinesFaults.{of_sheet};

    ghost from_gives = { λ fault e. e ≡ of_sheet fault };

    fn from(fault: SheetFault) -> LinesFault {
        match fault {
            SheetFault::NoMemory => LinesFault::NoMemory,
            SheetFault::Utf16
            | SheetFault::NotUtf8
            | SheetFault::Empty
            | SheetFault::TwoSeparators => LinesFault::Sheet(fault),
        }
    }
}

impl From<TableFault> for LinesFault {
    ghost use Rattle.std.specs.Prelude.{◌≡◌};
    ghost use Rattle.table_core.specs.LinesFaults.{of_table};

    ghost from_gives = { λ fault e. e ≡ of_table fault };

    fn from(fault: TableFault) -> LinesFault {
        match fault {
            TableFault::Heading(fault) => LinesFault::Heading(fault),
            TableFault::Rows(faults) => LinesFault::Rows(faults),
            TableFault::NoMemory => LinesFault::NoMemory,
        }
    }
}
