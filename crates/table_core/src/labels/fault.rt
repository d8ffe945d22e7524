//! Why a labels file is rejected.
ghost use Rattle.std.specs.Prelude.{◌≡◌};
ghost use Rattle.table_core.specs.LabelFaults.{name_of, row_of};

use codes_core::NoMemory;
use thiserror::Error;

/// Why a labels file is rejected: the fault of the first row that has one, and in that row the
/// first of these. Rows are counted from 1, which is the heading.
#[derive(Clone, Copy, Debug, PartialEq, Eq, Error)]
pub enum LabelFault {
    /// The heading doesn't have each of `label` and `code` exactly once.
    #[error("the heading must have the columns label and code, each once")]
    Heading,
    /// The row has a label without a code, or a code without a label.
    #[error("row {0}: needs both a label and a code")]
    Fields(u64),
    /// An earlier row has the same label.
    #[error("row {0}: the label is listed in an earlier row")]
    Repeated(u64),
    /// The label is the code of another place or thing.
    #[error("row {0}: the label is the code of something else")]
    IsCode(u64),
    /// A request for memory was refused. It can come at any row.
    #[error("out of memory")]
    NoMemory,
}

impl LabelFault {
    /// The name of the fault.
    pub fn name(&self) -> &'static str
        ensures { result.now ≡ name_of self.now }
    {
        match self {
            LabelFault::Heading => "Heading",
            LabelFault::Fields(_) => "Fields",
            LabelFault::Repeated(_) => "Repeated",
            LabelFault::IsCode(_) => "IsCode",
            LabelFault::NoMemory => "NoMemory",
        }
    }

    /// The row that has the fault, from 1. `None` if memory was refused.
    pub fn row(&self) -> Option<u64>
        ensures { result ≡ row_of self.now }
    {
        match self {
            LabelFault::Heading => Some(1),
            LabelFault::Fields(row) | LabelFault::Repeated(row) | LabelFault::IsCode(row) => {
                Some(*row)
            }
            LabelFault::NoMemory => None,
        }
    }
}

impl From<NoMemory> for LabelFault {
    ghost use Rattle.std.specs.Prelude.{◌≡◌};
    ghost use Rattle.table_core.specs.declared.labels.fault.LabelFault.TheVariants as faults;

    ghost from_gives = { λ _ e. e ≡ faults.NoMemory };

    fn from(_error: NoMemory) -> LabelFault {
        LabelFault::NoMemory
    }
}
