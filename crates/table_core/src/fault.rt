//! Why a table is refused.

use crate::{CellText, Column};
use codes_core::CodeFault;
use thiserror::Error;

/// What is wrong with a cell. If several apply, the first in this order is returned.
#[derive(Clone, Copy, Debug, PartialEq, Eq, Error)]
pub enum CellFault {
    /// The cell has no text, and no option stands for it.
    #[error("empty")]
    Empty,
    #[error("a space before it")]
    SpaceBefore,
    #[error("a no-break space before it")]
    NoBreakSpaceBefore,
    #[error("a space at its end")]
    SpaceBehind,
    #[error("a no-break space behind it")]
    NoBreakSpaceBehind,
    #[error("not a kind of message")]
    NotAKind,
    /// Not the code of a thing, a place or a loan, by its column.
    #[error("{0}")]
    BadCode(CodeFault),
    #[error("not a day of a form that is read")]
    NotADay,
    #[error("no such day")]
    NoSuchDay,
    #[error("not a name of at most 60 bytes without control bytes")]
    NotAName,
    /// More objects than a loan can list.
    #[error("more than 256 objects")]
    TooManyObjects,
    /// One of the objects in the cell, the first that is not the code of a thing.
    #[error("an object: {0}")]
    BadObject(CodeFault),
    #[error("not a number from 1 to 999999")]
    NotANumber,
    /// The row has no number of its own, and the next is outside 1 to 999,999.
    #[error("empty, and the next number is outside 1 to 999999")]
    NumberOutside,
}

/// A cell with a fault.
#[derive(Debug, Drop)]
pub struct FaultyCell {
    /// Counts from 1, which is the heading.
    pub row: usize,
    pub column: Column,
    /// The text as it is, or that of the option that stands for it.
    pub text: CellText,
    pub fault: CellFault,
}

/// Why a heading is refused. The field counts from 1.
#[derive(Clone, Copy, Debug, PartialEq, Eq, Error)]
pub enum HeadingFault {
    /// The table has no rows.
    #[error("no heading")]
    NoHeading,
    /// The field is one letter away from a column's name.
    #[error("heading {field} is nearly '{column}'")]
    NearHeading { field: usize, column: Column },
    /// An earlier field names the column, too.
    #[error("heading {field}: '{column}' stands twice")]
    TwiceHeading { field: usize, column: Column },
}
