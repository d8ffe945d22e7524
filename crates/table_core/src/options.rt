//! What a table leaves out.

use crate::CellText;

/// The order of day and month in days such as `1/5/2024` and `01.05.2024`.
#[derive(Clone, Copy, Debug, PartialEq, Eq)]
pub enum DateOrder {
    /// Only `YYYY-MM-DD` is a day.
    YearFirst,
    /// `1/5/2024` is 1 May 2024.
    DayFirst,
    /// `1/5/2024` is 5 January 2024.
    MonthFirst,
}

/// Values for all rows of a table. A text stands for a cell that is empty, or whose column the
/// table doesn't have. An empty text stands for nothing.
#[derive(Drop)]
pub struct TableOptions {
    pub kind: CellText,
    pub day: CellText,
    pub place: CellText,
    pub loan: CellText,
    pub by: CellText,
    pub dates: DateOrder,
    /// The number of the first message.
    pub first: u32,
}
