//! The columns of a table.
ghost use Rattle.std.specs.Prelude.{◌≡◌};
ghost use Rattle.table_core.specs.Columns.{column_name};

use std::fmt;

/// A column that a message can be read from.
#[derive(Clone, Copy, Debug, PartialEq, Eq)]
pub enum Column {
    Kind,
    Thing,
    Container,
    Place,
    Day,
    Loan,
    Partner,
    Objects,
    First,
    Last,
    By,
    N,
}

impl Column {
    /// The column's name in a heading.
    pub fn name(self) -> &'static str
        ensures { result.now ≡ column_name self }
    {
        match self {
            Column::Kind => "kind",
            Column::Thing => "thing",
            Column::Container => "container",
            Column::Place => "place",
            Column::Day => "day",
            Column::Loan => "loan",
            Column::Partner => "partner",
            Column::Objects => "objects",
            Column::First => "first",
            Column::Last => "last",
            Column::By => "by",
            Column::N => "n",
        }
    }
}

impl fmt::Display for Column {
    fn fmt<W: fmt::Write>(&self, f: &mut fmt::Formatter<W>) -> fmt::Result {
        f.write_str(self.name())
    }
}
