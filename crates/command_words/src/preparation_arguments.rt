//! The arguments of the commands that prepare lines or check files.

use crate::options::{Argument, Kind};

pub(crate) const SENDER: Argument = Argument {
    kind: Kind::Valued,
    id: "station",
    value: "NAME",
    help: "The station of the lines",
};

pub(crate) const FIRST: Argument = Argument {
    kind: Kind::Valued,
    id: "first",
    value: "N",
    help: "The number of the first line [default: the station's next number]",
};

pub(crate) const ROW_KIND: Argument = Argument {
    kind: Kind::Valued,
    id: "kind",
    value: "KIND",
    help: "The kind of each row that has none, for example move",
};

pub(crate) const ROW_DAY: Argument = Argument {
    kind: Kind::Valued,
    id: "day",
    value: "DAY",
    help: "The day of each row that has none, for example 2024-05-01",
};

pub(crate) const ROW_PLACE: Argument = Argument {
    kind: Kind::Valued,
    id: "place",
    value: "PLACE",
    help: "The place of each row that has none",
};

pub(crate) const ROW_LOAN: Argument = Argument {
    kind: Kind::Valued,
    id: "loan",
    value: "LOAN",
    help: "The loan of each row that has none",
};

pub(crate) const ROW_NAME: Argument = Argument {
    kind: Kind::Valued,
    id: "by",
    value: "NAME",
    help: "The name in each row that has none, for authorise and signoff",
};

pub(crate) const DATES: Argument = Argument {
    kind: Kind::Valued,
    id: "dates",
    value: "ORDER",
    help: "Also read days such as 1/5/2024, in this order [possible values: dmy, mdy]",
};

pub(crate) const STRICT_ROWS: Argument = Argument {
    kind: Kind::Flag,
    id: "strict",
    value: "",
    help: "A row that would not be applied is a fault",
};

pub(crate) const SHEET: Argument = Argument {
    kind: Kind::Word,
    id: "table",
    value: "TABLE",
    help: "The spreadsheet, as CSV; - is standard input",
};

pub(crate) const CHECKED_SETUP: Argument = Argument {
    kind: Kind::File('s'),
    id: "setup",
    value: "FILE",
    help: "A setup file",
};

pub(crate) const CHECKED_COUNTS: Argument = Argument {
    kind: Kind::Valued,
    id: "counts",
    value: "FILE",
    help: "A count list",
};

pub(crate) const CHECKED_LINES: Argument = Argument {
    kind: Kind::Valued,
    id: "lines",
    value: "FILE",
    help: "A file of lines",
};

pub(crate) const FILLER: Argument = Argument {
    kind: Kind::Valued,
    id: "by",
    value: "NAME",
    help: "Who fills the number, as the record then has it",
};

pub(crate) const OWN_FILE: Argument = Argument {
    kind: Kind::Word,
    id: "file",
    value: "FILE",
    help: "The station's file of lines",
};

pub(crate) const MOVE_DAY: Argument = Argument {
    kind: Kind::Valued,
    id: "day",
    value: "DAY",
    help: "The day of the moves, for example 2024-06-01",
};
