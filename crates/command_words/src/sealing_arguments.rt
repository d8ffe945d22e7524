//! The arguments of the commands that seal a record.

use crate::options::{Argument, Kind};

pub(crate) const SEALED_ENTRIES: Argument = Argument {
    kind: Kind::Valued,
    id: "upto",
    value: "N",
    help: "Seal the first N entries [default: all]",
};

pub(crate) const SEALS: Argument = Argument {
    kind: Kind::Valued,
    id: "check",
    value: "FILE",
    help: "Check the seals in FILE instead; - is standard input",
};

pub(crate) const RECEIPT_FILE: Argument = Argument {
    kind: Kind::Valued,
    id: "check",
    value: "FILE",
    help: "Check the receipt in FILE instead; - is standard input",
};

pub(crate) const SEALED_ENTRY: Argument = Argument {
    kind: Kind::Word,
    id: "entry",
    value: "ENTRY",
    help: "The number of the entry",
};
