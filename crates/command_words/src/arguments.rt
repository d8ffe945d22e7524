//! The arguments that only some commands have.

use crate::options::{Argument, Kind};

pub(crate) const PROGRESS: Argument = Argument {
    kind: Kind::Flag,
    id: "progress",
    value: "",
    help: "Print progress on standard error, once a second",
};

pub(crate) const STRICT: Argument = Argument {
    kind: Kind::Flag,
    id: "strict",
    value: "",
    help: "Exit with status 1 if any line was bad, refused or not applied",
};

pub(crate) const EXPLAINED: Argument = Argument {
    kind: Kind::Flag,
    id: "why",
    value: "",
    help: "Explain each verdict other than Applied at the end",
};

pub(crate) const FEEDS: Argument = Argument {
    kind: Kind::Words,
    id: "feeds",
    value: "FEEDS",
    help: "The file of each station, in the setup's order",
};

pub(crate) const OWN_STATION: Argument = Argument {
    kind: Kind::Valued,
    id: "station",
    value: "NAME",
    help: "The desk's own station",
};

pub(crate) const FIRST_DAY: Argument = Argument {
    kind: Kind::Valued,
    id: "day",
    value: "DAY",
    help: "The day of the messages, until a line 'day' changes it",
};

pub(crate) const LOG: Argument = Argument {
    kind: Kind::Valued,
    id: "log",
    value: "FILE",
    help: "Append each message sent to FILE, as a JSON line, before it is posted",
};

pub(crate) const LABELS: Argument = Argument {
    kind: Kind::Valued,
    id: "labels",
    value: "FILE",
    help: "A table of labels and their codes",
};

pub(crate) const BELL: Argument = Argument {
    kind: Kind::Flag,
    id: "bell",
    value: "",
    help: "Ring the bell for each line that is not done",
};

pub(crate) const CARDS: Argument = Argument {
    kind: Kind::Flag,
    id: "cards",
    value: "",
    help: "Print the command words as cards to cut out and scan",
};

pub(crate) const LIST: Argument = Argument {
    kind: Kind::Word,
    id: "list",
    value: "LIST",
    help: "The count list",
};

pub(crate) const SEALED: Argument = Argument {
    kind: Kind::Flag,
    id: "sealed",
    value: "",
    help: "What is in a container that was seen isn't missing",
};

pub(crate) const DAY: Argument = Argument {
    kind: Kind::Valued,
    id: "on",
    value: "DAY",
    help: "The day to check, for example 2024-06-01",
};

pub(crate) const TO: Argument = Argument {
    kind: Kind::Valued,
    id: "to",
    value: "PATH",
    help: "The new file for the copy",
};

pub(crate) const FLAT_FILE: Argument = Argument {
    kind: Kind::Valued,
    id: "to",
    value: "PATH",
    help: "The new SQLite database",
};

pub(crate) const CHECK: Argument = Argument {
    kind: Kind::Flag,
    id: "check",
    value: "",
    help: "Print what would be added, and change nothing",
};

pub(crate) const WORD: Argument = Argument {
    kind: Kind::Word,
    id: "name",
    value: "NAME",
    help: "A word of a reply, a report or a fault, for example NotListed",
};

pub(crate) const TOPIC: Argument = Argument {
    kind: Kind::Word,
    id: "topic",
    value: "TOPIC",
    help: "setup, lines, counts, verdicts, files, or a command",
};

pub(crate) const THING: Argument = Argument {
    kind: Kind::Word,
    id: "code",
    value: "CODE",
    help: "A thing's code, for example 2001.4.1 or C17",
};

pub(crate) const LONG: Argument = Argument {
    kind: Kind::Flag,
    id: "long",
    value: "",
    help: "Also print the containers, the loan and the message of each location",
};

pub(crate) const CONTAINER: Argument = Argument {
    kind: Kind::Word,
    id: "code",
    value: "CODE",
    help: "A container's code, for example C17",
};

pub(crate) const LOAN: Argument = Argument {
    kind: Kind::Word,
    id: "code",
    value: "CODE",
    help: "A loan's code, for example LO2024.1",
};

pub(crate) const PLACE: Argument = Argument {
    kind: Kind::Word,
    id: "place",
    value: "PLACE",
    help: "A place's code, for example S1 or S1-A",
};

pub(crate) const FROM: Argument = Argument {
    kind: Kind::Valued,
    id: "from",
    value: "N",
    help: "The first entry to list",
};

pub(crate) const TO_ENTRY: Argument = Argument {
    kind: Kind::Valued,
    id: "to",
    value: "N",
    help: "The last entry to list",
};

pub(crate) const STATION: Argument = Argument {
    kind: Kind::Valued,
    id: "station",
    value: "NAME",
    help: "Only messages of this station",
};

pub(crate) const OF_THING: Argument = Argument {
    kind: Kind::Valued,
    id: "thing",
    value: "CODE",
    help: "Only messages that name this thing",
};

pub(crate) const OF_LOAN: Argument = Argument {
    kind: Kind::Valued,
    id: "loan",
    value: "CODE",
    help: "Only messages that name this loan",
};

pub(crate) const REFUSED: Argument = Argument {
    kind: Kind::Flag,
    id: "refused",
    value: "",
    help: "Only messages with a verdict other than Applied",
};

pub(crate) const ON: Argument = Argument {
    kind: Kind::Valued,
    id: "on",
    value: "DAY",
    help: "The day from which the days left are counted",
};

pub(crate) const MARKED_DAY: Argument = Argument {
    kind: Kind::Valued,
    id: "on",
    value: "DAY",
    help: "Mark the loans that are overdue on DAY",
};

pub(crate) const BY: Argument = Argument {
    kind: Kind::Valued,
    id: "by",
    value: "DAY",
    help: "Only loans that end on this day or before it",
};

pub(crate) const OPEN: Argument = Argument {
    kind: Kind::Flag,
    id: "open",
    value: "",
    help: "Only loans that are not closed",
};

pub(crate) const DUE: Argument = Argument {
    kind: Kind::Valued,
    id: "by",
    value: "DAY",
    help: "The day by which the loans end, for example 2024-06-30",
};

pub(crate) const ENTRY: Argument = Argument {
    kind: Kind::Word,
    id: "entry",
    value: "ENTRY",
    help: "The number of an entry, such as 17",
};
