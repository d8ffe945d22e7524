//! The commands, and the faults of words that choose none.
ghost use Rattle.std.specs.Prelude.{◌≡◌};
ghost use Rattle.command_words.specs.Words.{status_of};

use clap::Error;
use clap::error::ErrorKind;
use std::alloc::{AllocError, AllocFailed};
use thiserror::Error as Fault;

/// The form in which a report is printed.
#[derive(Clone, Copy, Debug, PartialEq, Eq)]
pub enum Format {
    /// Plain text, one line for each row.
    Lines,
    /// Comma-separated values, under a heading.
    Csv,
    /// One JSON object for each row.
    Json,
    /// Aligned columns, under a heading.
    Table,
}

/// The record that a report is about, and the form in which it is printed. With `upto`, the record
/// is as it was after the entry of this number.
#[derive(Clone, Copy)]
pub struct Report<'a> {
    pub setup: &'a str,
    pub store: &'a str,
    pub upto: Option<&'a str>,
    pub format: Format,
}

/// The question that a report answers, with the value that the words have for it.
#[derive(Clone, Copy)]
pub enum Asked<'a> {
    /// How does this count list compare with the record? If `sealed`, a container that was seen
    /// vouches for its contents.
    Count {
        list: &'a str,
        sealed: bool,
    },
    /// Which loans are overdue on this day?
    Overdue(&'a str),
    /// Which of the museum's own objects aren't at their normal locations?
    Away,
    /// Where has this thing been? If `long`, each location also has the containers, the loan and
    /// the message.
    History {
        code: &'a str,
        long: bool,
    },
    /// Which number does each station have to send next?
    Stations,
    /// Where is this thing?
    Where(&'a str),
    /// What is in this container?
    Contents(&'a str),
    /// What are this loan's terms and state, and the stages of its objects?
    Loan(&'a str),
    /// What is at this place?
    At(&'a str),
    /// Which entries were posted?
    Posted(Entries<'a>),
    /// Which loans are agreed, and how far have they come? `on` is the day on which the days left
    /// are counted. With `by` there are only loans that end by this day, and with `open` only loans
    /// that aren't closed.
    Loans {
        on: Option<&'a str>,
        by: Option<&'a str>,
        open: bool,
    },
    /// Which objects are due by this day?
    Dues(&'a str),
    /// Why did this entry get its verdict?
    Why(&'a str),
}

/// Which entries a list has: the numbers of the first and the last, the station's name, the code of
/// a thing and of a loan that the message names, and whether only refused messages are listed.
#[derive(Clone, Copy)]
pub struct Entries<'a> {
    pub from: Option<&'a str>,
    pub to: Option<&'a str>,
    pub station: Option<&'a str>,
    pub thing: Option<&'a str>,
    pub loan: Option<&'a str>,
    pub refused: bool,
}

/// The arguments of `lines`. `first` is the number of the first line. `kind`, `day`, `place`,
/// `loan` and `by` are the values of rows that have none. `dates` is the order of day and month.
/// The file `labels` has the code of each label. With `strict`, a row that would not be applied is
/// a fault.
#[derive(Clone, Copy)]
pub struct TableWords<'a> {
    pub setup: &'a str,
    pub store: Option<&'a str>,
    pub station: &'a str,
    pub first: Option<&'a str>,
    pub kind: Option<&'a str>,
    pub day: Option<&'a str>,
    pub place: Option<&'a str>,
    pub loan: Option<&'a str>,
    pub by: Option<&'a str>,
    pub dates: Option<&'a str>,
    pub labels: Option<&'a str>,
    pub strict: bool,
    pub table: &'a str,
}

/// The arguments of `desk`. `station` is the desk's own, and `day` the day of the first messages.
/// The messages that are sent are appended to the file `log`. The file `labels` has the code of
/// each label. With `bell`, an answer to a line that isn't done rings.
#[derive(Clone, Copy)]
pub struct DeskWords<'a> {
    pub setup: &'a str,
    pub store: &'a str,
    pub station: &'a str,
    pub day: Option<&'a str>,
    pub log: Option<&'a str>,
    pub labels: Option<&'a str>,
    pub bell: bool,
}

/// The arguments of `audit`. `day` is the day of the moves, and `first` the number of the first. If
/// `sealed`, a container that was seen vouches for its contents.
#[derive(Clone, Copy)]
pub struct AuditWords<'a> {
    pub setup: &'a str,
    pub store: &'a str,
    pub station: &'a str,
    pub day: &'a str,
    pub first: Option<&'a str>,
    pub sealed: bool,
    pub list: &'a str,
}

/// The arguments of `replay`. If no store is named, the record is in memory. With `progress` the
/// command reports its progress on standard error, with `strict` it fails if any line is bad,
/// refused or not applied, and with `why` it explains each verdict other than Applied at the end,
/// on standard error.
#[derive(Clone, Copy)]
pub struct ReplayWords<'a> {
    pub setup: &'a str,
    pub store: Option<&'a str>,
    pub progress: bool,
    pub strict: bool,
    pub why: bool,
}

/// The arguments of `gap`. `by` is the name in the message.
#[derive(Clone, Copy)]
pub struct GapWords<'a> {
    pub setup: &'a str,
    pub store: &'a str,
    pub station: &'a str,
    pub by: &'a str,
}

/// The arguments of `resend`. `file` has the station's own lines.
#[derive(Clone, Copy)]
pub struct ResendWords<'a> {
    pub setup: &'a str,
    pub store: &'a str,
    pub station: &'a str,
    pub file: &'a str,
}

/// The arguments of `seal`. `upto` is the number of the last sealed entry, and the file `check` has
/// seals to check.
#[derive(Clone, Copy)]
pub struct SealWords<'a> {
    pub setup: &'a str,
    pub store: &'a str,
    pub upto: Option<&'a str>,
    pub check: Option<&'a str>,
}

/// The arguments of `receipt`. `entry` is the number of the entry, and `upto` that of the last
/// sealed entry.
#[derive(Clone, Copy)]
pub struct ReceiptWords<'a> {
    pub setup: &'a str,
    pub store: &'a str,
    pub entry: &'a str,
    pub upto: Option<&'a str>,
}

/// The arguments of `page`. Loans that are overdue on the day `on` are marked, and `upto` is the
/// number of the last entry.
#[derive(Clone, Copy)]
pub struct PageWords<'a> {
    pub setup: &'a str,
    pub store: &'a str,
    pub on: Option<&'a str>,
    pub upto: Option<&'a str>,
}

/// A command with its values, as the words have them.
#[derive(Drop)]
pub enum Chosen<'a> {
    /// Answers the lines of standard input.
    Replay(ReplayWords<'a>),
    /// Takes one file of lines for each station, in the setup's order. If no store is named, the
    /// record is in memory.
    Serve {
        setup: &'a str,
        store: Option<&'a str>,
        feeds: Vec<&'a str>,
    },
    /// Takes lines at a desk, as a person types them or a scanner reads them.
    Desk(DeskWords<'a>),
    /// Prints the words of a desk's lines as cards to scan.
    Cards,
    /// Prints the rows of a table as lines of this station.
    Lines(TableWords<'a>),
    /// Prints every fault of a setup, a count list or a file of lines. None of them may be named.
    Check {
        setup: Option<&'a str>,
        counts: Option<&'a str>,
        lines: Option<&'a str>,
    },
    /// Prints a line that fills the station's next number.
    Gap(GapWords<'a>),
    /// Compares the lines of a station's own file with the record.
    Resend(ResendWords<'a>),
    /// Prints a line that moves each thing of a count list to where it was seen.
    Audit(AuditWords<'a>),
    /// Migrates a store of the previous version to this version.
    Migrate {
        setup: &'a str,
        store: &'a str,
    },
    /// Copies the record to a new file, and checks the copy.
    Copy {
        setup: &'a str,
        store: &'a str,
        to: &'a str,
    },
    /// Prints the seal of the first `upto` entries, or of all entries. With `check` it checks the
    /// seals in a file instead.
    Seal(SealWords<'a>),
    /// Prints the receipt of an entry under the seal of the first `upto` entries, or of all.
    Receipt(ReceiptWords<'a>),
    /// Checks the receipt in a file. Neither an entry nor `upto` should be given with it.
    CheckReceipt {
        file: &'a str,
        entry: Option<&'a str>,
        upto: Option<&'a str>,
    },
    /// Prints the record, or its first `upto` entries, as a page of HTML.
    Page(PageWords<'a>),
    /// Writes the record to a new SQLite database, for other programs.
    Export {
        setup: &'a str,
        store: &'a str,
        to: &'a str,
    },
    /// Adds what the setup file lists to the store's setup. With `check` it prints what it would
    /// add, and changes nothing.
    Grow {
        setup: &'a str,
        store: &'a str,
        check: bool,
    },
    /// Prints the store's setup.
    Setup {
        store: &'a str,
    },
    /// Explains a word that the program prints.
    Explain {
        name: &'a str,
    },
    /// Prints the page of a topic or the help of a command. If neither is named, prints an
    /// overview.
    Help {
        topic: Option<&'a str>,
    },
    /// Prints a report on the record.
    Report(Report<'a>, Asked<'a>),
}

/// Why the words choose no command. Refused comes before Missing, and NoMemory can come instead of
/// either.
#[derive(Debug, Drop, Fault)]
pub enum WordsFault {
    /// `clap` rejects the words, or they ask for help or for the version. The error has the text.
    #[error("{0}")]
    Refused(Error),
    /// Nothing is rejected, but no command is named, or a value that the command needs is missing.
    #[error("no command, or a missing argument")]
    Missing,
    /// A request for memory was refused.
    #[error("out of memory")]
    NoMemory,
}

impl WordsFault {
    /// Returns the exit status: 0 if the words ask for help or for the version, 2 for a usage
    /// error, and 1 if memory ran out.
    pub fn status(&self) -> u8
        ensures { result ≡ status_of self.now }
    {
        match self {
            WordsFault::Refused(error) => match error.kind() {
                ErrorKind::DisplayHelp | ErrorKind::DisplayVersion => 0,
                _ => 2,
            },
            WordsFault::Missing => 2,
            WordsFault::NoMemory => 1,
        }
    }
}

impl From<Error> for WordsFault {
    ghost use Rattle.command_words.specs.Words.{FromRefusal};

    ghost from_gives = { FromRefusal };

    fn from(error: Error) -> WordsFault {
        if error.kind() == ErrorKind::OutOfMemory {
            WordsFault::NoMemory
        } else {
            WordsFault::Refused(error)
        }
    }
}

impl From<AllocError> for WordsFault {
    ghost use Rattle.std.specs.Prelude.{◌≡◌};
    ghost use Rattle.command_words.specs.declared.command.WordsFault.TheVariants as faults;

    ghost from_gives = { λ _ e. e ≡ faults.NoMemory };

    fn from(_error: AllocError) -> WordsFault {
        WordsFault::NoMemory
    }
}

impl<T: Drop> From<AllocFailed<T>> for WordsFault {
    ghost use Rattle.std.specs.Prelude.{◌≡◌};
    ghost use Rattle.command_words.specs.declared.command.WordsFault.TheVariants as faults;

    ghost from_gives = { λ _ e. e ≡ faults.NoMemory };

    fn from(_error: AllocFailed<T>) -> WordsFault {
        WordsFault::NoMemory
    }
}
