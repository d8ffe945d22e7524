//! Why a command stops: a line on standard error, and an exit status.

use crate::advice::Advice;
use crate::growth_fault::{GrowthFault, write_growth_fault};
use crate::list_fault::ListFault;
use codes_core::{CodeFault, NoMemory, write_on_one_line};
use hub_core::RunFault;
use line_files::GapFault;
use nest_core::SetupFault;
use register_store::StoreFault;
use reports::PrintFault;
use station_core::Refusal;
use std::alloc::{AllocError, AllocFailed};
use std::io;
use std::io::Write;
use table_core::{LabelFault, SheetFault};
use work_core::WorkFault;

/// Why a command stops.
#[derive(Drop)]
pub enum CommandFault {
    /// A request for memory was refused.
    NoMemory,
    /// The input could not be read.
    ReadFailed,
    /// The output could not be written.
    WriteFailed,
    /// The log of a desk cannot be opened or written.
    Log(Advice),
    /// A named file cannot be read, or a new file cannot be written.
    File(Advice),
    /// The setup at the head of the input is too long.
    HeadTooLong,
    /// The first fault of the setup.
    Setup(SetupFault, Advice),
    /// Why the setup of the store can't grow by the file: each fault, in the order of the rows.
    Growth(Vec<GrowthFault>),
    /// The faults of the count list: the first, or for a check all, in the order of the rows.
    Counts(Vec<ListFault>),
    /// The faults of a file, each with its lines.
    Faults(String),
    /// A station has no number to fill.
    Gap(GapFault, Advice),
    /// The file is not a table.
    Sheet(SheetFile, SheetFault, Advice),
    /// The first fault of the labels.
    Labels(LabelFault, Advice),
    /// The store failed, or cannot be used with this setup.
    Store(StoreFault, Advice),
    /// The text after `--on`, `--by` or `--day` is not a day.
    Day(CodeFault, Advice),
    /// The text is not the code of a thing, a loan or a place.
    Code(CodeFault, Advice),
    /// The text after `--from`, `--to` or `--upto` is not a number.
    Number(Advice),
    /// The setup has no station of a desk's name, or the station has signed off.
    Station(Refusal, Advice),
    /// The word is not explained.
    Name(Advice),
    /// The lines of the station of this name did not come to their end.
    Unfinished(String),
    /// There are more or fewer files than stations.
    Feeds(Advice),
    /// No command is named, an argument that it needs is missing, or an argument or a variable is
    /// not UTF-8.
    Words(Advice),
}

/// A file that a command reads as a table.
#[derive(Clone, Copy)]
pub enum SheetFile {
    /// The labels of a desk.
    Labels,
    /// The table that lines are made of.
    Lines,
}

impl SheetFile {
    /// Returns the file's name in a fault's line.
    fn name(self) -> &'static str {
        match self {
            SheetFile::Labels => "labels",
            SheetFile::Lines => "table",
        }
    }
}

impl From<NoMemory> for CommandFault {
    fn from(_fault: NoMemory) -> CommandFault {
        CommandFault::NoMemory
    }
}

impl From<AllocError> for CommandFault {
    fn from(_error: AllocError) -> CommandFault {
        CommandFault::NoMemory
    }
}

impl<T: Drop> From<AllocFailed<T>> for CommandFault {
    fn from(_error: AllocFailed<T>) -> CommandFault {
        CommandFault::NoMemory
    }
}

impl From<StoreFault> for CommandFault {
    fn from(fault: StoreFault) -> CommandFault {
        match fault {
            StoreFault::NoMemory => CommandFault::NoMemory,
            _ => CommandFault::Store(fault, None),
        }
    }
}

impl From<SetupFault> for CommandFault {
    fn from(fault: SetupFault) -> CommandFault {
        match fault {
            SetupFault::NoMemory => CommandFault::NoMemory,
            _ => CommandFault::Setup(fault, None),
        }
    }
}

impl From<PrintFault> for CommandFault {
    fn from(fault: PrintFault) -> CommandFault {
        match fault {
            PrintFault::NoMemory => CommandFault::NoMemory,
            PrintFault::WriteFailed => CommandFault::WriteFailed,
        }
    }
}

impl From<WorkFault> for CommandFault {
    fn from(fault: WorkFault) -> CommandFault {
        match fault {
            WorkFault::NoMemory => CommandFault::NoMemory,
            WorkFault::ReadFailed => CommandFault::ReadFailed,
            WorkFault::WriteFailed => CommandFault::WriteFailed,
            WorkFault::LogFailed => CommandFault::Log(None),
            WorkFault::Store(fault) => CommandFault::from(fault),
            WorkFault::Unfinished(station) => CommandFault::Unfinished(station),
            WorkFault::SignedOff => CommandFault::Station(Refusal::SignedOff, None),
        }
    }
}

impl From<RunFault> for CommandFault {
    fn from(fault: RunFault) -> CommandFault {
        match fault {
            RunFault::NoMemory => CommandFault::NoMemory,
            RunFault::Store => CommandFault::Store(StoreFault::Store, None),
            RunFault::ReadFailed => CommandFault::ReadFailed,
            RunFault::WriteFailed => CommandFault::WriteFailed,
            RunFault::Setup(fault) => CommandFault::from(fault),
            RunFault::HeadTooLong => CommandFault::HeadTooLong,
        }
    }
}

/// The advice on an output that cannot be written.
const ON_OUTPUT: &str =
    "the output cannot be written: its disk is full, or the program that reads it has ended";

impl CommandFault {
    /// Returns the exit status: 2 for a usage error, otherwise 1.
    pub fn status(&self) -> u8 {
        match self {
            CommandFault::Day(..)
            | CommandFault::Code(..)
            | CommandFault::Number(_)
            | CommandFault::Station(..)
            | CommandFault::Name(_)
            | CommandFault::Feeds(_)
            | CommandFault::Words(_) => 2,
            _ => 1,
        }
    }

    /// Writes the fault's line and, if there is advice, a `help:` line. If all faults of a file are
    /// known, writes these two lines for each.
    pub fn write<W: Write>(&self, errors: &mut W) -> io::Result<()> {
        self.write_line(errors)?;
        write_help(errors, self.advice())
    }

    /// The text of the `help:` line.
    fn advice(&self) -> Option<&str> {
        match self {
            CommandFault::Log(advice)
            | CommandFault::File(advice)
            | CommandFault::Name(advice)
            | CommandFault::Setup(_, advice)
            | CommandFault::Sheet(_, _, advice)
            | CommandFault::Gap(_, advice)
            | CommandFault::Labels(_, advice)
            | CommandFault::Store(_, advice)
            | CommandFault::Day(_, advice)
            | CommandFault::Code(_, advice)
            | CommandFault::Number(advice)
            | CommandFault::Station(_, advice)
            | CommandFault::Feeds(advice)
            | CommandFault::Words(advice) => advice.as_deref(),
            CommandFault::WriteFailed => Some(ON_OUTPUT),
            _ => None,
        }
    }

    /// Writes the fault's line.
    fn write_line<W: Write>(&self, errors: &mut W) -> io::Result<()> {
        match self {
            CommandFault::NoMemory => writeln!(errors, "fault memory"),
            CommandFault::ReadFailed => writeln!(errors, "fault read"),
            CommandFault::WriteFailed => writeln!(errors, "fault write"),
            CommandFault::Log(_) => writeln!(errors, "fault log"),
            CommandFault::File(_) => writeln!(errors, "fault file"),
            CommandFault::HeadTooLong => writeln!(errors, "fault head"),
            CommandFault::Setup(fault, _) => write_row(errors, "setup", fault.name(), fault.row()),
            CommandFault::Growth(faults) => write_growth(errors, faults),
            CommandFault::Counts(faults) => write_list(errors, faults),
            CommandFault::Faults(lines) => errors.write_all(lines.as_bytes()),
            CommandFault::Gap(fault, _) => write_gap(errors, *fault),
            CommandFault::Sheet(file, fault, _) => {
                write_row(errors, file.name(), fault.name(), None)
            }
            CommandFault::Labels(fault, _) => write_row(
                errors,
                "labels",
                fault.name(),
                fault.row(),
            ),
            CommandFault::Store(fault, _) => write_store(errors, *fault),
            CommandFault::Day(fault, _) => write_code(errors, "day", *fault),
            CommandFault::Code(fault, _) => write_code(errors, "code", *fault),
            CommandFault::Number(_) => writeln!(errors, "fault number"),
            CommandFault::Station(refusal, _) => write_station(errors, *refusal),
            CommandFault::Name(_) => writeln!(errors, "fault name"),
            CommandFault::Unfinished(station) => writeln!(errors, "fault unfinished {station}"),
            CommandFault::Feeds(_) => writeln!(errors, "fault feeds"),
            CommandFault::Words(_) => writeln!(errors, "fault words"),
        }
    }
}

/// Writes the line of a faulty file, with the row if the fault is in one.
fn write_row<W: Write>(errors: &mut W, what: &str, name: &str, row: Option<u64>) -> io::Result<()> {
    match row {
        Some(row) => writeln!(errors, "fault {what} {name} row {row}"),
        None => writeln!(errors, "fault {what} {name}"),
    }
}

/// Writes the lines of the faults of a file by which the setup can't grow.
fn write_growth<W: Write>(errors: &mut W, faults: &[GrowthFault]) -> io::Result<()> {
    for it in faults {
        write_growth_fault(errors, it.fault)?;
        write_help(errors, it.advice.as_deref())?;
    }
    Ok(())
}

/// Writes the lines of the faults of a count list.
fn write_list<W: Write>(errors: &mut W, faults: &[ListFault]) -> io::Result<()> {
    for it in faults {
        write_row(errors, "counts", it.fault.name(), it.fault.row())?;
        write_help(errors, it.advice.as_deref())?;
    }
    Ok(())
}

/// Writes the advice, if there is any, as a `help:` line.
fn write_help<W: Write>(errors: &mut W, advice: Option<&str>) -> io::Result<()> {
    match advice {
        Some(advice) => {
            write!(errors, "help: ")?;
            write_on_one_line(errors, advice)?;
            writeln!(errors)
        }
        None => Ok(()),
    }
}

/// Writes the line of a store's fault.
fn write_store<W: Write>(errors: &mut W, fault: StoreFault) -> io::Result<()> {
    match fault {
        StoreFault::NoMemory => writeln!(errors, "fault memory"),
        StoreFault::Store => writeln!(errors, "fault store Store"),
        StoreFault::OtherSetup => writeln!(errors, "fault store OtherSetup"),
        StoreFault::Damaged(row) => writeln!(errors, "fault store Damaged {row}"),
        StoreFault::OtherVersion => writeln!(errors, "fault store OtherVersion"),
    }
}

/// Writes the line of a station whose messages would be refused.
fn write_station<W: Write>(errors: &mut W, refusal: Refusal) -> io::Result<()> {
    writeln!(errors, "fault station {}", refusal.name())
}

/// Writes the line of a station that has no number to fill.
fn write_gap<W: Write>(errors: &mut W, fault: GapFault) -> io::Result<()> {
    match fault {
        GapFault::SignedOff => writeln!(errors, "fault station SignedOff"),
        GapFault::Full => writeln!(errors, "fault station Full"),
        GapFault::KnownLoan => writeln!(errors, "fault station KnownLoan"),
        GapFault::NoMemory => writeln!(errors, "fault memory"),
    }
}

/// Writes the line of a faulty code or day.
fn write_code<W: Write>(errors: &mut W, what: &str, fault: CodeFault) -> io::Result<()> {
    let name = match fault {
        CodeFault::Empty => "Empty",
        CodeFault::BadShape => "BadShape",
        CodeFault::BadNumber => "BadNumber",
        CodeFault::NoSuchDay => "NoSuchDay",
    };
    writeln!(errors, "fault {what} {name}")
}
