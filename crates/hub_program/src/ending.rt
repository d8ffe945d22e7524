//! How a command ends: what goes to standard error, and the exit status.

use crate::fault::CommandFault;
use crate::store::ClosedStore;
use crate::usage::on_missing;
use command_words::WordsFault;
use std::alloc::Global;
use std::io::Write;

/// How a command without a fault ends, with the store that has its record, if there is one. The
/// store was opened and is closed again.
#[derive(Clone, Copy)]
pub enum Ending<'a> {
    /// The command is done.
    Done(Option<ClosedStore<'a>>),
    /// The command is done, and its exit status is 1. A line of a strict replay was bad, refused or
    /// not applied, a line of a station's file is neither on record nor next, or the seals or the
    /// receipt of a file don't all hold.
    NotApplied(Option<ClosedStore<'a>>),
    /// The help is printed, and this is the exit status.
    Printed(u8),
}

/// Flushes the output, writes the fault's line or, if there is no fault, the notes, and returns the
/// exit status.
pub fn noted_status<W: Write, E: Write>(
    ended: Result<Ending<'_>, CommandFault>,
    notes: &str,
    output: &mut W,
    errors: &mut E,
) -> u8 {
    let (ended, status_if_done) = match ended {
        Ok(Ending::Done(_)) => (Ok(()), 0),
        Ok(Ending::NotApplied(_)) => (Ok(()), 1),
        Ok(Ending::Printed(status)) => return status,
        Err(fault) => (Err(fault), 1),
    };
    match status(ended, output, errors) {
        0 => {
            let _ = errors.write_all(notes.as_bytes());
            status_if_done
        }
        status => status,
    }
}

/// Flushes the output, writes the fault's line if there is a fault, and returns the exit status. An
/// output that cannot be flushed is a fault, too.
pub fn status<W: Write, E: Write>(
    ended: Result<(), CommandFault>,
    output: &mut W,
    errors: &mut E,
) -> u8 {
    let flushed = output.flush();
    let fault = match ended {
        Err(fault) => fault,
        Ok(()) if flushed.is_err() => CommandFault::WriteFailed,
        Ok(()) => return 0,
    };
    let _ = fault.write(errors);
    fault.status()
}

/// Prints why the words choose no command, and returns the exit status. Help and the version go to
/// the output, usage errors to `errors`.
pub fn refuse<W: Write, E: Write>(
    alloc: Global,
    words: &[&str],
    fault: &WordsFault,
    output: &mut W,
    errors: &mut E,
) -> u8 {
    match fault {
        WordsFault::Refused(error) if fault.status() == 0 => {
            let told = write!(output, "{error}");
            let ended = told.map_err(|_| CommandFault::WriteFailed);
            status(ended, output, errors)
        }
        WordsFault::Refused(error) => {
            let _ = write!(errors, "{error}");
            fault.status()
        }
        WordsFault::Missing => {
            let advice = on_missing(alloc, words);
            status(Err(CommandFault::Words(advice)), output, errors)
        }
        WordsFault::NoMemory => status(Err(CommandFault::NoMemory), output, errors),
    }
}
