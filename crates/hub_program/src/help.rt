//! Prints the page of a topic, or the help of a command.

use crate::ending::{refuse, status};
use crate::fault::CommandFault;
use crate::lines::write_line;
use command_words::words::chosen;
use command_words::{Topic, list_verdicts, page_of};
use std::alloc::Global;
use std::io::Write;

/// Prints the page of a topic. For the name of a command this is the same as the command with
/// `--help`, and without a name the same as the program with `--help`. Returns the exit status.
pub fn help<W: Write, E: Write>(
    alloc: Global,
    name: Option<&str>,
    output: &mut W,
    errors: &mut E,
) -> u8 {
    match name {
        Some(name) => match Topic::named(name) {
            Some(topic) => status(print_page(topic, output), output, errors),
            None => help_by(alloc, &[name, "--help"], output, errors),
        },
        None => help_by(alloc, &["--help"], output, errors),
    }
}

/// Prints the help that the words ask for, and returns the exit status.
fn help_by<W: Write, E: Write>(
    alloc: Global,
    words: &[&str],
    output: &mut W,
    errors: &mut E,
) -> u8 {
    match chosen(alloc, words) {
        Ok(_) => status(Err(CommandFault::Words(None)), output, errors),
        Err(fault) => refuse(alloc, words, &fault, output, errors),
    }
}

/// Prints the page of a topic.
fn print_page<W: Write>(topic: Topic, output: &mut W) -> Result<(), CommandFault> {
    write_line(output, page_of(topic))?;
    match topic {
        Topic::Verdicts => print_verdicts(output),
        _ => Ok(()),
    }
}

/// As many blanks as the column of the verdicts is wide.
const BLANKS: &str = "                 ";

/// Prints a line for each verdict.
fn print_verdicts<W: Write>(output: &mut W) -> Result<(), CommandFault> {
    for verdict in list_verdicts() {
        let blanks = BLANKS.get(verdict.word.len()..).unwrap_or("");
        for part in ["  ", verdict.word, blanks, "  ", verdict.means, "\n"] {
            write_line(output, part)?;
        }
    }
    Ok(())
}
