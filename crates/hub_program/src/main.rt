//! The program `pairsalder`: reads its arguments, does the command that they choose, and exits with
//! its status.
//!
//! `main` reads the arguments with `command_words`, fills in `PAIRSALDER_SETUP` and
//! `PAIRSALDER_STORE`, and calls [`command`](command::command). This reads the files that the
//! command names, opens the store, and has its work done by the crate `work_core`. A
//! [`CommandFault`](fault::CommandFault) becomes a line `fault ..`, a line `help: ..` and an exit
//! status.
//!
//! The promises are those of the crates below. The contracts here connect them: the work of a
//! command is done on the record that the store's files hold, the store that the words name is
//! closed again, a serving gets one feed for each station, and a copy is compared under the setup
//! of the record.
//!
//! ```text
//! $ pairsalder where --setup museum.csv --store museum.db 2001.4.1
//! 2001.4.1 at S1-A
//! ```
#![tactic(auto)]

mod advice;
mod auditing;
mod checking;
mod command;
mod copying;
mod desk;
mod desk_files;
mod ending;
mod explain;
mod exporting;
mod fault;
mod files;
mod gap;
mod growing;
mod growth_fault;
mod help;
mod judging;
mod lines;
mod list_fault;
mod numbers;
mod page;
mod part;
mod progress;
mod reporting;
mod request;
mod resending;
mod row_advice;
mod sealing;
mod serving;
mod station;
mod store;
mod tables;
mod terminal;
mod usage;
mod variables;
mod work;

use crate::command::command;
use crate::fault::CommandFault;
use crate::terminal::Prompting;
use crate::usage::on_encoding;
use crate::variables::value_of;
use command_words::completion::{FileOption, complete};
use sqlite::{Start, Unknown};
use std::alloc::Global;
use std::io::{BufRead, BufReader, BufWriter, ErrorKind, IsTerminal, Write};
use std::process::ExitCode;
use std::sync::Wait;
use std::thread::Threads;
use std::{env, io};

/// The size in bytes of the buffers for standard input and standard output.
const AT_ONCE: usize = 65_536;

fn main(rt: HostRuntime) -> ExitCode {
    match on_standard_streams(&rt, &rt, Unknown, Unknown) {
        Ok(status) => ExitCode::from(status),
        Err(fault) => {
            let _ = fault.write(&mut rt.stderr());
            ExitCode::from(fault.status())
        }
    }
}

/// The fault of arguments that cannot be read: out of memory, or one is not UTF-8.
fn fault_of_words(alloc: Global, error: io::Error) -> CommandFault {
    match error.kind() {
        ErrorKind::OutOfMemory => CommandFault::NoMemory,
        _ => CommandFault::Words(on_encoding(alloc, "an argument")),
    }
}

/// Runs the program on standard input and standard output, and returns the exit status.
fn on_standard_streams<T: Threads + Wait + Sync + Copy + Send + 'static, S: Start, U: Start>(
    rt: &HostRuntime,
    threads: &T,
    start: S,
    again: U,
) -> Result<u8, CommandFault> {
    let reader = rt.reader();
    let is_terminal = reader.is_terminal();
    let prompting = Prompting::new(reader, rt.stderr(), is_terminal);
    let mut input = BufReader::with_capacity(rt.alloc(), AT_ONCE, prompting).map_err(
        |_| CommandFault::NoMemory,
    )?;
    let mut output = BufWriter::with_capacity(rt.alloc(), AT_ONCE, io::writer(rt)).map_err(
        |_| CommandFault::NoMemory,
    )?;
    between(rt, threads, start, again, &mut input, &mut output)
}

/// Runs the program on an input and an output, and returns the exit status.
fn between<
    T: Threads + Wait + Sync + Copy + Send + 'static,
    S: Start,
    U: Start,
    R: BufRead,
    W: Write,
>(
    rt: &HostRuntime,
    threads: &T,
    start: S,
    again: U,
    input: &mut R,
    output: &mut W,
) -> Result<u8, CommandFault> {
    let texts = texts_given(rt)?;
    let given = words_of(rt.alloc(), texts.as_slice())?;
    let setup = value_of(rt, given.as_slice(), FileOption::Setup)?;
    let store = value_of(rt, given.as_slice(), FileOption::Store)?;
    let words = complete(
        rt.alloc(),
        given.as_slice(),
        setup.as_deref(),
        store.as_deref(),
    )?;
    Ok(command(
        rt,
        threads,
        words.as_slice(),
        start,
        again,
        input,
        output,
        &mut rt.stderr(),
    ))
}

/// The arguments after the program's name.
fn texts_given(rt: &HostRuntime) -> Result<Vec<String>, CommandFault> {
    let given = env::args(rt).map_err(|error| fault_of_words(rt.alloc(), error))?;
    let mut texts = Vec::new(rt.alloc());
    for text in given.skip(1) {
        texts.push(text)?;
    }
    Ok(texts)
}

/// The same arguments, borrowed.
fn words_of(alloc: Global, texts: &[String]) -> Result<Vec<&str>, CommandFault> {
    let mut words = Vec::new(alloc);
    for text in texts {
        words.push(text.as_str())?;
    }
    Ok(words)
}
