//! Prints a report.
ghost use Rattle.std.specs.Prelude.{◌≡◌, IfOk, Some};
ghost use Rattle.hub_program.specs.Places.{kept_in};

use crate::desk_files::no_log;
use crate::ending::Ending;
use crate::fault::CommandFault;
use crate::request::{number_if, read_question};
use crate::store::{Begins, open};
use crate::work::over_store;
use command_words::{Asked, Report};
use hub_core::Tally;
use question_words::form_of;
use sqlite::Start;
use std::io::{BufRead, Write};
use std::sync::Wait;
use std::thread::Threads;
use work_core::Work;

/// Prints the report on the record.
pub fn reported<
    'a,
    T: Threads + Wait + Sync + Copy + Send + 'static,
    S: Start,
    R: BufRead,
    W: Write,
>(
    rt: &HostRuntime,
    threads: &T,
    report: &Report<'a>,
    asked: &Asked<'_>,
    start: S,
    input: &mut R,
    output: &mut W,
    notes: &mut String,
) -> Result<Ending<'a>, CommandFault>
    ensures { IfOk result (λ ending. kept_in ending ≡ Some report.now.store.now) }
{
    let upto = number_if(rt.alloc(), report.upto)?;
    let (setup, question) = read_question(rt, report.setup, *asked)?;
    let work = Work::Print {
        question,
        form: form_of(report.format),
        upto,
    };
    let store = open(rt, report.store, start, Begins::Nothing)?;
    let closed = over_store(
        rt,
        threads,
        setup,
        Some(store),
        work,
        &mut Tally::new(),
        input,
        output,
        &mut no_log(),
        notes,
    )?;
    Ok(Ending::Done(closed))
}
