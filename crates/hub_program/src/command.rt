//! Does the command that the words choose.
ghost use Rattle.std.specs.Prelude.{◌≡◌, IfOk};
ghost use Rattle.command_words.specs.Words.{text_of};
ghost use Rattle.hub_program.specs.Places.{kept_in, path_of, store_of};

use crate::auditing::audit_list;
use crate::checking::check_files;
use crate::copying::copied;
use crate::desk::at_desk;
use crate::desk_files::no_log;
use crate::ending::{Ending, noted_status, refuse, status};
use crate::explain::explain;
use crate::exporting::exported;
use crate::fault::CommandFault;
use crate::files::read_setup;
use crate::gap::fill_gap;
use crate::growing::{grown, listed};
use crate::help::help;
use crate::lines::write_line;
use crate::page::give_page;
use crate::progress::Progress;
use crate::reporting::reported;
use crate::resending::compare_file;
use crate::sealing::{check_given, give_receipt, seal_record};
use crate::serving::served;
use crate::store::{self, Begins, ClosedStore, closed_if, open_if};
use crate::tables::print_lines;
use crate::work::over_store;
use command_words::words::chosen;
use command_words::{Chosen, DESK_CARDS, ReplayWords};
use hub_core::{Tally, Watch, run};
use sqlite::Start;
use std::io::{BufRead, Write};
use std::sync::Wait;
use std::thread::Threads;
use table_core::without_mark;
use work_core::Work;

/// Does the command that the words choose. They are the words after the program's name. If there
/// are none, reads a setup and lines from the input, and writes the replies to the output.
///
/// Returns the exit status: 0 if the command is done or help was printed; 1 after a fault, or if a
/// strict replay met a line that was not applied; 2 for a usage error. A fault's line goes to
/// `errors`. `S` and `U` stand for the contents of the files of the store, and of a copy.
pub fn command<
    T: Threads + Wait + Sync + Copy + Send + 'static,
    S: Start,
    U: Start,
    R: BufRead,
    W: Write,
    E: Write,
>(
    rt: &HostRuntime,
    threads: &T,
    words: &[&str],
    start: S,
    again: U,
    input: &mut R,
    output: &mut W,
    errors: &mut E,
) -> u8 {
    if words.is_empty() {
        let ended = run(rt.alloc(), input, output);
        return status(ended.map_err(CommandFault::from), output, errors);
    }
    match chosen(rt.alloc(), words) {
        Ok(chosen) => {
            let mut notes = String::new(rt.alloc());
            let ended = perform(
                rt, threads, &chosen, start, again, input, output, errors, &mut notes,
            );
            noted_status(ended, &notes, output, errors)
        }
        Err(fault) => refuse(rt.alloc(), words, &fault, output, errors),
    }
}

/// Does the command. Faults, in this order:
/// - Day, Code or Number, for an argument of a report or a desk;
/// - those of the setup's file, and of the setup;
/// - those of the labels, Station and Log, for a desk; those of the count list, or of the stations'
///   files;
/// - those of opening the store;
/// - those of the command itself.
fn perform<
    'a,
    T: Threads + Wait + Sync + Copy + Send + 'static,
    S: Start,
    U: Start,
    R: BufRead,
    W: Write,
    E: Write,
>(
    rt: &HostRuntime,
    threads: &T,
    chosen: &Chosen<'a>,
    start: S,
    again: U,
    input: &mut R,
    output: &mut W,
    errors: &mut E,
    notes: &mut String,
) -> Result<Ending<'a>, CommandFault>
    ensures { IfOk result (λ ending. kept_in ending ≡ store_of chosen.now) }
{
    match chosen {
        Chosen::Replay(wanted) => {
            replayed(rt, threads, wanted, start, input, output, errors, notes)
        }
        Chosen::Explain { name } => {
            explain(rt.alloc(), name, output)?;
            Ok(Ending::Done(None))
        }
        Chosen::Serve {
            setup,
            store,
            feeds,
        } => served(
            rt,
            threads,
            setup,
            *store,
            feeds.as_slice(),
            start,
            input,
            output,
            notes,
        ),
        Chosen::Desk(wanted) => {
            at_desk(rt, threads, wanted, start, input, output, errors, notes)
        }
        Chosen::Cards => {
            write_line(output, DESK_CARDS)?;
            Ok(Ending::Done(None))
        }
        Chosen::Migrate { setup, store } => {
            let closed = migrated(rt, setup, store, start, output)?;
            Ok(Ending::Done(Some(closed)))
        }
        Chosen::Copy { setup, store, to } => {
            let closed = copied(rt, setup, store, to, start, again, output)?;
            Ok(Ending::Done(Some(closed)))
        }
        Chosen::Seal(wanted) => seal_record(rt, threads, wanted, start, input, output, notes),
        Chosen::Receipt(wanted) => {
            let closed = give_receipt(rt, wanted, start, output)?;
            Ok(Ending::Done(Some(closed)))
        }
        Chosen::CheckReceipt { file, entry, upto } => {
            let others = entry.is_some() || upto.is_some();
            check_given(rt, file, others, input, output, notes)
        }
        Chosen::Page(wanted) => {
            let closed = give_page(rt, threads, wanted, start, output)?;
            Ok(Ending::Done(Some(closed)))
        }
        Chosen::Export { setup, store, to } => {
            let closed = exported(rt, setup, store, to, start, again, output)?;
            Ok(Ending::Done(Some(closed)))
        }
        Chosen::Grow {
            setup,
            store,
            check,
        } => {
            let closed = grown(rt, setup, store, *check, start, output)?;
            Ok(Ending::Done(Some(closed)))
        }
        Chosen::Setup { store } => {
            let closed = listed(rt, store, start, output)?;
            Ok(Ending::Done(Some(closed)))
        }
        Chosen::Lines(words) => print_lines(rt, words, start, input, output, notes),
        Chosen::Check {
            setup,
            counts,
            lines,
        } => {
            check_files(rt, *setup, *counts, *lines, output)?;
            Ok(Ending::Done(None))
        }
        Chosen::Gap(wanted) => {
            let closed = fill_gap(rt, wanted, start, output)?;
            Ok(Ending::Done(Some(closed)))
        }
        Chosen::Resend(wanted) => compare_file(rt, wanted, start, input, output, notes),
        Chosen::Audit(words) => {
            let closed = audit_list(rt, threads, words, start, output, notes)?;
            Ok(Ending::Done(Some(closed)))
        }
        Chosen::Report(report, asked) => reported(
            rt, threads, report, asked, start, input, output, notes,
        ),
        Chosen::Help { topic } => Ok(Ending::Printed(help(rt.alloc(), *topic, output, errors))),
    }
}

/// Answers the lines of the input. If `progress` is wanted, prints the progress to `errors`.
fn replayed<
    'a,
    T: Threads + Wait + Sync + Copy + Send + 'static,
    S: Start,
    R: BufRead,
    W: Write,
    E: Write,
>(
    rt: &HostRuntime,
    threads: &T,
    wanted: &ReplayWords<'a>,
    start: S,
    input: &mut R,
    output: &mut W,
    errors: &mut E,
    notes: &mut String,
) -> Result<Ending<'a>, CommandFault>
    ensures { IfOk result (λ ending. kept_in ending ≡ text_of wanted.now.store) }
{
    let (store, is_clean) = if wanted.progress {
        let mut progress = Progress::new(rt, errors);
        let ended = watched(
            rt,
            threads,
            wanted,
            start,
            &mut progress,
            input,
            output,
            notes,
        );
        let is_clean = progress.end();
        (ended?, is_clean)
    } else {
        let mut tally = Tally::new();
        let ended = watched(rt, threads, wanted, start, &mut tally, input, output, notes);
        (ended?, tally.is_clean())
    };
    if wanted.strict && !is_clean {
        return Ok(Ending::NotApplied(store));
    }
    Ok(Ending::Done(store))
}

/// Answers the lines of the input, and shows the watch their outcomes. A byte order mark before the
/// first line is dropped. Returns the store, if one is named.
fn watched<
    'a,
    T: Threads + Wait + Sync + Copy + Send + 'static,
    S: Start,
    V: Watch,
    R: BufRead,
    W: Write,
>(
    rt: &HostRuntime,
    threads: &T,
    wanted: &ReplayWords<'a>,
    start: S,
    watch: &mut V,
    input: &mut R,
    output: &mut W,
    notes: &mut String,
) -> Result<Option<ClosedStore<'a>>, CommandFault>
    ensures { IfOk result (λ kept. path_of kept ≡ text_of wanted.now.store) }
{
    let setup = read_setup(rt, rt.alloc(), wanted.setup)?;
    let store = open_if(rt, wanted.store, start, Begins::Record)?;
    let mut lines = match without_mark(input) {
        Ok(lines) => lines,
        Err(_) => {
            drop(setup);
            return Err(closed_if(rt, store, CommandFault::ReadFailed));
        }
    };
    let work = Work::Replay { why: wanted.why };
    over_store(
        rt,
        threads,
        setup,
        store,
        work,
        watch,
        &mut lines,
        output,
        &mut no_log(),
        notes,
    )
}

/// Migrates the store, and prints `migrated`. Faults, in this order: those of the setup's file, and
/// of the setup; those of opening the store; those of migrating it; those of closing it.
fn migrated<'a, S: Start, W: Write>(
    rt: &HostRuntime,
    setup: &str,
    store: &'a str,
    start: S,
    output: &mut W,
) -> Result<ClosedStore<'a>, CommandFault>
    ensures { IfOk result (λ closed. closed.path ≡ store.entry) }
{
    let setup = read_setup(rt, rt.alloc(), setup)?;
    let closed = store::migrate(rt, store, start, setup)?;
    write_line(output, "migrated\n")?;
    Ok(closed)
}
