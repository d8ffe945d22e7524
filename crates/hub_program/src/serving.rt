//! Serves the files of all stations.
ghost use Rattle.std.specs.Prelude.{◌≡◌, IfOk};
ghost use Rattle.command_words.specs.Words.{text_of};
ghost use Rattle.hub_program.specs.Places.{kept_in};

use crate::desk_files::no_log;
use crate::ending::Ending;
use crate::fault::CommandFault;
use crate::files::{read_feeds, read_setup};
use crate::store::{Begins, open_if};
use crate::work::over_store;
use hub_core::Tally;
use sqlite::Start;
use std::io::{BufRead, Write};
use std::sync::Wait;
use std::thread::Threads;
use work_core::Work;

/// Serves the files, one for each station in the setup's order, and prints the log. After a fault
/// it prints the log up to the fault. Faults, in this order: those of the setup's file, and of the
/// setup; Feeds, if there are more or fewer files than stations; those of the files; those of
/// opening the store; those of serving.
pub fn served<'a, T: Threads + Wait + Sync + Copy + Send + 'static, S: Start, R: BufRead, W: Write>(
    rt: &HostRuntime,
    threads: &T,
    setup: &str,
    store: Option<&'a str>,
    files: &[&str],
    start: S,
    input: &mut R,
    output: &mut W,
    notes: &mut String,
) -> Result<Ending<'a>, CommandFault>
    ensures { IfOk result (λ ending. kept_in ending ≡ text_of store.entry) }
{
    let setup = read_setup(rt, rt.alloc(), setup)?;
    let feeds = match read_feeds(rt, setup.stations(), files) {
        Ok(feeds) => feeds,
        Err(fault) => {
            drop(setup);
            return Err(fault);
        }
    };
    let store = open_if(rt, store, start, Begins::Record)?;
    let closed = over_store(
        rt,
        threads,
        setup,
        store,
        Work::Serve(feeds),
        &mut Tally::new(),
        input,
        output,
        &mut no_log(),
        notes,
    )?;
    Ok(Ending::Done(closed))
}
