//! Opens a hub over a register, and does the work of a command with it.
ghost use Rattle.std.specs.Prelude.{◌≡◌, false, length, OnOk, IfErr};
ghost use Rattle.work_core.specs.Stops.{Stops, Stopped, StoppedAlone};
ghost use Rattle.desk_core.specs.Logs.{log_of};
ghost use Rattle.work_core.specs.Works.{FitsStations, HasNoLog, Does, Did, DidAlone};

use crate::WorkFault;
use crate::desk::worked;
use crate::printing::printed;
use crate::replaying::replayed;
use crate::serving::served;
use codes_core::Day;
use desk_core::{Bench, Questions};
use hub_core::{Hub, Watch};
use nest_core::Setup;
use register_store::Register;
use reports::{Form, Question};
use serve_core::TextFeed;
use std::alloc::Global;
use std::io::{BufRead, Write};
use std::sync::Wait;
use std::thread::Threads;

/// The work of a command on a record.
#[derive(Drop)]
pub enum Work<'a> {
    /// Answers the lines of the input. With `why`, a note explains each entry of these lines that
    /// wasn't applied.
    Replay {
        why: bool,
    },
    /// Prints the answer to a question in this form. With `upto`, the answer is that of the record
    /// as it was after this entry.
    Print {
        question: Question,
        form: Form,
        upto: Option<u64>,
    },
    /// Serves all stations, each from its feed, and prints the log.
    Serve(Vec<TextFeed>),
    /// Takes the lines of the input at a desk, on this day until a line changes it. Adds the
    /// messages of its station to the log, if there is one.
    Desk {
        bench: Bench<'a>,
        day: Option<Day>,
    },
}

/// Opens a hub with this setup over the register, and does the work with it. Returns the register
/// and, if the work stopped, its fault. A serving needs a feed for each station,
/// and a desk a station of the setup.
///
/// Faults, in this order: those of [`Hub::open`]; those of the work. A replay has those of
/// [`replay_watched`](hub_core::replay_watched), a report those of
/// [`print_as_of`](reports::print_as_of), and a serving those of [`serve`](serve_core::serve) and
/// WriteFailed. A desk has SignedOff, if its station has signed off, and those of
/// [`run_desk`](desk_core::run_desk). NoMemory can come instead of any of them, also for a note at
/// the end.
pub fn do_work<
    T: Threads + Wait + Sync + Copy + Send + 'static,
    Q: Questions,
    S: Register,
    V: Watch,
    R: BufRead,
    W: Write,
    L: Write,
>(
    threads: &T,
    alloc: Global,
    questions: &Q,
    setup: Setup,
    register: S,
    work: Work<'_>,
    watch: &mut V,
    input: &mut R,
    output: &mut W,
    log: &mut Option<L>,
    notes: &mut String,
) -> (S, Result<(), WorkFault>)
    requires { FitsStations (length setup.stations) work }
    // The work is done: a hub was opened over the register, and its work has left the result.
    ensures did { OnOk result.1 (Did Q.asks S.holding setup register result.0 work.entry
        (V.has_seen watch.old) (V.has_seen watch.new)
        (R.remaining input.old) (R.remaining input.new)
        (W.contents output.old) (W.contents output.new)
        (log_of L.contents log.old) (log_of L.contents log.new)) }
    // No hub could be opened, or its work stopped.
    ensures stopped { IfErr result.1 (Stopped Q.asks S.holding setup register result.0 work.entry
        (R.remaining input.old) (R.remaining input.new)
        (W.contents output.old) (W.contents output.new)
        (log_of L.contents log.old) (log_of L.contents log.new)) }
    // Only a desk writes a log.
    ensures unlogged { HasNoLog work.entry → log.new ≡ log.old }
{
    match Hub::open(alloc, setup, register) {
        Ok(hub) => done(
            threads, alloc, questions, hub, work, watch, input, output, log, notes,
        ),
        Err(failed) => (failed.register, Err(WorkFault::from(failed.fault))),
    }
}

/// Does the work as [`do_work`] does, but without a store: with a hub that has this setup and
/// nothing posted, and that stores nothing. Faults: those of [`Hub::session`]; those of the work.
pub fn do_session_work<
    T: Threads + Wait + Sync + Copy + Send + 'static,
    Q: Questions,
    V: Watch,
    R: BufRead,
    W: Write,
    L: Write,
>(
    threads: &T,
    alloc: Global,
    questions: &Q,
    setup: Setup,
    work: Work<'_>,
    watch: &mut V,
    input: &mut R,
    output: &mut W,
    log: &mut Option<L>,
    notes: &mut String,
) -> Result<(), WorkFault>
    requires { FitsStations (length setup.stations) work }
    ensures did { OnOk result (DidAlone Q.asks setup work.entry
        (V.has_seen watch.old) (V.has_seen watch.new)
        (R.remaining input.old) (R.remaining input.new)
        (W.contents output.old) (W.contents output.new)
        (log_of L.contents log.old) (log_of L.contents log.new)) }
    ensures stopped { IfErr result (StoppedAlone Q.asks setup work.entry
        (R.remaining input.old) (R.remaining input.new)
        (W.contents output.old) (W.contents output.new)
        (log_of L.contents log.old) (log_of L.contents log.new)) }
    ensures unlogged { HasNoLog work.entry → log.new ≡ log.old }
{
    match Hub::session(alloc, setup) {
        Ok(hub) => {
            let (_, ended) = done(
                threads, alloc, questions, hub, work, watch, input, output, log, notes,
            );
            ended
        }
        Err(fault) => Err(WorkFault::from(fault)),
    }
}

/// Does the work with the hub. Returns the hub's register, and the fault if there is one.
fn done<
    T: Threads + Wait + Sync + Copy + Send + 'static,
    Q: Questions,
    S: Register,
    V: Watch,
    R: BufRead,
    W: Write,
    L: Write,
>(
    threads: &T,
    alloc: Global,
    questions: &Q,
    hub: Hub<S>,
    work: Work<'_>,
    watch: &mut V,
    input: &mut R,
    output: &mut W,
    log: &mut Option<L>,
    notes: &mut String,
) -> (S, Result<(), WorkFault>)
    requires feeds { FitsStations (length hub.book.museum.stations) work }
    requires up { hub.down ≡ false }
    ensures does { OnOk result.1 (Does Q.asks S.holding hub result.0 work.entry
        (V.has_seen watch.old) (V.has_seen watch.new)
        (R.remaining input.old) (R.remaining input.new)
        (W.contents output.old) (W.contents output.new)
        (log_of L.contents log.old) (log_of L.contents log.new)) }
    ensures stops { IfErr result.1 (Stops Q.asks S.holding hub result.0 work.entry
        (R.remaining input.old) (R.remaining input.new)
        (W.contents output.old) (W.contents output.new)
        (log_of L.contents log.old) (log_of L.contents log.new)) }
    ensures unlogged { HasNoLog work.entry → log.new ≡ log.old }
{
    match work {
        Work::Replay { why } => replayed(threads, alloc, hub, why, watch, input, output, notes),
        Work::Print {
            question,
            form,
            upto,
        } => printed(threads, alloc, hub, &question, form, upto, output, notes),
        Work::Serve(feeds) => served(threads, alloc, hub, feeds, output, notes),
        Work::Desk { bench, day } => {
            worked(
                threads, alloc, questions, hub, &bench, day, input, output, log, notes,
            )
        }
    }
}
