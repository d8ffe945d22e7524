//! Takes lines at a desk.
ghost use Rattle.std.specs.Prelude.{◌≡◌, ◌<◌, length, IfOk, MatchResult, None, Some};
ghost use Rattle.nest_core.specs.Museum.{find_station};
ghost use Rattle.hub_program.specs.Places.{kept_in};

use crate::advice::{on_lost_line, on_station};
use crate::desk_files::{open_log, read_labels, refuse_log};
use crate::ending::Ending;
use crate::fault::CommandFault;
use crate::files::read_setup;
use crate::request::day_if;
use crate::station::station_of;
use crate::store::{Begins, open};
use crate::work::{announce_new, over_store};
use codes_core::Day;
use command_words::{DESK_HELP, DeskWords};
use desk_core::Bench;
use hub_core::Tally;
use nest_core::Setup;
use sqlite::Start;
use std::alloc::Global;
use std::io::{BufRead, Write};
use std::sync::Wait;
use std::thread::Threads;
use table_core::Labels;
use work_core::Work;

/// Takes the lines of the input at a desk, and writes the answers to the output. The note about a
/// new store goes to `errors` before the first line is read.
///
/// Faults, in this order: Day; Log, if the log is one of the other files; those of the setup's
/// file, and of the setup; those of the labels' file, and of the labels; Station, if the setup does
/// not list the station; Log, if the log cannot be opened; those of opening the store; Station, if
/// the station has signed off; those of taking the lines.
pub fn at_desk<
    'a,
    T: Threads + Wait + Sync + Copy + Send + 'static,
    S: Start,
    R: BufRead,
    W: Write,
    E: Write,
>(
    rt: &HostRuntime,
    threads: &T,
    wanted: &DeskWords<'a>,
    start: S,
    input: &mut R,
    output: &mut W,
    errors: &mut E,
    notes: &mut String,
) -> Result<Ending<'a>, CommandFault>
    ensures { IfOk result (λ ending. kept_in ending ≡ Some wanted.now.store.now) }
{
    let day = day_if(rt.alloc(), wanted.day)?;
    refuse_log(rt, wanted)?;
    let setup = read_setup(rt, rt.alloc(), wanted.setup)?;
    match read_labels(rt, &setup, wanted.labels) {
        Ok(labels) => take_lines(
            rt, threads, wanted, setup, &labels, day, start, input, output, errors, notes,
        ),
        Err(fault) => {
            drop(setup);
            Err(fault)
        }
    }
}

/// The same with the setup, the labels and the day.
fn take_lines<
    'a,
    T: Threads + Wait + Sync + Copy + Send + 'static,
    S: Start,
    R: BufRead,
    W: Write,
    E: Write,
>(
    rt: &HostRuntime,
    threads: &T,
    wanted: &DeskWords<'a>,
    setup: Setup,
    labels: &Labels,
    day: Option<Day>,
    start: S,
    input: &mut R,
    output: &mut W,
    errors: &mut E,
    notes: &mut String,
) -> Result<Ending<'a>, CommandFault>
    ensures { IfOk result (λ ending. kept_in ending ≡ Some wanted.now.store.now) }
{
    let bench = match bench_of(rt.alloc(), &setup, labels, wanted) {
        Ok(bench) => bench,
        Err(fault) => {
            drop(setup);
            return Err(fault);
        }
    };
    let work = Work::Desk { bench, day };
    let mut log = open_log(rt, wanted.log)?;
    let mut store = open(rt, wanted.store, start, Begins::Record)?;
    announce_new(&mut store, errors);
    match over_store(
        rt,
        threads,
        setup,
        Some(store),
        work,
        &mut Tally::new(),
        input,
        output,
        &mut log,
        notes,
    ) {
        Ok(closed) => Ok(Ending::Done(closed)),
        Err(fault) => Err(with_advice(rt.alloc(), fault, wanted)),
    }
}

/// The desk that the words name. Fault: Station, if the setup does not list its station.
fn bench_of<'b>(
    alloc: Global,
    setup: &Setup,
    labels: &'b Labels,
    wanted: &DeskWords<'_>,
) -> Result<Bench<'b>, CommandFault>
    ensures found { MatchResult result
        (λ bench. find_station setup.now wanted.now.station.now ≡ Some bench.station)
        (λ _. find_station setup.now wanted.now.station.now ≡ None) }
    ensures within { IfOk result (λ bench. bench.station < length setup.now.stations) }
    ensures bell { IfOk result (λ bench. bench.has_bell ≡ wanted.now.bell) }
    ensures labels { IfOk result (λ bench. bench.labels.now ≡ labels.now) }
{
    let station = station_of(alloc, setup, wanted.station)?;
    Ok(Bench {
        station,
        has_bell: wanted.bell,
        help: DESK_HELP,
        labels,
    })
}

/// The fault, with the advice on the desk's own station, or on its log, if the fault is about it.
fn with_advice(alloc: Global, fault: CommandFault, wanted: &DeskWords<'_>) -> CommandFault {
    match fault {
        CommandFault::Station(refusal, _) => {
            CommandFault::Station(refusal, on_station(alloc, wanted.station, refusal))
        }
        CommandFault::Log(_) => CommandFault::Log(on_lost_line(alloc, wanted.log)),
        fault => fault,
    }
}
