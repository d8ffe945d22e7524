//! Takes the lines of an input at a desk.
ghost use Rattle.std.specs.Prelude.{◌≡◌, ◌<◌, false, length, List, OnOk, IfErr};
ghost use Rattle.posting_core.specs.declared.entry.Entry.{Entry};
ghost use Rattle.hub_core.specs.declared.hub.answer.Arrival.{Arrival};
ghost use Rattle.hub_core.specs.StandsFor.{StandsFor};
ghost use Rattle.desk_core.specs.Logs.{log_of};
ghost use Rattle.desk_core.specs.Sessions.{Answered};
ghost use Rattle.work_core.specs.Stops.{LeavesDesk, StopsDesk};
ghost use Rattle.work_core.specs.Works.{HasWorkedAt, new_desk};

use crate::WorkFault;
use crate::notes::add_held;
use codes_core::Day;
use desk_core::{Bench, Desk, Questions, run_desk};
use hub_core::Hub;
use register_store::Register;
use std::alloc::Global;
use std::io::{BufRead, Write};
use std::thread::Threads;

/// Takes the lines of the input at the desk, and adds the notes on messages that are still held.
/// Returns the hub's register, and the fault if there is one: SignedOff, if the station of the desk
/// has signed off; those of [`run_desk`](desk_core::run_desk); NoMemory, for a note.
pub(crate) fn worked<T: Threads + Sync, Q: Questions, S: Register, R: BufRead, W: Write, L: Write>(
    threads: &T,
    alloc: Global,
    questions: &Q,
    mut hub: Hub<S>,
    bench: &Bench<'_>,
    day: Option<Day>,
    input: &mut R,
    output: &mut W,
    log: &mut Option<L>,
    notes: &mut String,
) -> (S, Result<(), WorkFault>)
    requires up { hub.down ≡ false }
    requires known { bench.now.station < length hub.book.museum.stations }
    ensures worked { OnOk result.1 (HasWorkedAt Q.asks bench.now day S.holding hub result.0
        (R.remaining input.old) (R.remaining input.new)
        (W.contents output.old) (W.contents output.new)
        (log_of L.contents log.old) (log_of L.contents log.new)) }
    ensures stops { IfErr result.1 (StopsDesk Q.asks bench.now day S.holding hub result.0
        (R.remaining input.old) (R.remaining input.new)
        (W.contents output.old) (W.contents output.new)
        (log_of L.contents log.old) (log_of L.contents log.new)) }
{
    if hub.ledger().has_signed_off(bench.station) {
        return (hub.close(), Err(WorkFault::SignedOff));
    }
    let ended = answer(
        threads, alloc, questions, &mut hub, bench, day, input, output, log, notes,
    );
    (hub.close(), ended)
}

/// Answers the lines over the hub, and adds the notes.
fn answer<T: Threads + Sync, Q: Questions, S: Register, R: BufRead, W: Write, L: Write>(
    threads: &T,
    alloc: Global,
    questions: &Q,
    hub: &mut Hub<S>,
    bench: &Bench<'_>,
    day: Option<Day>,
    input: &mut R,
    output: &mut W,
    log: &mut Option<L>,
    notes: &mut String,
) -> Result<(), WorkFault>
    requires up { hub.old.down ≡ false }
    requires known { bench.now.station < length hub.old.book.museum.stations }
    ensures answered { OnOk result
        ((O : List Entry) (A : List Arrival) → StandsFor S.holding hub.old O A →
        Answered hub.old.book.museum hub.old.book.depth O A Q.asks bench.now (new_desk day)
        (R.remaining input.old) (R.remaining input.new)
        (W.contents output.old) (W.contents output.new)
        (log_of L.contents log.old) (log_of L.contents log.new) S.holding hub.new) }
    ensures left { IfErr result
        (λ fault. (O : List Entry) (A : List Arrival) → StandsFor S.holding hub.old O A →
        LeavesDesk Q.asks bench.now day S.holding hub.old hub.new O A
        (R.remaining input.old) (R.remaining input.new)
        (W.contents output.old) (W.contents output.new)
        (log_of L.contents log.old) (log_of L.contents log.new) fault) }
{
    let desk = Desk::new(day);
    if let Err(fault) = run_desk(
        threads, alloc, questions, bench, desk, hub, input, output, log,
    ) {
        return Err(WorkFault::from(fault));
    }
    match add_held(notes, hub) {
        Ok(()) => Ok(()),
        Err(_) => Err(WorkFault::NoMemory),
    }
}
