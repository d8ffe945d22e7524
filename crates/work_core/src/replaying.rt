//! Answers the lines of an input.
ghost use Rattle.std.specs.Prelude.{◌≡◌, false, List, OnOk, IfErr};
ghost use Rattle.posting_core.specs.declared.entry.Entry.{Entry};
ghost use Rattle.hub_core.specs.declared.hub.answer.Arrival.{Arrival};
ghost use Rattle.hub_core.specs.Outcomes.{Watched};
ghost use Rattle.hub_core.specs.StandsFor.{StandsFor};
ghost use Rattle.work_core.specs.Stops.{LeavesLines, StopsReplay};
ghost use Rattle.work_core.specs.Works.{HasReplayed};

use crate::WorkFault;
use crate::notes::{add_causes, add_held};
use codes_core::NoMemory;
use hub_core::{Hub, Watch, replay_watched};
use register_store::Register;
use std::alloc::Global;
use std::io::{BufRead, Write};
use std::thread::Threads;

/// Answers the lines of the input, and adds the notes. Returns the hub's register, and the fault if
/// there is one.
pub(crate) fn replayed<T: Threads + Sync, S: Register, V: Watch, R: BufRead, W: Write>(
    threads: &T,
    alloc: Global,
    mut hub: Hub<S>,
    why: bool,
    watch: &mut V,
    input: &mut R,
    output: &mut W,
    notes: &mut String,
) -> (S, Result<(), WorkFault>)
    requires { hub.down ≡ false }
    ensures replayed { OnOk result.1 (HasReplayed S.holding hub result.0
        (V.has_seen watch.old) (V.has_seen watch.new)
        (R.remaining input.old) (R.remaining input.new)
        (W.contents output.old) (W.contents output.new)) }
    ensures stops { IfErr result.1 (StopsReplay S.holding hub result.0
        (R.remaining input.old) (R.remaining input.new)
        (W.contents output.old) (W.contents output.new)) }
{
    let ended = answer(threads, alloc, &mut hub, why, watch, input, output, notes);
    (hub.close(), ended)
}

/// Answers the lines of the input over the hub, and adds the notes.
fn answer<T: Threads + Sync, S: Register, V: Watch, R: BufRead, W: Write>(
    threads: &T,
    alloc: Global,
    hub: &mut Hub<S>,
    why: bool,
    watch: &mut V,
    input: &mut R,
    output: &mut W,
    notes: &mut String,
) -> Result<(), WorkFault>
    requires { hub.old.down ≡ false }
    ensures answered { OnOk result
        ((O : List Entry) (A : List Arrival) → StandsFor S.holding hub.old O A →
        Watched hub.old.book.museum hub.old.book.depth O A (R.remaining input.old)
        (R.remaining input.new) (W.contents output.old) (W.contents output.new)
        S.holding hub.new (V.has_seen watch.old) (V.has_seen watch.new)) }
    ensures left { IfErr result
        (λ fault. (O : List Entry) (A : List Arrival) → StandsFor S.holding hub.old O A →
        LeavesLines S.holding hub.old hub.new O A (R.remaining input.old) (R.remaining input.new)
        (W.contents output.old) (W.contents output.new) fault) }
{
    let next = u64::from(hub.ledger().entry_count()) + 1;
    if let Err(fault) = replay_watched(alloc, input, output, hub, watch) {
        return Err(WorkFault::from(fault));
    }
    match add_ending(threads, alloc, notes, hub, why, next) {
        Ok(()) => Ok(()),
        Err(_) => Err(WorkFault::NoMemory),
    }
}

/// Appends the notes after a replay: the held messages and, with `why`, the causes of the refused
/// entries from this one on.
fn add_ending<T: Threads + Sync, S: Register>(
    threads: &T,
    alloc: Global,
    notes: &mut String,
    hub: &Hub<S>,
    why: bool,
    from: u64,
) -> Result<(), NoMemory> {
    add_held(notes, hub)?;
    if why {
        add_causes(threads, alloc, notes, hub.ledger(), from)?;
    }
    Ok(())
}
