//! Takes turns until the threads have ended.
ghost use Rattle.std.specs.Prelude.{◌≡◌, ℕ, List, [], ◌∷◌, ◌++◌, true, vec_len, IsErrOf, OnOk};
ghost use Rattle.std.specs.Prelude.{OnErr};
ghost use Rattle.hub_core.specs.Faults.{CountsStore};
ghost use Rattle.serve_core.specs.declared.item.Item.{Item};
ghost use Rattle.serve_core.specs.declared.item.LogLine.{LogLine};
ghost use Rattle.serve_core.specs.Logs.{Serves, ServesTo, dropped};
ghost use Rattle.serve_core.specs.Lanes.{Takes, TakesSome};

use crate::pause::rest;
use crate::sending::Started;
use crate::{Feed, Intake, Log};
use hub_core::{Hub, HubFault};
use register_store::Register;
use std::alloc::Global;
use std::sync::atomic::{AtomicBool, Ordering};
use std::sync::{Arc, Wait};
use std::thread::Threads;

/// Whether all marks are set.
fn all_ended(marks: &[Arc<AtomicBool>]) -> bool {
    for mark in marks {
        if !mark.load(Ordering::SeqCst) {
            return false;
        }
    }
    true
}

/// Rests if nothing was taken.
fn rest_if_none(rt: &impl Wait, taken: u32) {
    if taken == 0 {
        rest(rt, 1);
    }
}

/// Takes turns until all threads have ended, or up to a fault.
pub(crate) fn turn_until<R: Register>(
    rt: &impl Wait,
    alloc: Global,
    hub: &mut Hub<R>,
    intake: &mut Intake,
    log: &mut Log,
    marks: &[Arc<AtomicBool>],
) -> Result<(), HubFault>
    ensures lines { OnOk result
        ((G : List LogLine) × (log.new ≡ log.old ++ G)
        × Serves R.holding hub.old hub.new G × Takes intake.old intake.new G) }
    ensures fault { OnErr result
        ((G : List LogLine) × (s : ℕ) × (item : Item) × (log.new ≡ log.old ++ G)
        × ServesTo R.holding hub.old hub.new G s item
        × Takes intake.old intake.new (G ++ dropped s item ∷ [])) }
    ensures store { IsErrOf result HubFault.Store → hub.new.down ≡ true }
    ensures level { OnOk result (hub.new.down ≡ hub.old.down) }
    ensures count { CountsStore (R.refusals hub.old.register) (R.refusals hub.new.register) result }
{
    for _ in rt.forever() {
        if all_ended(marks) {
            return Ok(());
        }
        let taken = intake.turn(alloc, hub, log)?;
        rest_if_none(rt, taken);
    }
    unreachable!()
}

/// Empties the lanes until all threads have ended. Otherwise a thread could wait for room forever.
pub(crate) fn drop_until(rt: &impl Wait, intake: &mut Intake, marks: &[Arc<AtomicBool>])
    ensures { TakesSome intake.old intake.new [] }
{
    for _ in rt.forever() {
        if all_ended(marks) {
            return;
        }
        let taken = intake.drop_items();
        rest_if_none(rt, taken);
    }
    unreachable!()
}

/// Empties the lanes until the threads that were started have ended, and drops their results.
pub(crate) fn give_up<F: Feed, T: Threads + Wait>(
    rt: &T,
    intake: &mut Intake,
    started: Started<F>,
) {
    let Started {
        mut children,
        marks,
        all: _,
    } = started;
    drop_until(rt, intake, &marks);
    while !children.is_empty() {
        children.remove(0).join(rt);
    }
}
