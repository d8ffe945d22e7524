//! Takes items from all lanes.
ghost use Rattle.std.specs.Prelude.{◌≡◌, ◌^◌, ◌<◌, ◌≤◌, ◌++◌, ◌∷◌, ℕ, [], List, true, IfOk};
ghost use Rattle.std.specs.Prelude.{IsErrOf, OnOk, OnErr, vec_len, length};
ghost use Rattle.std.specs.List.{AllZip};
ghost use Rattle.rtrb.specs.Ring.{SameConsumer};
ghost use Rattle.hub_core.specs.Faults.{CountsStore};
ghost use Rattle.serve_core.specs.declared.item.Item.{Item};
ghost use Rattle.serve_core.specs.declared.item.LogLine.{LogLine};
ghost use Rattle.serve_core.specs.Logs.{AreOfStations, Serves, ServesTo, dropped, Ascends};
ghost use Rattle.serve_core.specs.Lanes.{IsFresh, IsEndOn, Takes, TakesSome, TakesOf, TakesFront};
ghost use Rattle.serve_core.specs.Lanes.{TakesLeft, Begins, SameEnds, end_items, ended_at};
ghost use Rattle.serve_core.specs.Lanes.{received_is, received_at};

use crate::item_replies::log_item;
use crate::lane::ROOM;
use crate::{Item, Lane, LaneEnd, Log, LogLine};
use codes_core::NoMemory;
use hub_core::{Hub, HubFault};
use register_store::Register;
use rtrb::{Consumer, RingBuffer};
use std::alloc::Global;
use std::marker::Model;

/// The receiving end of all lanes, in the thread that owns the hub. Contracts see it as the rings,
/// each with the items taken from it.
#[derive(Drop)]
pub struct Intake {
    pub(crate) rings: Vec<Consumer<Item>>,
}

impl Model for Intake {
    ghost use Rattle.std.specs.Prelude.{List, ◌^◌, ◌<◌, vec_len};
    ghost use Rattle.serve_core.specs.Lanes.{Ring};

    ghost Value = { List Ring };

    ghost view = { λ i. i.rings.items };

    ghost invariant = { λ i. vec_len i.rings < 2 ^ 32 };
}

/// Makes this many lanes, through which nothing was sent, and the intake that takes from them. Lane
/// i is that of station i, counted from 0. Fault: NoMemory.
pub fn lanes(alloc: Global, n: u32) -> Result<(Vec<Lane>, Intake), NoMemory>
    ensures count { IfOk result (λ r. vec_len r.0 ≡ n) }
    ensures fresh { IfOk result (λ r. AllZip IsFresh r.0.items r.1) }
{
    let mut lanes = Vec::new(alloc);
    let mut rings = Vec::new(alloc);
    for _ in 0..n {
        let (producer, consumer) = RingBuffer::new(alloc, ROOM)?;
        lanes.push(Lane { producer })?;
        rings.push(consumer)?;
    }
    Ok((lanes, Intake { rings }))
}

impl Intake {
    /// One turn: takes at most one item from each lane, lane 0 first, passes it to the hub, and
    /// adds a line with the reply to the log. Returns the number of lines. Faults: NoMemory, also
    /// of the item's copy and of the log's room, which come before the hub is called; Store; Down,
    /// only if the hub is down. A fault ends the turn: the item that met it is dropped, and the
    /// lines before it stay.
    pub fn turn<R: Register>(
        &mut self,
        alloc: Global,
        hub: &mut Hub<R>,
        log: &mut Log,
    ) -> Result<u32, HubFault>
        ensures lines { IfOk result
            (λ n. (G : List LogLine) × (log.new ≡ log.old ++ G)
            × Serves R.holding hub.old hub.new G × Takes self.old self.new G
            × (n ≡ length G) × Ascends 0 (length self.old) G) }
        // The items of the lines were taken, and then one of a later station, which met the fault.
        ensures fault { OnErr result
            ((G : List LogLine) × (s : ℕ) × (item : Item) × (log.new ≡ log.old ++ G)
            × ServesTo R.holding hub.old hub.new G s item
            × Takes self.old self.new (G ++ dropped s item ∷ []) × Ascends 0 s G) }
        ensures store { IsErrOf result HubFault.Store → hub.new.down ≡ true }
        ensures level { OnOk result (hub.new.down ≡ hub.old.down) }
        ensures down { IsErrOf result HubFault.Down → hub.old.down ≡ true }
        ensures count { CountsStore (R.refusals hub.old.register)
            (R.refusals hub.new.register) result }
    {
        turn_all(alloc, hub, &mut self.rings, &mut log.lines)
    }

    /// Takes at most one item from each lane and drops it. Returns how many were taken.
    pub(crate) fn drop_items(&mut self) -> u32
        ensures { TakesSome self.old self.new [] }
    {
        drop_all(&mut self.rings)
    }

    /// Takes all that is left in the lanes, passes each item to the hub, and adds a line with the
    /// reply to the log. `ends` has the ends of the lanes, in their order. Faults: those of a turn.
    /// A fault ends the call: the item that met it and those after it are dropped, and the lines
    /// before it stay.
    pub fn finish<R: Register>(
        self,
        alloc: Global,
        hub: &mut Hub<R>,
        log: &mut Log,
        ends: Vec<LaneEnd>,
    ) -> Result<(), HubFault>
        requires { AllZip IsEndOn ends.items self }
        ensures lines { OnOk result
            ((G : List LogLine) × (log.new ≡ log.old ++ G)
            × Serves R.holding hub.old hub.new G × AreOfStations (length self) G
            × TakesLeft self ends.items G) }
        // The logged items, and then the one that met the fault, are the first items that were left
        // in each lane.
        ensures fault { OnErr result
            ((G : List LogLine) × (s : ℕ) × (item : Item) × (log.new ≡ log.old ++ G)
            × ServesTo R.holding hub.old hub.new G s item
            × AreOfStations (length self) (G ++ dropped s item ∷ [])
            × TakesFront self ends.items (G ++ dropped s item ∷ [])) }
        ensures store { IsErrOf result HubFault.Store → hub.new.down ≡ true }
        ensures level { OnOk result (hub.new.down ≡ hub.old.down) }
        ensures down { IsErrOf result HubFault.Down → hub.old.down ≡ true }
        ensures count { CountsStore (R.refusals hub.old.register)
            (R.refusals hub.new.register) result }
    {
        let Intake { mut rings } = self;
        let mut ends = ends;
        match take_left(alloc, hub, &mut rings, &mut ends, &mut log.lines) {
            Ok(()) => Ok(()),
            Err(fault) => {
                settle_all(&mut rings, &mut ends);
                Err(fault)
            }
        }
    }
}

/// Takes at most one item from each ring and drops it.
fn drop_all(rings: &mut Vec<Consumer<Item>>) -> u32
    requires { vec_len rings.old < 2 ^ 32 }
    ensures some { TakesSome rings.old.items rings.new.items [] }
    ensures few { vec_len rings.new ≡ vec_len rings.old }
{
    let mut taken = 0;
    for i in 0..rings.len() {
        taken += drop_one(&mut rings[i]);
    }
    taken
}

/// Takes at most one item from a ring and drops it.
fn drop_one(ring: &mut Consumer<Item>) -> u32
    ensures ring { SameConsumer ring.old ring.new }
    ensures some { Begins (received_is ring.old) (received_is ring.new) }
    ensures few { result ≤ 1 }
{
    match ring.pop() {
        Ok(_item) => 1,
        Err(_) => 0,
    }
}

/// One turn over the rings.
fn turn_all<R: Register>(
    alloc: Global,
    hub: &mut Hub<R>,
    rings: &mut Vec<Consumer<Item>>,
    lines: &mut Vec<LogLine>,
) -> Result<u32, HubFault>
    requires { vec_len rings.old < 2 ^ 32 }
    ensures lines { IfOk result
        (λ n. (G : List LogLine) × (lines.new.items ≡ lines.old.items ++ G)
        × Serves R.holding hub.old hub.new G × Takes rings.old.items rings.new.items G
        × (n ≡ length G) × Ascends 0 (vec_len rings.old) G) }
    ensures fault { OnErr result
        ((G : List LogLine) × (s : ℕ) × (item : Item) × (lines.new.items ≡ lines.old.items ++ G)
        × ServesTo R.holding hub.old hub.new G s item
        × Takes rings.old.items rings.new.items (G ++ dropped s item ∷ []) × Ascends 0 s G) }
    ensures store { IsErrOf result HubFault.Store → hub.new.down ≡ true }
    ensures few { vec_len rings.new ≡ vec_len rings.old }
    ensures level { OnOk result (hub.new.down ≡ hub.old.down) }
    ensures down { IsErrOf result HubFault.Down → hub.old.down ≡ true }
    ensures count { CountsStore (R.refusals hub.old.register) (R.refusals hub.new.register) result }
{
    let mut taken = 0;
    for i in 0..rings.len() {
        taken += take_one(alloc, hub, &mut rings[i], i as u32, lines)?;
    }
    Ok(taken)
}

/// Takes at most one item from a ring.
fn take_one<R: Register>(
    alloc: Global,
    hub: &mut Hub<R>,
    ring: &mut Consumer<Item>,
    station: u32,
    lines: &mut Vec<LogLine>,
) -> Result<u32, HubFault>
    ensures lines { IfOk result
        (λ n. (G : List LogLine) × (lines.new.items ≡ lines.old.items ++ G)
        × Serves R.holding hub.old hub.new G × TakesOf station ring.old ring.new G
        × (n ≡ length G) × (n ≤ 1)) }
    ensures fault { OnErr result
        ((item : Item) × (lines.new.items ≡ lines.old.items)
        × ServesTo R.holding hub.old hub.new [] station item
        × TakesOf station ring.old ring.new (dropped station item ∷ [])) }
    ensures store { IsErrOf result HubFault.Store → hub.new.down ≡ true }
    ensures level { OnOk result (hub.new.down ≡ hub.old.down) }
    ensures down { IsErrOf result HubFault.Down → hub.old.down ≡ true }
    ensures count { CountsStore (R.refusals hub.old.register) (R.refusals hub.new.register) result }
{
    match ring.pop() {
        Ok(item) => {
            log_item(alloc, hub, station, item, lines)?;
            Ok(1)
        }
        Err(_) => Ok(0),
    }
}

/// Takes all that is left in the rings of lanes that have ended, up to a fault.
fn take_left<R: Register>(
    alloc: Global,
    hub: &mut Hub<R>,
    rings: &mut Vec<Consumer<Item>>,
    ends: &mut Vec<LaneEnd>,
    lines: &mut Vec<LogLine>,
) -> Result<(), HubFault>
    requires few { vec_len rings.old < 2 ^ 32 }
    requires ends { AllZip IsEndOn ends.old.items rings.old.items }
    ensures lines { OnOk result
        ((G : List LogLine) × (lines.new.items ≡ lines.old.items ++ G)
        × Serves R.holding hub.old hub.new G × Takes rings.old.items rings.new.items G
        × TakesLeft rings.old.items ends.old.items G) }
    ensures fault { OnErr result
        ((G : List LogLine) × (s : ℕ) × (item : Item) × (lines.new.items ≡ lines.old.items ++ G)
        × ServesTo R.holding hub.old hub.new G s item
        × Takes rings.old.items rings.new.items (G ++ dropped s item ∷ [])) }
    ensures store { IsErrOf result HubFault.Store → hub.new.down ≡ true }
    ensures ends { AllZip IsEndOn ends.new.items rings.new.items
        × SameEnds ends.old.items ends.new.items }
    ensures level { OnOk result (hub.new.down ≡ hub.old.down) }
    ensures down { IsErrOf result HubFault.Down → hub.old.down ≡ true }
    ensures count { CountsStore (R.refusals hub.old.register) (R.refusals hub.new.register) result }
{
    for i in 0..rings.len() {
        drain(alloc, hub, &mut rings[i], &mut ends[i], i as u32, lines)?;
    }
    Ok(())
}

/// Takes all that is left in the ring of a lane that has ended, up to a fault.
fn drain<R: Register>(
    alloc: Global,
    hub: &mut Hub<R>,
    ring: &mut Consumer<Item>,
    end: &mut LaneEnd,
    station: u32,
    lines: &mut Vec<LogLine>,
) -> Result<(), HubFault>
    requires { IsEndOn end.old ring.old }
    ensures lines { OnOk result
        ((G : List LogLine) × (lines.new.items ≡ lines.old.items ++ G)
        × Serves R.holding hub.old hub.new G × TakesOf station ring.old ring.new G
        × (received_is ring.new ≡ end_items end.old)) }
    ensures fault { OnErr result
        ((G : List LogLine) × (item : Item) × (lines.new.items ≡ lines.old.items ++ G)
        × ServesTo R.holding hub.old hub.new G station item
        × TakesOf station ring.old ring.new (G ++ dropped station item ∷ [])) }
    ensures store { IsErrOf result HubFault.Store → hub.new.down ≡ true }
    ensures end { IsEndOn end.new ring.new × (end_items end.new ≡ end_items end.old) }
    ensures level { OnOk result (hub.new.down ≡ hub.old.down) }
    ensures down { IsErrOf result HubFault.Down → hub.old.down ≡ true }
    ensures count { CountsStore (R.refusals hub.old.register) (R.refusals hub.new.register) result }
{
    let left = ring.slots_after(&mut end.finished);
    for _ in 0..left {
        let item = ring.pop_known();
        log_item(alloc, hub, station, item, lines)?;
    }
    Ok(())
}

/// Looks at the end of each lane together with its ring, as in `settle_lanes`.
fn settle_all(rings: &mut Vec<Consumer<Item>>, ends: &mut Vec<LaneEnd>)
    requires { AllZip IsEndOn ends.old.items rings.old.items }
    ensures { (s : ℕ) → s < vec_len rings.old
        → Begins (received_at rings.old.items s) (ended_at ends.old.items s) }
{
    for i in 0..rings.len() {
        settle(&mut rings[i], &mut ends[i]);
    }
}

/// Looks at the end of a lane together with its ring.
fn settle(ring: &mut Consumer<Item>, end: &mut LaneEnd)
    requires { IsEndOn end.old ring.old }
    ensures front { Begins (received_is ring.old) (end_items end.old) }
    ensures ring { SameConsumer ring.old ring.new × (received_is ring.new ≡ received_is ring.old) }
    ensures end { IsEndOn end.new ring.new × (end_items end.new ≡ end_items end.old) }
{
    ring.slots_after(&mut end.finished);
}
