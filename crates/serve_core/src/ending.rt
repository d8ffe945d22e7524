//! Takes back the lanes from the threads, and ends them.
ghost use Rattle.std.specs.Prelude.{◌≡◌, ◌^◌, ◌<◌, ◌≤◌, ℕ, [], true, All, IsTrue, length, take};
ghost use Rattle.std.specs.Prelude.{vec_len, IfNone, IfOk, IfSome};
ghost use Rattle.std.specs.List.{AllZip};
ghost use Rattle.rtrb.specs.Ring.{SameConsumer};
ghost use Rattle.serve_core.specs.Lanes.{received_is, received_at, sent_items, Begins};
ghost use Rattle.serve_core.specs.Sending.{IsStill, IsSentTo, IsEndOfSent, HasRoom, sent_at};

use crate::sending::Sent;
use crate::{Intake, Item, LaneEnd};
use codes_core::NoMemory;
use rtrb::Consumer;
use std::alloc::Global;

/// Room for the results of the threads, and for the ends of their lanes. It is made before the
/// first thread starts, so that joining the threads and ending the lanes need no memory.
#[derive(Drop)]
pub(crate) struct Room {
    pub(crate) found: Vec<Sent>,
    pub(crate) ends: Vec<LaneEnd>,
}

impl Room {
    /// Makes room for this many lanes.
    pub(crate) fn new(alloc: Global, count: u32) -> Result<Room, NoMemory>
        ensures { IfOk result (HasRoom count) }
    {
        let found = Vec::with_capacity(alloc, count as usize)?;
        let ends = Vec::with_capacity(alloc, count as usize)?;
        Ok(Room { found, ends })
    }
}

impl Intake {
    /// Looks at each lane that was handed back together with its ring. Nothing is taken or sent;
    /// the look lets the contract say that the items taken are the first of those sent.
    pub(crate) fn settle_lanes(&mut self, found: &mut Vec<Sent>)
        requires { AllZip IsSentTo found.old.items self.old }
        ensures rings { AllZip SameConsumer self.old self.new }
        ensures taken { (s : ℕ) → received_at self.new s ≡ received_at self.old s }
        ensures pairs { AllZip IsSentTo found.new.items self.new }
        ensures found { AllZip IsStill found.old.items found.new.items }
        ensures front { (s : ℕ) → s < length self.old
            → Begins (received_at self.old s) (sent_at found.old.items s) }
    {
        settle_lanes(&mut self.rings, found);
    }
}

/// Looks at each lane together with its ring.
fn settle_lanes(rings: &mut Vec<Consumer<Item>>, found: &mut Vec<Sent>)
    requires { AllZip IsSentTo found.old.items rings.old.items }
    ensures rings { AllZip SameConsumer rings.old.items rings.new.items }
    ensures taken { (s : ℕ) → received_at rings.new.items s ≡ received_at rings.old.items s }
    ensures pairs { AllZip IsSentTo found.new.items rings.new.items }
    ensures found { AllZip IsStill found.old.items found.new.items }
    ensures front { (s : ℕ) → s < vec_len rings.old
        → Begins (received_at rings.old.items s) (sent_at found.old.items s) }
    ensures few { vec_len rings.new ≡ vec_len rings.old }
{
    for i in 0..rings.len() {
        settle_lane(&mut rings[i], &mut found[i]);
    }
}

/// Looks at a lane together with its ring.
fn settle_lane(ring: &mut Consumer<Item>, sent: &mut Sent)
    requires { IsSentTo sent.old ring.old }
    ensures ring { SameConsumer ring.old ring.new × (received_is ring.new ≡ received_is ring.old) }
    ensures pair { IsSentTo sent.new ring.new }
    ensures sent { IsStill sent.old sent.new }
    ensures front { Begins (received_is ring.old) (sent_items sent.old.lane) }
{
    ring.slots_beside(&mut sent.lane.producer);
}

/// Whether each feed came to its end.
pub(crate) fn are_whole(found: &[Sent]) -> bool
    ensures { IsTrue result → All (λ sent. sent.whole ≡ true) found.now }
{
    found.iter().all(|sent| sent.whole)
}

/// Ends the lanes, in order, and adds their ends to `ends`, which has room for them. Returns the
/// number of the first lane that has no end, and stops there; otherwise None.
pub(crate) fn end_all(found: Vec<Sent>, ends: &mut Vec<LaneEnd>) -> Option<u32>
    requires few { vec_len found < 2 ^ 32 }
    requires room { (ends.old.items ≡ []) × (vec_len found ≤ ends.old.cap) }
    ensures ends { IfNone result (AllZip IsEndOfSent found.items ends.new.items) }
    ensures missing { IfSome result
        (λ s. (s < vec_len found) × AllZip IsEndOfSent (take s found.items) ends.new.items) }
{
    let mut found = found;
    while !found.is_empty() {
        let sent = found.remove(0);
        let Some(end) = sent.lane.finish() else {
            return Some(ends.len() as u32);
        };
        let Ok(()) = ends.push(end) else {
            unreachable!()
        };
    }
    None
}
