//! A serving: one thread for each feed, and the hub in the calling thread.
ghost use Rattle.std.specs.Prelude.{◌≡◌, ◌<◌, ◌≤◌, ◌++◌, ◌^◌, ℕ, List, [], true, false, All, map};
ghost use Rattle.std.specs.Prelude.{length, vec_len, IfOk, IfErr, OnOk};
ghost use Rattle.std.specs.List.{AllZip};
ghost use Rattle.serve_core.specs.declared.item.LogLine.{LogLine};
ghost use Rattle.serve_core.specs.declared.serve_fault.ServeFault.TheVariants as faults;
ghost use Rattle.serve_core.specs.Logs.{Answers, Serves, AreOfStations};
ghost use Rattle.serve_core.specs.Lanes.{IsFresh};
ghost use Rattle.serve_core.specs.Sending.{CountsServe, IsMerge, AreFronts, AfterFault, EndsLanes};
ghost use Rattle.serve_core.specs.Sending.{IsSentTo, HasRoom, SentWhole};

use crate::ending::{Room, are_whole, end_all};
use crate::intake::lanes;
use crate::sending::{SendsAll, Sent, join_all, start_all};
use crate::turns::{drop_until, give_up, turn_until};
use crate::{Feed, Intake, Log, ServeFault};
use codes_core::NoMemory;
use hub_core::Hub;
use register_store::Register;
use std::alloc::Global;
use std::sync::atomic::AtomicBool;
use std::sync::{Arc, Wait};
use std::thread::{PromisedHandle, Threads};

/// The result of a serving: the hub, and the log of all items taken.
#[derive(Drop)]
pub struct Served<R: Register> {
    pub hub: Hub<R>,
    pub log: Log,
}

/// Why a serving stopped, with the hub, and the log of the items taken before.
#[derive(Drop)]
pub struct ServeFailed<R: Register> {
    pub fault: ServeFault,
    pub hub: Hub<R>,
    pub log: Log,
}

/// Serves all stations at once. A thread for each feed sends its items through the station's lane;
/// feed i is that of station i. Meanwhile the calling thread passes each item that comes to the
/// hub, and logs it with its reply. The hub must not be down, and there must be a feed for each
/// station. When the call returns, every thread has ended (no clause promises that).
///
/// Faults, the first that is met:
/// - NoMemory, if a lane, its thread or an item finds no memory; Store, from an item. Nothing more
///   is logged then.
/// - NoMemory, if a feed finds no memory. That ends its lane; the other lanes go on to their ends.
/// - Unfinished(s), if the lane of station s has no end.
pub fn serve<
    R: Register,
    F: Feed + Drop + Send + 'static,
    T: Threads + Wait + Copy + Send + 'static,
>(rt: &T, alloc: Global, hub: Hub<R>, feeds: Vec<F>) -> Result<Served<R>, ServeFailed<R>>
    requires feeds { vec_len feeds ≡ length hub.book.museum.stations }
    requires up { hub.down ≡ false }
    // Every item of every feed is in the log, those of each feed in their order, and each has the
    // reply of looking back.
    ensures merge { IfOk result (λ s. IsMerge (map F.items feeds.items) s.log) }
    ensures served { IfOk result (λ s. Serves R.holding hub s.hub s.log) }
    ensures up { IfOk result (λ s. s.hub.down ≡ false) }
    ensures fronts { IfErr result (λ f. AreFronts (map F.items feeds.items) f.log f.fault) }
    ensures answered { IfErr result (λ f. Answers R.holding hub f.hub f.log) }
    // The log has every item that the hub took, except the one that met the fault, if one did. The
    // hub has nothing of that item, or was stopped at it, as always after Store.
    ensures left { IfErr result
        (λ f. AfterFault R.holding hub f.hub (map F.items feeds.items) f.log f.fault) }
    ensures uncounted { IfOk result (λ s. R.refusals s.hub.register ≡ R.refusals hub.register) }
    ensures counted { IfErr result
        (λ f. CountsServe (R.refusals hub.register) (R.refusals f.hub.register) f.fault) }
{
    let mut hub = hub;
    let mut log = Log::new(alloc);
    match serve_all(rt, alloc, &mut hub, &mut log, feeds) {
        Ok(()) => Ok(Served { hub, log }),
        Err(fault) => Err(ServeFailed { fault, hub, log }),
    }
}

/// Serves all stations with a hub and an empty log.
fn serve_all<
    R: Register,
    F: Feed + Drop + Send + 'static,
    T: Threads + Wait + Copy + Send + 'static,
>(rt: &T, alloc: Global, hub: &mut Hub<R>, log: &mut Log, feeds: Vec<F>) -> Result<(), ServeFault>
    requires feeds { vec_len feeds ≡ length hub.old.book.museum.stations }
    requires log { log.old ≡ [] }
    ensures merge { OnOk result (IsMerge (map F.items feeds.items) log.new) }
    ensures served { OnOk result (Serves R.holding hub.old hub.new log.new) }
    ensures left { IfErr result
        (AfterFault R.holding hub.old hub.new (map F.items feeds.items) log.new) }
    ensures level { OnOk result (hub.new.down ≡ hub.old.down) }
    ensures uncounted { OnOk result (R.refusals hub.new.register ≡ R.refusals hub.old.register) }
    ensures counted { IfErr result
        (CountsServe (R.refusals hub.old.register) (R.refusals hub.new.register)) }
{
    let stations = hub.ledger().setup().stations();
    match prepare(rt, alloc, stations, feeds) {
        Ok(prepared) => take_all(rt, alloc, hub, log, prepared),
        Err(_) => Err(ServeFault::NoMemory),
    }
}

/// The threads that were started, their marks, the intake of their lanes, and room for their
/// results.
#[derive(Drop)]
struct Prepared<F: Feed> {
    intake: Intake,
    room: Room,
    children: Vec<PromisedHandle<Sent, SendsAll<F>>>,
    marks: Vec<Arc<AtomicBool>>,
}

/// Makes the lanes and the room, and starts a thread for each feed. If one can't be started, those
/// before it have ended when this returns.
fn prepare<F: Feed + Drop + Send + 'static, T: Threads + Wait + Copy + Send + 'static>(
    rt: &T,
    alloc: Global,
    stations: u32,
    feeds: Vec<F>,
) -> Result<Prepared<F>, NoMemory>
    requires { vec_len feeds ≡ stations }
    ensures lanes { IfOk result
        (λ p. AllZip IsFresh (map (λ h. h.promise.lane.value) p.children.items) p.intake) }
    ensures feeds { IfOk result
        (λ p. map (λ h. h.promise.feed.value) p.children.items ≡ feeds.items) }
    ensures room { IfOk result (λ p. HasRoom (vec_len p.children) p.room) }
{
    let (lanes, mut intake) = lanes(alloc, stations)?;
    let room = Room::new(alloc, stations)?;
    let started = start_all(rt, alloc, lanes, feeds)?;
    if !started.all {
        give_up(rt, &mut intake, started);
        return Err(NoMemory);
    }
    Ok(Prepared {
        intake,
        room,
        children: started.children,
        marks: started.marks,
    })
}

/// Takes the items that the threads send, and ends their lanes.
fn take_all<R: Register, F: Feed, T: Threads + Wait>(
    rt: &T,
    alloc: Global,
    hub: &mut Hub<R>,
    log: &mut Log,
    prepared: Prepared<F>,
) -> Result<(), ServeFault>
    requires lanes { AllZip IsFresh
        (map (λ h. h.promise.lane.value) prepared.children.items) prepared.intake }
    requires room { HasRoom (vec_len prepared.children) prepared.room }
    requires log { log.old ≡ [] }
    ensures merge { OnOk result
        (IsMerge (map F.items (map (λ h. h.promise.feed.value) prepared.children.items)) log.new) }
    ensures served { OnOk result (Serves R.holding hub.old hub.new log.new) }
    ensures left { IfErr result
        (AfterFault R.holding hub.old hub.new
        (map F.items (map (λ h. h.promise.feed.value) prepared.children.items)) log.new) }
    ensures level { OnOk result (hub.new.down ≡ hub.old.down) }
    ensures uncounted { OnOk result (R.refusals hub.new.register ≡ R.refusals hub.old.register) }
    ensures counted { IfErr result
        (CountsServe (R.refusals hub.old.register) (R.refusals hub.new.register)) }
{
    let Prepared {
        mut intake,
        mut room,
        children,
        marks,
    } = prepared;
    match turn_until(rt, alloc, hub, &mut intake, log, &marks) {
        Ok(()) => {
            join_all(rt, children, &mut room.found);
            finish_all(alloc, hub, log, intake, room)
        }
        Err(fault) => {
            drop_until(rt, &mut intake, &marks);
            join_all(rt, children, &mut room.found);
            intake.settle_lanes(&mut room.found);
            Err(ServeFault::from(fault))
        }
    }
}

/// Ends the lanes after their threads have ended, and takes the items left in them.
fn finish_all<R: Register>(
    alloc: Global,
    hub: &mut Hub<R>,
    log: &mut Log,
    intake: Intake,
    room: Room,
) -> Result<(), ServeFault>
    requires lanes { AllZip IsSentTo room.found.items intake }
    requires few { vec_len room.found < 2 ^ 32 }
    requires ends { (room.ends.items ≡ []) × (vec_len room.found ≤ room.ends.cap) }
    ensures lines { OnOk result
        ((G : List LogLine) × (log.new ≡ log.old ++ G)
        × Serves R.holding hub.old hub.new G × AreOfStations (length intake) G
        × All (λ sent. sent.whole ≡ true) room.found.items × SentWhole intake room.found.items G) }
    ensures left { IfErr result
        (EndsLanes R.holding hub.old hub.new intake room.found.items log.old log.new) }
    ensures level { OnOk result (hub.new.down ≡ hub.old.down) }
    ensures uncounted { OnOk result (R.refusals hub.new.register ≡ R.refusals hub.old.register) }
    ensures counted { IfErr result
        (CountsServe (R.refusals hub.old.register) (R.refusals hub.new.register)) }
{
    let mut intake = intake;
    let Room {
        mut found,
        mut ends,
    } = room;
    let whole = are_whole(&found);
    intake.settle_lanes(&mut found);
    match end_all(found, &mut ends) {
        Some(station) => Err(missing_end(whole, station)),
        None => match intake.finish(alloc, hub, log, ends) {
            Ok(()) => all_or_no_memory(whole),
            Err(fault) => Err(ServeFault::from(fault)),
        },
    }
}

/// The fault if a lane has no end. A feed that found no memory comes first.
fn missing_end(whole: bool, station: u32) -> ServeFault
    ensures missing { whole ≡ true → result ≡ faults.Unfinished station }
    ensures memory { whole ≡ false → result ≡ faults.NoMemory }
{
    if whole {
        ServeFault::Unfinished(station)
    } else {
        ServeFault::NoMemory
    }
}

/// NoMemory unless all feeds came to their ends.
fn all_or_no_memory(whole: bool) -> Result<(), ServeFault>
    ensures whole { OnOk result (whole ≡ true) }
    ensures fault { IfErr result (λ fault. fault ≡ faults.NoMemory) }
{
    if whole {
        Ok(())
    } else {
        Err(ServeFault::NoMemory)
    }
}
