//! The threads that send.
ghost use Rattle.std.specs.Prelude.{◌≡◌, ◌≤◌, ◌++◌, ◌∷◌, [], true, map, vec_len, IfOk};
ghost use Rattle.std.specs.List.{AllZip};
ghost use Rattle.serve_core.specs.Lanes.{sent_items, SameLane};
ghost use Rattle.serve_core.specs.Sending.{Sends};

use crate::pause::rest;
use crate::{Feed, Full, Item, Lane};
use codes_core::NoMemory;
use std::alloc::{AllocError, Global};
use std::snapshot::Snapshot;
use std::sync::atomic::{AtomicBool, Ordering};
use std::sync::{Arc, Wait};
use std::thread;
use std::thread::{Promise, PromisedHandle, Threads};

/// The result of a station's thread: its lane, and whether its feed came to its end.
#[derive(Drop)]
pub struct Sent {
    pub(crate) lane: Lane,
    pub(crate) whole: bool,
}

/// Sends an item through a lane, one of `lanes`. Waits as long as the lane is full.
fn send_waiting(rt: &impl Wait, lanes: usize, lane: &mut Lane, item: Item)
    ensures lane { SameLane lane.old lane.new }
    ensures sent { sent_items lane.new ≡ sent_items lane.old ++ item ∷ [] }
{
    let mut item = item;
    for _ in rt.forever() {
        match lane.send(item) {
            Ok(()) => return,
            Err(Full(back)) => item = back,
        }
        rest(rt, lanes);
    }
    unreachable!()
}

/// Sends a feed through a lane, one of `lanes`, until the feed ends or finds no memory.
fn send_all<F: Feed + Drop>(
    rt: &impl Wait,
    alloc: Global,
    lanes: usize,
    lane: Lane,
    feed: F,
) -> Sent
    ensures { Sends lane (F.items feed) result }
{
    let mut lane = lane;
    let mut feed = feed;
    for _ in rt.forever() {
        match feed.next(alloc) {
            Ok(Some(item)) => send_waiting(rt, lanes, &mut lane, item),
            Ok(None) => return Sent { lane, whole: true },
            Err(_) => return Sent { lane, whole: false },
        }
    }
    unreachable!()
}

/// The promise that a thread sends this feed through this lane.
#[derive(Drop)]
pub struct SendsAll<F: Feed> {
    lane: Snapshot<Lane>,
    feed: Snapshot<F>,
}

impl<F: Feed> Promise<Sent> for SendsAll<F> {
    ghost use Rattle.serve_core.specs.Sending.{Sends};

    ghost kept_by = { λ p r. Sends p.lane.value (F.items p.feed.value) r };
}

/// Starts the thread of a feed. Its last act is to set the mark.
fn start<F: Feed + Drop + Send + 'static, R: Threads + Wait + Copy + Send + 'static>(
    rt: &R,
    alloc: Global,
    mark: Arc<AtomicBool>,
    lanes: usize,
    lane: Lane,
    feed: F,
) -> Result<PromisedHandle<Sent, SendsAll<F>>, AllocError>
    ensures { IfOk result (λ h. (h.promise.lane.value ≡ lane) × (h.promise.feed.value ≡ feed)) }
{
    let mine = *rt;
    let promise = SendsAll {
        lane: Snapshot::of(&lane),
        feed: Snapshot::of(&feed),
    };
    let child = thread::spawn_with(
        rt,
        promise,
        move || -> Sent
            ensures { Sends lane (F.items feed) result }
        {
            let sent = send_all(&mine, alloc, lanes, lane, feed);
            mark.store(true, Ordering::SeqCst);
            sent
        },
    )?;
    Ok(child)
}

/// The threads that were started, their marks, and whether all were started.
#[derive(Drop)]
pub struct Started<F: Feed> {
    pub(crate) children: Vec<PromisedHandle<Sent, SendsAll<F>>>,
    pub(crate) marks: Vec<Arc<AtomicBool>>,
    pub(crate) all: bool,
}

/// Starts a thread for each feed, until one can't be started. The lists get their room first, so
/// after an Err no thread was started.
pub(crate) fn start_all<F: Feed + Drop + Send + 'static, R: Threads + Wait + Copy + Send + 'static>(
    rt: &R,
    alloc: Global,
    lanes: Vec<Lane>,
    feeds: Vec<F>,
) -> Result<Started<F>, NoMemory>
    requires { vec_len lanes ≡ vec_len feeds }
    ensures lanes { IfOk result
        (λ s. s.all ≡ true → map (λ h. h.promise.lane.value) s.children.items ≡ lanes.items) }
    ensures feeds { IfOk result
        (λ s. s.all ≡ true → map (λ h. h.promise.feed.value) s.children.items ≡ feeds.items) }
{
    let count = lanes.len();
    let mut lanes = lanes;
    let mut feeds = feeds;
    let mut children = Vec::with_capacity(alloc, lanes.len())?;
    let mut marks = Vec::with_capacity(alloc, lanes.len())?;
    while !lanes.is_empty() && !feeds.is_empty() {
        let lane = lanes.remove(0);
        let feed = feeds.remove(0);
        let Ok((child, mark)) = start_marked(rt, alloc, count, lane, feed) else {
            return Ok(Started {
                children,
                marks,
                all: false,
            });
        };
        children.push(child).unwrap();
        marks.push(mark).unwrap();
    }
    Ok(Started {
        children,
        marks,
        all: true,
    })
}

/// Starts the thread of a feed, with a new mark.
fn start_marked<F: Feed + Drop + Send + 'static, R: Threads + Wait + Copy + Send + 'static>(
    rt: &R,
    alloc: Global,
    lanes: usize,
    lane: Lane,
    feed: F,
) -> Result<(PromisedHandle<Sent, SendsAll<F>>, Arc<AtomicBool>), AllocError>
    ensures { IfOk result (λ r. (r.0.promise.lane.value ≡ lane) × (r.0.promise.feed.value ≡ feed)) }
{
    let mark = Arc::new(alloc, AtomicBool::new(false))?;
    let theirs = Arc::try_clone(&mark)?;
    let child = start(rt, alloc, theirs, lanes, lane, feed)?;
    Ok((child, mark))
}

/// Waits until the threads have ended, and adds their results to `found`, in order. There is room
/// for them.
pub(crate) fn join_all<F: Feed, R: Threads>(
    rt: &R,
    children: Vec<PromisedHandle<Sent, SendsAll<F>>>,
    found: &mut Vec<Sent>,
)
    requires { (found.old.items ≡ []) × (vec_len children ≤ found.old.cap) }
    ensures { AllZip
        (λ h s. Sends h.promise.lane.value (F.items h.promise.feed.value) s) children.items
        found.new.items }
{
    let mut children = children;
    while !children.is_empty() {
        let child = children.remove(0);
        let Ok(()) = found.push(child.join(rt)) else {
            unreachable!()
        };
    }
}
