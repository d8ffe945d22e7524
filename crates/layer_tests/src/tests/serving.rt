//! Serves two feeds at the same time. `cases/` shows what the command prints for files.
ghost use Rattle.std.specs.Prelude.{◌≡◌, false, length, vec_len};

use super::MUSEUM;
use codes_core::{NoMemory, ThingCode};
use hub_core::Hub;
use nest_core::Setup;
use posting_core::{Changes, Entry, Ledger};
use register_store::{PlainRegister, Register, StoreFault, read_message};
use serve_core::{Feed, Item, ListFeed, serve};
use std::alloc::Global;
use std::process::Abort;
use std::sync::atomic::{AtomicBool, AtomicU32, Ordering};
use std::sync::{Arc, Wait};
use std::test::Fail;
use std::thread::Threads;

const TURNS: u32 = 1_000_000_000;

/// How many messages are posted, and whether a feed waited for them too long.
#[derive(Drop)]
struct Shared {
    posted: AtomicU32,
    missed: AtomicBool,
}

/// A feed that doesn't give its question before the messages of both feeds are posted.
#[derive(Drop)]
struct Waiting {
    feed: ListFeed,
    shared: Arc<Shared>,
}

impl Waiting {
    fn wait(&self) {
        for _ in 0..TURNS {
            if self.shared.posted.load(Ordering::SeqCst) == 2 {
                return;
            }
        }
        self.shared.missed.store(true, Ordering::SeqCst);
    }
}

impl Feed for Waiting {
    ghost items = { λ f. f.feed };

    fn next(&mut self, alloc: Global) -> Result<Option<Item>, NoMemory> {
        let next = self.feed.next(alloc)?;
        if matches!(&next, Some(Item::Ask(_))) {
            self.wait();
        }
        Ok(next)
    }
}

/// A register in memory that counts its postings.
#[derive(Drop)]
struct Counting {
    kept: PlainRegister,
    shared: Arc<Shared>,
}

impl Register for Counting {
    ghost use Rattle.std.specs.Prelude.{false};
    ghost use Rattle.register_store.specs.Plain.{in_memory};

    ghost holding = { λ r. in_memory r.kept };

    ghost is_bound = { λ r. r.kept.bound };

    ghost stations = { λ r. r.kept.stations };

    ghost refusals = { λ r. 0 };

    ghost is_stopped = { λ r. false };

    ghost can_refuse = { false };

    fn bind(&mut self, alloc: Global, setup: &Setup) -> Result<u32, StoreFault> {
        self.kept.bind(alloc, setup)
    }

    fn all(&mut self, alloc: Global) -> Result<Vec<Entry>, StoreFault> {
        self.kept.all(alloc)
    }

    fn post(&mut self, alloc: Global, entry: &Entry, changes: &Changes) -> Result<(), StoreFault> {
        let ended = self.kept.post(alloc, entry, changes);
        let _ = self.shared.posted.fetch_add(1, Ordering::SeqCst);
        ended
    }

    fn agrees(&mut self, alloc: Global, ledger: &Ledger) -> Result<bool, StoreFault> {
        self.kept.agrees(alloc, ledger)
    }
}

/// A feed of a message, with the number 1, and a question.
fn feed(alloc: Global, shared: &Arc<Shared>, message: &[u8], code: &[u8]) -> Result<Waiting, Fail> {
    let mut items = Vec::new(alloc);
    items.push(Item::Scan {
        n: 1,
        message: read_message(alloc, message)?,
    })?;
    items.push(Item::Ask(ThingCode::parse(code)?))?;
    Ok(Waiting {
        feed: ListFeed::new(items),
        shared: Arc::try_clone(shared)?,
    })
}

const TO_S1: &[u8] = br#"{"kind":"move","thing":"2001.4.1","place":"S1","day":"2024-05-01"}"#;

const TO_S2: &[u8] = br#"{"kind":"move","thing":"2001.4.2","place":"S2","day":"2024-05-01"}"#;

fn feeds(alloc: Global, shared: &Arc<Shared>) -> Result<Vec<Waiting>, Fail> {
    let mut feeds = Vec::new(alloc);
    feeds.push(feed(alloc, shared, TO_S1, b"2001.4.1")?)?;
    feeds.push(feed(alloc, shared, TO_S2, b"2001.4.2")?)?;
    Ok(feeds)
}

/// Opens a hub over a register that counts.
fn opened(alloc: Global, shared: &Arc<Shared>) -> Result<Hub<Counting>, Fail> {
    let shared = Arc::try_clone(shared)?;
    let setup = Setup::read(alloc, MUSEUM)?;
    let register = Counting {
        kept: PlainRegister::new(alloc),
        shared,
    };
    Ok(Hub::open(alloc, setup, register).ok().ok_or("not opened")?)
}

/// Asserts that a hub can serve these feeds.
fn can_serve<R: Register, F: Feed>(rt: &impl Abort, hub: &Hub<R>, feeds: &Vec<F>)
    ensures up { hub.now.down ≡ false }
    ensures feeds { vec_len feeds.now ≡ length hub.now.book.museum.stations }
{
    assert!(rt; !hub.is_down());
    assert!(rt; feeds.len() == hub.ledger().setup().stations() as usize);
}

/// Serves both feeds. Returns the number of log lines, or None after a fault.
fn served<T: Threads + Wait + Abort + Copy + Send + 'static>(
    rt: &T,
    alloc: Global,
    shared: &Arc<Shared>,
) -> Result<Option<usize>, Fail> {
    let feeds = feeds(alloc, shared)?;
    let hub = opened(alloc, shared)?;
    can_serve(rt, &hub, &feeds);
    match serve(rt, alloc, hub, feeds) {
        Ok(served) => Ok(Some(served.log.lines().len())),
        Err(_) => Ok(None),
    }
}

/// Each feed waits until the hub has taken the messages of both.
#[test]
fn two_feeds_at_once(rt: HostRuntime) -> Result<(), Fail> {
    let shared = Arc::new(
        rt.alloc(),
        Shared {
            posted: AtomicU32::new(0),
            missed: AtomicBool::new(false),
        },
    )?;
    let lines = served(&rt, rt.alloc(), &shared)?;
    assert!(rt; lines == Some(4));
    assert!(rt; !shared.missed.load(Ordering::SeqCst));
    Ok(())
}
