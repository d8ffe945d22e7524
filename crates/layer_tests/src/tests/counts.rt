//! Checks a count list of 3,000 rows, with workers that wait for each other. `cases/` shows the
//! answers and reports.
use super::MUSEUM;
use count_core::{CountRow, Probe, check_by, read_counts};
use nest_core::Setup;
use posting_core::Ledger;
use std::alloc::Global;
use std::sync::atomic::{AtomicBool, Ordering};
use std::test::Fail;
use std::thread;

const TURNS: u32 = 1_000_000_000;

const ROWS: usize = 3_000;

/// The workers at the first row and at the last row wait for each other.
#[derive(Drop)]
struct Meeting {
    first: AtomicBool,
    last: AtomicBool,
    missed: AtomicBool,
}

impl Meeting {
    fn wait_for(&self, flag: &AtomicBool) {
        for _ in 0..TURNS {
            if flag.load(Ordering::SeqCst) {
                return;
            }
        }
        self.missed.store(true, Ordering::SeqCst);
    }
}

impl Probe for Meeting {
    fn seen(&self, row: usize) {
        if row == 1 {
            self.first.store(true, Ordering::SeqCst);
            self.wait_for(&self.last);
        }
        if row == ROWS {
            self.last.store(true, Ordering::SeqCst);
            self.wait_for(&self.first);
        }
    }
}

/// A count list in which every row is of the same place.
fn list(alloc: Global) -> Result<Vec<CountRow>, Fail> {
    let text = "S1\n".repeat(alloc, ROWS)?;
    Ok(read_counts(alloc, text.as_bytes())?)
}

fn ledger(alloc: Global) -> Result<Ledger, Fail> {
    let setup = Setup::read(alloc, MUSEUM)?;
    Ok(Ledger::new(alloc, setup, 12)?)
}

#[test]
fn workers_meet(rt: HostRuntime) -> Result<(), Fail> {
    if !thread::available_parallelism(&rt).is_ok_and(|n| n.get() >= 2) {
        return Ok(());
    }
    let rows = list(rt.alloc())?;
    let meeting = Meeting {
        first: AtomicBool::new(false),
        last: AtomicBool::new(false),
        missed: AtomicBool::new(false),
    };
    let ledger = ledger(rt.alloc())?;
    let report = check_by(&rt, rt.alloc(), &ledger, rows.as_slice(), &meeting);
    drop(ledger);
    assert!(rt; report.is_ok());
    assert!(rt; !meeting.missed.load(Ordering::SeqCst));
    Ok(())
}
