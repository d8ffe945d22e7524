//! Posts the entries of a register again, judging each one.
ghost use Rattle.std.specs.Prelude.{◌≡◌, ◌+◌, ◌∷◌, [], false, length, reverse, replicate, map};
ghost use Rattle.std.specs.Prelude.{OnOk, IfOk, IfErr};
ghost use Rattle.std.specs.Bool.{Decides};
ghost use Rattle.std.specs.List.{slice_get};
ghost use Rattle.posting_core.specs.Book.{changes_of};
ghost use Rattle.posting_core.specs.Lawful.{Follows};
ghost use Rattle.station_core.specs.Series.{opened};
ghost use Rattle.hub_core.specs.Points.{arrival_of, entry_of};
ghost use Rattle.hub_core.specs.Openings.{IsJudged, IsJudgeFault, IsEntryFault, may_send};
ghost use Rattle.hub_core.specs.StandsFor.{InStep};

use crate::hub::posting::is_sign_off;
use codes_core::NoMemory;
use posting_core::{Changes, Entry, Ledger, Verdict};
use register_store::StoreFault;
use station_core::{LAST, Start};
use std::alloc::Global;

/// Posts these entries in a new ledger, each judged again after those before it, and returns how
/// each station goes on. Faults: Damaged(i) for the first entry, counted from 1, whose station,
/// number or verdict isn't the one that the rules require; NoMemory.
pub(crate) fn judged(
    alloc: Global,
    ledger: &mut Ledger,
    entries: Vec<Entry>,
) -> Result<Vec<Start>, StoreFault>
    requires { ledger.old.posted ≡ [] }
    ensures judged { IfOk result
        (λ starts. IsJudged ledger.old (reverse entries.items) starts.items ledger.new) }
    ensures cause { IfErr result
        (λ fault. IsJudgeFault ledger.old.museum ledger.old.depth (reverse entries.items) fault) }
{
    let mut starts = no_starts(alloc, ledger.setup().stations())?;
    let mut left = entries;
    left.reverse();
    while let Some(entry) = left.pop() {
        judge_next(alloc, ledger, &mut starts, &entry)?;
    }
    Ok(starts)
}

/// Judges an entry again, and posts it in the ledger.
fn judge_next(
    alloc: Global,
    ledger: &mut Ledger,
    starts: &mut Vec<Start>,
    entry: &Entry,
) -> Result<(), StoreFault>
    requires { InStep (map opened starts.old.items) ledger.old.museum ledger.old.posted }
    ensures follows { OnOk result
        (Follows ledger.old.museum ledger.old.depth ledger.old.posted entry.now) }
    ensures posted { OnOk result
        (ledger.new ≡ record ledger.old { posted = entry.now ∷ ledger.old.posted }) }
    ensures in_step { OnOk result
        (InStep (map opened starts.new.items) ledger.new.museum ledger.new.posted) }
    ensures cause { IfErr result
        (λ fault. IsEntryFault ledger.old.museum ledger.old.depth ledger.old.posted entry.now
        fault) }
{
    let station = entry.station as usize;
    if !may_send(starts, station, entry.n) {
        return Err(StoreFault::Damaged(next_number(ledger)));
    }
    post_again(alloc, ledger, entry)?;
    starts[station] = Start {
        posted: entry.n,
        signed: is_sign_off(&entry.message),
    };
    Ok(())
}

/// Posts an entry in the ledger if its verdict is the one that the rules require. The caller has
/// checked that its station may send its number.
fn post_again(alloc: Global, ledger: &mut Ledger, entry: &Entry) -> Result<(), StoreFault>
    requires { Follows ledger.old.museum ledger.old.depth ledger.old.posted
        (entry_of ledger.old.museum ledger.old.depth ledger.old.posted (arrival_of entry.now)) }
    ensures follows { OnOk result
        (Follows ledger.old.museum ledger.old.depth ledger.old.posted entry.now) }
    ensures posted { OnOk result
        (ledger.new ≡ record ledger.old { posted = entry.now ∷ ledger.old.posted }) }
    ensures cause { IfErr result
        (λ fault. IsEntryFault ledger.old.museum ledger.old.depth ledger.old.posted entry.now
        fault) }
{
    let changes = ledger.plan(alloc, &entry.message)?;
    post_same(alloc, ledger, entry, &changes)
}

/// Posts an entry with its changes in the ledger if its verdict is that of the changes.
fn post_same(
    alloc: Global,
    ledger: &mut Ledger,
    entry: &Entry,
    changes: &Changes,
) -> Result<(), StoreFault>
    requires sent { Follows ledger.old.museum ledger.old.depth ledger.old.posted
        (entry_of ledger.old.museum ledger.old.depth ledger.old.posted (arrival_of entry.now)) }
    requires planned { changes.now ≡ changes_of ledger.old entry.now.message }
    ensures follows { OnOk result
        (Follows ledger.old.museum ledger.old.depth ledger.old.posted entry.now) }
    ensures posted { OnOk result
        (ledger.new ≡ record ledger.old { posted = entry.now ∷ ledger.old.posted }) }
    ensures cause { IfErr result
        (λ fault. IsEntryFault ledger.old.museum ledger.old.depth ledger.old.posted entry.now
        fault) }
{
    if !is_same(changes.verdict, entry.verdict) {
        return Err(StoreFault::Damaged(next_number(ledger)));
    }
    ledger.apply(alloc, entry, changes)?;
    Ok(())
}

/// The number of the entry that is posted next.
fn next_number(ledger: &Ledger) -> u64
    ensures { result ≡ length ledger.now.posted + 1 }
{
    ledger.posted().len() as u64 + 1
}

/// Whether the station may send this number next.
fn may_send(starts: &[Start], station: usize, n: u32) -> bool
    ensures { result ≡ may_send (slice_get starts.now station) n }
{
    match starts.get(station) {
        None => false,
        Some(start) => n as u64 == start.posted as u64 + 1 && n <= LAST && !start.signed,
    }
}

fn is_same(a: Verdict, b: Verdict) -> bool
    ensures { Decides result (a ≡ b) }
{
    a == b
}

/// A start for each station, with nothing posted.
fn no_starts(alloc: Global, stations: u32) -> Result<Vec<Start>, NoMemory>
    ensures { IfOk result
        (λ starts. starts.items ≡ replicate stations (record { posted = 0; signed = false })) }
{
    let start = Start {
        posted: 0,
        signed: false,
    };
    Ok(vec![in alloc; start; stations as usize]?)
}
