//! Makes and checks the seal of a record.
ghost use Rattle.std.specs.Prelude.{◌≡◌, ◌≤◌, ◌<◌, ◌↔◌, IfOk, IsTrue, length};
ghost use Rattle.seal_core.specs.Trees.{tree_head};
ghost use Rattle.seal_core.specs.Leaves.{leaves};
ghost use Rattle.seal_core.specs.Seals.{Holds, sealed_count};

use crate::seal::Seal;
use crate::workers::head_of_entries;
use codes_core::NoMemory;
use posting_core::{EntryNo, Ledger};
use std::alloc::Global;
use std::thread::Threads;
use thiserror::Error;

/// Why a record cannot be sealed.
#[derive(Clone, Copy, Debug, PartialEq, Eq, Error)]
pub enum SealFault {
    /// The record has fewer entries than were to be sealed.
    #[error("not so many entries are posted")]
    NotPosted,
    /// A request for memory was refused.
    #[error("out of memory")]
    NoMemory,
}

impl From<NoMemory> for SealFault {
    ghost use Rattle.std.specs.Prelude.{◌≡◌};
    ghost use Rattle.seal_core.specs.declared.sealing.SealFault.TheVariants as faults;

    ghost from_gives = { λ _ e. e ≡ faults.NoMemory };

    fn from(_fault: NoMemory) -> SealFault {
        SealFault::NoMemory
    }
}

/// Returns the seal of the first `upto` entries, or of all entries. `upto` can be 0: the tree then
/// has no leaves. Workers share the entries, and each keeps one line at a time in memory.
///
/// Faults: `NotPosted` if fewer entries are posted, otherwise `NoMemory`.
pub fn make_seal(
    rt: &(impl Threads + Sync),
    alloc: Global,
    ledger: &Ledger,
    upto: Option<EntryNo>,
) -> Result<Seal, SealFault>
    ensures count { IfOk result (λ seal. seal.entries ≡ sealed_count ledger.now upto) }
    ensures holds { IfOk result (λ seal. Holds ledger.now seal) }
    ensures not_posted { (result ≡ Err SealFault.NotPosted)
        ↔ (length ledger.now.posted < sealed_count ledger.now upto) }
{
    let entries = upto.unwrap_or(ledger.entry_count());
    if entries > ledger.entry_count() {
        return Err(SealFault::NotPosted);
    }
    let head = head_of_entries(rt, alloc, ledger, entries)?;
    Ok(Seal { entries, head })
}

/// Returns whether a seal holds: the record has at least the entries that were sealed, and their
/// lines have the seal's head. Fails with `NoMemory`, but only if there are so many entries.
pub fn check_seal(
    rt: &(impl Threads + Sync),
    alloc: Global,
    ledger: &Ledger,
    seal: &Seal,
) -> Result<bool, NoMemory>
    ensures { IfOk result (λ holds. IsTrue holds ↔ Holds ledger.now seal.now) }
{
    if seal.entries > ledger.entry_count() {
        return Ok(false);
    }
    let head = head_of_entries(rt, alloc, ledger, seal.entries)?;
    Ok(head == seal.head)
}
