//! What an entry changed.
ghost use Rattle.std.specs.Prelude.{◌≡◌, ◌<◌, ◌+◌, All, IfOk, OnOk, Some, length};
ghost use Rattle.std.specs.Prelude.{reverse, slice_get};
ghost use Rattle.posting_core.specs.Past.{upto};
ghost use Rattle.reports.specs.EntryChanges.{changes_at};

use codes_core::NoMemory;
use posting_core::{Changes, Ledger, PostedEntry, post_next};
use std::alloc::Global;

/// Posts entry `i` of the ledger, from 0, to `so_far`, which must have the entries before it.
/// Returns what the entry changed. Fails with `NoMemory`.
pub fn post_planned(
    alloc: Global,
    ledger: &Ledger,
    so_far: &mut Ledger,
    i: usize,
) -> Result<Changes, NoMemory>
    requires within { i < length ledger.now.posted }
    requires before { so_far.old ≡ upto ledger.now i }
    ensures changes { IfOk result (λ changes. changes_at ledger.now i ≡ Some changes) }
    ensures within { IfOk result
        (λ changes. All (λ s. s.thing < length ledger.now.museum.things) changes.spots) }
    ensures after { OnOk result (so_far.new ≡ upto ledger.now (i + 1)) }
{
    let message = entry_at(ledger, i).message().to_message(alloc)?;
    let changes = so_far.plan(alloc, &message)?;
    post_next(alloc, ledger, so_far, i)?;
    Ok(changes)
}

/// The entry at this index, from 0.
pub fn entry_at(ledger: &Ledger, at: usize) -> &PostedEntry
    requires { at < length ledger.now.posted }
    ensures { slice_get (reverse ledger.entry.now.posted) at ≡ Some result.now }
{
    &ledger.posted()[at]
}
