//! Makes the receipts of a record's entries.
ghost use Rattle.std.specs.Prelude.{◌≡◌, ◌≤◌, ◌↔◌, IfOk, length, map};
ghost use Rattle.seal_core.specs.Hashes.{leaf_hash};
ghost use Rattle.seal_core.specs.Leaves.{leaves};
ghost use Rattle.seal_core.specs.Receipts.{IsReceipt, IsSealed, ReceiptHolds};
ghost use Rattle.seal_core.specs.Seals.{sealed_count};

use crate::leaves::entry_leaf;
use crate::receipt::Receipt;
use crate::sealing::SealFault;
use crate::{audit_path, head_of_hashes, leaf_hash};
use codes_core::NoMemory;
use posting_core::{EntryNo, Ledger};
use std::alloc::Global;

/// Returns the receipt of entry `entry` in the tree of the first `upto` entries, or of all
/// entries. Takes 32 bytes of memory for each of them, and time proportional to their number.
///
/// Faults: `NotPosted` if fewer than `upto` entries are posted, or if there is no entry `entry`
/// among them; otherwise `NoMemory`.
pub fn make_receipt(
    alloc: Global,
    ledger: &Ledger,
    entry: EntryNo,
    upto: Option<EntryNo>,
) -> Result<Receipt, SealFault>
    ensures exact { IfOk result
        (λ receipt. IsReceipt ledger.now entry (sealed_count ledger.now upto) receipt) }
    ensures holds { IfOk result (λ receipt. ReceiptHolds receipt) }
    ensures sealed { IfOk result (λ receipt. IsSealed ledger.now entry receipt.size) }
    ensures not_posted { (result ≡ Err SealFault.NotPosted)
        ↔ ¬ IsSealed ledger.now entry (sealed_count ledger.now upto) }
{
    let size = upto.unwrap_or(ledger.entry_count());
    if entry < 1 || entry > size || size > ledger.entry_count() {
        return Err(SealFault::NotPosted);
    }
    Ok(receipt_under(alloc, ledger, entry, size)?)
}

/// The receipt of an entry in the tree of the first `size` entries. Fails with `NoMemory`.
fn receipt_under(
    alloc: Global,
    ledger: &Ledger,
    entry: EntryNo,
    size: EntryNo,
) -> Result<Receipt, NoMemory>
    requires { IsSealed ledger.now entry size }
    ensures { IfOk result (λ receipt. IsReceipt ledger.now entry size receipt) }
{
    let index = entry as usize - 1;
    let line = entry_leaf(alloc, ledger, index)?;
    let hashes = leaf_hashes(alloc, ledger, size)?;
    let path = audit_path(alloc, &hashes, index)?;
    let head = head_of_hashes(&hashes);
    Ok(Receipt {
        entry,
        line,
        size,
        head,
        path,
    })
}

/// The hashes of the leaves of the first entries. Fails with `NoMemory`.
fn leaf_hashes(alloc: Global, ledger: &Ledger, entries: EntryNo) -> Result<Vec<[u8; 32]>, NoMemory>
    requires { entries ≤ length ledger.now.posted }
    ensures { IfOk result
        (λ hashes. hashes.items ≡ map leaf_hash (leaves ledger.now entries)) }
{
    let mut hashes = Vec::with_capacity(alloc, entries as usize)?;
    for i in 0..entries as usize {
        let leaf = entry_leaf(alloc, ledger, i)?;
        hashes.push(leaf_hash(leaf.as_bytes()))?;
    }
    Ok(hashes)
}
