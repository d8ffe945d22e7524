//! Receipts, and the check of one.
ghost use Rattle.std.specs.Prelude.{◌↔◌, IsTrue};
ghost use Rattle.seal_core.specs.Receipts.{ReceiptHolds};

use crate::root_from_path;
use posting_core::EntryNo;

/// Evidence that an entry is in a record, for someone who does not see the rest of the record. No
/// record is needed to check it. It is worth as much as its head: compare that with a seal of
/// `size` entries that was kept elsewhere.
#[derive(Debug, Drop)]
pub struct Receipt {
    /// The number of the entry, from 1.
    pub entry: EntryNo,
    /// The line of the entry as the report of posted entries prints it, without the line feed.
    pub line: String,
    /// The number of entries in the tree.
    pub size: EntryNo,
    /// The head of the tree.
    pub head: [u8; 32],
    /// The audit path (RFC 6962): the hashes from which the head is computed, from the sibling of
    /// the entry's leaf up to the root.
    pub path: Vec<[u8; 32]>,
}

/// Returns whether a receipt holds: the tree of `size` leaves, in which the entry's line is leaf
/// `entry`, has the head. Needs no record.
pub fn check_receipt(receipt: &Receipt) -> bool
    ensures { IsTrue result ↔ ReceiptHolds receipt.now }
{
    if receipt.entry == 0 {
        return false;
    }
    let index = receipt.entry as usize - 1;
    let size = receipt.size as usize;
    match root_from_path(receipt.line.as_bytes(), index, size, &receipt.path) {
        Some(head) => head == receipt.head,
        None => false,
    }
}
