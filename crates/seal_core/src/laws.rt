//! Laws of seals and receipts. The functions do nothing: their contracts are the laws.
ghost use Rattle.std.specs.Prelude.{◌≡◌, ◌≢◌, ◌-◌, ℕ, List, length, string_bytes};
ghost use Rattle.seal_core.specs.Hashes.{AreHashes, Collision};
ghost use Rattle.nest_core.specs.Museum.{Museum};
ghost use Rattle.nest_core.specs.SetupGrowing.{Extends, grown};
ghost use Rattle.posting_core.specs.declared.entry.Entry.{Entry};
ghost use Rattle.posting_core.specs.Book.{Book};
ghost use Rattle.posting_core.specs.Lawful.{IsLawful};
ghost use Rattle.posting_core.specs.Onward.{later};
ghost use Rattle.seal_core.specs.declared.seal.Seal.{Seal};
ghost use Rattle.seal_core.specs.declared.receipt.Receipt.{Receipt};
ghost use Rattle.seal_core.specs.Leaves.{entry_leaf, leaves};
ghost use Rattle.seal_core.specs.Receipts.{ReceiptHolds};
ghost use Rattle.seal_core.specs.Seals.{Holds};

use crate::tree_laws::{heads_collide, leaves_collide, other_leaf_collides};

/// A seal that holds still holds after more entries are posted.
pub fn seals_keep_holding()
    ensures { (B : Book) (L : List Entry) (seal : Seal) → Holds B seal → Holds (later B L) seal }
{}

/// A seal that holds for a lawful record still holds after its setup grows.
pub fn seals_outlast_growth()
    ensures { (S T : Museum) (depth : ℕ) (P : List Entry) (seal : Seal) → Extends S T
        → IsLawful S depth P → Holds (record { museum = S; depth = depth; posted = P }) seal
        → Holds (record { museum = grown (length P) S T; depth = depth; posted = P }) seal }
{}

/// If one seal holds for two records and their sealed entries differ in any line, then two
/// different texts have the same SHA-256. The proof constructs them.
pub fn other_pasts_collide()
    ensures { (B C : Book) (seal : Seal) → Holds B seal → Holds C seal
        → leaves B seal.entries ≢ leaves C seal.entries → Collision }
{
    heads_collide();
}

/// If two receipts hold for the same entry of trees of the same size with the same head, the hashes
/// of their paths have 32 bytes, and their lines differ, then two different texts have the same
/// SHA-256. The proof constructs them.
pub fn other_lines_collide()
    ensures { (one other : Receipt) → ReceiptHolds one → ReceiptHolds other
        → AreHashes one.path.items → AreHashes other.path.items → one.entry ≡ other.entry
        → one.size ≡ other.size → one.head ≡ other.head
        → string_bytes one.line ≢ string_bytes other.line → Collision }
{
    leaves_collide();
}

/// If a receipt holds with the head and the size of a seal that holds, the hashes of its path have
/// 32 bytes, and its line is not that of the record's entry, then two different texts have the same
/// SHA-256. The proof constructs them.
pub fn other_entries_collide()
    ensures { (B : Book) (seal : Seal) (receipt : Receipt) → Holds B seal → ReceiptHolds receipt
        → AreHashes receipt.path.items → receipt.size ≡ seal.entries → receipt.head ≡ seal.head
        → string_bytes receipt.line ≢ entry_leaf B (receipt.entry - 1) → Collision }
{
    other_leaf_collides();
}
