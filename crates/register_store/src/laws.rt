//! Laws of messages' texts, of stored rows and of registers. The functions do nothing: their
//! contracts are the laws.
ghost use Rattle.std.specs.Prelude.{◌≡◌, ℕ, List, All, length};
ghost use Rattle.std.specs.List.Sorted.{IsPermutation};
ghost use Rattle.nest_core.specs.Museum.{Museum, listed_now, NeverFell};
ghost use Rattle.nest_core.specs.SetupGrowing.{Extends, grown};
ghost use Rattle.posting_core.specs.Lawful.{IsLawful};
ghost use Rattle.posting_core.specs.declared.entry.Changes.{Changes};
ghost use Rattle.posting_core.specs.declared.entry.Entry.{Entry};
ghost use Rattle.posting_core.specs.declared.message.Message.{Message};
ghost use Rattle.register_store.specs.declared.store_fault.StoreFault.{StoreFault};
ghost use Rattle.register_store.specs.MessageText.{IsTextOf};
ghost use Rattle.register_store.specs.StoredRows.{Content, HasList, HasRows, IsStoreOf};
ghost use Rattle.register_store.specs.StoredRows.{rows_of_setup, spots_by_thing, all_written};
ghost use Rattle.register_store.specs.Registers.{IsOfStation, IsListFault};
ghost use Rattle.register_store.specs.Holdings.{Comes, IsEmpty, IsPosted};
ghost use Rattle.register_store.specs.Plain.{in_memory};

use crate::{PlainRegister, Register};
use posting_core::Ledger;

/// The spots that the entries added, one entry after another, are in some order the spots of all
/// things by looking back.
pub fn spots_are_of_looking_back(ledger: &Ledger)
    ensures { IsPermutation (spots_by_thing ledger.now.museum ledger.now.posted)
        (all_written ledger.now.museum ledger.now.posted) }
{
    let _ = ledger;
}

/// A message has only one text.
pub fn one_text()
    ensures { (message : Message) (text other : List ℕ) → IsTextOf message text
        → IsTextOf message other → text ≡ other }
{}

/// A store has only one list of entries.
pub fn one_list()
    ensures { (P Q : List Entry) (c : Content) → HasList P c → HasList Q c → P ≡ Q }
{}

/// If a store has a list of entries, all of this many stations, listing it never returns `Damaged`.
pub fn whole_list()
    ensures { (stations at : ℕ) (P : List Entry) (c : Content) → HasList P c
        → All (IsOfStation stations) P → IsListFault stations c (StoreFault.Damaged at) → ⊥ }
{}

/// After `post` returned `Ok`, a quiet store can't have every content. A register that loses posted
/// entries can't keep its contract by allowing any content.
pub fn posted_holds_not_anything<R: Register>()
    ensures { (old new : R) (e : Entry) (changes : Changes)
        → Comes (R.holding old) (R.holding new) (IsPosted e changes)
        → (R.holding new).is_quiet → ((c : Content) → (R.holding new).holds c) → ⊥ }
{}

/// After `post` returned `Ok`, a quiet store that had a content before still has one. A register
/// that loses posted entries can't keep its contract by allowing no content.
pub fn posted_holds_something<R: Register>()
    ensures { (old new : R) (e : Entry) (changes : Changes) (c : Content)
        → Comes (R.holding old) (R.holding new) (IsPosted e changes)
        → (R.holding new).is_quiet → (R.holding old).holds c → IsEmpty (R.holding new) → ⊥ }
{}

/// A register in memory is always quiet: nobody else writes to it, and it returns the rows that
/// were written.
pub fn memory_is_quiet(register: &PlainRegister)
    ensures { (in_memory register.now).is_quiet }
{
    let _ = register;
}

/// A growth of the setup changes no stored row of spots, lines or terms.
pub fn growing_changes_no_row()
    ensures { (S T : Museum) (depth : ℕ) (P : List Entry) (c : Content)
        → NeverFell S.growths (listed_now S) → Extends S T → IsLawful S depth P → HasRows S P c
        → HasRows (grown (length P) S T) P c }
{}

/// A store with the rows of the grown setup in place of the old ones is a store of the same entries
/// under the grown setup.
pub fn growing_keeps_the_store()
    ensures { (S T : Museum) (depth : ℕ) (P : List Entry) (c : Content)
        → NeverFell S.growths (listed_now S) → Extends S T → IsLawful S depth P
        → IsStoreOf S depth P c
        → IsStoreOf (grown (length P) S T) depth P
        (record c { setup = rows_of_setup (grown (length P) S T) }) }
{}
