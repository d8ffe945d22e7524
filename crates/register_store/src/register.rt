//! The trait of registers, which keep a posted list in a store.
ghost use Rattle.std.specs.Prelude.{◌≡◌, ◌⊎◌, ℕ, Bool, true, Err, length, reverse, All, IfOk};
ghost use Rattle.std.specs.Prelude.{IfErr, OnOk, OnErr};
ghost use Rattle.std.specs.Bool.{Decides};
ghost use Rattle.register_store.specs.StoredRows.{AreSame, IsBoundTo, HasList, HasRows};
ghost use Rattle.register_store.specs.Registers.{CountsRefusal, Stops, is_failure, is_of_store};
ghost use Rattle.register_store.specs.Registers.{is_of_listing, IsOfStation, IsListFault};
ghost use Rattle.register_store.specs.Holdings.{Holding, Each, Has, Comes, IsPosted, IsBound};
ghost use Rattle.register_store.specs.Holdings.{IsNotBound};

use crate::StoreFault;
use nest_core::Setup;
use posting_core::{Changes, Entry, Ledger};
use std::alloc::Global;

/// Keeps a posted list in a store: the setup and the depth limit with which the store was made, and
/// a row for each entry, each spot, each loan line with its stage, and each loan with its last day.
///
/// Contracts speak of every content that the store may have after a call, if the store is quiet:
/// each comes from a content that the store may have had before. A store that was bound has some
/// content.
pub trait Register {
    /// The contents that the store may have.
    ghost holding: { Self → Holding };

    /// Whether a setup is bound to the register.
    ghost is_bound: { Self → Bool };

    /// How many stations the bound setup has.
    ghost stations: { Self → ℕ };

    /// How often the register has returned `Store`, counted up to 2^64 - 1.
    ghost refusals: { Self → ℕ };

    /// Whether the register has stopped: its store failed a call, and every later call returns
    /// `Store`.
    ghost is_stopped: { Self → Bool };

    /// Whether this kind of register can return `Store` or `OtherVersion`.
    ghost can_refuse: { Bool };

    /// Binds the register to a setup, and returns the depth limit of the store. A new store gets
    /// the setup and the depth limit 12. An old store is compared with the setup and stays as it
    /// is.
    ///
    /// Fails with the first of these that applies: `OtherVersion`; `Damaged(0)`, if the rows about
    /// the store itself aren't whole; `OtherSetup`. Any call may fail with `NoMemory` or `Store`
    /// instead; a new store may then have been written all the same. After any fault, the register
    /// is bound only if it was bound before.
    fn bind(&mut self, alloc: Global, setup: &Setup) -> Result<u32, StoreFault>
        ensures bound { IfOk result (λ depth. Has (holding self.new) (IsBoundTo setup.now depth)) }
        ensures kept { OnOk result
            (Comes (holding self.old) (holding self.new) (IsBound setup.now)) }
        ensures refused { IfErr result
            (λ fault. Comes (holding self.old) (holding self.new) (IsNotBound setup.now fault)) }
        ensures ready { OnOk result
            ((is_bound self.new ≡ true) × (stations self.new ≡ length setup.now.stations)) }
        ensures not_ready { OnErr result
            ((is_bound self.new ≡ is_bound self.old) × (stations self.new ≡ stations self.old)) }
        ensures count { CountsRefusal (refusals self.old) (refusals self.new) result }
        ensures stops { Stops (is_stopped self.old) (is_stopped self.new) result }
        ensures able { IfErr result (λ fault. is_of_store fault ≡ true → can_refuse ≡ true) };

    /// Returns all entries, oldest first. A setup must be bound. The store stays as it is.
    ///
    /// Fails with `Damaged(i)` if row `i`, in the order of the rows' numbers, is the first wrong
    /// one. Row `i` is right if its own number is `i`, its station is one of the setup, the number
    /// of its message is from 1 to 999,999, its verdict's number is that of a verdict, and its text
    /// is the one text of a message. Any call may fail with `NoMemory` or `Store` instead.
    fn all(&mut self, alloc: Global) -> Result<Vec<Entry>, StoreFault>
        requires { is_bound self.old ≡ true }
        ensures listed { IfOk result
            (λ entries. Each (holding self.new) (HasList (reverse entries.items))) }
        ensures stationed { IfOk result
            (λ entries. All (IsOfStation (stations self.old)) entries.items) }
        ensures cause { IfErr result
            (λ fault. Each (holding self.new) (λ c. IsListFault (stations self.old) c fault)) }
        ensures faults { IfErr result (λ fault. is_of_listing fault ≡ true) }
        ensures unchanged { Comes (holding self.old) (holding self.new) AreSame }
        ensures still { (is_bound self.new ≡ true) × (stations self.new ≡ stations self.old) }
        ensures count { CountsRefusal (refusals self.old) (refusals self.new) result }
        ensures stops { Stops (is_stopped self.old) (is_stopped self.new) result }
        ensures store { result ≡ Err StoreFault.Store → is_stopped self.new ≡ true }
        ensures able { IfErr result (λ fault. is_of_store fault ≡ true → can_refuse ≡ true) };

    /// Posts an entry: adds it and the new spots of its changes, and sets the loan lines and the
    /// last day that it changes. A setup must be bound.
    ///
    /// Fails with `NoMemory` or `Store`. Then the store has the whole entry, or is as it was.
    fn post(&mut self, alloc: Global, entry: &Entry, changes: &Changes) -> Result<(), StoreFault>
        requires { is_bound self.old ≡ true }
        ensures posted { OnOk result
            (Comes (holding self.old) (holding self.new) (IsPosted entry.now changes.now)) }
        ensures failed { OnErr result
            (Comes (holding self.old) (holding self.new)
            (λ c d. AreSame c d ⊎ IsPosted entry.now changes.now c d)) }
        ensures faults { IfErr result (λ fault. is_failure fault ≡ true) }
        ensures still { (is_bound self.new ≡ true) × (stations self.new ≡ stations self.old) }
        ensures count { CountsRefusal (refusals self.old) (refusals self.new) result }
        ensures stops { Stops (is_stopped self.old) (is_stopped self.new) result }
        ensures store { result ≡ Err StoreFault.Store → is_stopped self.new ≡ true }
        ensures able { IfErr result (λ fault. is_of_store fault ≡ true → can_refuse ≡ true) };

    /// Returns whether the rows of spots, of loan lines and of last days are exactly those of the
    /// ledger. A setup must be bound. The store stays as it is.
    ///
    /// Fails with `NoMemory` or `Store`. `Store` may also mean that two of these rows have the same
    /// key.
    fn agrees(&mut self, alloc: Global, ledger: &Ledger) -> Result<bool, StoreFault>
        requires { is_bound self.old ≡ true }
        ensures told { IfOk result
            (λ same. Each (holding self.new)
            (λ c. Decides same (HasRows ledger.now.museum ledger.now.posted c))) }
        ensures faults { IfErr result (λ fault. is_failure fault ≡ true) }
        ensures unchanged { Comes (holding self.old) (holding self.new) AreSame }
        ensures still { (is_bound self.new ≡ true) × (stations self.new ≡ stations self.old) }
        ensures count { CountsRefusal (refusals self.old) (refusals self.new) result }
        ensures stops { Stops (is_stopped self.old) (is_stopped self.new) result }
        ensures able { IfErr result (λ fault. is_of_store fault ≡ true → can_refuse ≡ true) };
}
