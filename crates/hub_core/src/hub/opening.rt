//! Opens a hub over the entries of a register.
ghost use Rattle.std.specs.Prelude.{◌≡◌, [], true, length, reverse, All, OnOk, IfOk, IfErr};
ghost use Rattle.std.specs.Bool.{Decides};
ghost use Rattle.posting_core.specs.Growing.{HasGrown};
ghost use Rattle.register_store.specs.StoredRows.{AreSame, HasList, HasRows, IsBoundTo};
ghost use Rattle.register_store.specs.Registers.{CountsRefusal, IsOfStation};
ghost use Rattle.register_store.specs.Holdings.{Comes, Each, Has, IsBound};
ghost use Rattle.hub_core.specs.Openings.{IsNotOpened, IsPrepared, IsRestored, IsRestoreFault};
ghost use Rattle.hub_core.specs.Openings.{IsRowsFault};

use crate::hub::reposting::judged;
use nest_core::Setup;
use posting_core::{Entry, Ledger, Message};
use register_store::{Register, StoreFault};
use station_core::Sequences;
use std::alloc::Global;

/// Returns the stations and the ledger of a hub over the entries of a register. Faults: those of
/// `Hub::open`.
pub(crate) fn prepare<R: Register>(
    alloc: Global,
    setup: Setup,
    register: &mut R,
) -> Result<(Sequences<Message>, Ledger), StoreFault>
    ensures prepared { IfOk result
        (λ p. IsPrepared (R.holding register.old) (R.holding register.new) setup p.0 p.1) }
    ensures refused { IfErr result
        (λ fault. Comes (R.holding register.old) (R.holding register.new)
        (IsNotOpened setup fault)) }
    ensures bound { OnOk result (R.is_bound register.new ≡ true) }
    ensures count { CountsRefusal (R.refusals register.old) (R.refusals register.new) result }
{
    let mut ledger = bound(alloc, setup, register)?;
    match restore(alloc, &mut ledger, register) {
        Ok(sequences) => Ok((sequences, ledger)),
        Err(fault) => {
            drop(ledger);
            Err(fault)
        }
    }
}

/// Binds the register to the setup, and makes an empty ledger with the setup and the register's
/// depth limit.
fn bound<R: Register>(alloc: Global, setup: Setup, register: &mut R) -> Result<Ledger, StoreFault>
    ensures new { IfOk result (λ ledger. (ledger.museum ≡ setup) × (ledger.posted ≡ [])) }
    ensures bound { IfOk result
        (λ ledger. Has (R.holding register.new) (IsBoundTo setup ledger.depth)) }
    ensures kept { OnOk result
        (Comes (R.holding register.old) (R.holding register.new) (IsBound setup)) }
    ensures ready { OnOk result
        ((R.is_bound register.new ≡ true) × (R.stations register.new ≡ length setup.stations)) }
    ensures refused { IfErr result
        (λ fault. Comes (R.holding register.old) (R.holding register.new)
        (IsNotOpened setup fault)) }
    ensures count { CountsRefusal (R.refusals register.old) (R.refusals register.new) result }
{
    match register.bind(alloc, &setup) {
        Ok(depth) => Ok(Ledger::new(alloc, setup, depth)?),
        Err(fault) => {
            drop(setup);
            Err(fault)
        }
    }
}

/// Posts the register's entries again in a new ledger, compares its rows with the ledger's, and
/// returns the stations as they go on.
fn restore<R: Register>(
    alloc: Global,
    ledger: &mut Ledger,
    register: &mut R,
) -> Result<Sequences<Message>, StoreFault>
    requires new { ledger.old.posted ≡ [] }
    requires ready { (R.is_bound register.old ≡ true)
        × (R.stations register.old ≡ length ledger.old.museum.stations) }
    requires bound { Has (R.holding register.old) (IsBoundTo ledger.old.museum ledger.old.depth) }
    ensures restored { IfOk result
        (λ sequences. IsRestored (R.holding register.new) ledger.old sequences ledger.new) }
    ensures fault { IfErr result
        (λ fault. Each (R.holding register.new) (λ c. IsRestoreFault ledger.old.museum c fault)) }
    ensures unchanged { Comes (R.holding register.old) (R.holding register.new) AreSame }
    ensures bound { R.is_bound register.new ≡ true }
    ensures count { CountsRefusal (R.refusals register.old) (R.refusals register.new) result }
{
    let entries = all_entries(alloc, ledger, register)?;
    let starts = judged(alloc, ledger, entries)?;
    compare(alloc, ledger, register)?;
    Ok(Sequences::new(alloc, &starts)?)
}

/// Reads the register's entries. Faults: those of [`Register::all`]; Damaged(0), if there are fewer
/// than came before the newest growth of the setup.
fn all_entries<R: Register>(
    alloc: Global,
    ledger: &Ledger,
    register: &mut R,
) -> Result<Vec<Entry>, StoreFault>
    requires ready { (R.is_bound register.old ≡ true)
        × (R.stations register.old ≡ length ledger.now.museum.stations) }
    requires bound { Has (R.holding register.old) (IsBoundTo ledger.now.museum ledger.now.depth) }
    ensures listed { IfOk result
        (λ entries. Each (R.holding register.new) (HasList (reverse entries.items))) }
    ensures stationed { IfOk result
        (λ entries. All (IsOfStation (length ledger.now.museum.stations)) entries.items) }
    ensures grown { IfOk result
        (λ entries. HasGrown ledger.now.museum.growths (length entries.items)) }
    ensures fault { IfErr result
        (λ fault. Each (R.holding register.new) (λ c. IsRestoreFault ledger.now.museum c fault)) }
    ensures unchanged { Comes (R.holding register.old) (R.holding register.new) AreSame }
    ensures bound { R.is_bound register.new ≡ true }
    ensures count { CountsRefusal (R.refusals register.old) (R.refusals register.new) result }
{
    let entries = register.all(alloc)?;
    if has_grown(ledger.setup(), entries.len()) {
        return Ok(entries);
    }
    drop(entries);
    Err(StoreFault::Damaged(0))
}

/// Whether the newest growth of the setup came after at most this many entries.
fn has_grown(setup: &Setup, entries: usize) -> bool
    ensures { Decides result (HasGrown setup.now.growths entries) }
{
    match setup.growths().first() {
        Some(newest) => newest.after as usize <= entries,
        None => true,
    }
}

/// Compares the register's rows of spots, loan lines and last days with those of the ledger.
/// Damaged(0) if they differ.
fn compare<R: Register>(alloc: Global, ledger: &Ledger, register: &mut R) -> Result<(), StoreFault>
    requires { R.is_bound register.old ≡ true }
    ensures rows { OnOk result
        (Each (R.holding register.new) (HasRows ledger.now.museum ledger.now.posted)) }
    ensures fault { IfErr result
        (λ fault. Each (R.holding register.new)
        (λ c. IsRowsFault ledger.now.museum ledger.now.posted c fault)) }
    ensures unchanged { Comes (R.holding register.old) (R.holding register.new) AreSame }
    ensures bound { R.is_bound register.new ≡ true }
    ensures count { CountsRefusal (R.refusals register.old) (R.refusals register.new) result }
{
    if register.agrees(alloc, ledger)? {
        Ok(())
    } else {
        Err(StoreFault::Damaged(0))
    }
}
