//! Judges the record of a store.
ghost use Rattle.std.specs.Prelude.{◌≡◌, true, IfOk, IsTrue, OnOk};
ghost use Rattle.hub_program.specs.Judging.{IsJudged};

use crate::fault::CommandFault;
use crate::files::read_setup;
use crate::store::{Begins, ClosedStore, OpenStore, open, other_setup};
use hub_core::Hub;
use nest_core::Setup;
use posting_core::Ledger;
use register_store::{Register, StoreFault};
use sqlite::{Files, Start};
use sqlite_disk::Disk;
use std::alloc::Global;

/// Reads the record of a store under the setup in a file, and closes the store. Returns the record.
/// Faults, in this order: those of the setup's file, and of the setup; those of opening the store,
/// of checking its record, and of closing it.
pub fn read_record<'a, S: Start>(
    rt: &HostRuntime,
    setup: &str,
    path: &'a str,
    start: S,
) -> Result<(Ledger, ClosedStore<'a>), CommandFault>
    ensures named { IfOk result (λ r. r.1.path ≡ path.entry) }
{
    let setup = read_setup(rt, rt.alloc(), setup)?;
    record_under(rt, setup, path, start)
}

/// Reads the record of a store under this setup, and closes the store. Faults, in this order: those
/// of opening the store, of checking its record, and of closing it.
pub fn record_under<'a, S: Start>(
    rt: &HostRuntime,
    setup: Setup,
    path: &'a str,
    start: S,
) -> Result<(Ledger, ClosedStore<'a>), CommandFault>
    ensures named { IfOk result (λ r. r.1.path ≡ path.entry) }
{
    match open(rt, path, start, Begins::Nothing) {
        Ok(store) => {
            let (ledger, files, closed) = judged_and_closed(rt, setup, store)?;
            drop(files);
            Ok((ledger, closed))
        }
        Err(fault) => {
            drop(setup);
            Err(fault)
        }
    }
}

/// Judges the record of a store, and closes it. Returns the ledger, the store's two files, which
/// stay locked, and the closed store.
pub fn judged_and_closed<'a, D: Disk + Drop>(
    rt: &HostRuntime,
    setup: Setup,
    mut store: OpenStore<'a, D>,
) -> Result<(Ledger, Files<D>, ClosedStore<'a>), CommandFault>
    ensures usable { IfOk result (λ r. IsTrue (D.Disk.is_usable r.1.db)) }
    ensures named { IfOk result (λ r. r.2.path ≡ store.entry.path) }
{
    let Some(grown) = store.grown(rt, setup) else {
        return Err(store.closed_with(rt, other_setup()));
    };
    let (register, judged) = judged(rt.alloc(), grown, store.register);
    store.register = register;
    match judged {
        Ok(ledger) => {
            let (files, closed) = store.into_files(rt)?;
            Ok((ledger, files, closed))
        }
        Err(fault) => Err(store.closed_with(rt, CommandFault::from(fault))),
    }
}

/// Opens a hub over the register, which judges its entries. Returns the register, and the ledger or
/// the fault.
pub fn judged<R: Register>(
    alloc: Global,
    setup: Setup,
    register: R,
) -> (R, Result<Ledger, StoreFault>)
    ensures judged { IfOk result.1 (IsJudged R.holding setup register result.0) }
    ensures bound { OnOk result.1 (R.is_bound result.0 ≡ true) }
{
    match Hub::open(alloc, setup, register) {
        Ok(hub) => {
            let (ledger, register) = hub.into_parts();
            (register, Ok(ledger))
        }
        Err(failed) => (failed.register, Err(failed.fault)),
    }
}
