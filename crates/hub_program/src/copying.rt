//! Copies a store to one new file, and checks the copy.
ghost use Rattle.std.specs.Prelude.{◌≡◌, IfOk, IsTrue};

use crate::advice::Advice;
use crate::fault::CommandFault;
use crate::files::read_setup;
use crate::judging::judged_and_closed;
use crate::part::{open_part, part_of, publish, refuse_target, unwritten};
use crate::store::{Begins, ClosedStore, OpenStore, open};
use nest_core::Setup;
use posting_core::Ledger;
use register_store::{Register, StoreFault};
use sqlite::{Files, Start};
use sqlite_disk::Disk;
use std::alloc::Global;
use std::fs::File;
use std::io::Write;
use work_core::{PourFault, opens_to, pour};

/// Copies the record of a store to a new file, and prints how many entries it has.
///
/// Opening the store checks the whole record. Closing it brings the whole record into the database
/// file. The bytes of that file are written to a part file beside the target, and synced. The part
/// file is opened as a store and compared with the record. Only then is it renamed to the target.
///
/// Faults, in this order:
/// - those of the setup's file, and of the setup;
/// - File, if the target exists, or a log beside it;
/// - those of opening the store, of checking its record, and of closing it;
/// - File, if the part file cannot be written; Store, if the store cannot be read;
/// - those of opening the part file as a store; File, if its record differs;
/// - File, if the part file cannot be renamed;
/// - WriteFailed, if the number of entries cannot be printed. The copy is complete then.
///
/// NoMemory can come instead of any of them. `S` and `U` stand for the contents of the files of the
/// store, and of the copy.
pub fn copied<'a, S: Start, U: Start, W: Write>(
    rt: &HostRuntime,
    setup: &str,
    path: &'a str,
    to: &str,
    start: S,
    again: U,
    output: &mut W,
) -> Result<ClosedStore<'a>, CommandFault>
    ensures { IfOk result (λ closed. closed.path ≡ path.entry) }
{
    let alloc = rt.alloc();
    let setup = read_setup(rt, alloc, setup)?;
    refuse_target(rt, to)?;
    let store = open(rt, path, start, Begins::Nothing)?;
    let (ledger, mut files, closed) = judged_and_closed(rt, setup, store)?;
    let part = part_of(alloc, to)?;
    let held = write_part(rt, path, &part, &mut files)?;
    drop(files);
    compare(rt, &part, again, ledger.setup().copy()?, &ledger)?;
    publish(rt, &part, to)?;
    drop(held);
    let count = ledger.entry_count();
    let noun = if count == 1 { "entry" } else { "entries" };
    match writeln!(output, "copied {count} {noun}") {
        Ok(()) => Ok(closed),
        Err(_) => Err(CommandFault::WriteFailed),
    }
}

/// Writes the bytes of the database file to the part file, and syncs it. The returned file is
/// locked, so that no other copy writes to it.
fn write_part<D: Disk>(
    rt: &HostRuntime,
    store: &str,
    part: &str,
    files: &mut Files<D>,
) -> Result<File, CommandFault>
    requires { IsTrue (D.Disk.is_usable files.old.db) }
{
    let mut file = open_part(rt, store, part)?;
    match pour(rt.alloc(), &mut files.db, &mut file) {
        Ok(()) => {}
        Err(PourFault::NoMemory) => return Err(CommandFault::NoMemory),
        Err(PourFault::ReadFailed) => return Err(CommandFault::from(StoreFault::Store)),
        Err(PourFault::WriteFailed(kind)) => return Err(unwritten(rt, part, kind)),
    }
    match file.sync_all() {
        Ok(()) => Ok(file),
        Err(error) => Err(unwritten(rt, part, error.kind())),
    }
}

/// Opens the part file as a store, and compares its record with the ledger.
fn compare<U: Start>(
    rt: &HostRuntime,
    part: &str,
    again: U,
    setup: Setup,
    ledger: &Ledger,
) -> Result<(), CommandFault>
    requires { setup ≡ ledger.now.museum }
{
    let store = open(rt, part, again, Begins::Nothing)?;
    compare_open(rt, store, setup, ledger)
}

/// Compares the record in the open part file with the ledger, and closes the part file.
fn compare_open<D: Disk + Drop>(
    rt: &HostRuntime,
    mut store: OpenStore<'_, D>,
    setup: Setup,
    ledger: &Ledger,
) -> Result<(), CommandFault>
    requires { setup ≡ ledger.now.museum }
{
    let (register, same) = compared(rt.alloc(), setup, store.register, ledger);
    store.register = register;
    let fault = match same {
        Ok(true) => {
            store.close(rt)?;
            return Ok(());
        }
        Ok(false) => CommandFault::File(on_difference(rt, store.path())),
        Err(fault) => CommandFault::from(fault),
    };
    Err(store.closed_with(rt, fault))
}

/// Compares the register's record with the ledger. Returns the register, and whether the record is
/// the same.
fn compared<R: Register>(
    alloc: Global,
    setup: Setup,
    register: R,
    ledger: &Ledger,
) -> (R, Result<bool, StoreFault>)
    requires { setup ≡ ledger.now.museum }
{
    match opens_to(alloc, setup, register, ledger) {
        Ok((register, same)) => (register, Ok(same)),
        Err(failed) => (failed.register, Err(failed.fault)),
    }
}

/// The advice on a copy that differs from the record.
fn on_difference(rt: &HostRuntime, part: &str) -> Advice {
    format!(in rt.alloc(); "{part} differs from the record: the disk may be failing").ok()
}
