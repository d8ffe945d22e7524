//! Adds the rows of a file to the setup of a store, and prints the setup that a store has.
ghost use Rattle.std.specs.Prelude.{◌≡◌, ◌≢◌, true, [], IfOk, OnOk};
ghost use Rattle.hub_program.specs.Growths.{GrowsTo, IsGrownAndKept};
ghost use Rattle.nest_core.specs.SetupGrowing.{Extends, file_faults, with_file};
ghost use Rattle.register_sql.specs.Stores.{in_store};
ghost use Rattle.register_store.specs.Holdings.{Comes};
ghost use Rattle.register_store.specs.StoredRows.{AreSame};
ghost use Rattle.sqlite.specs.Files.{file_state};
ghost use Rattle.sqlite.specs.Held.{state};

use crate::fault::CommandFault;
use crate::files::read_file;
use crate::growth_fault::growth_fault;
use crate::judging::judged;
use crate::row_advice::Beside;
use crate::store::{Begins, ClosedStore, OpenStore, open};
use nest_core::{GrowFault, Setup, SetupFault};
use posting_core::Ledger;
use register_sql::SqlRegister;
use register_store::StoreFault;
use reports::{has_changes, print_growth, print_now_known, print_setup};
use sqlite::{Alter, Start};
use sqlite_disk::Disk;
use std::alloc::Global;
use std::io::Write;

/// Prints the setup of a store as a setup file.
///
/// Faults, in this order: those of opening the store; Damaged(0), if its rows are those of no
/// setup; those of closing it; WriteFailed. NoMemory can come instead of any of them.
pub fn listed<'a, S: Start, W: Write>(
    rt: &HostRuntime,
    path: &'a str,
    start: S,
    output: &mut W,
) -> Result<ClosedStore<'a>, CommandFault>
    ensures { IfOk result (λ closed. closed.path ≡ path.entry) }
{
    let store = open(rt, path, start, Begins::Nothing)?;
    let (setup, closed) = read_and_closed(rt, store)?;
    print_setup(rt.alloc(), &setup, output)?;
    Ok(closed)
}

/// Adds the rows of a file to the setup of a store, and prints what was added. If `check`, the
/// store stays as it is.
///
/// Faults, in this order:
/// - File, if the file can't be read;
/// - those of opening the store, and of checking its record;
/// - Damaged(0), if its rows are those of no setup;
/// - Growth, for all faults of the file, or if the setup has grown too often;
/// - those of writing the new setup, and of closing the store;
/// - WriteFailed. The setup has grown then.
///
/// NoMemory can come instead of any of them.
pub fn grown<'a, S: Start, W: Write>(
    rt: &HostRuntime,
    file: &str,
    path: &'a str,
    check: bool,
    start: S,
    output: &mut W,
) -> Result<ClosedStore<'a>, CommandFault>
    ensures { IfOk result (λ closed. closed.path ≡ path.entry) }
{
    let bytes = read_file(rt, file)?;
    let store = open(rt, path, start, Begins::Nothing)?;
    let (ledger, further, closed) = grown_and_closed(rt, file, &bytes, check, store)?;
    let alloc = rt.alloc();
    let before = ledger.setup();
    print_growth(alloc, before, &further, ledger.entry_count(), output)?;
    print_now_known(alloc, before, &further, ledger.posted(), output)?;
    Ok(closed)
}

/// Reads the setup of a store, and closes the store.
fn read_and_closed<'a, D: Disk + Drop>(
    rt: &HostRuntime,
    mut store: OpenStore<'a, D>,
) -> Result<(Setup, ClosedStore<'a>), CommandFault>
    ensures named { IfOk result (λ r. r.1.path ≡ store.entry.path) }
{
    match setup_of(rt.alloc(), &mut store.register) {
        Ok(setup) => {
            let closed = store.close(rt)?;
            Ok((setup, closed))
        }
        Err(fault) => Err(store.closed_with(rt, CommandFault::from(fault))),
    }
}

/// The setup that the register's store holds. Faults: Damaged(0), if its rows are those of no
/// setup; those of reading it.
fn setup_of<S: Alter>(alloc: Global, register: &mut SqlRegister<S>) -> Result<Setup, StoreFault>
    ensures { Comes (in_store (state S.Store register.old.conn))
        (in_store (state S.Store register.new.conn)) AreSame }
{
    match register.setup(alloc) {
        Ok(Some(setup)) => Ok(setup),
        Ok(None) => Err(StoreFault::Damaged(0)),
        Err(fault) => Err(fault),
    }
}

/// Judges the record of a store, adds the rows of the file to its setup, unless `check`, and closes
/// the store. Returns the record, the setup with the rows, and the closed store.
fn grown_and_closed<'a, D: Disk + Drop>(
    rt: &HostRuntime,
    file: &str,
    bytes: &[u8],
    check: bool,
    mut store: OpenStore<'a, D>,
) -> Result<(Ledger, Setup, ClosedStore<'a>), CommandFault>
    ensures named { IfOk result (λ r. r.2.path ≡ store.entry.path) }
    ensures setup { IfOk result (λ r. r.1 ≡ with_file r.0.museum bytes.now) }
    ensures extends { IfOk result (λ r. Extends r.0.museum r.1) }
    ensures right { IfOk result (λ r. file_faults r.0.museum bytes.now ≡ []) }
    ensures grown { IfOk result (λ r. IsGrownAndKept (λ k. in_store (file_state k.conn)) D.Disk
        check bytes.now store.entry.register r.0) }
{
    let setup = match setup_of(rt.alloc(), &mut store.register) {
        Ok(setup) => setup,
        Err(fault) => return Err(store.closed_with(rt, CommandFault::from(fault))),
    };
    let (register, judged) = judged(rt.alloc(), setup, store.register);
    store.register = register;
    let ledger = match judged {
        Ok(ledger) => ledger,
        Err(fault) => return Err(store.closed_with(rt, CommandFault::from(fault))),
    };
    let added = add_rows(rt.alloc(), file, bytes, check, &ledger, &mut store.register);
    match added {
        Ok(further) => {
            let closed = store.close(rt)?;
            Ok((ledger, further, closed))
        }
        Err(fault) => {
            drop(ledger);
            Err(store.closed_with(rt, fault))
        }
    }
}

/// Adds the rows of the file to the setup of the record, and writes the new setup to the register,
/// unless `check`, or if nothing is added. Returns the setup with the rows. Faults: Growth, for all
/// faults of the file, or if the setup has grown too often; those of writing the new setup.
fn add_rows<S: Alter>(
    alloc: Global,
    file: &str,
    bytes: &[u8],
    check: bool,
    ledger: &Ledger,
    register: &mut SqlRegister<S>,
) -> Result<Setup, CommandFault>
    requires { register.old.bound ≡ true }
    ensures setup { IfOk result (λ further. further ≡ with_file ledger.now.museum bytes.now) }
    ensures extends { IfOk result (Extends ledger.now.museum) }
    ensures right { OnOk result (file_faults ledger.now.museum bytes.now ≡ []) }
    ensures refused { file_faults ledger.now.museum bytes.now ≢ [] → register.new ≡ register.old }
    ensures grows { OnOk result (GrowsTo check ledger.now bytes.now
        (in_store (state S.Store register.old.conn))
        (in_store (state S.Store register.new.conn))) }
{
    let before = ledger.setup();
    let further = setup_with(alloc, file, bytes, before)?;
    if !has_changes(before, &further) {
        return Ok(further);
    }
    let grown = match before.grown(further.copy()?, ledger.entry_count()) {
        Ok(grown) => grown,
        Err(GrowFault::Setup(SetupFault::NoMemory)) => return Err(CommandFault::NoMemory),
        Err(fault) => return Err(growth_fault(alloc, file, bytes, &[fault], Beside::Record)),
    };
    if !check {
        register.grow(alloc, &grown)?;
    }
    Ok(further)
}

/// The setup with the rows of the file. Fault: Growth, for all faults of the file.
fn setup_with(
    alloc: Global,
    file: &str,
    bytes: &[u8],
    before: &Setup,
) -> Result<Setup, CommandFault>
    ensures setup { IfOk result (λ further. further ≡ with_file before.now bytes.now) }
    ensures extends { IfOk result (Extends before.now) }
    ensures right { OnOk result (file_faults before.now bytes.now ≡ []) }
{
    let further = before.with_file(alloc, bytes)?;
    if !further.faults.is_empty() {
        return Err(growth_fault(alloc, file, bytes, &further.faults, Beside::Record));
    }
    Ok(further.setup)
}
