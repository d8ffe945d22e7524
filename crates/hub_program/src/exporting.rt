//! Writes a record to a flat database.
ghost use Rattle.std.specs.Prelude.{◌≡◌, IfOk, OnOk};
ghost use Rattle.export_core.specs.Databases.{IsExported};

use crate::fault::CommandFault;
use crate::files::read_setup;
use crate::judging::record_under;
use crate::part::{open_part, part_of, publish, refuse_target};
use crate::store::ClosedStore;
use crate::store::advice::{on_statement, store_fault};
use crate::store::paths::remove_log;
use codes_core::Day;
use export_core::{ExportFault, export};
use posting_core::Ledger;
use sqlite::{Connection, Error, FileStore, Files, Start};
use sqlite_disk::Disk;
use std::io::Write;
use std::time::{SystemTime, UNIX_EPOCH};

/// Writes the record of a store to a new database, and prints how many entries it has. The view
/// `overdue` of the database has the loans that are overdue on the clock's day, in UTC.
///
/// The database is made in a part file beside the target, and synced. Only then is it renamed to
/// the target.
///
/// Faults, in this order:
/// - those of the setup's file, and of the setup;
/// - File, if the target exists, or a log beside it;
/// - those of opening the store, of checking its record, and of closing it;
/// - File, if the part file cannot be written, or cannot be renamed;
/// - WriteFailed, if the number of entries cannot be printed. The database is complete then.
///
/// NoMemory can come instead of any of them. `S` and `U` stand for the contents of the files of the
/// store, and of the part file.
pub fn exported<'a, S: Start, U: Start, W: Write>(
    rt: &HostRuntime,
    setup: &str,
    path: &'a str,
    to: &str,
    start: S,
    again: U,
    output: &mut W,
) -> Result<ClosedStore<'a>, CommandFault>
    ensures { IfOk result (λ closed. closed.path ≡ path.entry) }
{
    let setup = read_setup(rt, rt.alloc(), setup)?;
    refuse_target(rt, to)?;
    let (ledger, closed) = record_under(rt, setup, path, start)?;
    let part = part_of(rt.alloc(), to)?;
    let held = open_part(rt, path, part.as_str())?;
    fill_part(rt, &part, again, &ledger)?;
    publish(rt, &part, to)?;
    drop(held);
    let count = ledger.entry_count();
    let noun = if count == 1 { "entry" } else { "entries" };
    match writeln!(output, "exported {count} {noun}") {
        Ok(()) => Ok(closed),
        Err(_) => Err(CommandFault::WriteFailed),
    }
}

/// Makes the database in the part file.
fn fill_part<U: Start>(
    rt: &HostRuntime,
    part: &str,
    again: U,
    ledger: &Ledger,
) -> Result<(), CommandFault> {
    match Connection::open_from(rt, part, false, again) {
        Ok(conn) => {
            let files = filled(rt, part, conn, ledger, today(rt))?;
            drop(files);
            remove_log(rt, part);
            Ok(())
        }
        Err((error, left)) => {
            drop(left);
            Err(unfilled(rt, part, error))
        }
    }
}

/// Makes the database of the record, and closes it.
fn filled<D: Disk + Drop>(
    rt: &HostRuntime,
    part: &str,
    conn: Connection<FileStore<D>>,
    ledger: &Ledger,
    on: Option<Day>,
) -> Result<Files<D>, CommandFault>
    ensures { IfOk result (IsExported D.Disk ledger.now on conn) }
{
    match export(rt.alloc(), ledger, on, conn) {
        Ok(files) => Ok(files),
        Err(ExportFault::NoMemory) => Err(CommandFault::NoMemory),
        Err(ExportFault::Database(error)) => Err(unfilled(rt, part, error)),
    }
}

/// The clock's day, in UTC, if the clock can be read.
fn today(rt: &HostRuntime) -> Option<Day> {
    let now = SystemTime::now(rt).ok()?;
    let passed = now.duration_since(UNIX_EPOCH).ok()?;
    Day::numbered((passed.as_secs() / SECONDS_OF_A_DAY) as i64)
}

const SECONDS_OF_A_DAY: u64 = 86_400;

/// The fault of a database that cannot be made.
fn unfilled(rt: &HostRuntime, part: &str, error: Error) -> CommandFault {
    let advice = on_statement(rt.alloc(), part, error);
    match store_fault(error, None) {
        CommandFault::NoMemory => CommandFault::NoMemory,
        _ => CommandFault::File(advice),
    }
}
