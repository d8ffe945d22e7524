//! Makes the database of an export.
ghost use Rattle.std.specs.Prelude.{IfOk};
ghost use Rattle.sqlite.specs.Closing.{IsCopied};
ghost use Rattle.sqlite.specs.WalReads.{AreClean};
ghost use Rattle.export_core.specs.Databases.{IsExported, IsMadeBy};

use crate::sections::script;
use codes_core::Day;
use posting_core::Ledger;
use sqlite::{Connection, Error, FileStore, Files};
use sqlite_disk::Disk;
use std::alloc::Global;

/// Why the database of an export can't be made.
#[derive(Clone, Copy)]
pub enum ExportFault {
    /// A request for memory was refused, before the database was changed.
    NoMemory,
    /// A statement failed, or closing did.
    Database(Error),
}

/// Makes the flat database of a record in a new database, and closes it. The view `overdue` has the
/// loans that are overdue on the day `on`; without a day, it has none. The database file then has
/// what the script made, and the log is empty.
///
/// Fails with `NoMemory`, if there is no memory for the script, or with the error of the first
/// statement that fails, or with that of closing.
pub fn export<D: Disk + Drop>(
    alloc: Global,
    ledger: &Ledger,
    on: Option<Day>,
    conn: Connection<FileStore<D>>,
) -> Result<Files<D>, ExportFault>
    ensures { IfOk result (IsExported D.Disk ledger.now on conn) }
{
    let script = match script(alloc, ledger, on) {
        Ok(script) => script,
        Err(_) => {
            drop(conn);
            return Err(ExportFault::NoMemory);
        }
    };
    match fill(conn, script.as_str()) {
        Ok(files) => Ok(files),
        Err(error) => Err(ExportFault::Database(error)),
    }
}

/// Runs the script on a database, and closes it. The database file then has what the script made,
/// and the log is empty. Fails with the error of the first statement that fails, or with that of
/// closing.
fn fill<D: Disk + Drop>(mut conn: Connection<FileStore<D>>, script: &str) -> Result<Files<D>, Error>
    ensures { IfOk result (λ files. AreClean D.Disk files.log files.db
        → IsMadeBy script.now conn files) }
{
    match conn.execute_batch(script) {
        Ok(()) => closed(conn),
        Err(error) => {
            drop(conn);
            Err(error)
        }
    }
}

/// Closes the database.
fn closed<D: Disk + Drop>(conn: Connection<FileStore<D>>) -> Result<Files<D>, Error>
    ensures { IfOk result
        (λ files. AreClean D.Disk files.log files.db → IsCopied conn files) }
{
    match conn.close_files() {
        Ok(files) => Ok(files),
        Err((error, store)) => {
            drop(store.close());
            Err(error)
        }
    }
}
