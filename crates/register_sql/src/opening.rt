//! Opens a register, and ends one that is on a file.
ghost use Rattle.std.specs.Prelude.{◌≡◌, true, false, IsTrue, IfOk, IfErr};
ghost use Rattle.sqlite.specs.Held.{state};
ghost use Rattle.sqlite.specs.Files.{file_state, IsClosed};
ghost use Rattle.sqlite_store.specs.FileStore.{view, log_frames, files as store_files};
ghost use Rattle.sqlite_trees.specs.View.{IsClean};
ghost use Rattle.sqlite.specs.State.{HasCleanDisk, store_error};
ghost use Rattle.sqlite.specs.Opening.{is_open_error};
ghost use Rattle.sqlite.specs.Steps.{over_memory};
ghost use Rattle.register_store.specs.Holdings.{Has};
ghost use Rattle.register_store.specs.Registers.{is_failure};
ghost use Rattle.register_sql.specs.Binding.{IsSettled};
ghost use Rattle.register_sql.specs.Stores.{in_store, no_rows};
ghost use Rattle.register_sql.specs.Runs.{IsFoundIn, IsCopied, IsLeft};
ghost use Rattle.sqlite.specs.WalFiles.{image_at};
ghost use Rattle.sqlite.specs.WalReads.{AreClean};

use crate::link::fault_of;
use crate::sql::SqlRegister;
use register_store::StoreFault;
use sqlite::{Connection, Error, File, FileFrom, FileStore, Files, MemStore, Start, Unknown};
use sqlite_disk::Disk;
use std::alloc::Global;

impl SqlRegister<MemStore> {
    /// Opens a register on a new database in memory, which has no rows and needs no file. Fault:
    /// NoMemory.
    pub fn in_memory(alloc: Global) -> Result<SqlRegister<MemStore>, StoreFault>
        ensures new { IfOk result (λ r. (r.bound ≡ false) × (r.stations ≡ 0) × (r.refusals ≡ 0)) }
        ensures going { IfOk result (λ r. r.stopped ≡ false) }
        ensures quiet { IfOk result (λ r. HasCleanDisk (state over_memory r.conn)) }
        ensures empty { IfOk result
            (λ r. Has (in_store (state over_memory r.conn)) (λ c. c ≡ no_rows)) }
        ensures memory { IfErr result (λ fault. fault ≡ StoreFault.NoMemory) }
    {
        match Connection::open_in_memory(alloc) {
            Ok(conn) => Ok(SqlRegister::adopt(conn)),
            Err(_) => Err(StoreFault::NoMemory),
        }
    }
}

impl SqlRegister<FileStore<File>> {
    /// Opens a register on the database in a file, whatever the file holds: no clause promises
    /// which rows the store has. Faults: NoMemory or Store, as by [`fault_of`].
    pub fn on_file(
        rt: &HostRuntime,
        alloc: Global,
        path: &str,
    ) -> Result<SqlRegister<FileStore<File>>, StoreFault>
        ensures new { IfOk result (λ r. (r.bound ≡ false) × (r.stations ≡ 0) × (r.refusals ≡ 0)) }
        ensures going { IfOk result (λ r. r.stopped ≡ false) }
        ensures open { IfOk result
            (λ r. HasCleanDisk (file_state r.conn) → IsSettled (file_state r.conn)) }
        ensures faults { IfErr result (λ fault. is_failure fault ≡ true) }
    {
        match SqlRegister::on_file_from(rt, alloc, path, Unknown) {
            Ok(register) => Ok(register),
            Err(error) => Err(fault_of(error)),
        }
    }
}

impl<S: Start> SqlRegister<FileStore<FileFrom<S>>> {
    /// Opens a register on the database in a file. `S` describes what the file and its log hold
    /// when they are opened; the store then has those rows, or none if they hold no database yet.
    /// Returns the error of the opening; [`fault_of`] turns it into a fault.
    pub fn on_file_from(
        rt: &HostRuntime,
        _alloc: Global,
        path: &str,
        start: S,
    ) -> Result<SqlRegister<FileStore<FileFrom<S>>>, Error>
        ensures new { IfOk result (λ r. (r.bound ≡ false) × (r.stations ≡ 0) × (r.refusals ≡ 0)) }
        ensures going { IfOk result (λ r. r.stopped ≡ false) }
        ensures open { IfOk result
            (λ r. HasCleanDisk (file_state r.conn) → IsSettled (file_state r.conn)) }
        ensures found { IfOk result (λ r. HasCleanDisk (file_state r.conn)
            → IsFoundIn (image_at S.Start) (in_store (file_state r.conn))) }
        ensures named { IfErr result (λ error. IsTrue (is_open_error error)) }
    {
        match Connection::open_from(rt, path, false, start) {
            Ok(conn) => Ok(SqlRegister::adopt(conn)),
            Err((error, _)) => Err(error),
        }
    }
}

impl<D: Disk + Drop> SqlRegister<FileStore<D>> {
    /// Ends the register without copying the log, and returns its two files as a killed program
    /// leaves them. Whatever the end of the program, or a crash, leaves of them holds a database
    /// whose rows the store may have had.
    pub fn let_go(self) -> Files<D>
        ensures { AreClean D.Disk result.log result.db
            → IsLeft D.Disk (in_store (file_state self.conn)) result }
    {
        self.into_connection().into_store().close()
    }

    /// Copies every row from the log into the database file, and returns the two files. From then
    /// on the database file alone has all rows, and the log is empty. Returns the error of the
    /// copying with the two files, for which no clause promises more.
    pub fn close(self) -> Result<Files<D>, (Error, Files<D>)>
        ensures copied { IfOk result (λ files. AreClean D.Disk files.log files.db
            → IsCopied D.Disk (in_store (file_state self.conn)) files) }
        ensures emptied { IfOk result (λ files. (last : _)
            × (store_files last ≡ (files.log, files.db)) × IsClosed self.conn last
            × (IsClean (view last) → IsTrue (view last).is_open × (log_frames last ≡ 0))) }
        ensures usable { IfOk result (λ files. IsTrue (D.Disk.is_usable files.log)
            × IsTrue (D.Disk.is_usable files.db)) }
        ensures cause { IfErr result (λ failed. (cause : _) × (failed.0 ≡ store_error cause)) }
    {
        match self.into_connection().close_files() {
            Ok(files) => Ok(files),
            Err((error, store)) => Err((error, store.close())),
        }
    }
}
