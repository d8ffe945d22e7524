//! Laws about one run of the program and the next. Each is stated on a function that no program
//! calls.
ghost use Rattle.std.specs.Prelude.{IfOk};
ghost use Rattle.sqlite.specs.Files.{file_state};
ghost use Rattle.sqlite.specs.State.{HasCleanDisk};
ghost use Rattle.sqlite.specs.WalFiles.{image_at, outcomes};
ghost use Rattle.sqlite.specs.WalReads.{AreClean};
ghost use Rattle.register_sql.specs.Runs.{AreAlike, Lasts};
ghost use Rattle.register_sql.specs.Stores.{in_store};

use crate::sql::SqlRegister;
use sqlite::{Error, FileFrom, FileStore, Files, Start};
use sqlite_disk::Disk;
use std::alloc::Global;

/// Closes a register and opens the next run's files. The two stores may hold the same rows if the
/// next run's files are as the closed ones, or as a crash after the close may leave those.
///
/// Returns the closed files and the next register, or the first error: that of closing, then that
/// of opening.
pub fn closed_and_opened<D: Disk + Drop, T: Start>(
    rt: &HostRuntime,
    alloc: Global,
    path: &str,
    register: SqlRegister<FileStore<D>>,
    next: T,
) -> Result<(Files<D>, SqlRegister<FileStore<FileFrom<T>>>), Error>
    ensures { IfOk result (λ r. AreClean D.Disk r.0.log r.0.db
        → outcomes D.Disk r.0.log r.0.db (image_at T.Start) → HasCleanDisk (file_state r.1.conn)
        → ∥ AreAlike (in_store (file_state register.conn)) (in_store (file_state r.1.conn)) ∥₁) }
{
    let files = match register.close() {
        Ok(files) => files,
        Err((error, files)) => {
            drop(files);
            return Err(error);
        }
    };
    match SqlRegister::on_file_from(rt, alloc, path, next) {
        Ok(again) => Ok((files, again)),
        Err(error) => {
            drop(files);
            Err(error)
        }
    }
}

/// Ends a register without closing its files, and opens the next run's files. Whatever rows the new
/// store may hold, the old one may have held. Otherwise like [`closed_and_opened`].
pub fn left_and_opened<D: Disk + Drop, T: Start>(
    rt: &HostRuntime,
    alloc: Global,
    path: &str,
    register: SqlRegister<FileStore<D>>,
    next: T,
) -> Result<(Files<D>, SqlRegister<FileStore<FileFrom<T>>>), Error>
    ensures { IfOk result (λ r. AreClean D.Disk r.0.log r.0.db
        → outcomes D.Disk r.0.log r.0.db (image_at T.Start) → HasCleanDisk (file_state r.1.conn)
        → Lasts (in_store (file_state register.conn)) (in_store (file_state r.1.conn))) }
{
    let files = register.let_go();
    match SqlRegister::on_file_from(rt, alloc, path, next) {
        Ok(again) => Ok((files, again)),
        Err(error) => {
            drop(files);
            Err(error)
        }
    }
}
