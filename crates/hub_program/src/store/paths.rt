//! The two files of a store, before they are opened and after they are closed.

use crate::fault::CommandFault;
use crate::store::Begins;
use crate::store::advice::on_no_record;
use register_store::StoreFault;
use std::fs;
use std::io::ErrorKind;
use std::os::unix::fs::MetadataExt;

/// Checks the two files of a store before they are opened, and rejects those that must not be
/// touched. Returns whether there is a log.
pub fn look(rt: &HostRuntime, path: &str, begins: Begins) -> Result<bool, CommandFault> {
    let alloc = rt.alloc();
    let log = format!(in alloc; "{path}-wal")?;
    let (database, log) = (length(rt, path), length(rt, &log));
    if database.is_none() && log.is_some() {
        let advice = format!(in alloc;
            "{path} is missing, but its log {path}-wal exists: restore {path}"
        );
        return Err(CommandFault::Store(StoreFault::Store, advice.ok()));
    }
    if database.unwrap_or(0) > 0 || log.unwrap_or(0) > 0 || begins == Begins::Record {
        return Ok(log.is_some());
    }
    let advice = match database {
        Some(_) => on_no_record(alloc, path),
        None => format!(in alloc;
            "{path} does not exist: replay, serve and desk start a new record"
        ).ok(),
    };
    Err(CommandFault::Store(begins.fault(), advice))
}

/// The length of a file in bytes. None if there is no such file.
fn length(rt: &HostRuntime, path: &str) -> Option<u64> {
    match fs::metadata(rt, path) {
        Ok(found) => Some(found.len()),
        Err(error) if error.kind() == ErrorKind::NotFound => None,
        // Something is there, and opening it reports the cause.
        Err(_) => Some(u64::MAX),
    }
}

/// Removes the log of a closed store, or the log that opening created beside a file that is not a
/// database. The log is empty, so it does no harm if it cannot be removed.
pub fn remove_log(rt: &HostRuntime, path: &str) {
    if let Ok(real) = fs::canonicalize(rt, path) {
        if let Ok(log) = format!(in rt.alloc(); "{}-wal", real.as_str()) {
            let _ = fs::remove_file(rt, log.as_str());
        }
    }
}
