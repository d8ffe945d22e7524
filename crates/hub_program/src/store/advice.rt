//! Why a store cannot be used: the fault, and the advice on it.

use crate::advice::{Advice, folder_of};
use crate::fault::CommandFault;
use register_sql::fault_of;
use register_store::StoreFault;
use sqlite::{Alter, Connection, Error, ErrorCode};
use std::alloc::Global;
use std::fs;
use std::fs::OpenOptions;
use std::io::{ErrorKind, Read};
use std::os::unix::fs::MetadataExt;

/// Whether the file cannot be opened because it is not a database, or a damaged one.
pub fn is_no_database(error: Error) -> bool {
    matches!(
        error,
        Error::SqliteFailure(ErrorCode::NotADatabase | ErrorCode::DatabaseCorrupt)
    )
}

/// Returns the advice on a database without a record.
pub fn on_no_record(alloc: Global, path: &str) -> Advice {
    format!(in alloc; "{path} has no record yet: replay, serve and desk start one").ok()
}

/// Returns the advice on a store that has another setup than the one that is named.
pub fn on_other_setup(alloc: Global, path: &str) -> Advice {
    let print = "print it with pairsalder setup --store";
    format!(in alloc; "{path} has another setup: {print} {path}").ok()
}

/// Returns the advice on a store with a row that is wrong.
pub fn on_damage(alloc: Global, path: &str) -> Advice {
    format!(in alloc;
        "{path} was changed or damaged: keep the file, and restore the last copy"
    ).ok()
}

/// Returns the advice on a store of another version.
pub fn on_other_version(alloc: Global, path: &str) -> Advice {
    format!(in alloc;
        "{path} has another version: migrate it if it is older, or install the newer program"
    ).ok()
}

/// Returns the advice on a store that failed: on the statement that failed or, if none did, on its
/// tables.
pub fn on_refusal<S: Alter>(
    alloc: Global,
    path: &str,
    failure: Option<Error>,
    conn: &mut Connection<S>,
) -> Advice {
    match failure {
        Some(error) => on_statement(alloc, path, error),
        None => on_tables(alloc, path, conn),
    }
}

/// Returns the fault for an error of the database.
pub fn store_fault(error: Error, advice: Advice) -> CommandFault {
    match fault_of(error) {
        StoreFault::NoMemory => CommandFault::NoMemory,
        fault => CommandFault::Store(fault, advice),
    }
}

/// Returns the advice on a database that cannot be opened.
pub fn on_opening(rt: &HostRuntime, path: &str, error: Error) -> Advice {
    let alloc = rt.alloc();
    match error {
        Error::SqliteFailure(ErrorCode::CannotOpen) => on_path(rt, path),
        error if is_no_database(error) => on_database(rt, path),
        error => on_statement(alloc, path, error),
    }
}

/// The advice on a file that is not a database, or that cannot be a store.
fn on_database(rt: &HostRuntime, path: &str) -> Advice {
    let alloc = rt.alloc();
    if begins_as_database(rt, path) {
        let what = "is damaged, or has a table that no store has: restore a copy";
        return format!(in alloc; "{path} {what}").ok();
    }
    format!(in alloc; "{path} is not an SQLite database").ok()
}

/// Whether the file begins like an SQLite database.
fn begins_as_database(rt: &HostRuntime, path: &str) -> bool {
    let mut first = [0; 16];
    match fs::open(rt, path) {
        Ok(mut file) => file.read_exact(&mut first).is_ok() && first == *b"SQLite format 3\0",
        Err(_) => false,
    }
}

/// The advice on a path that cannot be opened, by the kind of file there.
fn on_path(rt: &HostRuntime, path: &str) -> Advice {
    let alloc = rt.alloc();
    let found = match fs::metadata(rt, path) {
        Ok(found) => found,
        Err(error) if error.kind() == ErrorKind::NotFound => return on_missing(rt, path),
        Err(_) => return format!(in alloc; "{path} cannot be accessed").ok(),
    };
    if !found.is_file() {
        return format!(in alloc; "{path} is not a file").ok();
    }
    if found.nlink() != 1 {
        return format!(in alloc; "{path} has a second name: delete the hard link").ok();
    }
    let opened = OpenOptions::new().read(true).write(true).open(rt, path);
    match opened {
        Ok(_) => format!(in alloc;
            "{path} cannot be opened: check the permissions of its folder and of {path}*"
        ).ok(),
        Err(_) => format!(in alloc;
            "you have no permission to write {path}; reports need it too"
        ).ok(),
    }
}

/// The advice on a database that cannot be created.
fn on_missing(rt: &HostRuntime, path: &str) -> Advice {
    let alloc = rt.alloc();
    let folder = folder_of(path);
    match fs::metadata(rt, folder) {
        Ok(found) if found.is_dir() => {
            format!(in alloc;
                "{path} cannot be created: you have no permission to write its folder"
            ).ok()
        }
        Ok(_) => format!(in alloc; "{folder} is not a folder").ok(),
        Err(_) => format!(in alloc; "the folder {folder} does not exist").ok(),
    }
}

/// Returns the advice on a statement that failed.
pub fn on_statement(alloc: Global, path: &str, error: Error) -> Advice {
    match error {
        Error::SqliteFailure(ErrorCode::DatabaseBusy) => {
            format!(in alloc;
                "{path} is in use by another program: wait for it to end, or close it"
            ).ok()
        }
        Error::SqliteFailure(ErrorCode::DiskFull) => {
            format!(in alloc;
                "the disk that has {path} is full: free some space and try again"
            ).ok()
        }
        Error::SqliteFailure(ErrorCode::SystemIoFailure) => {
            format!(in alloc; "the disk that has {path} failed to read or write").ok()
        }
        error => format!(in alloc; "{path}: {error}").ok(),
    }
}

/// The advice on a database with a wrong schema: that it is an export, or a table or view that no
/// store has, if there is one.
fn on_tables<S: Alter>(alloc: Global, path: &str, conn: &mut Connection<S>) -> Advice {
    let rows = conn
        .query_all("SELECT type, name FROM sqlite_schema", &[])
        .ok()?;
    for row in rows.iter() {
        let kind: String = row.get(0).ok()?;
        let name: String = row.get(1).ok()?;
        if name.as_str() == "record" {
            return format!(in alloc; "{path} is an export, not a store: name the store").ok();
        }
        if !is_ours(&name) {
            let what = "which does not belong in a store: delete it";
            return format!(in alloc; "{path} has the {kind} {name}, {what}").ok();
        }
    }
    let what = "lacks a table, or has its tables in another order or with other columns";
    format!(in alloc; "{path} {what}").ok()
}

/// Whether a store has a table or an index of this name.
fn is_ours(name: &str) -> bool {
    matches!(
        name,
        "meta" | "setup" | "posting" | "spot" | "line" | "term"
    ) || name.starts_with("sqlite_autoindex_")
}
