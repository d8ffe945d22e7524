//! Opens, migrates and closes a store.
//!
//! Only [`open`] makes an [`OpenStore`], and only closing one makes a [`ClosedStore`]. So a command
//! that returns one has opened and closed the store at its path.
ghost use Rattle.std.specs.Prelude.{◌≡◌, IfOk, IfSome, OnOk, IsTrue, option_map};
ghost use Rattle.command_words.specs.Words.{text_of};
ghost use Rattle.sqlite.specs.Files.{file_state};
ghost use Rattle.sqlite.specs.Held.{state};
ghost use Rattle.sqlite.specs.WalFiles.{image_at};
ghost use Rattle.sqlite.specs.WalReads.{AreClean};
ghost use Rattle.register_sql.specs.Runs.{IsCopied};
ghost use Rattle.register_sql.specs.Stores.{in_store};
ghost use Rattle.register_store.specs.Holdings.{Comes};
ghost use Rattle.register_store.specs.StoredRows.{AreSame};
ghost use Rattle.hub_program.specs.Places.{IsRecordIn, IsKeptAlone, IsMigratedAndKept, grown_by};

pub mod advice;
mod blank;
pub mod paths;

use crate::advice::Advice;
use crate::fault::CommandFault;
use crate::store::advice::{
    is_no_database, on_damage, on_no_record, on_opening, on_other_setup, on_other_version,
    on_refusal, on_statement, store_fault,
};
use crate::store::blank::begin;
use crate::store::paths::{look, remove_log};
use nest_core::{Growth, Setup};
use register_sql::SqlRegister;
use register_store::StoreFault;
use sqlite::{Alter, Connection, FileFrom, FileStore, Files, Start};
use sqlite_disk::Disk;
use std::alloc::Global;
use std::mem;

/// How a command treats a path that has no store yet.
#[derive(Clone, Copy, PartialEq, Eq)]
pub enum Begins {
    /// Starts a new record.
    Record,
    /// Fails with Store, and creates nothing.
    Nothing,
    /// Fails with OtherVersion, and creates nothing. A store that does not exist has no version to
    /// migrate.
    NoVersion,
}

impl Begins {
    /// The fault for a path that has no store.
    fn fault(self) -> StoreFault {
        match self {
            Begins::NoVersion => StoreFault::OtherVersion,
            _ => StoreFault::Store,
        }
    }
}

/// A store that is open: its path, whether it is new, how its setup grew, the newest growth first,
/// and a register over its two files.
pub struct OpenStore<'a, D: Disk + Drop> {
    path: &'a str,
    is_new: bool,
    growths: Vec<Growth>,
    pub register: SqlRegister<FileStore<D>>,
}

/// The path of a store that was opened and closed again.
#[derive(Clone, Copy)]
pub struct ClosedStore<'a> {
    path: &'a str,
}

impl<'a> ClosedStore<'a> {
    /// Returns the path.
    pub fn path(&self) -> &'a str {
        self.path
    }
}

/// Opens the store at a path, if there is one. Faults: those of [`open`].
pub fn open_if<'a, S: Start>(
    rt: &HostRuntime,
    path: Option<&'a str>,
    start: S,
    begins: Begins,
) -> Result<Option<OpenStore<'a, FileFrom<S>>>, CommandFault>
    ensures named { IfOk result (λ store.
        option_map (λ s. s.path.now) store ≡ text_of path.entry) }
    ensures found { IfOk result (λ store. IfSome store (λ s.
        IsRecordIn (λ k. in_store (file_state k.conn)) (image_at S.Start) s.register)) }
{
    match path {
        None => Ok(None),
        Some(path) => {
            let store = open(rt, path, start, begins)?;
            Ok(Some(store))
        }
    }
}

/// Closes the store after a fault, if there is one. Returns the fault that the command ends with,
/// as [`OpenStore::closed_with`] does.
pub fn closed_if<D: Disk + Drop>(
    rt: &HostRuntime,
    store: Option<OpenStore<'_, D>>,
    fault: CommandFault,
) -> CommandFault {
    match store {
        None => fault,
        Some(store) => store.closed_with(rt, fault),
    }
}

/// Opens the store in a file.
///
/// Faults, in this order:
/// - Store, if the database file is missing but its log is there;
/// - Store or OtherVersion, for a command that begins no record, if the database file is missing or
///   empty, and there is no log with entries;
/// - those of opening the database, and of reading whether it has a record;
/// - Store, for [`Begins::Nothing`], if it has none.
///
/// NoMemory can come instead of any result. A command that begins no record creates no store.
pub fn open<'a, S: Start>(
    rt: &HostRuntime,
    path: &'a str,
    start: S,
    begins: Begins,
) -> Result<OpenStore<'a, FileFrom<S>>, CommandFault>
    ensures named { IfOk result (λ store. store.path ≡ path.entry) }
    ensures found { IfOk result (λ store. IsRecordIn (λ k. in_store (file_state k.conn))
        (image_at S.Start) store.register) }
{
    let has_log = look(rt, path, begins)?;
    if begins == Begins::Record {
        begin(rt, path);
    }
    match SqlRegister::on_file_from(rt, rt.alloc(), path, start) {
        Ok(register) => {
            let is_new = false;
            let growths = Vec::new(rt.alloc());
            with_record(
                rt,
                OpenStore {
                    path,
                    is_new,
                    growths,
                    register,
                },
                begins,
            )
        }
        Err(error) => {
            if is_no_database(error) && !has_log {
                remove_log(rt, path);
            }
            Err(store_fault(error, on_opening(rt, path, error)))
        }
    }
}

/// Finds out whether the store is new, and how its setup grew. A store without a record is closed
/// again if the command reads one.
fn with_record<'a, D: Disk + Drop>(
    rt: &HostRuntime,
    mut store: OpenStore<'a, D>,
    begins: Begins,
) -> Result<OpenStore<'a, D>, CommandFault>
    ensures named { IfOk result (λ r. r.path ≡ store.entry.path) }
    ensures same { IfOk result (λ r. Comes (in_store (file_state store.entry.register.conn))
        (in_store (file_state r.register.conn)) AreSame) }
{
    let fault = match newness_and_growths(rt.alloc(), &mut store.register) {
        Ok((is_new, growths)) if !is_new || begins != Begins::Nothing => {
            store.is_new = is_new;
            store.growths = growths;
            return Ok(store);
        }
        Ok(_) => CommandFault::Store(StoreFault::Store, on_no_record(rt.alloc(), store.path)),
        Err(fault) => CommandFault::from(fault),
    };
    Err(store.closed_with(rt, fault))
}

/// Returns whether the store is new, and how its setup grew, the newest growth first.
fn newness_and_growths<S: Alter>(
    alloc: Global,
    register: &mut SqlRegister<S>,
) -> Result<(bool, Vec<Growth>), StoreFault>
    ensures { Comes (in_store (state S.Store register.old.conn))
        (in_store (state S.Store register.new.conn)) AreSame }
{
    let is_new = register.is_new(alloc)?;
    let growths = register.growths(alloc)?;
    Ok((is_new, growths))
}

/// Opens the store, migrates it, and closes it. Faults, in this order: those of opening it, of
/// migrating it, and of closing it.
pub fn migrate<'a, S: Start>(
    rt: &HostRuntime,
    path: &'a str,
    start: S,
    setup: Setup,
) -> Result<ClosedStore<'a>, CommandFault>
    ensures named { IfOk result (λ closed. closed.path ≡ path.entry) }
{
    match open(rt, path, start, Begins::NoVersion) {
        Ok(store) => store.migrated(rt, setup),
        Err(fault) => {
            drop(setup);
            Err(fault)
        }
    }
}

impl<'a, D: Disk + Drop> OpenStore<'a, D> {
    /// Returns the path.
    pub fn path(&self) -> &'a str {
        self.path
    }

    /// Returns whether the store had no record when it was opened.
    pub fn is_new(&self) -> bool {
        self.is_new
    }

    /// Returns whether the store had no record when it was opened. From then on it counts as one
    /// that had.
    pub fn take_new(&mut self) -> bool
        ensures path { self.new.path ≡ self.old.path }
        ensures growths { self.new.growths ≡ self.old.growths }
        ensures register { self.new.register ≡ self.old.register }
    {
        mem::replace(&mut self.is_new, false)
    }

    /// Returns the setup that lists what this one lists, and has grown as that of the store. None
    /// if the growths of the store don't fit what is listed: the store then has another setup.
    pub fn grown(&mut self, rt: &HostRuntime, setup: Setup) -> Option<Setup>
        ensures grown { IfSome result (λ grown. grown ≡ grown_by self.old.growths.items setup) }
        ensures register { self.new.register ≡ self.old.register }
        ensures path { self.new.path ≡ self.old.path }
    {
        let growths = mem::replace(&mut self.growths, Vec::new(rt.alloc()));
        setup.with_growths(growths)
    }

    /// Migrates the store, and closes it.
    fn migrated(mut self, rt: &HostRuntime, setup: Setup) -> Result<ClosedStore<'a>, CommandFault>
        ensures named { IfOk result (λ closed. closed.path ≡ self.entry.path) }
        ensures migrated { OnOk result (IsMigratedAndKept (λ r. in_store (file_state r.conn))
            D.Disk (grown_by self.entry.growths.items setup) self.entry.register) }
    {
        let Some(setup) = self.grown(rt, setup) else {
            return Err(self.closed_with(rt, other_setup()));
        };
        match self.register.migrate(rt.alloc(), &setup) {
            Ok(()) => self.close(rt),
            Err(fault) => Err(self.closed_with(rt, CommandFault::from(fault))),
        }
    }

    /// Closes the store, and removes its log. If this succeeds, the database file has the whole
    /// record. Faults: NoMemory, or that of closing.
    pub fn close(self, rt: &HostRuntime) -> Result<ClosedStore<'a>, CommandFault>
        ensures named { IfOk result (λ closed. closed.path ≡ self.entry.path) }
        ensures kept { OnOk result
            (IsKeptAlone D.Disk (in_store (file_state self.entry.register.conn))) }
    {
        let (files, closed) = self.into_files(rt)?;
        drop(files);
        Ok(closed)
    }

    /// Closes the store after a fault, and returns the fault with which the command ends: this one.
    /// Store without advice gets the cause as advice, if that is known. OtherSetup gets the command
    /// that prints the store's own setup, and OtherVersion and Damaged get what the user can do.
    pub fn closed_with(self, rt: &HostRuntime, fault: CommandFault) -> CommandFault {
        if let CommandFault::Store(StoreFault::Store, None) = fault {
            return self.refused(rt);
        }
        let path = self.path;
        if let Ok((files, _)) = self.into_files(rt) {
            drop(files);
        }
        match fault {
            CommandFault::Store(StoreFault::OtherSetup, None) => {
                CommandFault::Store(StoreFault::OtherSetup, on_other_setup(rt.alloc(), path))
            }
            CommandFault::Store(StoreFault::OtherVersion, None) => {
                CommandFault::Store(StoreFault::OtherVersion, on_other_version(rt.alloc(), path))
            }
            CommandFault::Store(StoreFault::Damaged(row), None) => {
                CommandFault::Store(StoreFault::Damaged(row), on_damage(rt.alloc(), path))
            }
            fault => fault,
        }
    }

    /// Closes the store, removes the name of its log, and returns its two files. The database file
    /// has the whole record, and stays locked until it is dropped. The log is empty. Faults:
    /// NoMemory, or that of closing.
    pub fn into_files(self, rt: &HostRuntime) -> Result<(Files<D>, ClosedStore<'a>), CommandFault>
        ensures named { IfOk result (λ r. r.1.path ≡ self.entry.path) }
        ensures copied { IfOk result (λ r. AreClean D.Disk r.0.log r.0.db
            → IsCopied D.Disk (in_store (file_state self.entry.register.conn)) r.0) }
        ensures usable { IfOk result (λ r. IsTrue (D.Disk.is_usable r.0.db)) }
    {
        let OpenStore {
            path,
            is_new: _,
            growths: _,
            register,
        } = self;
        match register.close() {
            Ok(files) => {
                remove_log(rt, path);
                Ok((files, ClosedStore { path }))
            }
            Err((error, files)) => {
                drop(files);
                Err(store_fault(error, on_statement(rt.alloc(), path, error)))
            }
        }
    }

    /// Closes a store that failed, and returns its fault with the cause as advice.
    fn refused(self, rt: &HostRuntime) -> CommandFault {
        let OpenStore {
            path,
            is_new: _,
            growths: _,
            register,
        } = self;
        let (conn, advice) = failed(rt.alloc(), path, register);
        if is_closed(conn) {
            remove_log(rt, path);
        }
        CommandFault::Store(StoreFault::Store, advice)
    }
}

/// The fault of a store that has another setup.
pub fn other_setup() -> CommandFault {
    CommandFault::Store(StoreFault::OtherSetup, None)
}

/// The connection of a register that failed, and the advice on its store.
fn failed<S: Alter>(
    alloc: Global,
    path: &str,
    register: SqlRegister<S>,
) -> (Connection<S>, Advice) {
    let failure = register.failure();
    let mut conn = register.into_connection();
    let advice = on_refusal(alloc, path, failure, &mut conn);
    (conn, advice)
}

/// Closes the connection, and returns whether the database file has the whole record.
fn is_closed<D: Disk + Drop>(conn: Connection<FileStore<D>>) -> bool {
    match conn.close_files() {
        Ok(files) => {
            drop(files);
            true
        }
        Err((_, store)) => {
            drop(store.close());
            false
        }
    }
}
