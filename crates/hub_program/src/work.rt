//! Has the work of a command done on the record, and closes the store.
ghost use Rattle.std.specs.Prelude.{◌≡◌, length, IfOk, OnOk, OnErr, MatchOption, option_map};
ghost use Rattle.desk_core.specs.Logs.{log_of};
ghost use Rattle.hub_program.specs.Places.{path_of, IsDoneAndKept, IsKeptAlone};
ghost use Rattle.hub_program.specs.Places.{grown_by};
ghost use Rattle.register_sql.specs.Stores.{in_store};
ghost use Rattle.sqlite.specs.Files.{file_state};
ghost use Rattle.work_core.specs.Works.{FitsStations, DidAlone};
ghost use Rattle.question_words.specs.Desk.{DeskAsks};

use crate::fault::CommandFault;
use crate::request::DeskQuestions;
use crate::store::{ClosedStore, OpenStore, other_setup};
use codes_core::{add_on_one_line, write_on_one_line};
use hub_core::Watch;
use nest_core::Setup;
use sqlite_disk::Disk;
use std::alloc::AllocError;
use std::io;
use std::io::{BufRead, Write};
use std::sync::Wait;
use std::thread::Threads;
use work_core::{Work, WorkFault, do_session_work, do_work};

/// Does the work on the record in the open store, and closes the store. The record's setup is this
/// one, with the growths of the store. Without a store the record is empty at first, and not kept.
/// Notes for the user are appended to `notes`; print them only if there is no fault. A desk appends
/// the messages of its station to the log, if there is one.
///
/// Faults, in this order: OtherSetup, if the growths of the store don't fit the setup; those of the
/// work, as of [`do_work`]; those of closing the store.
pub fn over_store<
    'a,
    T: Threads + Wait + Sync + Copy + Send + 'static,
    D: Disk + Drop,
    V: Watch,
    R: BufRead,
    W: Write,
    L: Write,
>(
    rt: &HostRuntime,
    threads: &T,
    setup: Setup,
    store: Option<OpenStore<'a, D>>,
    work: Work<'_>,
    watch: &mut V,
    input: &mut R,
    output: &mut W,
    log: &mut Option<L>,
    notes: &mut String,
) -> Result<Option<ClosedStore<'a>>, CommandFault>
    requires { FitsStations (length setup.stations) work }
    ensures named { IfOk result (λ kept.
        path_of kept ≡ option_map (λ s. s.path.now) store.entry) }
    ensures done { OnOk result (MatchOption store.entry
        (DidAlone DeskAsks setup work.entry (V.has_seen watch.old) (V.has_seen watch.new)
        (R.remaining input.old) (R.remaining input.new)
        (W.contents output.old) (W.contents output.new)
        (log_of L.contents log.old) (log_of L.contents log.new))
        (λ s. IsDoneAndKept (λ r. in_store (file_state r.conn)) D.Disk
        (grown_by s.growths.items setup) s.register work.entry
        (V.has_seen watch.old) (V.has_seen watch.new)
        (R.remaining input.old) (R.remaining input.new)
        (W.contents output.old) (W.contents output.new)
        (log_of L.contents log.old) (log_of L.contents log.new))) }
{
    match store {
        None => {
            without_store(rt, threads, setup, work, watch, input, output, log, notes)?;
            Ok(None)
        }
        Some(store) => {
            let closed = in_file(
                rt, threads, setup, store, work, watch, input, output, log, notes,
            )?;
            Ok(Some(closed))
        }
    }
}

fn without_store<
    T: Threads + Wait + Sync + Copy + Send + 'static,
    V: Watch,
    R: BufRead,
    W: Write,
    L: Write,
>(
    rt: &HostRuntime,
    threads: &T,
    setup: Setup,
    work: Work<'_>,
    watch: &mut V,
    input: &mut R,
    output: &mut W,
    log: &mut Option<L>,
    notes: &mut String,
) -> Result<(), CommandFault>
    requires { FitsStations (length setup.stations) work }
    ensures { OnOk result (DidAlone DeskAsks setup work.entry
        (V.has_seen watch.old) (V.has_seen watch.new)
        (R.remaining input.old) (R.remaining input.new)
        (W.contents output.old) (W.contents output.new)
        (log_of L.contents log.old) (log_of L.contents log.new)) }
{
    let alloc = rt.alloc();
    with_command_fault(do_session_work(
        threads,
        alloc,
        &DeskQuestions,
        setup,
        work,
        watch,
        input,
        output,
        log,
        notes,
    ))
}

/// The end of the work with the command's fault.
fn with_command_fault(ended: Result<(), WorkFault>) -> Result<(), CommandFault>
    ensures { OnErr ended (OnOk result ⊥) }
{
    match ended {
        Ok(()) => Ok(()),
        Err(fault) => Err(CommandFault::from(fault)),
    }
}

fn in_file<
    'a,
    T: Threads + Wait + Sync + Copy + Send + 'static,
    D: Disk + Drop,
    V: Watch,
    R: BufRead,
    W: Write,
    L: Write,
>(
    rt: &HostRuntime,
    threads: &T,
    setup: Setup,
    mut store: OpenStore<'a, D>,
    work: Work<'_>,
    watch: &mut V,
    input: &mut R,
    output: &mut W,
    log: &mut Option<L>,
    notes: &mut String,
) -> Result<ClosedStore<'a>, CommandFault>
    requires { FitsStations (length setup.stations) work }
    ensures named { IfOk result (λ closed. closed.path ≡ store.entry.path) }
    ensures done { OnOk result (IsDoneAndKept (λ r. in_store (file_state r.conn)) D.Disk
        (grown_by store.entry.growths.items setup) store.entry.register work.entry
        (V.has_seen watch.old) (V.has_seen watch.new)
        (R.remaining input.old) (R.remaining input.new)
        (W.contents output.old) (W.contents output.new)
        (log_of L.contents log.old) (log_of L.contents log.new)) }
{
    let Some(grown) = store.grown(rt, setup) else {
        drop(work);
        return Err(store.closed_with(rt, other_setup()));
    };
    let (register, ended) = do_work(
        threads,
        rt.alloc(),
        &DeskQuestions,
        grown,
        store.register,
        work,
        watch,
        input,
        output,
        log,
        notes,
    );
    store.register = register;
    match ended {
        Ok(()) => finish(rt, store, notes),
        Err(fault) => Err(store.closed_with(rt, CommandFault::from(fault))),
    }
}

/// Closes the store after the work, and adds the note about a new store.
fn finish<'a, D: Disk + Drop>(
    rt: &HostRuntime,
    store: OpenStore<'a, D>,
    notes: &mut String,
) -> Result<ClosedStore<'a>, CommandFault>
    ensures named { IfOk result (λ closed. closed.path ≡ store.entry.path) }
    ensures kept { OnOk result
        (IsKeptAlone D.Disk (in_store (file_state store.entry.register.conn))) }
{
    let is_new = store.is_new();
    let closed = store.close(rt)?;
    if is_new {
        add_new_store(notes, closed.path())?;
    }
    Ok(closed)
}

/// The beginning of the note about a new store. The path follows.
const NEW_STORE: &str = "note: new store ";

/// Appends the note about a new store.
fn add_new_store(notes: &mut String, path: &str) -> Result<(), AllocError> {
    notes.push_str(NEW_STORE)?;
    add_on_one_line(notes, path)?;
    notes.push_str("\n")
}

/// Prints the note about a new store before the work, instead of at its end.
pub fn announce_new<D: Disk + Drop, E: Write>(store: &mut OpenStore<'_, D>, errors: &mut E)
    ensures path { store.new.path ≡ store.old.path }
    ensures growths { store.new.growths ≡ store.old.growths }
    ensures register { store.new.register ≡ store.old.register }
{
    if store.take_new() {
        let _ = write_new_store(errors, store.path());
    }
}

/// Writes the note about a new store.
fn write_new_store<E: Write>(errors: &mut E, path: &str) -> io::Result<()> {
    errors.write_all(NEW_STORE.as_bytes())?;
    write_on_one_line(errors, path)?;
    errors.write_all(b"\n")
}
