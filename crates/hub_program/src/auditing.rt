//! Prints the moves that a count asks for.
ghost use Rattle.std.specs.Prelude.{◌≡◌, ◌++◌, IfOk, OnOk, string_bytes};
ghost use Rattle.line_files.specs.AuditNotes.{audit_notes};
ghost use Rattle.hub_program.specs.Printing.{PrintsAudit};

use crate::fault::CommandFault;
use crate::files::read_list;
use crate::judging::read_record;
use crate::lines::write_line;
use crate::numbers::{first_if, first_of};
use crate::request::day_of;
use crate::station::station_of;
use crate::store::ClosedStore;
use codes_core::Day;
use command_words::AuditWords;
use count_core::CountRow;
use line_files::{AuditFault, AuditOptions, audit};
use posting_core::Ledger;
use sqlite::Start;
use std::alloc::Global;
use std::io::Write;
use std::thread::Threads;

/// Prints a line for each thing that the list found elsewhere, and adds the notes on the rest.
///
/// Faults, in this order: Day; Number, for `--first`; those of the list; those of the setup's file,
/// and of the setup; those of opening the store, of checking its record, and of closing it;
/// Station, if the setup does not list the station; those of the first number; Number, if a line
/// would have too great a number; WriteFailed. NoMemory can come instead of any of them.
pub fn audit_list<'a, T: Threads + Sync, S: Start, W: Write>(
    rt: &HostRuntime,
    threads: &T,
    wanted: &AuditWords<'a>,
    start: S,
    output: &mut W,
    notes: &mut String,
) -> Result<ClosedStore<'a>, CommandFault>
    ensures { IfOk result (λ closed. closed.path ≡ wanted.now.store) }
{
    let alloc = rt.alloc();
    let day = day_of(alloc, wanted.day)?;
    let first = first_if(alloc, wanted.first)?;
    let rows = read_list(rt, alloc, wanted.list)?;
    let (ledger, closed) = read_record(rt, wanted.setup, wanted.store, start)?;
    print_audit(
        threads, alloc, &ledger, wanted, day, first, &rows, output, notes,
    )?;
    Ok(closed)
}

/// Prints the lines, and adds the notes. Faults, in this order: Station; those of the first number;
/// Number, if a line would have too great a number; WriteFailed. NoMemory can come instead.
fn print_audit<T: Threads + Sync, W: Write>(
    threads: &T,
    alloc: Global,
    ledger: &Ledger,
    wanted: &AuditWords<'_>,
    day: Day,
    first: Option<u32>,
    rows: &[CountRow],
    output: &mut W,
    notes: &mut String,
) -> Result<(), CommandFault>
    ensures printed { OnOk result (PrintsAudit ledger.now wanted.now.station.now day first
        wanted.now.sealed rows.now (W.contents output.old) (W.contents output.new)) }
    ensures noted { OnOk result (string_bytes notes.new
        ≡ string_bytes notes.old ++ audit_notes ledger.now wanted.now.sealed rows.now) }
{
    let station = station_of(alloc, ledger.setup(), wanted.station)?;
    let options = AuditOptions {
        station,
        day,
        first: first_of(alloc, ledger, station, wanted.station, first)?,
        sealed: wanted.sealed,
    };
    match audit(threads, alloc, ledger, &options, rows) {
        Ok(audit) => {
            write_line(output, &audit.lines)?;
            notes.push_str(&audit.notes)?;
            Ok(())
        }
        Err(AuditFault::NoMemory) => Err(CommandFault::NoMemory),
        Err(AuditFault::NumberOutside) => Err(CommandFault::Number(format!(in alloc;
            "the numbers of the lines would exceed 999999: use another station"
        ).ok())),
    }
}
