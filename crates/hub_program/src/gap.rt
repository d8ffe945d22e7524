//! Prints the line that fills a station's next number.
ghost use Rattle.std.specs.Prelude.{◌≡◌, IfOk, OnOk};
ghost use Rattle.hub_program.specs.Printing.{PrintsGap};

use crate::fault::CommandFault;
use crate::judging::read_record;
use crate::lines::write_line;
use crate::numbers::fault_of_gap;
use crate::station::{person_of, station_of};
use crate::store::ClosedStore;
use codes_core::Name;
use command_words::GapWords;
use line_files::gap_line;
use posting_core::Ledger;
use sqlite::Start;
use std::alloc::Global;
use std::io::Write;

/// Prints the line that fills the next number of a station.
///
/// Faults, in this order: Words, if `by` is no name; those of the setup's file, and of the setup;
/// those of opening the store, of checking its record, and of closing it; Station, if the setup
/// does not list the station, or if the station has signed off; Gap; WriteFailed. NoMemory can come
/// instead of any of them.
pub fn fill_gap<'a, S: Start, W: Write>(
    rt: &HostRuntime,
    wanted: &GapWords<'a>,
    start: S,
    output: &mut W,
) -> Result<ClosedStore<'a>, CommandFault>
    ensures { IfOk result (λ closed. closed.path ≡ wanted.now.store) }
{
    let alloc = rt.alloc();
    let by = person_of(alloc, wanted.by)?;
    let (ledger, closed) = read_record(rt, wanted.setup, wanted.store, start)?;
    print_gap(alloc, &ledger, wanted.station, &by, output)?;
    Ok(closed)
}

/// Prints the line. Faults, in this order: Station, Gap, WriteFailed; NoMemory.
fn print_gap<W: Write>(
    alloc: Global,
    ledger: &Ledger,
    name: &str,
    by: &Name,
    output: &mut W,
) -> Result<(), CommandFault>
    ensures { OnOk result (PrintsGap ledger.now name.now by.now
        (W.contents output.old) (W.contents output.new)) }
{
    let station = station_of(alloc, ledger.setup(), name)?;
    match gap_line(alloc, ledger, station, by) {
        Ok(line) => write_line(output, &line),
        Err(fault) => Err(fault_of_gap(alloc, name, fault)),
    }
}
