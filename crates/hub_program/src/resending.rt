//! Compares a station's file with the record.
ghost use Rattle.std.specs.Prelude.{◌≡◌, IfOk, Some, string_bytes};
ghost use Rattle.hub_program.specs.Places.{kept_in};
ghost use Rattle.hub_program.specs.Printing.{PrintsComparison};

use crate::ending::Ending;
use crate::fault::CommandFault;
use crate::files::read_named;
use crate::judging::read_record;
use crate::lines::write_line;
use crate::station::station_of;
use command_words::ResendWords;
use line_files::resend_text;
use posting_core::Ledger;
use sqlite::Start;
use std::alloc::Global;
use std::io::{BufRead, Write};
use table_core::past_mark;

/// Compares the lines of a station's file with the record, and prints how each line stands to it. A
/// byte order mark before the first line is dropped. The command is well only if each line is
/// posted, or would be.
///
/// Faults, in this order: those of the file; those of the setup's file, and of the setup; those of
/// opening the store, of checking its record, and of closing it; Station, if the setup does not
/// list the station; WriteFailed. NoMemory can come instead of any of them.
pub fn compare_file<'a, S: Start, R: BufRead, W: Write>(
    rt: &HostRuntime,
    wanted: &ResendWords<'a>,
    start: S,
    input: &mut R,
    output: &mut W,
    notes: &mut String,
) -> Result<Ending<'a>, CommandFault>
    ensures { IfOk result (λ ending. kept_in ending ≡ Some wanted.now.store.now) }
{
    let bytes = read_named(rt, wanted.file, input)?;
    let (ledger, closed) = read_record(rt, wanted.setup, wanted.store, start)?;
    let lines = past_mark(&bytes);
    if print_comparison(rt.alloc(), &ledger, wanted.station, lines, output, notes)? {
        return Ok(Ending::Done(Some(closed)));
    }
    Ok(Ending::NotApplied(Some(closed)))
}

/// Prints how each line stands to the record, and adds help on lines of another station to the
/// notes. Returns whether each line is posted, or would be. Faults: Station, WriteFailed; NoMemory.
fn print_comparison<W: Write>(
    alloc: Global,
    ledger: &Ledger,
    name: &str,
    bytes: &[u8],
    output: &mut W,
    notes: &mut String,
) -> Result<bool, CommandFault>
    ensures { IfOk result (PrintsComparison ledger.now name.now bytes.now
        (W.contents output.old) (W.contents output.new)
        (string_bytes notes.old) (string_bytes notes.new)) }
{
    let station = station_of(alloc, ledger.setup(), name)?;
    let compared = resend_text(alloc, ledger, station, bytes)?;
    write_line(output, &compared.text)?;
    notes.push_str(compared.help)?;
    Ok(compared.is_fine)
}
