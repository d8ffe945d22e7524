//! Prints a record as a web page.
ghost use Rattle.std.specs.Prelude.{◌≡◌, IfOk, OnOk};
ghost use Rattle.std.specs.Io.KnownBytes.{Appends};
ghost use Rattle.page_core.specs.Pieces.{page_text};
ghost use Rattle.page_core.specs.Pages.{page};
ghost use Rattle.posting_core.specs.Past.{as_of};

use crate::fault::CommandFault;
use crate::judging::read_record;
use crate::request::{day_if, number_if};
use crate::store::ClosedStore;
use codes_core::Day;
use command_words::PageWords;
use page_core::write_page_as_of;
use posting_core::Ledger;
use reports::PrintFault;
use sqlite::Start;
use std::alloc::Global;
use std::io::Write;
use std::thread::Threads;

/// Prints the page of the record.
///
/// Faults, in this order: Day, if the value of `--on` is no day; Number, if the value of `--upto`
/// is no number; those of the setup's file, and of the setup; those of opening the store, of
/// checking its record, and of closing it; WriteFailed. NoMemory can come instead of any of them.
pub fn give_page<'a, T: Threads + Sync, S: Start, W: Write>(
    rt: &HostRuntime,
    threads: &T,
    wanted: &PageWords<'a>,
    start: S,
    output: &mut W,
) -> Result<ClosedStore<'a>, CommandFault>
    ensures { IfOk result (λ closed. closed.path ≡ wanted.now.store) }
{
    let on = day_if(rt.alloc(), wanted.on)?;
    let upto = number_if(rt.alloc(), wanted.upto)?;
    let (ledger, closed) = read_record(rt, wanted.setup, wanted.store, start)?;
    print_page(threads, rt.alloc(), &ledger, on, upto, output)?;
    Ok(closed)
}

/// Prints the page of the record as it is or, with `upto`, as it was after this entry. Loans that
/// are overdue on the day `on` are marked. Faults: WriteFailed; NoMemory.
fn print_page<T: Threads + Sync, W: Write>(
    threads: &T,
    alloc: Global,
    ledger: &Ledger,
    on: Option<Day>,
    upto: Option<u64>,
    output: &mut W,
) -> Result<(), CommandFault>
    ensures { OnOk result (Appends (W.contents output.old) (W.contents output.new)
        (page_text (page (as_of upto ledger.now) on))) }
{
    match write_page_as_of(threads, alloc, ledger, upto, on, output) {
        Ok(()) => Ok(()),
        Err(PrintFault::NoMemory) => Err(CommandFault::NoMemory),
        Err(PrintFault::WriteFailed) => Err(CommandFault::WriteFailed),
    }
}
