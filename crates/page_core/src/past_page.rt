//! Writes the page of a record as it was.
ghost use Rattle.std.specs.Prelude.{◌≡◌};
ghost use Rattle.posting_core.specs.Past.{as_of, upto};
ghost use Rattle.page_core.specs.Pieces.{page_text};
ghost use Rattle.page_core.specs.Pages.{page};
ghost use Rattle.reports.specs.Writes.{Writes};

use crate::write_page;
use codes_core::Day;
use posting_core::{Ledger, past};
use reports::PrintFault;
use std::alloc::Global;
use std::io::Write;
use std::thread::Threads;

/// Writes the page of the record as it is or, with `upto`, as it was after this entry. Fails as
/// [`write_page`] does. For an earlier record it first builds a ledger with the entries up to this
/// one, which takes time and memory.
pub fn write_page_as_of<W: Write>(
    rt: &(impl Threads + Sync),
    alloc: Global,
    ledger: &Ledger,
    upto: Option<u64>,
    on: Option<Day>,
    out: &mut W,
) -> Result<(), PrintFault>
    ensures { Writes (W.contents out.old) (W.contents out.new) result
        (page_text (page (as_of upto ledger.now) on)) }
{
    match upto {
        None => write_page(rt, alloc, ledger, on, out),
        Some(entry) => write_past_page(rt, alloc, ledger, entry, on, out),
    }
}

/// Writes the page of the record as it was after this entry.
fn write_past_page<W: Write>(
    rt: &(impl Threads + Sync),
    alloc: Global,
    ledger: &Ledger,
    entry: u64,
    on: Option<Day>,
    out: &mut W,
) -> Result<(), PrintFault>
    ensures { Writes (W.contents out.old) (W.contents out.new) result
        (page_text (page (upto ledger.now entry) on)) }
{
    let past = past(alloc, ledger, entry as usize)?;
    let ended = write_page(rt, alloc, &past, on, out);
    drop(past);
    ended
}
