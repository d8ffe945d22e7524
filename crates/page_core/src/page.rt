//! Writes a page.
ghost use Rattle.std.specs.Prelude.{◌≡◌};
ghost use Rattle.page_core.specs.Pieces.{page_text};
ghost use Rattle.page_core.specs.Pages.{away, entries, histories, lending, loan_objects, loans};
ghost use Rattle.page_core.specs.Pages.{locations, numbers, page, posts, stations, tree, unplaced};
ghost use Rattle.reports.specs.Writes.{Writes};

use crate::away::Away;
use crate::entries::LastEntries;
use crate::frame::{
    AWAY, ENTRIES, HEAD, HISTORIES, HISTORIES_END, LOAN_OBJECTS, LOANS, NUMBERS_END, STATIONS,
    TABLE_END, TREE, TREE_END, UNPLACED,
};
use crate::histories::write_spots;
use crate::loan_objects::LoanObjects;
use crate::loans::Loans;
use crate::numbers::Numbers;
use crate::script::PAGE_END;
use crate::seal::seal_row;
use crate::stations::Stations;
use crate::tree::Tree;
use codes_core::Day;
use posting_core::Ledger;
use reports::PrintFault;
use reports::sections::{write_section, write_text};
use std::alloc::Global;
use std::io::Write;
use std::thread::Threads;

/// Writes the page of a record: one file of HTML 5, with its style inside. It marks the loans that
/// are overdue on the day `on`; without a day, it marks none.
///
/// Fails with `NoMemory` or `WriteFailed`, after the beginning of the page. It takes memory for one
/// row at a time, for two lines of the tree for each place and each thing and 8 bytes for each
/// place, then for a second ledger and the rows of one entry while it writes the locations of all
/// things, then for each overdue loan and for each object that is away from its normal location,
/// and at the end again for a second ledger, to find the causes of the last entries, and for the
/// rows of these entries.
pub fn write_page<W: Write>(
    rt: &(impl Threads + Sync),
    alloc: Global,
    ledger: &Ledger,
    on: Option<Day>,
    out: &mut W,
) -> Result<(), PrintFault>
    ensures { Writes (W.contents out.old) (W.contents out.new) result
        (page_text (page ledger.now on)) }
{
    write_locations(rt, alloc, ledger, &on, out)?;
    write_lending(alloc, ledger, &on, out)?;
    write_posts(alloc, ledger, out)
}

/// Writes where everything is and was.
fn write_locations<W: Write>(
    rt: &(impl Threads + Sync),
    alloc: Global,
    ledger: &Ledger,
    on: &Option<Day>,
    out: &mut W,
) -> Result<(), PrintFault>
    ensures { Writes (W.contents out.old) (W.contents out.new) result
        (page_text (locations ledger.now on.now)) }
{
    write_numbers(rt, alloc, ledger, on, out)?;
    write_tree(alloc, ledger, out)?;
    write_unplaced(alloc, ledger, out)?;
    write_histories(alloc, ledger, out)
}

/// Writes what is on loan, or away for another reason.
fn write_lending<W: Write>(
    alloc: Global,
    ledger: &Ledger,
    on: &Option<Day>,
    out: &mut W,
) -> Result<(), PrintFault>
    ensures { Writes (W.contents out.old) (W.contents out.new) result
        (page_text (lending ledger.now on.now)) }
{
    write_loans(alloc, ledger, *on, out)?;
    write_loan_objects(alloc, ledger, out)?;
    write_away(alloc, ledger, out)
}

/// Writes the stations, the last entries, and the end of the page.
fn write_posts<W: Write>(alloc: Global, ledger: &Ledger, out: &mut W) -> Result<(), PrintFault>
    ensures { Writes (W.contents out.old) (W.contents out.new) result
        (page_text (posts ledger.now)) }
{
    write_stations(alloc, ledger, out)?;
    write_entries(alloc, ledger, out)?;
    write_text(out, PAGE_END)
}

/// Writes the head, the museum in numbers, the day, if one is given, and the seal.
fn write_numbers<W: Write>(
    rt: &(impl Threads + Sync),
    alloc: Global,
    ledger: &Ledger,
    on: &Option<Day>,
    out: &mut W,
) -> Result<(), PrintFault>
    ensures { Writes (W.contents out.old) (W.contents out.new) result
        (page_text (numbers ledger.now on.now)) }
{
    let seal = seal_row(rt, alloc, ledger)?;
    let rows = Numbers {
        ledger,
        on: *on,
        seal: seal.as_str(),
    };
    write_section(alloc, HEAD, &rows, NUMBERS_END, out)
}

/// Writes where everything is.
fn write_tree<W: Write>(alloc: Global, ledger: &Ledger, out: &mut W) -> Result<(), PrintFault>
    ensures { Writes (W.contents out.old) (W.contents out.new) result
        (page_text (tree ledger.now)) }
{
    let rows = Tree::find(alloc, ledger)?;
    write_section(alloc, TREE, &rows, TREE_END, out)
}

/// Writes the things that were never placed.
fn write_unplaced<W: Write>(alloc: Global, ledger: &Ledger, out: &mut W) -> Result<(), PrintFault>
    ensures { Writes (W.contents out.old) (W.contents out.new) result
        (page_text (unplaced ledger.now)) }
{
    let rows = Tree::find_unplaced(alloc, ledger)?;
    write_section(alloc, UNPLACED, &rows, TREE_END, out)
}

/// Writes the current and former locations of all things.
fn write_histories<W: Write>(alloc: Global, ledger: &Ledger, out: &mut W) -> Result<(), PrintFault>
    ensures { Writes (W.contents out.old) (W.contents out.new) result
        (page_text (histories ledger.now)) }
{
    write_spots(alloc, HISTORIES, ledger, HISTORIES_END, out)
}

/// Writes the loans, and marks those that are overdue on the day.
fn write_loans<W: Write>(
    alloc: Global,
    ledger: &Ledger,
    on: Option<Day>,
    out: &mut W,
) -> Result<(), PrintFault>
    ensures { Writes (W.contents out.old) (W.contents out.new) result
        (page_text (loans ledger.now on)) }
{
    let rows = Loans::find(alloc, ledger, on)?;
    write_section(alloc, LOANS, &rows, TABLE_END, out)
}

/// Writes the objects of all loans.
fn write_loan_objects<W: Write>(
    alloc: Global,
    ledger: &Ledger,
    out: &mut W,
) -> Result<(), PrintFault>
    ensures { Writes (W.contents out.old) (W.contents out.new) result
        (page_text (loan_objects ledger.now)) }
{
    write_section(alloc, LOAN_OBJECTS, &LoanObjects { ledger }, TABLE_END, out)
}

/// Writes the objects that are away from their normal locations.
fn write_away<W: Write>(alloc: Global, ledger: &Ledger, out: &mut W) -> Result<(), PrintFault>
    ensures { Writes (W.contents out.old) (W.contents out.new) result
        (page_text (away ledger.now)) }
{
    let rows = Away::find(alloc, ledger)?;
    write_section(alloc, AWAY, &rows, TABLE_END, out)
}

/// Writes the stations.
fn write_stations<W: Write>(alloc: Global, ledger: &Ledger, out: &mut W) -> Result<(), PrintFault>
    ensures { Writes (W.contents out.old) (W.contents out.new) result
        (page_text (stations ledger.now)) }
{
    write_section(alloc, STATIONS, &Stations { ledger }, TABLE_END, out)
}

/// Writes the last entries.
fn write_entries<W: Write>(alloc: Global, ledger: &Ledger, out: &mut W) -> Result<(), PrintFault>
    ensures { Writes (W.contents out.old) (W.contents out.new) result
        (page_text (entries ledger.now)) }
{
    let rows = LastEntries::find(alloc, ledger)?;
    write_section(alloc, ENTRIES, &rows, TABLE_END, out)
}
