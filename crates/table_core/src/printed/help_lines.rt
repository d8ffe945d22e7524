//! The `help:` lines about the cells of a table.
ghost use Rattle.std.specs.Prelude.{◌≡◌, ◌<◌, IfSome, length};
ghost use Rattle.std.specs.List.{position};
ghost use Rattle.table_core.specs.HelpLines.{code_help, empty_help, first_help, has_help, help_on};
ghost use Rattle.table_core.specs.HelpLines.{help_text};

use crate::{CellFault, Column, FaultyCell, LinesFault};

/// Returns a `help:` line with its line feed: how to mend the first faulty cell for which there is
/// help. Empty if there is none.
pub fn help_text(fault: &LinesFault) -> &'static str
    ensures { result.now ≡ help_text fault.now }
{
    match fault {
        LinesFault::Rows(cells) => first_help(cells.as_slice()),
        LinesFault::Sheet(_) | LinesFault::Heading(_) | LinesFault::NoMemory => "",
    }
}

fn first_help(cells: &[FaultyCell]) -> &'static str
    ensures { result.now ≡ first_help cells.now }
{
    match helped_at(cells) {
        Some(i) => help_on(&cells[i]),
        None => "",
    }
}

/// The index of the first cell for which there is help.
fn helped_at(cells: &[FaultyCell]) -> Option<usize>
    ensures place { result ≡ position has_help cells.now }
    ensures within { IfSome result (λ i. i < length cells.now) }
{
    cells.iter().position(|cell| has_help(cell))
}

fn has_help(cell: &FaultyCell) -> bool
    ensures { result ≡ has_help cell.now }
{
    !help_on(cell).is_empty()
}

/// The help on a faulty cell. Empty if there is none.
#[tactic(auto, unfolding(crate::specs::HelpLines::help_by))]
fn help_on(cell: &FaultyCell) -> &'static str
    ensures { result.now ≡ help_on cell.now }
{
    match cell.fault {
        CellFault::NotADay => {
            "help: --dates dmy also reads 31/12/2024, and --dates mdy 12/31/2024\n"
        }
        CellFault::NotAKind => {
            "help: the kinds are move, pack, agree, authorise, exit, return, receive, signoff and \
             extend, in small letters\n"
        }
        CellFault::Empty => empty_help(cell.column),
        CellFault::BadCode(_) | CellFault::BadObject(_) => code_help(cell.column),
        CellFault::SpaceBefore
        | CellFault::NoBreakSpaceBefore
        | CellFault::SpaceBehind
        | CellFault::NoBreakSpaceBehind
        | CellFault::NoSuchDay
        | CellFault::NotAName
        | CellFault::TooManyObjects
        | CellFault::NotANumber
        | CellFault::NumberOutside => "",
    }
}

/// The help on an empty cell: the option that fills it, if there is one.
fn empty_help(column: Column) -> &'static str
    ensures { result.now ≡ empty_help column }
{
    match column {
        Column::Kind => "help: --kind fills the empty cells of kind, as in --kind move\n",
        Column::Day => "help: --day fills the empty cells of day, as in --day 2024-05-01\n",
        Column::Place => "help: --place fills the empty cells of place, as in --place A-1\n",
        Column::Loan => "help: --loan fills the empty cells of loan, as in --loan LO2024.1\n",
        Column::By => "help: --by fills the empty cells of by, as in --by 'A. Reader'\n",
        Column::Thing
        | Column::Container
        | Column::Partner
        | Column::Objects
        | Column::First
        | Column::Last
        | Column::N => "",
    }
}

/// The help on a code of a wrong form.
fn code_help(column: Column) -> &'static str
    ensures { result.now ≡ code_help column }
{
    match column {
        Column::Thing | Column::Container | Column::Objects => {
            "help: codes of things are like 1987.12.1, L2024.7 (borrowed) and C1 (a container): \
             --labels reads your own numbers instead\n"
        }
        Column::Place | Column::Partner => {
            "help: codes of places are like S1-A-3, in capital letters and digits: --labels reads \
             your own names instead\n"
        }
        Column::Loan => "help: codes of loans are like LO2024.1 (out) and LI2024.1 (in)\n",
        Column::Kind | Column::Day | Column::By | Column::First | Column::Last | Column::N => "",
    }
}
