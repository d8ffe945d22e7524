//! The words of faults.
ghost use Rattle.std.specs.Prelude.{◌≡◌};
ghost use Rattle.table_core.specs.FaultTexts.{code_words, words_before, words_of};

use crate::CellFault;
use codes_core::CodeFault;

/// The words before those of the fault: a cell of objects has the fault of one of them.
pub(crate) fn words_before(fault: CellFault) -> &'static str
    ensures { result.now ≡ words_before fault }
{
    match fault {
        CellFault::BadObject(_) => "an object: ",
        CellFault::Empty
        | CellFault::SpaceBefore
        | CellFault::NoBreakSpaceBefore
        | CellFault::SpaceBehind
        | CellFault::NoBreakSpaceBehind
        | CellFault::NotAKind
        | CellFault::BadCode(_)
        | CellFault::NotADay
        | CellFault::NoSuchDay
        | CellFault::NotAName
        | CellFault::TooManyObjects
        | CellFault::NotANumber
        | CellFault::NumberOutside => "",
    }
}

/// The words of the fault of a cell.
pub(crate) fn words_of(fault: CellFault) -> &'static str
    ensures { result.now ≡ words_of fault }
{
    match fault {
        CellFault::Empty => "empty",
        CellFault::SpaceBefore => "a space before it",
        CellFault::NoBreakSpaceBefore => "a no-break space before it",
        CellFault::SpaceBehind => "a space at its end",
        CellFault::NoBreakSpaceBehind => "a no-break space behind it",
        CellFault::NotAKind => "not a kind of message",
        CellFault::BadCode(fault) | CellFault::BadObject(fault) => code_words(fault),
        CellFault::NotADay => "not a day of a form that is read",
        CellFault::NoSuchDay => "no such day",
        CellFault::NotAName => "not a name of at most 60 bytes without control bytes",
        CellFault::TooManyObjects => "more than 256 objects",
        CellFault::NotANumber => "not a number from 1 to 999999",
        CellFault::NumberOutside => "empty, and the next number is outside 1 to 999999",
    }
}

/// The words of the fault of a code.
fn code_words(fault: CodeFault) -> &'static str
    ensures { result.now ≡ code_words fault }
{
    match fault {
        CodeFault::Empty => "empty",
        CodeFault::BadShape => "not the form of this code",
        CodeFault::BadNumber => "a number outside 1 to 999999, or one that begins with 0",
        CodeFault::NoSuchDay => "no such day",
    }
}
