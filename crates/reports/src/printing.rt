//! Prints a report.
ghost use Rattle.std.specs.Prelude.{map};
ghost use Rattle.posting_core.specs.Past.{as_of, upto};
ghost use Rattle.reports.specs.Forms.{Prints, rows_text};
ghost use Rattle.reports.specs.Loans.{loan_rows};
ghost use Rattle.reports.specs.Things.{content_rows};
ghost use Rattle.reports.specs.Reports.{report_text};

use crate::reports::at::At;
use crate::reports::away::Away;
use crate::reports::contents::{Contents, NoContainer};
use crate::reports::counted::Counted;
use crate::reports::dues::Dues;
use crate::reports::history::History;
use crate::reports::loan::{Loan, NoLoan};
use crate::reports::loans::Loans;
use crate::reports::long_history::LongHistory;
use crate::reports::overdue::Overdue;
use crate::reports::posted::Posted;
use crate::reports::stations::Stations;
use crate::reports::whereabouts::Whereabouts;
use crate::reports::why::print_causes;
use crate::rows::print_rows;
use crate::sections::agreed_terms;
use crate::{Form, PrintFault, Question, names_of};
use codes_core::{LoanCode, ThingCode};
use posting_core::{Ledger, past};
use std::alloc::Global;
use std::io::Write;
use std::thread::Threads;

/// Prints the answer to a question about the record in this ledger. `threads` runs the workers that
/// check a count list.
///
/// Fails with `NoMemory`, after whole lines of the report, or with `WriteFailed`, after a prefix of
/// it. It takes memory for one row at a time, a number for each thing, loan or row of a count list
/// that the report lists, and for a table the width of each column. A long history also takes a
/// number for each container above a location, and a second ledger.
pub fn print<T: Threads + Sync, W: Write>(
    threads: &T,
    alloc: Global,
    ledger: &Ledger,
    question: &Question,
    form: Form,
    out: &mut W,
) -> Result<(), PrintFault>
    ensures { Prints (W.contents out.old) (W.contents out.new) result
        (report_text form ledger.now question.now) }
{
    let names = names_of(question);
    match question {
        Question::Stations => print_rows(alloc, form, names, &Stations { ledger }, out),
        Question::Where(code) => {
            print_rows(
                alloc,
                form,
                names,
                &Whereabouts {
                    ledger,
                    code: *code,
                },
                out,
            )
        }
        Question::Posted(filter) => {
            let rows = Posted::find(alloc, ledger, filter)?;
            print_rows(alloc, form, names, &rows, out)
        }
        Question::History(code) => {
            let rows = History::find(alloc, ledger, code)?;
            print_rows(alloc, form, names, &rows, out)
        }
        Question::LongHistory(code) => {
            let rows = LongHistory::find(alloc, ledger, code)?;
            print_rows(alloc, form, names, &rows, out)
        }
        Question::Overdue(day) => {
            let rows = Overdue::find(alloc, ledger, *day)?;
            print_rows(alloc, form, names, &rows, out)
        }
        Question::Away => {
            let rows = Away::find(alloc, ledger)?;
            print_rows(alloc, form, names, &rows, out)
        }
        Question::At(place) => {
            let rows = At::find(alloc, ledger, place)?;
            print_rows(alloc, form, names, &rows, out)
        }
        Question::Contents(code) => print_contents(alloc, ledger, code, form, names, out),
        Question::Count { rows, sealed } => {
            let rows = Counted::find(threads, alloc, ledger, rows.as_slice(), *sealed)?;
            print_rows(alloc, form, names, &rows, out)
        }
        Question::Loan(code) => print_loan(alloc, ledger, code, form, names, out),
        Question::Loans(filter) => {
            let rows = Loans::find(alloc, ledger, filter)?;
            print_rows(alloc, form, names, &rows, out)
        }
        Question::Dues(day) => {
            let rows = Dues::find(alloc, ledger, *day)?;
            print_rows(alloc, form, names, &rows, out)
        }
        Question::Why(filter) => print_causes(alloc, ledger, filter, form, names, out),
    }
}

/// Prints the answer from the record as it is or, with `upto`, as it was after this entry. Fails as
/// [`print`] does. For an earlier record it builds a second ledger, which takes time and memory.
pub fn print_as_of<T: Threads + Sync, W: Write>(
    threads: &T,
    alloc: Global,
    ledger: &Ledger,
    upto: Option<u64>,
    question: &Question,
    form: Form,
    out: &mut W,
) -> Result<(), PrintFault>
    ensures { Prints (W.contents out.old) (W.contents out.new) result
        (report_text form (as_of upto ledger.now) question.now) }
{
    match upto {
        None => print(threads, alloc, ledger, question, form, out),
        Some(entry) => print_past(threads, alloc, ledger, entry, question, form, out),
    }
}

/// Prints the answer to the question from the record as it was after this entry.
fn print_past<T: Threads + Sync, W: Write>(
    threads: &T,
    alloc: Global,
    ledger: &Ledger,
    entry: u64,
    question: &Question,
    form: Form,
    out: &mut W,
) -> Result<(), PrintFault>
    ensures { Prints (W.contents out.old) (W.contents out.new) result
        (report_text form (upto ledger.now entry) question.now) }
{
    let past = past(alloc, ledger, entry as usize)?;
    let ended = print(threads, alloc, &past, question, form, out);
    drop(past);
    ended
}

/// Prints the things in a container, or that the setup doesn't have it.
fn print_contents<W: Write>(
    alloc: Global,
    ledger: &Ledger,
    code: &ThingCode,
    form: Form,
    names: &[&str],
    out: &mut W,
) -> Result<(), PrintFault>
    ensures { Prints (W.contents out.old) (W.contents out.new) result
        (rows_text form (map (λ n. n.now) names.now) (content_rows ledger.now code.now)) }
{
    match ledger.setup().thing(code) {
        None => print_rows(alloc, form, names, &NoContainer { code: *code }, out),
        Some(container) => {
            let rows = Contents::find(alloc, ledger, container)?;
            print_rows(alloc, form, names, &rows, out)
        }
    }
}

/// Prints a loan, or that it isn't agreed.
fn print_loan<W: Write>(
    alloc: Global,
    ledger: &Ledger,
    code: &LoanCode,
    form: Form,
    names: &[&str],
    out: &mut W,
) -> Result<(), PrintFault>
    ensures { Prints (W.contents out.old) (W.contents out.new) result
        (rows_text form (map (λ n. n.now) names.now) (loan_rows ledger.now form code.now)) }
{
    match agreed_terms(ledger, code) {
        None => print_rows(alloc, form, names, &NoLoan { code: *code }, out),
        Some(terms) => print_rows(alloc, form, names, &Loan { ledger, terms }, out),
    }
}
