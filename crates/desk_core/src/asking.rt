//! Answers a line that asks for a report.
ghost use Rattle.std.specs.Prelude.{◌≡◌, [], OnOk};
ghost use Rattle.desk_core.specs.Answers.{IsReport, or_nothing};
ghost use Rattle.reports.specs.Reports.{report_text};

use crate::texts::{add, add_rejection};
use crate::{Bench, Questions, Rejection, Words};
use codes_core::NoMemory;
use posting_core::Ledger;
use reports::{Form, Question, print};
use std::alloc::Global;
use std::thread::Threads;

/// Appends the report that the words ask for. If they ask for none, the line isn't understood.
pub(crate) fn add_answer<T: Threads + Sync, Q: Questions>(
    threads: &T,
    alloc: Global,
    questions: &Q,
    bench: &Bench<'_>,
    ledger: &Ledger,
    line: &[u8],
    words: &Words,
    text: &mut Vec<u8>,
) -> Result<(), NoMemory>
    requires { text.old.items ≡ [] }
    ensures { OnOk result
        (IsReport Q.asks bench.now.has_bell ledger.now line.now words.now text.new.items) }
{
    match questions.question(alloc, words.as_slice())? {
        Some(question) => add_report(threads, alloc, ledger, &question, text),
        None => add_rejection(bench.has_bell, Rejection::NotUnderstood, line, text),
    }
}

/// Appends the plain lines of the report, or that it has none. Writing to memory can only fail if
/// memory runs out.
fn add_report<T: Threads + Sync>(
    threads: &T,
    alloc: Global,
    ledger: &Ledger,
    question: &Question,
    text: &mut Vec<u8>,
) -> Result<(), NoMemory>
    requires { text.old.items ≡ [] }
    ensures { OnOk result (text.new.items
        ≡ or_nothing (report_text Form.Plain ledger.now question.now)) }
{
    match print(threads, alloc, ledger, question, Form::Plain, text) {
        Ok(()) if text.is_empty() => add(text, &["nothing\n"]),
        Ok(()) => Ok(()),
        Err(_) => Err(NoMemory),
    }
}
