//! Takes a line: finds what it says, does it, and answers.
ghost use Rattle.std.specs.Prelude.{◌≡◌, ◌<◌, [], false, length, IfOk, OnOk};
ghost use Rattle.desk_core.specs.Answers.{IsAnswer, IsTold};
ghost use Rattle.desk_core.specs.Logs.{log_of};
ghost use Rattle.desk_core.specs.Sent.{heard, said_arrivals};
ghost use Rattle.desk_core.specs.Sessions.{TakesAndLogs};

use crate::asking::add_answer;
use crate::line_fault::LineFault;
use crate::passing::pass_on;
use crate::sending::send;
use crate::texts::{add, add_day, add_rejection, add_target};
use crate::{Bench, Desk, Questions, Rejection, Said, step};
use codes_core::NoMemory;
use hub_core::{Hub, LONGEST_LINE};
use nest_core::Setup;
use posting_core::Ledger;
use register_store::Register;
use std::alloc::Global;
use std::io::Write;
use std::thread::Threads;

/// Takes line `number`, counted from 1, and sets the text to the answer.
pub(crate) fn take_line<T: Threads + Sync, S: Register, Q: Questions, L: Write>(
    threads: &T,
    alloc: Global,
    questions: &Q,
    bench: &Bench<'_>,
    number: u64,
    line: &[u8],
    desk: &mut Desk,
    hub: &mut Hub<S>,
    log: &mut Option<L>,
    text: &mut Vec<u8>,
) -> Result<(), LineFault>
    requires up { hub.old.down ≡ false }
    requires known { bench.now.station < length hub.old.book.museum.stations }
    ensures taken { TakesAndLogs S.holding hub.old hub.new
        (log_of L.contents log.old) (log_of L.contents log.new) bench.now.station
        (λ O A. IsTold hub.old.book.museum hub.old.book.depth O A Q.asks bench.now number line.now
        (heard hub.old.book.museum desk.old line.now).1 text.new.items)
        (λ O A. said_arrivals hub.old.book.museum hub.old.book.depth O A bench.now.station line.now
        (heard hub.old.book.museum desk.old line.now).1) result }
    ensures desk { OnOk result (desk.new ≡ (heard hub.old.book.museum desk.old line.now).0) }
{
    text.clear();
    let said = hear(alloc, hub.ledger().setup(), desk, line)?;
    act(
        threads, alloc, questions, bench, number, line, said, hub, log, text,
    )
}

/// What the line says.
fn hear(alloc: Global, setup: &Setup, desk: &mut Desk, line: &[u8]) -> Result<Said, NoMemory>
    ensures said { IfOk result (λ said. said ≡ (heard setup.now desk.old line.now).1) }
    ensures desk { OnOk result (desk.new ≡ (heard setup.now desk.old line.now).0) }
{
    if line.len() > LONGEST_LINE {
        return Ok(Said::Rejected(Rejection::NotUnderstood));
    }
    step(alloc, setup, desk, line)
}

/// Does what the line says, and appends the answer.
fn act<T: Threads + Sync, S: Register, Q: Questions, L: Write>(
    threads: &T,
    alloc: Global,
    questions: &Q,
    bench: &Bench<'_>,
    number: u64,
    line: &[u8],
    said: Said,
    hub: &mut Hub<S>,
    log: &mut Option<L>,
    text: &mut Vec<u8>,
) -> Result<(), LineFault>
    requires up { hub.old.down ≡ false }
    requires known { bench.now.station < length hub.old.book.museum.stations }
    requires empty { text.old.items ≡ [] }
    ensures { TakesAndLogs S.holding hub.old hub.new
        (log_of L.contents log.old) (log_of L.contents log.new) bench.now.station
        (λ O A. IsTold hub.old.book.museum hub.old.book.depth O A Q.asks bench.now number line.now
        said text.new.items)
        (λ O A. said_arrivals hub.old.book.museum hub.old.book.depth O A bench.now.station line.now
        said) result }
{
    match said {
        Said::Message(message) => send(alloc, bench, message, hub, log, text),
        Said::Line => {
            pass_on(alloc, bench, number, line, hub, text)?;
            Ok(())
        }
        said => {
            tell(
                threads,
                alloc,
                questions,
                bench,
                hub.ledger(),
                line,
                &said,
                text,
            )?;
            Ok(())
        }
    }
}

/// Appends the answer to a line that sends nothing.
fn tell<T: Threads + Sync, Q: Questions>(
    threads: &T,
    alloc: Global,
    questions: &Q,
    bench: &Bench<'_>,
    ledger: &Ledger,
    line: &[u8],
    said: &Said,
    text: &mut Vec<u8>,
) -> Result<(), NoMemory>
    requires empty { text.old.items ≡ [] }
    ensures { OnOk result
        (IsAnswer Q.asks ledger.now bench.now line.now said.now text.new.items) }
{
    match said {
        Said::Help => add(text, &[bench.help]),
        Said::Target(target) => add_target(alloc, ledger, *target, text),
        Said::Day(day) => add_day(alloc, *day, text),
        Said::Report(words) => {
            add_answer(threads, alloc, questions, bench, ledger, line, words, text)
        }
        Said::Rejected(rejection) => add_rejection(bench.has_bell, *rejection, line, text),
        Said::Nothing | Said::Message(_) | Said::Line => Ok(()),
    }
}
