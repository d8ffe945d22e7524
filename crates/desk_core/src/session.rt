//! Takes the lines of an input, one after another.
ghost use Rattle.std.specs.Prelude.{◌≡◌, ◌<◌, false, length, List, OnOk, IfErr};
ghost use Rattle.posting_core.specs.declared.entry.Entry.{Entry};
ghost use Rattle.hub_core.specs.declared.hub.answer.Arrival.{Arrival};
ghost use Rattle.hub_core.specs.StandsFor.{StandsFor};
ghost use Rattle.desk_core.specs.Logs.{log_of};
ghost use Rattle.desk_core.specs.Sessions.{AfterFault, Answered};

use crate::line::take_line;
use crate::{Bench, Desk, DeskFault, Questions};
use hub_core::{Hub, Reads, flush, next_line, without_return, write_text};
use register_store::Register;
use std::alloc::Global;
use std::io::{BufRead, Write};
use std::thread::Threads;

/// Takes the lines of the input at the desk, one after another, and writes the answers to the
/// output. A line that is a label is taken as its code. An answer is flushed before each read that
/// may wait. At most 4,294,967,295 reads are made; a read is one call of `fill_buf`.
///
/// If there is a log, each message of the desk's station is appended to it as a JSON line, before
/// it is posted. JSON lines of other stations aren't logged. The log isn't flushed.
///
/// Faults, and what they leave:
/// - ReadFailed: all lines that were read to their ends are answered. The start of one more may
///   have been read, and is not taken.
/// - NoMemory: the same; or one line that was read to its end met the fault, and all lines before
///   it are answered. The hub has taken that line's arrival or not, or it is down, and its store
///   has the posted entries, or those and the next message. If the log doesn't have the whole
///   message of the line, the hub hasn't taken it.
/// - Store: one line met the fault, as for NoMemory.
/// - LogFailed: all lines before the one that met the fault are answered. The first part of that
///   line's message is in the log, and the hub hasn't taken it.
/// - WriteFailed: all lines that were read to their ends are taken, and the first part of their
///   answers is written. The start of one more may have been read.
pub fn run_desk<T: Threads + Sync, Q: Questions, S: Register, R: BufRead, W: Write, L: Write>(
    threads: &T,
    alloc: Global,
    questions: &Q,
    bench: &Bench<'_>,
    desk: Desk,
    hub: &mut Hub<S>,
    input: &mut R,
    output: &mut W,
    log: &mut Option<L>,
) -> Result<(), DeskFault>
    requires up { hub.old.down ≡ false }
    requires known { bench.now.station < length hub.old.book.museum.stations }
    // For every list of arrivals that the hub stands for: all lines are answered, and the hub then
    // stands for the list with their arrivals added.
    ensures answered { OnOk result
        ((O : List Entry) (A : List Arrival) → StandsFor S.holding hub.old O A →
        Answered hub.old.book.museum hub.old.book.depth O A Q.asks bench.now desk
        (R.remaining input.old) (R.remaining input.new)
        (W.contents output.old) (W.contents output.new)
        (log_of L.contents log.old) (log_of L.contents log.new) S.holding hub.new) }
    ensures stopped { IfErr result
        (λ fault. (O : List Entry) (A : List Arrival) → StandsFor S.holding hub.old O A →
        AfterFault hub.old.book.museum hub.old.book.depth O A Q.asks bench.now desk
        (R.remaining input.old) (R.remaining input.new)
        (W.contents output.old) (W.contents output.new)
        (log_of L.contents log.old) (log_of L.contents log.new) S.holding hub.new fault) }
    ensures up { OnOk result (hub.new.down ≡ false) }
    ensures museum { hub.new.book.museum ≡ hub.old.book.museum }
    ensures depth { hub.new.book.depth ≡ hub.old.book.depth }
{
    let mut desk = desk;
    let mut reads = Reads::new();
    let mut line = Vec::new(alloc);
    let mut text = Vec::new(alloc);
    for number in 1..u64::MAX {
        let fed = next_line(input, output, &mut reads, &mut line)?;
        let typed = without_return(line.as_slice());
        let taken = bench.labels.code_for(typed);
        take_line(
            threads, alloc, questions, bench, number, taken, &mut desk, hub, log, &mut text,
        )?;
        let answer = text.as_slice();
        write_text(output, answer)?;
        if !fed {
            flush(output)?;
            return Ok(());
        }
    }
    Err(DeskFault::ReadFailed)
}
