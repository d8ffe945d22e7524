//! Answers lines, one after another: lines in, replies out.
ghost use Rattle.std.specs.Prelude.{◌≡◌, ◌<◌, ◌≤◌, ◌++◌, false, true, List, ℕ, string_capacity};
ghost use Rattle.std.specs.Prelude.{take, OnOk, OnErr, IfErr, IfSome};
ghost use Rattle.std.specs.Io.KnownBytes.{Appends, IsAtEnd};
ghost use Rattle.posting_core.specs.declared.entry.Entry.{Entry};
ghost use Rattle.hub_core.specs.declared.hub.answer.Arrival.{Arrival};
ghost use Rattle.hub_core.specs.declared.outcome.Outcome.{Outcome};
ghost use Rattle.hub_core.specs.LineText.{text, arrivals};
ghost use Rattle.hub_core.specs.Outcomes.{outcomes, Watched};
ghost use Rattle.hub_core.specs.StandsFor.{StandsFor};
ghost use Rattle.hub_core.specs.Replayed.{Answered, EndsReplay};

use crate::line::bytes::{Reads, flush, next_line, without_return};
use crate::line::reply::reply_to;
use crate::line::wording::REPLY_ROOM;
use crate::outcome::Unwatched;
use crate::stream::report::report;
use crate::{Hub, ReplayFault, Watch};
use borrowed_json::Scratch;
use register_store::Register;
use std::alloc::Global;
use std::io::{BufRead, ErrorKind, Write};

/// Answers the lines of the input over the hub, one after another, and writes the replies to the
/// output. Lines are numbered from 1. A line of more than [`LONGEST_LINE`](crate::LONGEST_LINE)
/// bytes is `bad TooLong`. The output is flushed before each read that may wait, and at the end. At
/// most 4,294,967,295 reads are made; a read is one call of `fill_buf`.
///
/// Faults, and what they leave:
/// - ReadFailed: all lines that have ended are answered.
/// - WriteFailed: all lines that were read are taken, and the first part of their replies is
///   written.
/// - NoMemory, Store: all lines before the one that met the fault are answered. The hub has taken
///   that line's arrival or not, or it is down, and its store has the posted entries, or those and
///   the next message.
pub fn replay<R: BufRead, W: Write, S: Register>(
    alloc: Global,
    input: &mut R,
    output: &mut W,
    hub: &mut Hub<S>,
) -> Result<(), ReplayFault>
    requires { hub.old.down ≡ false }
    // For every list of arrivals that the hub stands for: all bytes are read, their replies are
    // written, and the hub then stands for the list with their arrivals added.
    ensures bytes_to_bytes { OnOk result
        ((O : List Entry) (A : List Arrival) → StandsFor S.holding hub.old O A
        → IfSome (R.remaining input.old) (λ bytes.
        IsAtEnd (R.remaining input.new)
        × Appends (W.contents output.old) (W.contents output.new)
        (text hub.old.book.museum hub.old.book.depth O A bytes)
        × StandsFor S.holding hub.new O (A ++ arrivals hub.old.book.museum bytes))) }
    // Even if the reader's bytes aren't known, those that were read are answered, and the reader is
    // at its end.
    ensures answered { OnOk result
        ((O : List Entry) (A : List Arrival) → StandsFor S.holding hub.old O A →
        Answered hub.old.book.museum hub.old.book.depth O A (R.remaining input.old)
        (R.remaining input.new) (W.contents output.old)
        (W.contents output.new) S.holding hub.new true) }
    ensures ends { EndsReplay S.holding S.refusals (R.remaining input.old) (R.remaining input.new)
        (W.contents output.old) (W.contents output.new) hub.old hub.new result }
{
    replay_watched(alloc, input, output, hub, &mut Unwatched)
}

/// Like [`replay`]. The watch sees the outcomes of each line after its reply is written.
pub fn replay_watched<R: BufRead, W: Write, S: Register, V: Watch>(
    alloc: Global,
    input: &mut R,
    output: &mut W,
    hub: &mut Hub<S>,
    watch: &mut V,
) -> Result<(), ReplayFault>
    requires { hub.old.down ≡ false }
    ensures bytes_to_bytes { OnOk result
        ((O : List Entry) (A : List Arrival) → StandsFor S.holding hub.old O A
        → IfSome (R.remaining input.old) (λ bytes.
        IsAtEnd (R.remaining input.new)
        × Appends (W.contents output.old) (W.contents output.new)
        (text hub.old.book.museum hub.old.book.depth O A bytes)
        × StandsFor S.holding hub.new O (A ++ arrivals hub.old.book.museum bytes))) }
    ensures answered { OnOk result
        ((O : List Entry) (A : List Arrival) → StandsFor S.holding hub.old O A →
        Answered hub.old.book.museum hub.old.book.depth O A (R.remaining input.old)
        (R.remaining input.new) (W.contents output.old)
        (W.contents output.new) S.holding hub.new true) }
    // The watch has seen the outcomes of all lines, after those that it had seen before.
    ensures seen { OnOk result
        ((O : List Entry) (A : List Arrival) → StandsFor S.holding hub.old O A
        → IfSome (R.remaining input.old) (λ bytes. (before : List Outcome)
        → V.has_seen watch.old before → V.has_seen watch.new
        (before ++ outcomes hub.old.book.museum hub.old.book.depth O A bytes))) }
    // The same for the bytes that were read, even if the reader's bytes aren't known.
    ensures watched { OnOk result
        ((O : List Entry) (A : List Arrival) → StandsFor S.holding hub.old O A →
        Watched hub.old.book.museum hub.old.book.depth O A (R.remaining input.old)
        (R.remaining input.new) (W.contents output.old) (W.contents output.new)
        S.holding hub.new (V.has_seen watch.old) (V.has_seen watch.new)) }
    ensures ends { EndsReplay S.holding S.refusals (R.remaining input.old) (R.remaining input.new)
        (W.contents output.old) (W.contents output.new) hub.old hub.new result }
{
    replay_from(alloc, input, output, hub, &mut Reads::new(), watch)
}

/// The same with the reads that are left; it needs at least one. All replies are made in one text,
/// which has REPLY_ROOM from the start. If that memory is refused, no line is read.
pub(crate) fn replay_from<R: BufRead, W: Write, S: Register, V: Watch>(
    alloc: Global,
    input: &mut R,
    output: &mut W,
    hub: &mut Hub<S>,
    reads: &mut Reads,
    watch: &mut V,
) -> Result<(), ReplayFault>
    requires { hub.old.down ≡ false }
    ensures answered { OnOk result
        ((O : List Entry) (A : List Arrival) → StandsFor S.holding hub.old O A →
        Answered hub.old.book.museum hub.old.book.depth O A (R.remaining input.old)
        (R.remaining input.new) (W.contents output.old)
        (W.contents output.new) S.holding hub.new true) }
    ensures watched { OnOk result
        ((O : List Entry) (A : List Arrival) → StandsFor S.holding hub.old O A →
        Watched hub.old.book.museum hub.old.book.depth O A (R.remaining input.old)
        (R.remaining input.new) (W.contents output.old) (W.contents output.new)
        S.holding hub.new (V.has_seen watch.old) (V.has_seen watch.new)) }
    ensures ends { EndsReplay S.holding S.refusals (R.remaining input.old) (R.remaining input.new)
        (W.contents output.old) (W.contents output.new) hub.old hub.new result }
    ensures reads { OnOk result (reads.new.left < reads.old.left) }
{
    let Ok(mut text) = String::with_capacity(alloc, REPLY_ROOM) else {
        return Err(ReplayFault::NoMemory);
    };
    let mut scratch = Scratch::new(alloc);
    answer_lines(
        alloc,
        input,
        output,
        hub,
        reads,
        watch,
        &mut scratch,
        &mut text,
    )
}

/// The same with a text of this room.
fn answer_lines<R: BufRead, W: Write, S: Register, V: Watch>(
    alloc: Global,
    input: &mut R,
    output: &mut W,
    hub: &mut Hub<S>,
    reads: &mut Reads,
    watch: &mut V,
    scratch: &mut Scratch,
    text: &mut String,
) -> Result<(), ReplayFault>
    requires up { hub.old.down ≡ false }
    requires room { REPLY_ROOM ≤ string_capacity text.old }
    ensures answered { OnOk result
        ((O : List Entry) (A : List Arrival) → StandsFor S.holding hub.old O A →
        Answered hub.old.book.museum hub.old.book.depth O A (R.remaining input.old)
        (R.remaining input.new) (W.contents output.old)
        (W.contents output.new) S.holding hub.new true) }
    ensures watched { OnOk result
        ((O : List Entry) (A : List Arrival) → StandsFor S.holding hub.old O A →
        Watched hub.old.book.museum hub.old.book.depth O A (R.remaining input.old)
        (R.remaining input.new) (W.contents output.old) (W.contents output.new)
        S.holding hub.new (V.has_seen watch.old) (V.has_seen watch.new)) }
    ensures ends { EndsReplay S.holding S.refusals (R.remaining input.old) (R.remaining input.new)
        (W.contents output.old) (W.contents output.new) hub.old hub.new result }
    ensures reads { OnOk result (reads.new.left < reads.old.left) }
{
    let mut line = Vec::new(alloc);
    for number in 1..u64::MAX {
        let fed = next_line(input, output, reads, &mut line)?;
        let reply = reply_to(
            alloc,
            scratch,
            number,
            without_return(line.as_slice()),
            hub,
            text,
        )?;
        write_text(output, text.as_bytes())?;
        report(watch, reply, hub.posted());
        if !fed {
            return flush(output);
        }
    }
    Err(ReplayFault::ReadFailed)
}

/// Writes these bytes, in at most 4,294,967,295 writes. A write that takes no byte has failed.
/// `Write::write_all` does the same, but its contract doesn't promise that the bytes it wrote
/// before a failure are the first ones. Fault: WriteFailed.
#[inline(always)]
pub fn write_text<W: Write>(output: &mut W, text: &[u8]) -> Result<(), ReplayFault>
    ensures ok { OnOk result (Appends (W.contents output.old) (W.contents output.new) text.now) }
    ensures fault { OnErr result
        ((k : ℕ) × Appends (W.contents output.old) (W.contents output.new) (take k text.now)) }
    ensures cause { IfErr result (λ fault. fault ≡ ReplayFault.WriteFailed) }
{
    let mut done = 0;
    for _ in 0..u32::MAX {
        if done >= text.len() {
            return Ok(());
        }
        match output.write(&text[done..]) {
            Ok(0) => return Err(ReplayFault::WriteFailed),
            Ok(count) => done += count,
            Err(error) => {
                if error.kind() != ErrorKind::Interrupted {
                    return Err(ReplayFault::WriteFailed);
                }
            }
        }
    }
    Err(ReplayFault::WriteFailed)
}
