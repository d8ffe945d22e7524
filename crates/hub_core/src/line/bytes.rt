//! Cuts lines from the input, and keeps the bytes of a line up to a limit.
ghost use Rattle.std.specs.Prelude.{◌≡◌, ◌≢◌, ◌<◌, ◌≤◌, ◌⊎◌, ◌+◌, ◌++◌, ◌∷◌, [], List, ℕ, take};
ghost use Rattle.std.specs.Prelude.{length, IfOk, IfErr, OnOk, OnErr};
ghost use Rattle.std.specs.Io.KnownBytes.{Keeps};
ghost use Rattle.hub_core.specs.Lines.{without_return};
ghost use Rattle.hub_core.specs.Reading.{HasNoFeed, TakesPiece, TakesLine, TakesStart};

use crate::ReplayFault;
use memchr::memchr;
use std::io::{BufRead, ErrorKind, Write};

/// How many bytes of a line are kept: one more than the longest line with a carriage return at its
/// end. That is enough to see that a line is too long.
pub const MOST_KEPT: usize = 16_386;

/// Where a piece of a line ends: at the line feed, at the end of the input, or before either.
#[derive(Clone, Copy)]
pub(crate) enum End {
    Feed,
    Input,
    Open,
}

/// The number of reads that are left, and the number of bytes that the last read showed and that
/// aren't taken yet. Those bytes can be taken without waiting.
#[derive(Clone, Copy, Debug)]
pub struct Reads {
    pub left: u32,
    pub ahead: usize,
}

impl Reads {
    /// All reads are left.
    pub fn new() -> Reads
        ensures { result ≡ record { left = u32.MAX; ahead = 0 } }
    {
        Reads {
            left: u32::MAX,
            ahead: 0,
        }
    }
}

/// Reads the next line, and returns true if a line feed ended it, false if the input did. Only the
/// first MOST_KEPT of its bytes are kept. The output is flushed before each read that may wait.
/// Faults: WriteFailed; ReadFailed, also if no reads are left; NoMemory.
pub fn next_line<R: BufRead, W: Write>(
    input: &mut R,
    output: &mut W,
    reads: &mut Reads,
    line: &mut Vec<u8>,
) -> Result<bool, ReplayFault>
    ensures line { IfOk result
        (λ fed. TakesLine (R.remaining input.old)
        (R.remaining input.new) MOST_KEPT line.new.items fed) }
    ensures fault { OnErr result (TakesStart (R.remaining input.old) (R.remaining input.new)) }
    ensures output { Keeps (W.contents output.old) (W.contents output.new) }
    ensures cause { IfErr result (λ fault. fault ≢ ReplayFault.Store) }
    ensures reads { OnOk result (reads.new.left < reads.old.left) }
{
    line.clear();
    while reads.left > 0 {
        flush_before_wait(output, reads.ahead)?;
        match take_piece(input, reads, line, MOST_KEPT)? {
            End::Feed => return Ok(true),
            End::Input => return Ok(false),
            End::Open => {}
        }
    }
    Err(ReplayFault::ReadFailed)
}

/// Flushes the output. Fault: WriteFailed.
pub fn flush<W: Write>(output: &mut W) -> Result<(), ReplayFault>
    ensures kept { Keeps (W.contents output.old) (W.contents output.new) }
    ensures cause { IfErr result (λ fault. fault ≡ ReplayFault.WriteFailed) }
{
    match output.flush() {
        Ok(()) => Ok(()),
        Err(_) => Err(ReplayFault::WriteFailed),
    }
}

/// Flushes the output, unless bytes are ahead: then the next read doesn't wait.
fn flush_before_wait<W: Write>(output: &mut W, ahead: usize) -> Result<(), ReplayFault>
    ensures kept { Keeps (W.contents output.old) (W.contents output.new) }
    ensures cause { IfErr result (λ fault. fault ≡ ReplayFault.WriteFailed) }
{
    if ahead > 0 {
        return Ok(());
    }
    flush(output)
}

/// Takes what one read shows of a line, up to its line feed. Only the first `most` bytes of the
/// line are kept. An interrupted read takes nothing and isn't a fault. Faults: ReadFailed;
/// NoMemory.
pub(crate) fn take_piece<R: BufRead>(
    input: &mut R,
    reads: &mut Reads,
    line: &mut Vec<u8>,
    most: usize,
) -> Result<End, ReplayFault>
    requires { 0 < reads.old.left }
    ensures piece { IfOk result
        (λ end. TakesPiece (R.remaining input.old)
        (R.remaining input.new) most line.old.items line.new.items end) }
    ensures fault { OnErr result (Keeps (R.remaining input.old) (R.remaining input.new)) }
    ensures cause { IfErr result
        (λ fault. (fault ≡ ReplayFault.NoMemory) ⊎ (fault ≡ ReplayFault.ReadFailed)) }
    ensures reads { reads.new.left + 1 ≡ reads.old.left }
{
    reads.left -= 1;
    let shown = match input.fill_buf() {
        Ok(shown) => shown,
        Err(error) => {
            return if error.kind() == ErrorKind::Interrupted {
                Ok(End::Open)
            } else {
                Err(ReplayFault::ReadFailed)
            };
        }
    };
    let there = shown.len();
    let feed = feed_at(shown);
    keep(line, most, &shown[..feed])?;
    let mut end = End::Open;
    let mut taken = feed;
    if feed < there {
        end = End::Feed;
        taken = feed + 1;
    } else if there == 0 {
        end = End::Input;
    }
    input.consume(taken);
    reads.ahead = there - taken;
    Ok(end)
}

/// Returns the number of bytes before the first line feed, or of all bytes if there is none.
pub fn feed_at(bytes: &[u8]) -> usize
    ensures within { result ≤ length bytes.now }
    ensures before { HasNoFeed (take result bytes.now) }
    ensures feed { result < length bytes.now
        → take (result + 1) bytes.now ≡ take result bytes.now ++ 10 ∷ [] }
{
    memchr(b'\n', bytes).unwrap_or(bytes.len())
}

/// Keeps more bytes of a line, as long as there is room.
fn keep(line: &mut Vec<u8>, most: usize, piece: &[u8]) -> Result<(), ReplayFault>
    ensures kept { OnOk result
        ((bytes : List ℕ) → line.old.items ≡ take most bytes
        → line.new.items ≡ take most (bytes ++ piece.now)) }
    ensures fault { IfErr result (λ fault. fault ≡ ReplayFault.NoMemory) }
{
    let room = most.saturating_sub(line.len());
    let count = piece.len().min(room);
    let Ok(()) = line.extend_from_slice(&piece[..count]) else {
        return Err(ReplayFault::NoMemory);
    };
    Ok(())
}

/// Returns the line without the carriage return at its end, if it has one. Only one is dropped.
pub fn without_return(line: &[u8]) -> &[u8]
    ensures { result.now ≡ without_return line.now }
{
    line.strip_suffix(b"\r").unwrap_or(line)
}
