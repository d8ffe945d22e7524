//! Reads the head of a run: the bytes of its setup, and the empty line after it.
ghost use Rattle.std.specs.Prelude.{◌≡◌, ◌≤◌, ◌<◌, ◌+◌, ◌++◌, OnOk, IfOk, IfErr};
ghost use Rattle.hub_core.specs.Reading.{TakesLine, feed_if};
ghost use Rattle.hub_core.specs.Lines.{is_empty, without_return};
ghost use Rattle.hub_core.specs.WholeRun.{TakesHead, BeforeLines, StopsInLine};

use crate::RunFault;
use crate::line::bytes::{End, Reads, take_piece, without_return};
use std::alloc::{AllocError, Global};
use std::io::BufRead;

/// The most bytes of the setup at the head of a run.
pub const LONGEST_HEAD: usize = 8_388_608;

/// Reads the head and the empty line after it, and returns the head. Faults: ReadFailed, also if no
/// reads are left; HeadTooLong; NoMemory.
pub(crate) fn read_head<R: BufRead>(
    alloc: Global,
    input: &mut R,
    reads: &mut Reads,
) -> Result<Vec<u8>, RunFault>
    ensures head { IfOk result
        (λ head. TakesHead (R.remaining input.old) (R.remaining input.new) head.items) }
    ensures fault { IfErr result (BeforeLines (R.remaining input.old) (R.remaining input.new)) }
    ensures reads { OnOk result (reads.new.left < reads.old.left) }
{
    let mut head = Vec::new(alloc);
    let mut line = Vec::new(alloc);
    while reads.left > 0 {
        let room = LONGEST_HEAD.saturating_sub(head.len());
        let fed = next_head_line(input, reads, &mut line, room)?;
        if is_blank(line.as_slice()) {
            return Ok(head);
        }
        if line.len() + usize::from(fed) > room {
            return Err(RunFault::HeadTooLong);
        }
        add_line(&mut head, line.as_slice(), fed)?;
        if !fed {
            return Ok(head);
        }
    }
    Err(RunFault::ReadFailed)
}

/// Whether the line is empty, apart from a carriage return.
fn is_blank(line: &[u8]) -> bool
    ensures { result ≡ is_empty (without_return line.now) }
{
    without_return(line).is_empty()
}

/// Adds a line to the head, and its line feed if it has one.
fn add_line(head: &mut Vec<u8>, line: &[u8], fed: bool) -> Result<(), AllocError>
    ensures { OnOk result (head.new.items ≡ head.old.items ++ (line.now ++ feed_if fed)) }
{
    head.extend_from_slice(line)?;
    if fed {
        head.extend_from_slice(b"\n")?;
    }
    Ok(())
}

/// Reads the next line of a head that has room for this many more bytes, and returns true if a line
/// feed ended it. HeadTooLong comes as soon as the limit is passed, before the line ends.
fn next_head_line<R: BufRead>(
    input: &mut R,
    reads: &mut Reads,
    line: &mut Vec<u8>,
    room: usize,
) -> Result<bool, RunFault>
    requires { room ≤ LONGEST_HEAD }
    ensures line { IfOk result
        (λ fed. TakesLine (R.remaining input.old) (R.remaining input.new)
        (room + 2) line.new.items fed) }
    ensures fault { IfErr result
        (λ fault. StopsInLine (R.remaining input.old) (R.remaining input.new) room fault) }
    ensures reads { OnOk result (reads.new.left < reads.old.left) }
{
    line.clear();
    while reads.left > 0 {
        match take_piece(input, reads, line, room + 2)? {
            End::Feed => return Ok(true),
            End::Input => return Ok(false),
            End::Open => {}
        }
        if line.len() > room && !is_blank(line.as_slice()) {
            return Err(RunFault::HeadTooLong);
        }
    }
    Err(RunFault::ReadFailed)
}
