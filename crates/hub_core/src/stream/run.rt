//! A run: a setup and lines in, replies out.
ghost use Rattle.std.specs.Prelude.{◌≡◌, ◌≢◌, ◌≤◌, ◌<◌, ◌+◌, [], false, OnOk, IfOk, IfErr, IfSome};
ghost use Rattle.std.specs.Io.KnownBytes.{Appends, IsAtEnd};
ghost use Rattle.hub_core.specs.Lines.{head};
ghost use Rattle.hub_core.specs.WholeRun.{head_fault, run_text, AfterRun, OpensHub};
ghost use Rattle.hub_core.specs.WholeRun.{BeforeLines};

use crate::line::bytes::Reads;
use crate::outcome::Unwatched;
use crate::stream::head::read_head;
use crate::stream::lines::replay_from;
use crate::{Hub, RunFault};
use nest_core::Setup;
use register_store::NoStore;
use std::alloc::Global;
use std::io::{BufRead, Write};

/// Reads the setup, and replays the lines after it over a new hub without a store. The
/// setup is all bytes before the first empty line, or all bytes if there is none.
///
/// Faults of the head, after which nothing is written: ReadFailed; HeadTooLong, as soon as the
/// limit is passed; Setup, with its first fault. After a fault in the lines everything is as after
/// one in a replay. NoMemory can come instead of any result, and Store never comes. The reads of
/// the head and of the lines are counted together.
pub fn run<R: BufRead, W: Write>(
    alloc: Global,
    input: &mut R,
    output: &mut W,
) -> Result<(), RunFault>
    // All bytes are read, their head has no fault, and the replies to the lines are written.
    ensures bytes_to_bytes { OnOk result
        (IfSome (R.remaining input.old) (λ bytes. (head_fault (head bytes) ≡ None)
        × IsAtEnd (R.remaining input.new)
        × Appends (W.contents output.old) (W.contents output.new) (run_text bytes))) }
    ensures faults { IfErr result
        (AfterRun (R.remaining input.old) (R.remaining input.new) (W.contents output.old)
        (W.contents output.new)) }
    // There is no store.
    ensures never_store { IfErr result (λ fault. fault ≢ RunFault.Store) }
{
    run_counted(alloc, input, output, &mut Reads::new())
}

/// The same with the reads that are left; the head and the lines need at least one each.
fn run_counted<R: BufRead, W: Write>(
    alloc: Global,
    input: &mut R,
    output: &mut W,
    reads: &mut Reads,
) -> Result<(), RunFault>
    ensures bytes_to_bytes { OnOk result
        (IfSome (R.remaining input.old) (λ bytes. (head_fault (head bytes) ≡ None)
        × IsAtEnd (R.remaining input.new)
        × Appends (W.contents output.old) (W.contents output.new) (run_text bytes))) }
    ensures faults { IfErr result
        (AfterRun (R.remaining input.old) (R.remaining input.new) (W.contents output.old)
        (W.contents output.new)) }
    ensures never_store { IfErr result (λ fault. fault ≢ RunFault.Store) }
    ensures reads { OnOk result (reads.new.left + 2 ≤ reads.old.left) }
{
    let mut hub = opened(alloc, input, reads)?;
    replay_from(alloc, input, output, &mut hub, reads, &mut Unwatched)?;
    Ok(())
}

/// Reads the head, and opens a hub with its setup and nothing posted.
fn opened<R: BufRead>(
    alloc: Global,
    input: &mut R,
    reads: &mut Reads,
) -> Result<Hub<NoStore>, RunFault>
    ensures hub { IfOk result (OpensHub (R.remaining input.old) (R.remaining input.new)) }
    ensures up { IfOk result (λ hub. hub.down ≡ false) }
    ensures fault { IfErr result (BeforeLines (R.remaining input.old) (R.remaining input.new)) }
    ensures reads { OnOk result (reads.new.left < reads.old.left) }
{
    let head = read_head(alloc, input, reads)?;
    let setup = Setup::read(alloc, head.as_slice())?;
    match Hub::session(alloc, setup) {
        Ok(hub) => Ok(hub),
        Err(_) => Err(RunFault::NoMemory),
    }
}
