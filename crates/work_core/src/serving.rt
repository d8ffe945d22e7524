//! Serves all stations at once, and prints the log.
ghost use Rattle.std.specs.Prelude.{◌≡◌, ◌<◌, false, length, reverse, vec_len, All, OnOk, OnErr};
ghost use Rattle.std.specs.List.{flat_map};
ghost use Rattle.std.specs.Io.KnownBytes.{Appends};
ghost use Rattle.serve_core.specs.Logs.{AreOfStations, IsPlacedReply};
ghost use Rattle.serve_core.specs.Sending.{IsOneOf};
ghost use Rattle.serve_core.specs.Wording.{logged_text};
ghost use Rattle.work_core.specs.Stops.{StopsServing};
ghost use Rattle.work_core.specs.Works.{HasServed};

use crate::WorkFault;
use crate::notes::add_held;
use hub_core::Hub;
use nest_core::Setup;
use posting_core::Ledger;
use register_store::{Register, StoreFault};
use serve_core::{LogLine, ServeFailed, ServeFault, Served, TextFeed, add_logged, serve};
use std::alloc::Global;
use std::io::Write;
use std::sync::Wait;
use std::thread::Threads;

/// The longest line of a log, an answer with twelve containers, has fewer bytes.
const LINE_ROOM: usize = 256;

/// Serves the feeds with the hub, and prints the log. After a fault it prints the log up to the
/// fault. Messages that are still held at the end are added to the notes. Returns the hub's
/// register, and the fault if there is one. The room for a line is made before the first message is
/// taken, so that printing needs no memory and every posted entry is printed.
pub(crate) fn served<T: Threads + Wait + Copy + Send + 'static, S: Register, W: Write>(
    threads: &T,
    alloc: Global,
    hub: Hub<S>,
    feeds: Vec<TextFeed>,
    output: &mut W,
    notes: &mut String,
) -> (S, Result<(), WorkFault>)
    requires feeds { vec_len feeds ≡ length hub.book.museum.stations }
    requires up { hub.down ≡ false }
    ensures served { OnOk result.1 (HasServed S.holding hub result.0 feeds.items
        (W.contents output.old) (W.contents output.new)) }
    ensures stops { OnErr result.1 (StopsServing S.holding hub result.0 feeds.items) }
{
    let Ok(mut text) = String::with_capacity(alloc, LINE_ROOM) else {
        return (hub.close(), Err(WorkFault::NoMemory));
    };
    serve_and_print(threads, alloc, hub, feeds, &mut text, output, notes)
}

/// The same, with the text for the lines of the log.
fn serve_and_print<T: Threads + Wait + Copy + Send + 'static, S: Register, W: Write>(
    threads: &T,
    alloc: Global,
    hub: Hub<S>,
    feeds: Vec<TextFeed>,
    text: &mut String,
    output: &mut W,
    notes: &mut String,
) -> (S, Result<(), WorkFault>)
    requires feeds { vec_len feeds ≡ length hub.book.museum.stations }
    requires up { hub.down ≡ false }
    ensures served { OnOk result.1 (HasServed S.holding hub result.0 feeds.items
        (W.contents output.old) (W.contents output.new)) }
    ensures stops { OnErr result.1 (StopsServing S.holding hub result.0 feeds.items) }
{
    match serve(threads, alloc, hub, feeds) {
        Ok(Served { hub, log }) => {
            let ended = print_log(text, &hub, log.lines(), output, notes);
            (hub.close(), ended)
        }
        Err(ServeFailed { fault, hub, log }) => {
            let _ = write_log(text, hub.ledger(), log.lines(), output);
            let fault = serve_fault(alloc, hub.ledger().setup(), fault);
            (hub.close(), Err(fault))
        }
    }
}

/// Writes the log, and adds the notes on the messages that are still held.
fn print_log<S: Register, W: Write>(
    text: &mut String,
    hub: &Hub<S>,
    lines: &[LogLine],
    output: &mut W,
    notes: &mut String,
) -> Result<(), WorkFault>
    requires stations { AreOfStations (length hub.now.book.museum.stations) lines.now }
    requires placed { All (λ l. IsPlacedReply hub.now.book.museum l.reply) lines.now }
    ensures { OnOk result (Appends (W.contents output.old) (W.contents output.new)
        (flat_map (logged_text hub.now.book.museum (reverse hub.now.book.posted)) lines.now)) }
{
    write_log(text, hub.ledger(), lines, output)?;
    add_held(notes, hub)?;
    Ok(())
}

/// Writes the reply to each line of the log, in its order, as a replay prints it. A faulty line is
/// written as `STATION line K bad FAULT`. The ledger is the one after the log. The text is used for
/// each line in turn.
fn write_log<W: Write>(
    text: &mut String,
    ledger: &Ledger,
    lines: &[LogLine],
    output: &mut W,
) -> Result<(), WorkFault>
    requires stations { AreOfStations (length ledger.now.museum.stations) lines.now }
    requires placed { All (λ l. IsPlacedReply ledger.now.museum l.reply) lines.now }
    ensures { OnOk result (Appends (W.contents output.old) (W.contents output.new)
        (flat_map (logged_text ledger.now.museum (reverse ledger.now.posted)) lines.now)) }
{
    for line in lines {
        write_logged(text, ledger, line, output)?;
    }
    Ok(())
}

/// Writes the reply to a line of the log.
fn write_logged<W: Write>(
    text: &mut String,
    ledger: &Ledger,
    line: &LogLine,
    output: &mut W,
) -> Result<(), WorkFault>
    requires station { line.now.station < length ledger.now.museum.stations }
    requires placed { IsPlacedReply ledger.now.museum line.now.reply }
    ensures { OnOk result (Appends (W.contents output.old) (W.contents output.new)
        (logged_text ledger.now.museum (reverse ledger.now.posted) line.now)) }
{
    text.clear();
    add_logged(text, ledger, line)?;
    match output.write_all(text.as_bytes()) {
        Ok(()) => Ok(()),
        Err(_) => Err(WorkFault::WriteFailed),
    }
}

/// The fault of the work for a fault of serving.
fn serve_fault(alloc: Global, setup: &Setup, fault: ServeFault) -> WorkFault
    requires { IsOneOf (length setup.now.stations) fault }
{
    match fault {
        ServeFault::NoMemory => WorkFault::NoMemory,
        ServeFault::Store => WorkFault::Store(StoreFault::Store),
        ServeFault::Unfinished(station) => unfinished(alloc, setup.station_name(station)),
    }
}

fn unfinished(alloc: Global, station: &str) -> WorkFault {
    match String::from_str(alloc, station) {
        Ok(station) => WorkFault::Unfinished(station),
        Err(_) => WorkFault::NoMemory,
    }
}
