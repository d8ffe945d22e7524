//! Logs a message of the desk's own station, and posts it.
ghost use Rattle.std.specs.Prelude.{◌≡◌, ◌<◌, ◌++◌, ◌∷◌, [], ℕ, false, length, List, take};
ghost use Rattle.std.specs.Prelude.{IfErr, IfOk, OnErr, OnOk, string_bytes};
ghost use Rattle.std.specs.Io.KnownBytes.{Appends};
ghost use Rattle.posting_core.specs.declared.entry.Entry.{Entry};
ghost use Rattle.hub_core.specs.declared.hub.answer.Arrival.{Arrival};
ghost use Rattle.hub_core.specs.Points.{reply};
ghost use Rattle.hub_core.specs.StandsFor.{StandsFor};
ghost use Rattle.desk_core.specs.declared.line_fault.LineFault.TheVariants.{Log};
ghost use Rattle.desk_core.specs.Logs.{log_line, log_of, log_text};
ghost use Rattle.desk_core.specs.Sent.{own_arrival};
ghost use Rattle.desk_core.specs.Sessions.{Leaves};

use crate::line_fault::LineFault;
use codes_core::NoMemory;
use hub_core::{Answer, Arrival, Hub, write_text};
use nest_core::{Setup, StationNo};
use posting_core::Message;
use register_store::{Register, sent_line};
use std::alloc::Global;
use std::io::Write;

/// Logs the message under the station's next number, and posts it. Returns the number and the hub's
/// answer.
pub(crate) fn post<S: Register, L: Write>(
    alloc: Global,
    station: StationNo,
    message: Message,
    hub: &mut Hub<S>,
    log: &mut Option<L>,
) -> Result<(u64, Answer), LineFault>
    requires up { hub.old.down ≡ false }
    requires known { station < length hub.old.book.museum.stations }
    ensures posted { IfOk result
        (λ posted. (O : List Entry) (A : List Arrival) → StandsFor S.holding hub.old O A →
        let arrival = own_arrival hub.old.book.museum hub.old.book.depth O A station message in
        (posted.0 ≡ arrival.n)
        × (posted.1 ≡ reply hub.old.book.museum hub.old.book.depth O A arrival)
        × StandsFor S.holding hub.new O (A ++ arrival ∷ [])
        × Appends (log_of L.contents log.old) (log_of L.contents log.new)
        (log_text hub.old.book.museum station (arrival ∷ []))) }
    ensures stopped { IfErr result
        (λ fault. (O : List Entry) (A : List Arrival) → StandsFor S.holding hub.old O A →
        let sent = own_arrival hub.old.book.museum hub.old.book.depth O A station message ∷ [] in
        Leaves S.holding hub.new O A sent (log_of L.contents log.old) (log_of L.contents log.new)
        [] (log_text hub.old.book.museum station sent) fault) }
    ensures up { OnOk result (hub.new.down ≡ false) }
    ensures museum { hub.new.book.museum ≡ hub.old.book.museum }
    ensures depth { hub.new.book.depth ≡ hub.old.book.depth }
{
    let n = hub.awaited(station);
    log_message(alloc, hub.ledger().setup(), station, n, &message, log)?;
    let arrival = Arrival {
        station,
        n,
        message,
    };
    let answer = hub.arrive(alloc, arrival)?;
    Ok((n, answer))
}

/// Appends the line of message `n` of the station to the log, if there is a log. Faults: NoMemory;
/// Log, after which the first part of the line is written.
fn log_message<L: Write>(
    alloc: Global,
    setup: &Setup,
    station: StationNo,
    n: u64,
    message: &Message,
    log: &mut Option<L>,
) -> Result<(), LineFault>
    requires known { station < length setup.now.stations }
    ensures ok { OnOk result (Appends (log_of L.contents log.old) (log_of L.contents log.new)
        (log_line setup.now (record { station = station; n = n; message = message.now }))) }
    ensures fault { OnErr result ((k : ℕ)
        × Appends (log_of L.contents log.old) (log_of L.contents log.new)
        (take k (log_line setup.now
        (record { station = station; n = n; message = message.now })))) }
{
    match log {
        Some(log) => {
            let line = log_line(alloc, setup, station, n, message)?;
            write_line(line.as_bytes(), log)
        }
        None => Ok(()),
    }
}

/// The line of a message, with its line feed.
fn log_line(
    alloc: Global,
    setup: &Setup,
    station: StationNo,
    n: u64,
    message: &Message,
) -> Result<String, NoMemory>
    requires known { station < length setup.now.stations }
    ensures { IfOk result (λ line. string_bytes line
        ≡ log_line setup.now (record { station = station; n = n; message = message.now })) }
{
    setup.is_museum();
    let mut line = sent_line(alloc, setup.station_name(station), n, message)?;
    line.push_str("\n")?;
    Ok(line)
}

/// Writes the line to the log. Fault: Log.
fn write_line<L: Write>(line: &[u8], log: &mut L) -> Result<(), LineFault>
    ensures ok { OnOk result (Appends (L.contents log.old) (L.contents log.new) line.now) }
    ensures fault { OnErr result
        ((k : ℕ) × Appends (L.contents log.old) (L.contents log.new) (take k line.now)) }
    ensures cause { IfErr result (λ fault. fault ≡ Log) }
{
    match write_text(log, line) {
        Ok(()) => Ok(()),
        Err(_) => Err(LineFault::Log),
    }
}
