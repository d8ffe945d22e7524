//! Passes a JSON line of another station on to the hub.
ghost use Rattle.std.specs.Prelude.{◌≡◌, ◌<◌, ◌++◌, Ok, false, length, IfSome, OnOk};
ghost use Rattle.hub_core.specs.LineText.{fault_text, request_reply, sent_by};
ghost use Rattle.hub_core.specs.Replies.{bad_line};
ghost use Rattle.hub_core.specs.Requests.{line_in};
ghost use Rattle.desk_core.specs.Answers.{own_line_words, passed_answer};
ghost use Rattle.desk_core.specs.Sent.{is_own, passed};
ghost use Rattle.desk_core.specs.Sessions.{Takes};

use crate::Bench;
use crate::texts::{add, line_end};
use codes_core::NoMemory;
use hub_core::{Hub, HubFault, Line, REPLY_ROOM, add_bad, answer_request, read_line};
use nest_core::StationNo;
use register_store::{ReadFault, Register};
use std::alloc::Global;

/// Passes the line with this number on, and appends the reply. A line of the desk's own station
/// isn't passed on.
pub(crate) fn pass_on<S: Register>(
    alloc: Global,
    bench: &Bench<'_>,
    number: u64,
    line: &[u8],
    hub: &mut Hub<S>,
    text: &mut Vec<u8>,
) -> Result<(), HubFault>
    requires up { hub.old.down ≡ false }
    ensures { Takes S.holding hub.old hub.new
        (λ O A. text.new.items ≡ text.old.items
        ++ passed_answer hub.old.book.museum hub.old.book.depth O A bench.now.station
        bench.now.has_bell number (line_in hub.old.book.museum line.now))
        (λ O A. passed bench.now.station (line_in hub.old.book.museum line.now)) result }
{
    match read_line(alloc, hub.ledger().setup(), line) {
        Ok(line) => pass_request(alloc, bench, number, line, hub, text),
        Err(ReadFault::NoMemory) => Err(HubFault::NoMemory),
        Err(fault) => {
            add_fault(alloc, number, fault, text)?;
            Ok(())
        }
    }
}

/// Passes the request of a line on, unless its station is the desk's own.
fn pass_request<S: Register>(
    alloc: Global,
    bench: &Bench<'_>,
    number: u64,
    line: Line,
    hub: &mut Hub<S>,
    text: &mut Vec<u8>,
) -> Result<(), HubFault>
    requires up { hub.old.down ≡ false }
    requires known { IfSome line.station (λ s. s < length hub.old.book.museum.stations) }
    ensures { Takes S.holding hub.old hub.new
        (λ O A. text.new.items ≡ text.old.items
        ++ passed_answer hub.old.book.museum hub.old.book.depth O A bench.now.station
        bench.now.has_bell number (Ok line))
        (λ O A. passed bench.now.station (Ok line)) result }
{
    if is_own(bench.station, line.station) {
        add_own_line(bench.has_bell, text)?;
        return Ok(());
    }
    answer_other(alloc, number, line, hub, text)
}

fn is_own(own: StationNo, station: Option<StationNo>) -> bool
    ensures { result ≡ is_own own station }
{
    match station {
        Some(station) => station == own,
        None => false,
    }
}

/// Appends the answer to a line of the desk's own station.
fn add_own_line(has_bell: bool, text: &mut Vec<u8>) -> Result<(), NoMemory>
    ensures { OnOk result (text.new.items ≡ text.old.items ++ own_line_words has_bell) }
{
    add(
        text,
        &[
            "lines of this station are typed here, not passed on: not sent",
            line_end(has_bell),
        ],
    )
}

/// Has the hub act on the request, and appends the reply.
fn answer_other<S: Register>(
    alloc: Global,
    number: u64,
    line: Line,
    hub: &mut Hub<S>,
    text: &mut Vec<u8>,
) -> Result<(), HubFault>
    requires up { hub.old.down ≡ false }
    requires known { IfSome line.station (λ s. s < length hub.old.book.museum.stations) }
    ensures { Takes S.holding hub.old hub.new
        (λ O A. text.new.items ≡ text.old.items ++ request_reply hub.old.book.museum
        hub.old.book.depth O A number line.station line.request)
        (λ O A. sent_by line.station line.request) result }
{
    let mut reply = String::with_capacity(alloc, REPLY_ROOM)?;
    answer_request(alloc, number, line, hub, &mut reply)?;
    text.extend_from_slice(reply.as_bytes())?;
    Ok(())
}

/// Appends the reply to a faulty line.
fn add_fault(
    alloc: Global,
    number: u64,
    fault: ReadFault,
    text: &mut Vec<u8>,
) -> Result<(), NoMemory>
    ensures { OnOk result
        (text.new.items ≡ text.old.items ++ bad_line number (fault_text fault)) }
{
    let mut reply = String::new(alloc);
    add_bad(&mut reply, number, fault)?;
    text.extend_from_slice(reply.as_bytes())?;
    Ok(())
}
