//! Acts on a line, and makes the reply.
ghost use Rattle.std.specs.Prelude.{◌≡◌, ◌≤◌, ◌<◌, ◌||◌, ◌∷◌, ◌++◌, [], false, true, length};
ghost use Rattle.std.specs.Prelude.{string_bytes, string_capacity, IsOk, IfErr, IfOk, IfSome, OnOk};
ghost use Rattle.hub_core.specs.Points.{reply, whereabouts};
ghost use Rattle.hub_core.specs.Requests.{line_in};
ghost use Rattle.hub_core.specs.Replies.{asked_line};
ghost use Rattle.hub_core.specs.Serving.{Serves};
ghost use Rattle.hub_core.specs.Memory.{HasRoom, is_posted, can_fail, line_can_fail};
ghost use Rattle.hub_core.specs.Memory.{FailsOnlyWhere};
ghost use Rattle.hub_core.specs.Lines.{is_empty};
ghost use Rattle.hub_core.specs.Outcomes.{HasOutcomes, arrival_outcomes, station_outcomes};
ghost use Rattle.hub_core.specs.Outcomes.{request_outcomes, read_outcomes, line_outcomes};
ghost use Rattle.hub_core.specs.LineText.{place_text, arrival_reply, station_text, station_reply};
ghost use Rattle.hub_core.specs.LineText.{sent_from, request_reply, sent_by, read_reply, sent};
ghost use Rattle.hub_core.specs.LineText.{is_too_long, line_reply, line_arrivals};

use crate::line::request::{Line, Request, read_line_with};
use crate::line::wording;
use crate::line::wording::REPLY_ROOM;
use crate::{Answer, Arrival, Hub, HubFault};
use borrowed_json::Scratch;
use codes_core::ThingCode;
use nest_core::StationNo;
use register_store::{ReadFault, Register};
use std::alloc::Global;

/// The most bytes of a line, not counting its line feed and a carriage return before it.
pub const LONGEST_LINE: usize = 16_384;

/// The reply to a line, as a value.
#[derive(Clone, Copy)]
pub(crate) enum Reply {
    /// No reply: the line is empty.
    Empty,
    /// The line is faulty or too long.
    Bad,
    /// The setup doesn't have the line's station.
    UnknownStation,
    /// The hub's answer to a message.
    Answered(Answer),
    /// Where a thing is.
    Asked,
}

/// Acts on line `number`, counted from 1, and sets the text to the reply. An empty line has none.
/// After a fault the hub has taken the line's arrival or not, or it is down and was stopped at it.
#[inline(always)]
pub(crate) fn reply_to<S: Register>(
    alloc: Global,
    scratch: &mut Scratch,
    number: u64,
    line: &[u8],
    hub: &mut Hub<S>,
    text: &mut String,
) -> Result<Reply, HubFault>
    requires up { hub.old.down ≡ false }
    requires room { REPLY_ROOM ≤ string_capacity text.old }
    ensures served { Serves S.holding S.refusals hub.old hub.new [] (string_bytes text.new)
        (λ O A. line_reply hub.old.book.museum hub.old.book.depth O A number line.now)
        (line_arrivals hub.old.book.museum line.now) result }
    ensures outcomes { HasOutcomes S.holding hub.old hub.new.book.posted
        (λ O A. line_outcomes hub.old.book.museum hub.old.book.depth O A line.now) result }
    // An empty line, or one that is too long, meets no fault.
    ensures unread { (is_empty line.now || is_too_long line.now) ≡ true → IsOk result }
    ensures capacity { string_capacity text.old ≤ string_capacity text.new }
{
    text.clear();
    if line.is_empty() {
        return Ok(Reply::Empty);
    }
    if line.len() > LONGEST_LINE {
        wording::add_too_long(text, number)?;
        return Ok(Reply::Bad);
    }
    read_reply(alloc, scratch, number, line, hub, text)
}

/// The same for a line that is neither empty nor too long. The reply is appended to the text.
#[inline(always)]
fn read_reply<S: Register>(
    alloc: Global,
    scratch: &mut Scratch,
    number: u64,
    line: &[u8],
    hub: &mut Hub<S>,
    text: &mut String,
) -> Result<Reply, HubFault>
    requires up { hub.old.down ≡ false }
    requires room { HasRoom text.old }
    ensures served { Serves S.holding S.refusals hub.old hub.new
        (string_bytes text.old) (string_bytes text.new)
        (λ O A. read_reply hub.old.book.museum hub.old.book.depth O A number
        (line_in hub.old.book.museum line.now))
        (sent (line_in hub.old.book.museum line.now)) result }
    ensures outcomes { HasOutcomes S.holding hub.old hub.new.book.posted
        (λ O A. read_outcomes hub.old.book.museum hub.old.book.depth O A
        (line_in hub.old.book.museum line.now)) result }
    ensures capacity { string_capacity text.old ≤ string_capacity text.new }
{
    match read_line_with(alloc, scratch, hub.ledger().setup(), line) {
        Ok(line) => request_reply(alloc, number, line, hub, text),
        Err(ReadFault::NoMemory) => Err(HubFault::NoMemory),
        Err(fault) => {
            wording::add_bad(text, number, fault)?;
            Ok(Reply::Bad)
        }
    }
}

/// Acts on the request of line `number`, counted from 1, and appends the reply to the text. After
/// NoMemory or Store the hub has taken the line's arrival or not, or it is down and was stopped at
/// it.
pub fn answer_request<S: Register>(
    alloc: Global,
    number: u64,
    line: Line,
    hub: &mut Hub<S>,
    text: &mut String,
) -> Result<(), HubFault>
    requires up { hub.old.down ≡ false }
    requires known { IfSome line.station (λ s. s < length hub.old.book.museum.stations) }
    requires room { HasRoom text.old }
    ensures served { Serves S.holding S.refusals hub.old hub.new
        (string_bytes text.old) (string_bytes text.new)
        (λ O A. request_reply hub.old.book.museum hub.old.book.depth O A number line.station
        line.request)
        (sent_by line.station line.request) result }
    ensures capacity { string_capacity text.old ≤ string_capacity text.new }
{
    match request_reply(alloc, number, line, hub, text) {
        Ok(_) => Ok(()),
        Err(fault) => Err(fault),
    }
}

/// Appends the reply to a line without a fault.
#[inline(always)]
fn request_reply<S: Register>(
    alloc: Global,
    number: u64,
    line: Line,
    hub: &mut Hub<S>,
    text: &mut String,
) -> Result<Reply, HubFault>
    requires up { hub.old.down ≡ false }
    requires known { IfSome line.station (λ s. s < length hub.old.book.museum.stations) }
    requires room { HasRoom text.old }
    ensures served { Serves S.holding S.refusals hub.old hub.new
        (string_bytes text.old) (string_bytes text.new)
        (λ O A. request_reply hub.old.book.museum hub.old.book.depth O A number line.station
        line.request)
        (sent_by line.station line.request) result }
    ensures outcomes { HasOutcomes S.holding hub.old hub.new.book.posted
        (λ O A. request_outcomes hub.old.book.museum hub.old.book.depth O A line.station
        line.request) result }
    ensures fails { FailsOnlyWhere S.holding hub.old
        (λ O A. line_can_fail hub.old.book.museum hub.old.book.depth O A line.station line.request)
        result }
    ensures capacity { string_capacity text.old ≤ string_capacity text.new }
{
    match line.station {
        None => {
            wording::add_unknown_station(text, number)?;
            Ok(Reply::UnknownStation)
        }
        Some(station) => station_reply(alloc, station, line.request, hub, text),
    }
}

/// Acts on a station's request, and appends the reply.
#[inline(always)]
fn station_reply<S: Register>(
    alloc: Global,
    station: StationNo,
    request: Request,
    hub: &mut Hub<S>,
    text: &mut String,
) -> Result<Reply, HubFault>
    requires up { hub.old.down ≡ false }
    requires known { station < length hub.old.book.museum.stations }
    requires room { HasRoom text.old }
    ensures served { Serves S.holding S.refusals hub.old hub.new
        (string_bytes text.old) (string_bytes text.new)
        (λ O A. station_reply hub.old.book.museum hub.old.book.depth O A station request)
        (sent_from station request) result }
    ensures outcomes { HasOutcomes S.holding hub.old hub.new.book.posted
        (λ O A. station_outcomes hub.old.book.museum hub.old.book.depth O A station request)
        result }
    ensures fails { FailsOnlyWhere S.holding hub.old
        (λ O A. can_fail hub.old.book.museum hub.old.book.depth O A station request) result }
    ensures capacity { string_capacity text.old ≤ string_capacity text.new }
{
    match request {
        Request::Scan { n, message } => {
            let arrival = Arrival {
                station,
                n,
                message,
            };
            scan_reply(alloc, arrival, hub, text)
        }
        Request::Ask { code } => question_reply(alloc, station, &code, hub, text),
    }
}

/// Passes an arrival to the hub, and appends the reply.
#[inline(always)]
fn scan_reply<S: Register>(
    alloc: Global,
    arrival: Arrival,
    hub: &mut Hub<S>,
    text: &mut String,
) -> Result<Reply, HubFault>
    requires up { hub.old.down ≡ false }
    requires known { arrival.station < length hub.old.book.museum.stations }
    requires room { HasRoom text.old }
    ensures served { Serves S.holding S.refusals hub.old hub.new
        (string_bytes text.old) (string_bytes text.new)
        (λ O A. arrival_reply hub.old.book.museum hub.old.book.depth O A arrival)
        (arrival ∷ []) result }
    ensures outcomes { HasOutcomes S.holding hub.old hub.new.book.posted
        (λ O A. arrival_outcomes hub.old.book.museum hub.old.book.depth O A arrival) result }
    // A message that is refused or held meets no fault.
    ensures fails { FailsOnlyWhere S.holding hub.old
        (λ O A. is_posted (reply hub.old.book.museum hub.old.book.depth O A arrival)) result }
    ensures capacity { string_capacity text.old ≤ string_capacity text.new }
{
    let station = arrival.station;
    let n = arrival.n;
    match hub.arrive(alloc, arrival) {
        Ok(answer) => {
            let setup = hub.ledger().setup();
            wording::add_answer(text, setup, station, n, answer, hub.posted())?;
            Ok(Reply::Answered(answer))
        }
        Err(fault) => Err(fault),
    }
}

/// Appends the answer to the question where a thing is.
fn question_reply<S: Register>(
    alloc: Global,
    station: StationNo,
    code: &ThingCode,
    hub: &Hub<S>,
    text: &mut String,
) -> Result<Reply, HubFault>
    requires up { hub.now.down ≡ false }
    requires known { station < length hub.now.book.museum.stations }
    ensures text { OnOk result (string_bytes text.new ≡ string_bytes text.old
        ++ asked_line (station_text hub.now.book.museum station) code.now
        (place_text hub.now.book.museum
        (whereabouts hub.now.book.museum hub.now.book.posted code.now))) }
    ensures reply { IfOk result (λ reply. reply ≡ Reply.Asked) }
    ensures fault { IfErr result (λ fault. fault ≡ HubFault.NoMemory) }
    ensures capacity { string_capacity text.old ≤ string_capacity text.new }
{
    let place = hub.ask(alloc, code)?;
    wording::add_asked(text, hub.ledger().setup(), station, code, &place)?;
    Ok(Reply::Asked)
}
