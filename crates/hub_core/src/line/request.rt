//! Reads the request of a line.
ghost use Rattle.std.specs.Prelude.{◌≡◌, ◌≢◌, ◌<◌, length, true, Ok, Err, IfOk, IfErr, IfSome};
ghost use Rattle.std.specs.Prelude.{MatchResult};
ghost use Rattle.serde_json.specs.Find.{get};
ghost use Rattle.register_store.specs.Spelling.{key_name};
ghost use Rattle.hub_core.specs.Requests.{number_from, message_from, has_growing_message};
ghost use Rattle.hub_core.specs.Requests.{request_of, object_of, request_in, line_of, line_in};

use borrowed_json::{Fields, Scratch, TextFault, TokenScratch, Value};
use bumpalo::Bump;
use codes_core::ThingCode;
use nest_core::{Setup, StationNo};
use posting_core::Message;
use register_store::{Key, ReadFault, message_in, string_at, thing_at, value_at};
use std::alloc::Global;

/// The request of a line.
#[derive(Drop)]
pub enum Request {
    /// Take a message, which has this number at its station.
    Scan { n: u64, message: Message },
    /// Return where the thing with this code is.
    Ask { code: ThingCode },
}

/// A line without a fault: its station, if the setup has it, and its request.
#[derive(Drop)]
pub struct Line {
    pub station: Option<StationNo>,
    pub request: Request,
}

/// Reads a line, or returns its first fault, in this order:
/// - NotJson;
/// - Missing or BadField of the station;
/// - of a question, BadField of `ask`;
/// - of a message, Missing or BadField of `n`, then of `message`, then the message's own fault.
///
/// NoMemory can come instead of any result. The station may be any string; `Line` has None if the
/// setup doesn't have it.
pub fn read_line(alloc: Global, setup: &Setup, bytes: &[u8]) -> Result<Line, ReadFault>
    ensures exact { MatchResult result (λ line. line_in setup.now bytes.now ≡ Ok line)
        (λ fault. fault ≢ ReadFault.NoMemory → line_in setup.now bytes.now ≡ Err fault) }
    ensures within { IfOk result
        (λ line. IfSome line.station (λ s. s < length setup.now.stations)) }
{
    read_line_with(alloc, &mut Scratch::new(alloc), setup, bytes)
}

/// Like [`read_line`], with memory that is used for one line after another.
#[inline(always)]
pub fn read_line_with(
    alloc: Global,
    scratch: &mut Scratch,
    setup: &Setup,
    bytes: &[u8],
) -> Result<Line, ReadFault>
    ensures exact { MatchResult result (λ line. line_in setup.now bytes.now ≡ Ok line)
        (λ fault. fault ≢ ReadFault.NoMemory → line_in setup.now bytes.now ≡ Err fault) }
    ensures within { IfOk result
        (λ line. IfSome line.station (λ s. s < length setup.now.stations)) }
{
    match Value::from_slice(alloc, bytes, scratch) {
        Ok(value) => line_of(alloc, setup, &value),
        Err(TextFault::NotJson) => Err(ReadFault::NotJson),
        Err(TextFault::NoMemory) => Err(ReadFault::NoMemory),
    }
}

/// Reads the request of a line, whatever its station, or returns its first fault: NotJson, then the
/// request's, in the order of [`read_line`]. NoMemory can come instead of any result.
pub fn read_request(alloc: Global, bytes: &[u8]) -> Result<Request, ReadFault>
    ensures exact { MatchResult result (λ request. request_in bytes.now ≡ Ok request)
        (λ fault. fault ≢ ReadFault.NoMemory → request_in bytes.now ≡ Err fault) }
{
    read_request_with(alloc, &mut TokenScratch::new(alloc), bytes)
}

/// Like [`read_request`], with memory that is used for one line after another, and that can go to
/// another thread.
pub fn read_request_with(
    alloc: Global,
    scratch: &mut TokenScratch,
    bytes: &[u8],
) -> Result<Request, ReadFault>
    ensures exact { MatchResult result (λ request. request_in bytes.now ≡ Ok request)
        (λ fault. fault ≢ ReadFault.NoMemory → request_in bytes.now ≡ Err fault) }
{
    match Value::in_lists(bytes, scratch, &Bump::new(alloc)) {
        Ok(value) => object_of(alloc, &value),
        Err(TextFault::NotJson) => Err(ReadFault::NotJson),
        Err(TextFault::NoMemory) => Err(ReadFault::NoMemory),
    }
}

/// Reads the request of a value. NotJson if it isn't an object. NoMemory comes only for a message
/// of a kind that keeps a name or a list.
fn object_of<V: Fields>(alloc: Global, value: &V) -> Result<Request, ReadFault>
    ensures exact { MatchResult result (λ request. object_of (V.seen value.now) ≡ Ok request)
        (λ fault. fault ≢ ReadFault.NoMemory → object_of (V.seen value.now) ≡ Err fault) }
    ensures gives_up { result ≡ Err ReadFault.NoMemory
        → has_growing_message (V.seen value.now) ≡ true }
{
    if !value.has_members() {
        return Err(ReadFault::NotJson);
    }
    request_of(alloc, value)
}

/// Reads the station and the request of a value. Faults: NotJson, then the station's, then those of
/// the request. NoMemory comes only for a message of a kind that keeps a name or a list.
#[inline(always)]
fn line_of<V: Fields>(alloc: Global, setup: &Setup, value: &V) -> Result<Line, ReadFault>
    ensures exact { MatchResult result (λ line. line_of setup.now (V.seen value.now) ≡ Ok line)
        (λ fault. fault ≢ ReadFault.NoMemory → line_of setup.now (V.seen value.now) ≡ Err fault) }
    ensures gives_up { result ≡ Err ReadFault.NoMemory
        → has_growing_message (V.seen value.now) ≡ true }
    ensures within { IfOk result
        (λ line. IfSome line.station (λ s. s < length setup.now.stations)) }
{
    if !value.has_members() {
        return Err(ReadFault::NotJson);
    }
    let station = setup.station(string_at(value, Key::Station)?);
    let request = request_of(alloc, value)?;
    Ok(Line { station, request })
}

/// Reads the request of an object.
#[inline(always)]
fn request_of<V: Fields>(alloc: Global, object: &V) -> Result<Request, ReadFault>
    ensures exact { MatchResult result (λ request. request_of (V.seen object.now) ≡ Ok request)
        (λ fault. fault ≢ ReadFault.NoMemory → request_of (V.seen object.now) ≡ Err fault) }
    ensures gives_up { result ≡ Err ReadFault.NoMemory
        → has_growing_message (V.seen object.now) ≡ true }
{
    if object.at(Key::Ask.name()).is_some() {
        let code = thing_at(object, Key::Ask)?;
        return Ok(Request::Ask { code });
    }
    let n = number_of(object)?;
    let message = message_at(alloc, object)?;
    Ok(Request::Scan { n, message })
}

/// Reads a message's number. Faults: Missing, BadField.
fn number_of<V: Fields>(object: &V) -> Result<u64, ReadFault>
    ensures exact { MatchResult result
        (λ n. number_from (get (key_name Key.N) (V.seen object.now)) ≡ Ok n)
        (λ fault. number_from (get (key_name Key.N) (V.seen object.now)) ≡ Err fault) }
    ensures told { IfErr result (λ fault. fault ≢ ReadFault.NoMemory) }
{
    value_at(object, Key::N)?
        .whole_number()
        .ok_or(ReadFault::BadField(Key::N))
}

/// Reads an object's message. Faults: Missing, BadField, then the message's own.
#[inline(always)]
fn message_at<V: Fields>(alloc: Global, object: &V) -> Result<Message, ReadFault>
    ensures exact { MatchResult result
        (λ message. message_from (get (key_name Key.Message) (V.seen object.now)) ≡ Ok message)
        (λ fault. fault ≢ ReadFault.NoMemory
        → message_from (get (key_name Key.Message) (V.seen object.now)) ≡ Err fault) }
    ensures gives_up { result ≡ Err ReadFault.NoMemory
        → has_growing_message (V.seen object.now) ≡ true }
{
    let message = value_at(object, Key::Message)?;
    if !message.has_members() {
        return Err(ReadFault::BadField(Key::Message));
    }
    message_in(alloc, message)
}
