//! Writes lines as stations send them.
ghost use Rattle.std.specs.Prelude.{◌≡◌, ◌∷◌, [], IfOk, IsTrue, Ok, string_bytes};
ghost use Rattle.json.specs.Token.{Token};
ghost use Rattle.nest_core.specs.StationName.{is_station_name};
ghost use Rattle.register_store.specs.Kinds.{of_bytes};
ghost use Rattle.register_store.specs.MessageText.{body_of};
ghost use Rattle.register_store.specs.MessageTokens.{Appends};
ghost use Rattle.register_store.specs.SentLines.{head_tokens, line_tokens, sent_line, ReadsAs};

use crate::write_message;
use codes_core::NoMemory;
use json::Writer;
use posting_core::Message;
use std::alloc::Global;

/// The bytes that are reserved for a line. All but the longest fit.
const ROOM: usize = 192;

/// Returns the line that a station sends for message `n`, without a line feed. Reading the line
/// returns the station, the number and the message. The station's name must be a valid one, as
/// every name in a setup is. Fails with `NoMemory`.
pub fn sent_line(
    alloc: Global,
    station: &str,
    n: u64,
    message: &Message,
) -> Result<String, NoMemory>
    requires { IsTrue (is_station_name station.now) }
    ensures text { IfOk result
        (λ line. string_bytes line ≡ sent_line station.now n message.now) }
    ensures reads_back { IfOk result
        (λ line. ReadsAs station.now n message.now (string_bytes line)) }
{
    let mut out = Writer::new(Vec::with_capacity(alloc, ROOM)?);
    write_line(alloc, &mut out, station, n, message)?;
    Ok(String::from_utf8(out.into_inner()).unwrap())
}

/// Writes the tokens of the line. Fails with `NoMemory`.
fn write_line(
    alloc: Global,
    out: &mut Writer,
    station: &str,
    n: u64,
    message: &Message,
) -> Result<(), NoMemory>
    ensures tokens { Appends result out.old out.new (line_tokens station.now n message.now) }
    ensures reads_back { IfOk result (λ _. of_bytes (body_of message.now) ≡ Ok message.now) }
{
    write_head(out, station, n)?;
    write_message(alloc, out, message)?;
    write_end(out)?;
    Ok(())
}

/// Writes the tokens before the message. Fails with `NoMemory`.
fn write_head(out: &mut Writer, station: &str, n: u64) -> Result<(), NoMemory>
    ensures { Appends result out.old out.new (head_tokens station.now n) }
{
    out.begin_object()?;
    out.key("station")?;
    out.string(station)?;
    out.key("n")?;
    out.u64(n)?;
    Ok(out.key("message")?)
}

/// Writes the token behind the message. Fails with `NoMemory`.
fn write_end(out: &mut Writer) -> Result<(), NoMemory>
    ensures { Appends result out.old out.new (Token.end_object ∷ []) }
{
    Ok(out.end_object()?)
}
