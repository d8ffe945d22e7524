//! The words of all replies. Each is a line with its line feed, appended to a text. If memory runs
//! out, the text may end with a part of the line.
ghost use Rattle.std.specs.Prelude.{◌≡◌, ◌<◌, ◌++◌, true, All, OnErr, codes, flat_map, length};
ghost use Rattle.std.specs.Prelude.{reverse};
ghost use Rattle.hub_core.specs.Adds.{Adds};
ghost use Rattle.hub_core.specs.Points.{IsPlaced};
ghost use Rattle.hub_core.specs.Memory.{HasRoom, is_posted};
ghost use Rattle.hub_core.specs.LineText.{answer_text, chain_text, fault_text, place_text};
ghost use Rattle.hub_core.specs.LineText.{posted_lines, station_text};
ghost use Rattle.hub_core.specs.Replies.{asked_line, refused_line, unknown_station_line, held_line};
ghost use Rattle.hub_core.specs.Replies.{posted_line, bad_line};

use crate::{Answer, Where};
use codes_core::ThingCode;
use itoa::Buffer;
use nest_core::{Setup, StationNo};
use posting_core::PostedEntry;
use register_store::ReadFault;
use std::alloc::AllocError;

/// The room, in bytes, that a replay's text has for replies from the start. Only the answer to a
/// question, and the reply with several entries, can be longer.
pub const REPLY_ROOM: usize = 128;

/// The reply to a message that isn't taken: `STATION n refused NAME`.
pub(crate) fn add_refused(
    text: &mut String,
    station: &str,
    n: u64,
    refusal: &str,
) -> Result<(), AllocError>
    ensures { Adds text.old text.new (refused_line station.now n refusal.now) result }
{
    let mut digits = Buffer::new();
    add(
        text,
        &[station, " ", digits.format(n), " refused ", refusal, "\n"],
    )
}

/// The reply to a line of a station that the setup doesn't have: `line K refused UnknownStation`.
pub(crate) fn add_unknown_station(text: &mut String, number: u64) -> Result<(), AllocError>
    ensures { Adds text.old text.new (unknown_station_line number) result }
{
    let mut digits = Buffer::new();
    add(
        text,
        &["line ", digits.format(number), " refused UnknownStation\n"],
    )
}

/// The reply to a message that waits: `STATION n held`.
pub(crate) fn add_held(text: &mut String, station: &str, n: u64) -> Result<(), AllocError>
    ensures { Adds text.old text.new (held_line station.now n) result }
{
    let mut digits = Buffer::new();
    add(text, &[station, " ", digits.format(n), " held\n"])
}

/// The reply for a posted entry: `STATION n posted ENTRY VERDICT`.
pub(crate) fn add_posted(
    text: &mut String,
    station: &str,
    n: u32,
    entry: u64,
    verdict: &str,
) -> Result<(), AllocError>
    ensures { Adds text.old text.new (posted_line station.now n entry verdict.now) result }
{
    let mut digits = Buffer::new();
    let mut entry_digits = Buffer::new();
    add(
        text,
        &[
            station,
            " ",
            digits.format(n),
            " posted ",
            entry_digits.format(entry),
            " ",
            verdict,
            "\n",
        ],
    )
}

/// Appends the reply to line `number`, which has too many bytes: `line K bad TooLong`. After
/// NoMemory the text may end with a part of it.
pub fn add_too_long(text: &mut String, number: u64) -> Result<(), AllocError>
    ensures { Adds text.old text.new (bad_line number (codes "TooLong")) result }
{
    let mut digits = Buffer::new();
    add(
        text,
        &["line ", digits.format(number), " bad ", "TooLong", "\n"],
    )
}

/// Appends the reply to line `number`, which is faulty: `line K bad FAULT`, with the fault's key if
/// it has one. After NoMemory the text may end with a part of it.
pub fn add_bad(text: &mut String, number: u64, fault: ReadFault) -> Result<(), AllocError>
    ensures { Adds text.old text.new (bad_line number (fault_text fault)) result }
{
    let mut digits = Buffer::new();
    let (name, key) = fault_words(fault);
    add(
        text,
        &["line ", digits.format(number), " bad ", name, key, "\n"],
    )
}

/// The name of a line's fault, and its key if it has one.
fn fault_words(fault: ReadFault) -> (&'static str, &'static str)
    ensures { result.0.now ++ result.1.now ≡ fault_text fault }
{
    match fault {
        ReadFault::NotJson => ("NotJson", ""),
        ReadFault::Missing(key) => ("Missing ", key.name()),
        ReadFault::BadKind => ("BadKind", ""),
        ReadFault::BadField(key) => ("BadField ", key.name()),
        ReadFault::NoMemory => ("NoMemory", ""),
    }
}

/// Appends the reply to number `n` of a station. `posted` has the posted entries, oldest first. An
/// answer with posted entries is one line for each entry from its first on, up to the end of
/// `posted`. After NoMemory the text may end with a part of the reply.
#[inline(always)]
pub fn add_answer(
    text: &mut String,
    setup: &Setup,
    station: StationNo,
    n: u64,
    answer: Answer,
    posted: &[PostedEntry],
) -> Result<(), AllocError>
    requires { station < length setup.now.stations }
    ensures added { Adds text.old text.new
        (answer_text (station_text setup.now station) n (reverse posted.now) answer) result }
    // If the text has room for a reply, a message that is refused or held meets no fault.
    ensures fails { HasRoom text.old → OnErr result (is_posted answer ≡ true) }
{
    setup.is_museum();
    let name = setup.station_name(station);
    match answer {
        Answer::Refused(refusal) => add_refused(text, name, n, refusal.name()),
        Answer::Held => add_held(text, name, n),
        Answer::Posted { first, .. } => add_posted_lines(text, name, first, posted),
    }
}

/// Appends a line for each entry from number `first` on. The entries are listed oldest first.
fn add_posted_lines(
    text: &mut String,
    station: &str,
    first: u64,
    entries: &[PostedEntry],
) -> Result<(), AllocError>
    ensures { Adds text.old text.new (posted_lines station.now first (reverse entries.now)) result }
{
    let start = first.saturating_sub(1) as usize;
    for i in start..entries.len() {
        let entry = &entries[i];
        let verdict = entry.verdict();
        add_posted(text, station, entry.n(), i as u64 + 1, verdict.name())?;
    }
    Ok(())
}

/// Appends the answer to a station's question where a thing is: `STATION ask CODE` and the place.
/// After NoMemory the text may end with a part of it.
pub fn add_asked(
    text: &mut String,
    setup: &Setup,
    station: StationNo,
    code: &ThingCode,
    place: &Where,
) -> Result<(), AllocError>
    requires known { station < length setup.now.stations }
    requires placed { IsPlaced setup.now place.now }
    ensures added { Adds text.old text.new
        (asked_line (station_text setup.now station) code.now (place_text setup.now place.now))
        result }
{
    add(
        text,
        &[setup.station_name(station), " ask ", code.as_str(), " "],
    )?;
    add_place(text, setup, place)?;
    text.push_str("\n")
}

/// Appends where a thing is: `unknown`, `unplaced`, `at PLACE`, or `at PLACE in` and its
/// containers, innermost first.
fn add_place(text: &mut String, setup: &Setup, place: &Where) -> Result<(), AllocError>
    requires { IsPlaced setup.now place.now }
    ensures { Adds text.old text.new (place_text setup.now place.now) result }
{
    match place {
        Where::UnknownThing => text.push_str("unknown"),
        Where::Unplaced => text.push_str("unplaced"),
        Where::At { place, chain } => {
            text.push_str("at ")?;
            text.push_str(setup.place_code(*place).as_str())?;
            add_chain(text, setup, chain.as_slice())
        }
    }
}

/// Appends the containers above a thing: ` in C2 C1`. Nothing if there are none.
fn add_chain(text: &mut String, setup: &Setup, chain: &[u32]) -> Result<(), AllocError>
    requires { All (λ c. c < length setup.now.things) chain.now }
    ensures { Adds text.old text.new (chain_text setup.now chain.now) result }
{
    if chain.is_empty() {
        return Ok(());
    }
    text.push_str(" in")?;
    for container in chain {
        add(text, &[" ", setup.thing_code(*container).as_str()])?;
    }
    Ok(())
}

/// Appends the pieces, one after another.
pub(crate) fn add(text: &mut String, pieces: &[&str]) -> Result<(), AllocError>
    ensures { Adds text.old text.new (flat_map (λ piece. piece.now) pieces.now) result }
{
    for piece in pieces {
        text.push_str(piece)?;
    }
    Ok(())
}
