//! The moves of the things that a count found elsewhere.
ghost use Rattle.std.specs.Prelude.{◌≡◌, ◌≤◌, ◌+◌, ◌++◌, ◌∷◌, [], IfOk, IsTrue, OnOk, filter};
ghost use Rattle.std.specs.Prelude.{length, map, string_bytes};
ghost use Rattle.nest_core.specs.StationName.{is_station_name};
ghost use Rattle.register_store.specs.SentLines.{sent_line, ReadsAs};
ghost use Rattle.line_files.specs.AuditLines.{EachReads, has_numbers, is_loose, lines_from};
ghost use Rattle.line_files.specs.AuditLines.{move_of};

use crate::audits::containers::container_holding;
use crate::audits::sightings::Sighting;
use codes_core::{Day, NoMemory};
use posting_core::{LAST_NUMBER, Ledger, Message};
use register_store::sent_line;
use std::alloc::Global;

/// The sightings of things that lie in no container. Fails with `NoMemory`.
pub(crate) fn loose(
    alloc: Global,
    ledger: &Ledger,
    seen: &[Sighting],
) -> Result<Vec<Sighting>, NoMemory>
    ensures { IfOk result (λ loose. loose.items ≡ filter (is_loose ledger.now) seen.now) }
{
    let mut loose = Vec::new(alloc);
    for i in 0..seen.len() {
        if is_loose(alloc, ledger, &seen[i])? {
            loose.push(seen[i])?;
        }
    }
    Ok(loose)
}

fn is_loose(alloc: Global, ledger: &Ledger, sighting: &Sighting) -> Result<bool, NoMemory>
    ensures { IfOk result (λ loose. loose ≡ is_loose ledger.now sighting.now) }
{
    let container = container_holding(alloc, ledger, &sighting.thing)?;
    Ok(container.is_none())
}

/// The messages that move these things to where they were seen. Fails with `NoMemory`.
pub(crate) fn moves(alloc: Global, day: Day, seen: &[Sighting]) -> Result<Vec<Message>, NoMemory>
    ensures { IfOk result (λ moves. moves.items ≡ map (move_of day) seen.now) }
{
    let mut moves = Vec::new(alloc);
    for i in 0..seen.len() {
        moves.push(move_of(day, &seen[i]))?;
    }
    Ok(moves)
}

fn move_of(day: Day, sighting: &Sighting) -> Message
    ensures { result ≡ move_of day sighting.now }
{
    Message::Move {
        day,
        thing: sighting.thing,
        place: sighting.place,
    }
}

/// Whether this many lines from the first number on have numbers that messages may have.
pub(crate) fn has_numbers(first: u32, count: usize) -> bool
    ensures { result ≡ has_numbers first count }
{
    if count == 0 {
        return true;
    }
    if first == 0 || first > LAST_NUMBER {
        return false;
    }
    count <= (LAST_NUMBER - first) as usize + 1
}

/// The lines of these messages, from the first number on. Fails with `NoMemory`.
pub(crate) fn lines(
    alloc: Global,
    station: &str,
    first: u32,
    moves: &[Message],
) -> Result<String, NoMemory>
    requires station { IsTrue (is_station_name station.now) }
    requires numbers { IsTrue (has_numbers first (length moves.now)) }
    ensures text { IfOk result
        (λ text. string_bytes text ≡ lines_from station.now first moves.now) }
    ensures reads_back { OnOk result (EachReads station.now first moves.now) }
{
    let mut text = String::new(alloc);
    for i in 0..moves.len() {
        push_line(
            alloc,
            &mut text,
            station,
            u64::from(first) + i as u64,
            &moves[i],
        )?;
    }
    Ok(text)
}

fn push_line(
    alloc: Global,
    text: &mut String,
    station: &str,
    n: u64,
    message: &Message,
) -> Result<(), NoMemory>
    requires { IsTrue (is_station_name station.now) }
    ensures line { OnOk result (string_bytes text.new
        ≡ string_bytes text.old ++ (sent_line station.now n message.now ++ 10 ∷ [])) }
    ensures reads_back { OnOk result
        (ReadsAs station.now n message.now (sent_line station.now n message.now)) }
{
    let line = sent_line(alloc, station, n, message)?;
    text.push_str(line.as_str())?;
    text.push_str("\n")?;
    Ok(())
}
