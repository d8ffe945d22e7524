//! The current and former locations of all things, in the order of the entries.
ghost use Rattle.std.specs.Prelude.{◌≡◌, ◌<◌, ◌+◌, ◌++◌, All, IfOk, OnOk, length, string_bytes};
ghost use Rattle.std.specs.List.{flat_map};
ghost use Rattle.posting_core.specs.Book.{chain_in};
ghost use Rattle.posting_core.specs.Past.{upto};
ghost use Rattle.reports.specs.Texts.{place_text, station_text, thing_text};
ghost use Rattle.reports.specs.Values.{codes_text};
ghost use Rattle.reports.specs.Writes.{Writes};
ghost use Rattle.page_core.specs.Escapes.{escaped};
ghost use Rattle.page_core.specs.Histories.{histories_text, history_text, spot_text};

use crate::escapes::escaped;
use crate::values::escaped_day;
use codes_core::NoMemory;
use nest_core::{PlaceNo, Setup, StationNo, ThingNo};
use posting_core::{Ledger, NewSpot, PostedEntry, past};
use reports::PrintFault;
use reports::sections::{codes_text, entry_at, post_planned, station_name, write_text};
use std::alloc::Global;
use std::io::Write;

/// Writes the markup before the locations, the locations, and the markup after them. Fails with
/// `NoMemory` or `WriteFailed`. Takes memory for a second ledger, to which it posts the entries
/// once more, and for the rows of one entry at a time.
pub(crate) fn write_spots<W: Write>(
    alloc: Global,
    before: &str,
    ledger: &Ledger,
    after: &str,
    out: &mut W,
) -> Result<(), PrintFault>
    ensures { Writes (W.contents out.old) (W.contents out.new) result
        (before.now ++ (histories_text ledger.now ++ after.now)) }
{
    write_text(out, before)?;
    write_rows(alloc, ledger, out)?;
    write_text(out, after)
}

/// Writes the locations.
fn write_rows<W: Write>(alloc: Global, ledger: &Ledger, out: &mut W) -> Result<(), PrintFault>
    ensures { Writes (W.contents out.old) (W.contents out.new) result
        (histories_text ledger.now) }
{
    let mut so_far = past(alloc, ledger, 0)?;
    let ended = write_all(alloc, ledger, &mut so_far, out);
    drop(so_far);
    ended
}

/// Writes the rows of all entries, and posts them to `so_far`, which has none yet.
fn write_all<W: Write>(
    alloc: Global,
    ledger: &Ledger,
    so_far: &mut Ledger,
    out: &mut W,
) -> Result<(), PrintFault>
    requires { so_far.old ≡ upto ledger.now 0 }
    ensures { Writes (W.contents out.old) (W.contents out.new) result
        (histories_text ledger.now) }
{
    for i in 0..ledger.entry_count() as usize {
        write_entry(alloc, ledger, so_far, i, out)?;
    }
    Ok(())
}

/// Writes the rows of the entry at this index, from 0, and posts it to `so_far`, which has the
/// entries before it.
fn write_entry<W: Write>(
    alloc: Global,
    ledger: &Ledger,
    so_far: &mut Ledger,
    i: usize,
    out: &mut W,
) -> Result<(), PrintFault>
    requires within { i < length ledger.now.posted }
    requires before { so_far.old ≡ upto ledger.now i }
    ensures written { Writes (W.contents out.old) (W.contents out.new) result
        (history_text ledger.now i) }
    ensures after { OnOk result (so_far.new ≡ upto ledger.now (i + 1)) }
{
    let rows = history_row(alloc, ledger, so_far, i)?;
    write_text(out, rows.as_str())
}

/// The rows of the entry at this index, from 0. Posts it to `so_far`, which has the entries before
/// it.
fn history_row(
    alloc: Global,
    ledger: &Ledger,
    so_far: &mut Ledger,
    i: usize,
) -> Result<String, NoMemory>
    requires within { i < length ledger.now.posted }
    requires before { so_far.old ≡ upto ledger.now i }
    ensures rows { IfOk result (λ rows. string_bytes rows ≡ history_text ledger.now i) }
    ensures after { OnOk result (so_far.new ≡ upto ledger.now (i + 1)) }
{
    let changes = post_planned(alloc, ledger, so_far, i)?;
    spots_row(alloc, so_far, entry_at(ledger, i), changes.spots.as_slice())
}

/// These new locations of things, by the record after the entry.
fn spots_row(
    alloc: Global,
    after: &Ledger,
    entry: &PostedEntry,
    spots: &[NewSpot],
) -> Result<String, NoMemory>
    requires { All (λ s. s.thing < length after.now.museum.things) spots.now }
    ensures { IfOk result
        (λ row. string_bytes row ≡ flat_map (spot_text after.now entry.now) spots.now) }
{
    let mut row = String::new(alloc);
    for i in 0..spots.len() {
        let spot = spot_text(alloc, after, entry, &spots[i])?;
        row.push_str(spot.as_str())?;
    }
    Ok(row)
}

/// A new location of a thing, by the record after the entry.
fn spot_text(
    alloc: Global,
    after: &Ledger,
    entry: &PostedEntry,
    new: &NewSpot,
) -> Result<String, NoMemory>
    requires { new.now.thing < length after.now.museum.things }
    ensures { IfOk result (λ text. string_bytes text ≡ spot_text after.now entry.now new.now) }
{
    let setup = after.setup();
    let number = new.spot.entry;
    let n = entry.n();
    let thing = thing_text(alloc, setup, new.thing)?;
    let day = escaped_day(alloc, new.spot.day)?;
    let place = place_text(alloc, setup, new.spot.place)?;
    let containers = containers_text(alloc, after, new.thing)?;
    let station = station_text(alloc, setup, entry.station())?;
    Ok(format!(in alloc;
        "[\"{thing}\",{number},\"{day}\",\"{place}\",\"{containers}\",\"{station}\",{n}],\n"
    )?)
}

/// The code of a thing, escaped.
fn thing_text(alloc: Global, setup: &Setup, thing: ThingNo) -> Result<String, NoMemory>
    requires { thing < length setup.now.things }
    ensures { IfOk result
        (λ text. string_bytes text ≡ escaped (thing_text setup.now thing)) }
{
    let code = setup.thing_code(thing);
    Ok(escaped(alloc, code.as_str())?)
}

/// The code of a place, escaped. Empty if the setup doesn't have the place.
fn place_text(alloc: Global, setup: &Setup, place: PlaceNo) -> Result<String, NoMemory>
    ensures { IfOk result
        (λ text. string_bytes text ≡ escaped (place_text setup.now place)) }
{
    if place < setup.places() {
        let code = setup.place_code(place);
        Ok(escaped(alloc, code.as_str())?)
    } else {
        Ok(String::new(alloc))
    }
}

/// The codes of the containers that a thing is in, innermost first, escaped.
fn containers_text(alloc: Global, ledger: &Ledger, thing: ThingNo) -> Result<String, NoMemory>
    requires { thing < length ledger.now.museum.things }
    ensures { IfOk result (λ text. string_bytes text
        ≡ escaped (codes_text ledger.now.museum (chain_in ledger.now thing))) }
{
    let chain = ledger.chain(alloc, thing)?;
    let codes = codes_text(alloc, ledger.setup(), chain.as_slice())?;
    Ok(escaped(alloc, codes.as_str())?)
}

/// The name of a station, escaped.
fn station_text(alloc: Global, setup: &Setup, station: StationNo) -> Result<String, NoMemory>
    ensures { IfOk result
        (λ text. string_bytes text ≡ escaped (station_text setup.now station)) }
{
    Ok(escaped(alloc, station_name(setup, station))?)
}
