//! The notes on the things that no line moves.
ghost use Rattle.std.specs.Prelude.{◌≡◌, ◌<◌, ◌++◌, All, IfOk, OnOk, flat_map, length};
ghost use Rattle.std.specs.Prelude.{string_bytes};
ghost use Rattle.count_core.specs.Counts.{IsMissingIn};
ghost use Rattle.line_files.specs.AuditNotes.{at_words, inside_note, inside_notes, in_words};
ghost use Rattle.line_files.specs.AuditNotes.{missing_note, notes_on, unmoved_note, who_text};
ghost use Rattle.line_files.specs.AuditNotes.{where_text, why_text};

use crate::audits::containers::{container_holding, container_of};
use crate::audits::sightings::Sighting;
use crate::audits::unmoved::Unmoved;
use codes_core::{NoMemory, ThingCode};
use count_core::{CountAnswer, CountRow, MissingObject};
use nest_core::ThingNo;
use posting_core::Ledger;
use std::alloc::Global;

/// The notes on the things that were found elsewhere, on the rows that move nothing, and on the
/// missing objects. Fails with `NoMemory`.
pub(crate) fn notes(
    alloc: Global,
    ledger: &Ledger,
    seen: &[Sighting],
    unmoved: &[Unmoved],
    missing: &[MissingObject],
) -> Result<String, NoMemory>
    requires { All (IsMissingIn ledger.now.museum) missing.now }
    ensures { IfOk result
        (λ text. string_bytes text ≡ notes_on ledger.now seen.now unmoved.now missing.now) }
{
    let mut text = String::new(alloc);
    push_seen(alloc, ledger, &mut text, seen)?;
    push_unmoved(&mut text, unmoved)?;
    push_missing(alloc, ledger, &mut text, missing)?;
    Ok(text)
}

fn push_seen(
    alloc: Global,
    ledger: &Ledger,
    text: &mut String,
    seen: &[Sighting],
) -> Result<(), NoMemory>
    ensures { OnOk result (string_bytes text.new
        ≡ string_bytes text.old ++ flat_map (inside_notes ledger.now) seen.now) }
{
    for i in 0..seen.len() {
        push_sighting(alloc, ledger, text, &seen[i])?;
    }
    Ok(())
}

/// Adds the note on a thing that was seen elsewhere, if it lies in a container.
fn push_sighting(
    alloc: Global,
    ledger: &Ledger,
    text: &mut String,
    sighting: &Sighting,
) -> Result<(), NoMemory>
    ensures { OnOk result (string_bytes text.new
        ≡ string_bytes text.old ++ inside_notes ledger.now sighting.now) }
{
    match container_holding(alloc, ledger, &sighting.thing)? {
        Some(container) => push_inside(text, sighting, ledger.setup().thing_code(container)),
        None => Ok(()),
    }
}

fn push_inside(text: &mut String, sighting: &Sighting, container: ThingCode) -> Result<(), NoMemory>
    ensures { OnOk result (string_bytes text.new
        ≡ string_bytes text.old ++ inside_note sighting.now container) }
{
    add(
        text,
        &[
            "note: ",
            sighting.thing.as_str(),
            " was seen at ",
            sighting.place.as_str(),
            " but lies in ",
            container.as_str(),
            " on record: move it yourself if it was taken out\n",
        ],
    )
}

fn push_unmoved(text: &mut String, unmoved: &[Unmoved]) -> Result<(), NoMemory>
    ensures { OnOk result (string_bytes text.new
        ≡ string_bytes text.old ++ flat_map unmoved_note unmoved.now) }
{
    for i in 0..unmoved.len() {
        push_row(text, &unmoved[i])?;
    }
    Ok(())
}

/// Adds the note on a row that moves nothing.
fn push_row(text: &mut String, unmoved: &Unmoved) -> Result<(), NoMemory>
    ensures { OnOk result (string_bytes text.new
        ≡ string_bytes text.old ++ unmoved_note unmoved.now) }
{
    text.push_str("note: ")?;
    text.push_str(who(&unmoved.row))?;
    text.push_str(where_words(&unmoved.row))?;
    text.push_str(unmoved.row.place.as_str())?;
    text.push_str(why(unmoved.answer))?;
    Ok(())
}

/// The thing that the row names, if it names one.
fn who(row: &CountRow) -> &str
    ensures { result.now ≡ who_text row.now }
{
    match &row.object {
        Some(thing) => thing.as_str(),
        None => "",
    }
}

fn where_words(row: &CountRow) -> &'static str
    ensures { result.now ≡ where_text row.now }
{
    match row.object {
        Some(_) => " was seen at ",
        None => "the list names ",
    }
}

fn why(answer: CountAnswer) -> &'static str
    ensures { result.now ≡ why_text answer }
{
    match answer {
        CountAnswer::UnknownPlace => ", which is not in the setup\n",
        CountAnswer::UnknownObject => " but is not in the setup: add it there first\n",
        CountAnswer::Again => ", too: its first row counts\n",
        CountAnswer::Unplaced => " but has no place on record: move it there yourself\n",
        CountAnswer::Counted | CountAnswer::Found | CountAnswer::Elsewhere(_) => "\n",
    }
}

fn push_missing(
    alloc: Global,
    ledger: &Ledger,
    text: &mut String,
    missing: &[MissingObject],
) -> Result<(), NoMemory>
    requires { All (IsMissingIn ledger.now.museum) missing.now }
    ensures { OnOk result (string_bytes text.new
        ≡ string_bytes text.old ++ flat_map (missing_note ledger.now) missing.now) }
{
    for i in 0..missing.len() {
        push_missed(alloc, ledger, text, missing[i])?;
    }
    Ok(())
}

/// Adds the note on a missing object.
fn push_missed(
    alloc: Global,
    ledger: &Ledger,
    text: &mut String,
    missed: MissingObject,
) -> Result<(), NoMemory>
    requires { IsMissingIn ledger.now.museum missed }
    ensures { OnOk result (string_bytes text.new
        ≡ string_bytes text.old ++ missing_note ledger.now missed) }
{
    let object = ledger.setup().thing_code(missed.object);
    add(text, &["missing: ", object.as_str()])?;
    push_container(alloc, ledger, text, missed.object)?;
    push_place(ledger, text, missed.object)?;
    add(text, &[" on record\n"])
}

/// Adds the container that the thing lies in, if there is one.
fn push_container(
    alloc: Global,
    ledger: &Ledger,
    text: &mut String,
    thing: ThingNo,
) -> Result<(), NoMemory>
    requires { thing < length ledger.now.museum.things }
    ensures { OnOk result (string_bytes text.new
        ≡ string_bytes text.old ++ in_words ledger.now thing) }
{
    match container_of(alloc, ledger, thing)? {
        Some(container) => {
            let code = ledger.setup().thing_code(container);
            add(text, &[" in ", code.as_str()])
        }
        None => Ok(()),
    }
}

/// Adds the place of the thing, if it was ever placed.
fn push_place(ledger: &Ledger, text: &mut String, thing: ThingNo) -> Result<(), NoMemory>
    requires { thing < length ledger.now.museum.things }
    ensures { OnOk result (string_bytes text.new
        ≡ string_bytes text.old ++ at_words ledger.now thing) }
{
    match ledger.place_of(thing) {
        Some(place) => {
            let code = ledger.setup().place_code(place);
            add(text, &[" at ", code.as_str()])
        }
        None => Ok(()),
    }
}

/// Adds the pieces, one after another. Fails with `NoMemory`.
fn add(text: &mut String, pieces: &[&str]) -> Result<(), NoMemory>
    ensures { OnOk result (string_bytes text.new
        ≡ string_bytes text.old ++ flat_map (λ piece. piece.now) pieces.now) }
{
    for piece in pieces {
        text.push_str(piece)?;
    }
    Ok(())
}
