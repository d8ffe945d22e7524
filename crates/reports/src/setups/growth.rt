//! Prints how a setup grows.
ghost use Rattle.std.specs.Prelude.{◌≡◌, ◌<◌, ◌++◌, IfOk, IfSome, OnOk, codes, decimal, length};
ghost use Rattle.std.specs.Prelude.{map, string_bytes};
ghost use Rattle.nest_core.specs.SetupGrowing.{Extends};
ghost use Rattle.reports.specs.GrowthTexts.{counted, counts_text, former_normal, growth_text};
ghost use Rattle.reports.specs.GrowthTexts.{last_line, new_rows, rehomed_row, rehomed_things};
ghost use Rattle.reports.specs.Lines.{lines};
ghost use Rattle.reports.specs.Writing.{Prints};

use crate::PrintFault;
use crate::setups::growth_counts::{GrowthCounts, counts, is_rehomed};
use crate::setups::rows::{push_line, push_places, push_stations, push_things, thing_row};
use crate::writing::write_text;
use codes_core::NoMemory;
use nest_core::{PlaceNo, Setup, ThingNo};
use std::alloc::Global;
use std::io::Write;

/// Prints how the setup `before` grows to `after`, its growth by a further file, after `posted`
/// entries: a line for each new station, place and thing, a line for each thing with another normal
/// location, and a last line with the counts. Prints `nothing to add` if there is no change.
///
/// Fails with `NoMemory`, and then nothing is written, or with `WriteFailed`, after a
/// prefix of the text. It takes memory for the whole text.
pub fn print_growth<W: Write>(
    alloc: Global,
    before: &Setup,
    after: &Setup,
    posted: u32,
    output: &mut W,
) -> Result<(), PrintFault>
    requires { Extends before.now after.now }
    ensures { Prints (W.contents output.old) (W.contents output.new) result
        (growth_text before.now after.now posted) }
{
    let text = growth_text(alloc, before, after, posted)?;
    write_text(output, text.as_bytes())
}

fn growth_text(
    alloc: Global,
    before: &Setup,
    after: &Setup,
    posted: u32,
) -> Result<String, NoMemory>
    requires { Extends before.now after.now }
    ensures { IfOk result (λ text. string_bytes text ≡ growth_text before.now after.now posted) }
{
    let counts = counts(before, after);
    if !counts.is_any() {
        return Ok(String::from_str(alloc, "nothing to add\n")?);
    }
    let mut text = String::new(alloc);
    push_new(alloc, &mut text, before, after)?;
    push_rehomed(alloc, &mut text, before, after)?;
    push_last_line(alloc, &mut text, posted, counts)?;
    Ok(text)
}

/// Adds a line for each new station, place and thing.
fn push_new(alloc: Global, text: &mut String, before: &Setup, after: &Setup) -> Result<(), NoMemory>
    requires { Extends before.now after.now }
    ensures { OnOk result (string_bytes text.new
        ≡ string_bytes text.old ++ lines (codes "+ ") (new_rows before.now after.now)) }
{
    push_stations(alloc, text, "+ ", after, before.stations())?;
    push_places(alloc, text, "+ ", after, before.places())?;
    push_things(alloc, text, "+ ", after, before.things())
}

/// Adds a line for each thing with another normal location.
fn push_rehomed(
    alloc: Global,
    text: &mut String,
    before: &Setup,
    after: &Setup,
) -> Result<(), NoMemory>
    requires { Extends before.now after.now }
    ensures { OnOk result (string_bytes text.new
        ≡ string_bytes text.old
        ++ lines (codes "~ ") (map (rehomed_row before.now after.now)
        (rehomed_things before.now after.now))) }
{
    for thing in 0..before.things() {
        if is_rehomed(before, after, thing) {
            let row = rehomed_row(alloc, before, after, thing)?;
            push_line(text, "~ ", row.as_str())?;
        }
    }
    Ok(())
}

/// The row of a thing, and its normal location before.
fn rehomed_row(
    alloc: Global,
    before: &Setup,
    after: &Setup,
    thing: ThingNo,
) -> Result<String, NoMemory>
    requires listed { thing < length before.now.things }
    requires kept { Extends before.now after.now }
    ensures { IfOk result (λ text. string_bytes text ≡ rehomed_row before.now after.now thing) }
{
    let row = thing_row(alloc, after, thing)?;
    let former = former_normal(alloc, before, before.normal(thing))?;
    Ok([row.as_str(), "  ", former.as_str()].concat(alloc)?)
}

fn former_normal(alloc: Global, before: &Setup, normal: Option<PlaceNo>) -> Result<String, NoMemory>
    requires { IfSome normal (λ p. p < length before.now.places) }
    ensures { IfOk result (λ text. string_bytes text ≡ former_normal before.now normal) }
{
    match normal {
        None => Ok(String::from_str(alloc, "(had none)")?),
        Some(place) => {
            let code = before.place_code(place);
            Ok(["(was ", code.as_str(), ")"].concat(alloc)?)
        }
    }
}

/// Adds the line with the counts.
fn push_last_line(
    alloc: Global,
    text: &mut String,
    posted: u32,
    counts: GrowthCounts,
) -> Result<(), NoMemory>
    ensures { OnOk result
        (string_bytes text.new ≡ string_bytes text.old ++ last_line posted counts) }
{
    let words = counts_text(alloc, counts)?;
    let row = counted_row(alloc, posted, words.as_str())?;
    push_line(text, "grown after entry ", row.as_str())
}

/// The last line behind its first words.
fn counted_row(alloc: Global, posted: u32, words: &str) -> Result<String, NoMemory>
    ensures { IfOk result
        (λ row. string_bytes row ≡ decimal posted ++ codes ": " ++ words.now) }
{
    Ok(format!(in alloc; "{posted}: {words}")?)
}

fn counts_text(alloc: Global, counts: GrowthCounts) -> Result<String, NoMemory>
    ensures { IfOk result (λ text. string_bytes text ≡ counts_text counts) }
{
    let mut words = Vec::new(alloc);
    push_count(alloc, &mut words, counts.places, "place")?;
    push_count(alloc, &mut words, counts.things, "thing")?;
    push_count(alloc, &mut words, counts.stations, "station")?;
    push_count(
        alloc,
        &mut words,
        counts.normal_locations,
        "normal location",
    )?;
    Ok(words.as_slice().join(alloc, ", ")?)
}

/// Adds the count with its noun, unless it is 0.
fn push_count(
    alloc: Global,
    words: &mut Vec<String>,
    count: u32,
    noun: &str,
) -> Result<(), NoMemory>
    ensures { OnOk result (map string_bytes words.new.items
        ≡ map string_bytes words.old.items ++ counted count noun.now) }
{
    if count == 0 {
        return Ok(());
    }
    let ending = if count == 1 { "" } else { "s" };
    words.push(format!(in alloc; "{count} {noun}{ending}")?)?;
    Ok(())
}
