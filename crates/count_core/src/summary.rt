//! The line that is printed about a file without faults.
ghost use Rattle.std.specs.Prelude.{◌≡◌, ◌≤◌, ◌<◌, ◌++◌, ◌∷◌, IfOk, OnOk, length, string_bytes};
ghost use Rattle.std.specs.Str.{IsAscii};
ghost use Rattle.nest_core.specs.Museum.{is_container};
ghost use Rattle.count_core.specs.Summaries.{boxes, comma_after, counted, counts_summary, grouped};
ghost use Rattle.count_core.specs.Summaries.{joined, ok_line, setup_summary, with_commas};

use codes_core::{NoMemory, ThingKind};
use nest_core::{Setup, ThingNo};
use std::alloc::Global;

/// Returns a line with how much the setup lists, such as
/// `ok: 2 stations, 40 places, 12 boxes, 80,000 objects`, with a line feed. A box is a container,
/// and all other things are objects. Fails with `NoMemory`.
pub fn setup_summary(alloc: Global, setup: &Setup) -> Result<String, NoMemory>
    ensures { IfOk result (λ text. string_bytes text ≡ setup_summary setup.now) }
{
    let boxes = boxes(setup);
    let objects = setup.things() - boxes;
    let stations = counted(alloc, setup.stations() as u64, "station", "stations")?;
    let places = counted(alloc, setup.places() as u64, "place", "places")?;
    let boxes = counted(alloc, boxes as u64, "box", "boxes")?;
    let objects = counted(alloc, objects as u64, "object", "objects")?;
    let fixed = joined(alloc, stations.as_str(), places.as_str())?;
    let moved = joined(alloc, boxes.as_str(), objects.as_str())?;
    let all = joined(alloc, fixed.as_str(), moved.as_str())?;
    ok_line(alloc, all.as_str())
}

/// Returns a line with the number of rows of a count list, such as `ok: 120 rows`, with a line
/// feed. Fails with `NoMemory`.
pub fn counts_summary(alloc: Global, rows: u64) -> Result<String, NoMemory>
    ensures { IfOk result (λ text. string_bytes text ≡ counts_summary rows) }
{
    let rows = counted(alloc, rows, "row", "rows")?;
    ok_line(alloc, rows.as_str())
}

/// The line of a file without faults that has this much. Fails with `NoMemory`.
fn ok_line(alloc: Global, much: &str) -> Result<String, NoMemory>
    ensures { IfOk result (λ text. string_bytes text ≡ ok_line much.now) }
{
    Ok(format!(in alloc; "ok: {much}\n")?)
}

/// Both texts, with a comma between them. Fails with `NoMemory`.
fn joined(alloc: Global, first: &str, second: &str) -> Result<String, NoMemory>
    ensures { IfOk result (λ text. string_bytes text ≡ joined first.now second.now) }
{
    Ok(format!(in alloc; "{first}, {second}")?)
}

/// The number of containers.
fn boxes(setup: &Setup) -> u32
    ensures count { result ≡ length (boxes setup.now) }
    ensures within { result ≤ length setup.now.things }
{
    let mut count = 0;
    for thing in 0..setup.things() {
        if is_box(setup, thing) {
            count += 1;
        }
    }
    count
}

fn is_box(setup: &Setup, thing: ThingNo) -> bool
    requires { thing < length setup.now.things }
    ensures { result ≡ is_container setup.now thing }
{
    matches!(setup.kind(thing), ThingKind::Container)
}

/// A count with its noun in the singular or the plural. Fails with `NoMemory`.
fn counted(alloc: Global, count: u64, one: &str, many: &str) -> Result<String, NoMemory>
    ensures { IfOk result (λ text. string_bytes text ≡ counted count one.now many.now) }
{
    let digits = grouped(alloc, count)?;
    let noun = if count == 1 { one } else { many };
    Ok(format!(in alloc; "{digits} {noun}")?)
}

/// The number in decimal digits, with a comma between groups of three. Fails with `NoMemory`.
#[tactic(auto, using(crate::proofs::Commas::digits_ascii))]
fn grouped(alloc: Global, number: u64) -> Result<String, NoMemory>
    ensures { IfOk result (λ text. string_bytes text ≡ grouped number) }
{
    let digits = format!(in alloc; "{number}")?;
    let mut text = String::new(alloc);
    add_digits(&mut text, digits.as_bytes())?;
    Ok(text)
}

/// Adds digits, with a comma between groups of three. Fails with `NoMemory`.
#[tactic(auto, using(crate::proofs::Commas::one_more))]
fn add_digits(text: &mut String, digits: &[u8]) -> Result<(), NoMemory>
    requires { IsAscii digits.now }
    ensures { OnOk result
        (string_bytes text.new ≡ string_bytes text.old ++ with_commas digits.now) }
{
    for i in 0..digits.len() {
        add_digit(text, digits[i], digits.len() - i - 1)?;
    }
    Ok(())
}

/// Adds a digit, and a comma if whole groups of three digits come after it. Fails with `NoMemory`.
fn add_digit(text: &mut String, digit: u8, after: usize) -> Result<(), NoMemory>
    requires { digit < 128 }
    ensures { OnOk result
        (string_bytes text.new ≡ string_bytes text.old ++ digit ∷ comma_after after) }
{
    text.push(digit as char)?;
    if after > 0 && after % 3 == 0 {
        text.push(',')?;
    }
    Ok(())
}
