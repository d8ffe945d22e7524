//! The codes of several things.
ghost use Rattle.std.specs.Prelude.{◌≡◌, IfOk, map, string_bytes};
ghost use Rattle.reports.specs.Texts.{thing_text};
ghost use Rattle.reports.specs.Values.{codes_text};

use codes_core::NoMemory;
use nest_core::{Setup, ThingNo};
use std::alloc::Global;

/// Returns the codes of these things with spaces between them. A thing that the setup doesn't have
/// has an empty code. Fails with `NoMemory`.
pub fn codes_text(alloc: Global, setup: &Setup, things: &[ThingNo]) -> Result<String, NoMemory>
    ensures { IfOk result (λ text. string_bytes text ≡ codes_text setup.now things.now) }
{
    let codes = codes_of(alloc, setup, things)?;
    Ok(codes.as_slice().join(alloc, " ")?)
}

/// The codes of these things.
fn codes_of(alloc: Global, setup: &Setup, things: &[ThingNo]) -> Result<Vec<String>, NoMemory>
    ensures { IfOk result (λ codes. map string_bytes codes.items
        ≡ map (thing_text setup.now) things.now) }
{
    let mut codes = Vec::new(alloc);
    for i in 0..things.len() {
        codes.push(code_of(alloc, setup, things[i])?)?;
    }
    Ok(codes)
}

/// The code of a thing. Empty if the setup doesn't have the thing.
fn code_of(alloc: Global, setup: &Setup, thing: ThingNo) -> Result<String, NoMemory>
    ensures { IfOk result (λ text. string_bytes text ≡ thing_text setup.now thing) }
{
    if thing < setup.things() {
        let code = setup.thing_code(thing);
        Ok(String::from_str(alloc, code.as_str())?)
    } else {
        Ok(String::new(alloc))
    }
}
