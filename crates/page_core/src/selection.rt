//! The things that are directly at a place, or directly in a container.
ghost use Rattle.std.specs.Prelude.{◌≡◌, ◌<◌, ◌++◌, ◌∷◌, [], All, IfOk, OnOk};
ghost use Rattle.std.specs.Prelude.{filter, length};
ghost use Rattle.std.specs.Prelude.{if◌then◌else◌};
ghost use Rattle.page_core.specs.Tree.{contents, is_directly_in, is_loose_at, loose_things};

use codes_core::NoMemory;
use nest_core::{PlaceNo, ThingNo};
use posting_core::Ledger;
use std::alloc::Global;

/// The things at a place, or at none, that are in no container, ascending. Fails with `NoMemory`.
pub(crate) fn loose_things(
    alloc: Global,
    ledger: &Ledger,
    place: Option<PlaceNo>,
) -> Result<Vec<ThingNo>, NoMemory>
    ensures things { IfOk result (λ things. things.items ≡ loose_things ledger.now place) }
    ensures within { IfOk result
        (λ things. All (λ x. x < length ledger.now.museum.things) things.items) }
{
    let mut things = Vec::new(alloc);
    for thing in 0..ledger.setup().things() {
        let passes = is_loose_at(alloc, ledger, place, thing)?;
        push_if(&mut things, thing, passes)?;
    }
    Ok(things)
}

/// The things that are directly in a container of the setup, ascending. Fails with `NoMemory`.
pub(crate) fn contents(
    alloc: Global,
    ledger: &Ledger,
    container: ThingNo,
) -> Result<Vec<ThingNo>, NoMemory>
    requires { container < length ledger.now.museum.things }
    ensures things { IfOk result (λ things. things.items ≡ contents ledger.now container) }
    ensures within { IfOk result
        (λ things. All (λ x. x < length ledger.now.museum.things) things.items) }
{
    let carried = ledger.carried(alloc, container)?;
    directly_in(alloc, ledger, container, carried.as_slice())
}

/// Those of these things that are directly in a container.
fn directly_in(
    alloc: Global,
    ledger: &Ledger,
    container: ThingNo,
    among: &[ThingNo],
) -> Result<Vec<ThingNo>, NoMemory>
    requires { All (λ x. x < length ledger.now.museum.things) among.now }
    ensures { IfOk result
        (λ things. things.items ≡ filter (is_directly_in ledger.now container) among.now) }
{
    let mut things = Vec::new(alloc);
    for i in 0..among.len() {
        let passes = is_directly_in(alloc, ledger, container, among[i])?;
        push_if(&mut things, among[i], passes)?;
    }
    Ok(things)
}

fn push_if(things: &mut Vec<ThingNo>, thing: ThingNo, passes: bool) -> Result<(), NoMemory>
    ensures { OnOk result
        (things.new.items ≡ things.old.items ++ (if passes then thing ∷ [] else [])) }
{
    if passes {
        things.push(thing)?;
    }
    Ok(())
}

/// Whether a thing is at this place, or at none, and in no container.
fn is_loose_at(
    alloc: Global,
    ledger: &Ledger,
    place: Option<PlaceNo>,
    thing: ThingNo,
) -> Result<bool, NoMemory>
    requires { thing < length ledger.now.museum.things }
    ensures { IfOk result (λ is. is ≡ is_loose_at ledger.now place thing) }
{
    if ledger.place_of(thing) != place {
        return Ok(false);
    }
    let chain = ledger.chain(alloc, thing)?;
    Ok(chain.as_slice().is_empty())
}

/// Whether a thing is in a container, and in no other that is in it.
fn is_directly_in(
    alloc: Global,
    ledger: &Ledger,
    container: ThingNo,
    thing: ThingNo,
) -> Result<bool, NoMemory>
    requires { thing < length ledger.now.museum.things }
    ensures { IfOk result (λ is. is ≡ is_directly_in ledger.now container thing) }
{
    let chain = ledger.chain(alloc, thing)?;
    match chain.as_slice().first() {
        Some(innermost) => Ok(*innermost == container),
        None => Ok(false),
    }
}
