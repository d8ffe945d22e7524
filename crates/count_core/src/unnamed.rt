//! Finds the objects that no row names, place by place.
ghost use Rattle.std.specs.Prelude.{◌≡◌, ◌<◌, ◌==◌, ◌+◌, ◌++◌, ◌∷◌, [], ℕ, All, IfOk, OnOk, cond};
ghost use Rattle.std.specs.Prelude.{filter, length, map, replicate};
ghost use Rattle.count_core.specs.Inside.{lists, list_at, AreOuter, AreUnflaggedIn};
ghost use Rattle.count_core.specs.Marks.{is_unflagged};

use crate::outer::ask;
use codes_core::{NoMemory, ThingKind};
use nest_core::{PlaceNo, Setup, ThingNo};
use posting_core::Ledger;
use std::alloc::{AllocError, Global};

/// For each place, the objects in it that have no flag, in ascending order.
pub(crate) fn unnamed_in_each(
    alloc: Global,
    ledger: &Ledger,
    flags: &[bool],
) -> Result<Vec<Vec<ThingNo>>, NoMemory>
    requires { length flags.now ≡ length ledger.now.museum.things }
    ensures { IfOk result (λ v.
        AreUnflaggedIn ledger.now flags.now (length ledger.now.museum.things) (lists v.items)) }
{
    let mut outer = empty_lists(alloc, ledger.setup().places())?;
    let mut unnamed = empty_lists(alloc, ledger.setup().places())?;
    for thing in 0..ledger.setup().things() {
        add_unnamed(alloc, &mut unnamed, ledger, flags, &mut outer, thing)?;
    }
    Ok(unnamed)
}

/// This many empty lists.
fn empty_lists(alloc: Global, count: u32) -> Result<Vec<Vec<ThingNo>>, AllocError>
    ensures { IfOk result (λ v. lists v.items ≡ replicate count []) }
{
    let mut empty = Vec::with_capacity(alloc, count as usize)?;
    for _ in 0..count {
        empty.push(Vec::new(alloc))?;
    }
    Ok(empty)
}

/// If the thing is an object without a flag, adds it to the lists of the places that it is in.
fn add_unnamed(
    alloc: Global,
    unnamed: &mut Vec<Vec<ThingNo>>,
    ledger: &Ledger,
    flags: &[bool],
    outer: &mut Vec<Vec<PlaceNo>>,
    thing: ThingNo,
) -> Result<(), NoMemory>
    requires within { thing < length ledger.now.museum.things }
    requires flags { length flags.now ≡ length ledger.now.museum.things }
    requires outer { AreOuter ledger.now.museum (lists outer.old.items) }
    requires before { AreUnflaggedIn ledger.now flags.now thing (lists unnamed.old.items) }
    ensures unnamed { OnOk result
        (AreUnflaggedIn ledger.now flags.now (thing + 1) (lists unnamed.new.items)) }
    ensures outer { OnOk result (AreOuter ledger.now.museum (lists outer.new.items)) }
{
    let setup = ledger.setup();
    setup.is_museum();
    if is_unflagged(setup, flags, thing) {
        if let Some(place) = ledger.place_of(thing) {
            ask(alloc, setup, outer, place)?;
            push_to_each(unnamed, outer[place as usize].as_slice(), thing)?;
        }
    }
    Ok(())
}

fn is_unflagged(setup: &Setup, flags: &[bool], thing: ThingNo) -> bool
    requires within { thing < length setup.now.things }
    requires flags { length flags.now ≡ length setup.now.things }
    ensures { result ≡ is_unflagged setup.now flags.now thing }
{
    !flags[thing as usize] && !matches!(setup.kind(thing), ThingKind::Container)
}

/// Adds the thing to the list of each of these places.
fn push_to_each(
    unnamed: &mut Vec<Vec<ThingNo>>,
    places: &[PlaceNo],
    thing: ThingNo,
) -> Result<(), AllocError>
    requires { All (λ p. p < length unnamed.old.items) places.now }
    ensures many { OnOk result (length unnamed.new.items ≡ length unnamed.old.items) }
    ensures each { OnOk result ((q : ℕ) → list_at (lists unnamed.new.items) q
        ≡ list_at (lists unnamed.old.items) q
        ++ map (λ p. thing) (filter (λ p. p == q) places.now)) }
{
    for i in 0..places.len() {
        push_to(unnamed, places[i], thing)?;
    }
    Ok(())
}

/// Adds the thing to the list of the place.
fn push_to(
    unnamed: &mut Vec<Vec<ThingNo>>,
    place: PlaceNo,
    thing: ThingNo,
) -> Result<(), AllocError>
    requires { place < length unnamed.old.items }
    ensures many { OnOk result (length unnamed.new.items ≡ length unnamed.old.items) }
    ensures each { OnOk result ((q : ℕ) → list_at (lists unnamed.new.items) q
        ≡ list_at (lists unnamed.old.items) q ++ cond (place == q) (thing ∷ []) []) }
{
    let list = &mut unnamed[place as usize];
    list.push(thing)?;
    Ok(())
}
