//! Finds the places that a place lies in, by its code.
ghost use Rattle.std.specs.Prelude.{◌≡◌, ◌<◌, ◌≤◌, IfOk, OnOk, length};
ghost use Rattle.codes_core.specs.Place.{ends_segment};
ghost use Rattle.count_core.specs.Inside.{outer_place, outer_of, lists, list_at, AreOuter};

use codes_core::{NoMemory, PlaceCode};
use nest_core::{PlaceNo, Setup};
use std::alloc::Global;

/// Looks up the places that this place lies in, unless that was done before. `outer` has one list
/// for each place, empty until it is needed.
pub(crate) fn ask(
    alloc: Global,
    setup: &Setup,
    outer: &mut Vec<Vec<PlaceNo>>,
    place: PlaceNo,
) -> Result<(), NoMemory>
    requires known { place < length setup.now.places }
    requires outer { AreOuter setup.now (lists outer.old.items) }
    ensures outer { OnOk result (AreOuter setup.now (lists outer.new.items)) }
    ensures asked { OnOk result (list_at (lists outer.new.items) place ≡ outer_of setup.now place) }
{
    if outer[place as usize].is_empty() {
        outer[place as usize] = outer_places(alloc, setup, place)?;
    }
    Ok(())
}

/// The places that a place lies in: at most three around it, outermost first, and then itself.
fn outer_places(alloc: Global, setup: &Setup, place: PlaceNo) -> Result<Vec<PlaceNo>, NoMemory>
    requires { place < length setup.now.places }
    ensures { IfOk result (λ v. v.items ≡ outer_of setup.now place) }
{
    setup.is_museum();
    let code = setup.place_code(place);
    let text = code.as_bytes();
    let mut places = Vec::new(alloc);
    for end in 0..text.len() {
        if let Some(outer) = outer_place(setup, text, end) {
            places.push(outer)?;
        }
    }
    places.push(place)?;
    Ok(places)
}

/// The place whose code is the first `end` bytes of this one, if a segment ends there.
fn outer_place(setup: &Setup, text: &[u8], end: usize) -> Option<PlaceNo>
    requires { end ≤ length text.now }
    ensures { result ≡ outer_place setup.now text.now end }
{
    setup.is_museum();
    let (outer, behind) = text.split_at(end);
    if !ends_segment(behind) {
        return None;
    }
    match PlaceCode::parse(outer) {
        Ok(code) => setup.place(&code),
        Err(_) => None,
    }
}

fn ends_segment(behind: &[u8]) -> bool
    ensures { result ≡ ends_segment behind.now }
{
    match behind {
        [] => true,
        [b, ..] => *b == b'-',
    }
}
