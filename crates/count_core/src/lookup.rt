//! Looks up one row, and whether a thing is in a place.
ghost use Rattle.std.specs.Prelude.{◌≡◌, ◌<◌, IfSome, length, slice_get, Some};
ghost use Rattle.nest_core.specs.Museum.{find_place};
ghost use Rattle.count_core.specs.Counts.{answer_for, found_from, look, looked_of, named};
ghost use Rattle.count_core.specs.Reports.{is_in};

use crate::{CountAnswer, CountRow};
use codes_core::PlaceCode;
use nest_core::{PlaceNo, ThingNo};
use posting_core::Ledger;

/// The answer to a row on its own, as if no earlier row named its thing, with the numbers of its
/// thing and its place.
#[derive(Clone, Copy)]
pub(crate) struct Looked {
    pub answer: CountAnswer,
    pub thing: Option<ThingNo>,
    pub place: Option<PlaceNo>,
}

/// Looks up a row on its own.
pub(crate) fn look(ledger: &Ledger, row: &CountRow) -> Looked
    ensures { result ≡ looked_of ledger.now row.now }
{
    let place = ledger.setup().place(&row.place);
    let thing = named(ledger, row);
    Looked {
        answer: answer_of(ledger, row, place, thing),
        thing,
        place,
    }
}

/// The number of the thing that the row names.
fn named(ledger: &Ledger, row: &CountRow) -> Option<ThingNo>
    ensures named { result ≡ named ledger.now.museum row.now }
    ensures within { IfSome result (λ x. x < length ledger.now.museum.things) }
{
    ledger.setup().thing(&row.object?)
}

/// The answer to a row whose place and thing have these numbers.
fn answer_of(
    ledger: &Ledger,
    row: &CountRow,
    place: Option<PlaceNo>,
    thing: Option<ThingNo>,
) -> CountAnswer
    requires place { place ≡ find_place ledger.now.museum row.now.place }
    requires thing { thing ≡ named ledger.now.museum row.now }
    requires within { IfSome thing (λ x. x < length ledger.now.museum.things) }
    ensures { result ≡ look ledger.now row.now }
{
    if place.is_none() {
        return CountAnswer::UnknownPlace;
    }
    match row.object {
        None => CountAnswer::Counted,
        Some(_) => object_answer(ledger, &row.place, thing),
    }
}

/// The answer to a known place and the object that was seen there; None if the setup doesn't have
/// the object.
fn object_answer(ledger: &Ledger, sought: &PlaceCode, thing: Option<ThingNo>) -> CountAnswer
    requires { IfSome thing (λ x. x < length ledger.now.museum.things) }
    ensures { result ≡ answer_for ledger.now sought.now thing }
{
    match thing {
        None => CountAnswer::UnknownObject,
        Some(thing) => match ledger.place_of(thing) {
            None => CountAnswer::Unplaced,
            Some(place) => placed_answer(ledger, sought, place),
        },
    }
}

fn placed_answer(ledger: &Ledger, sought: &PlaceCode, place: PlaceNo) -> CountAnswer
    requires { place < length ledger.now.museum.places }
    ensures { result ≡ found_from ledger.now.museum sought.now (Some place) }
{
    if ledger.setup().place_code(place).lies_in(sought) {
        return CountAnswer::Found;
    }
    CountAnswer::Elsewhere(place)
}

/// Whether the thing's place is the one with this code, or lies in it.
pub(crate) fn is_in(ledger: &Ledger, thing: ThingNo, sought: &PlaceCode) -> bool
    requires { thing < length ledger.now.museum.things }
    ensures { result ≡ is_in ledger.now sought.now thing }
{
    match ledger.place_of(thing) {
        None => false,
        Some(place) => ledger.setup().place_code(place).lies_in(sought),
    }
}

/// The result for row i, from 0.
pub(crate) fn looked_in(looked: &[Looked], i: usize) -> Looked
    requires { i < length looked.now }
    ensures { slice_get looked.now i ≡ Some result }
{
    looked[i]
}
