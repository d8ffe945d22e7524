//! The numbers of the things and places that a message names by code.
ghost use Rattle.std.specs.Prelude.{◌≡◌};
ghost use Rattle.posting_core.specs.Messages.{thing_no, place_no};

use codes_core::{PlaceCode, ThingCode};
use nest_core::{PlaceNo, Setup, ThingNo};

/// A thing's number. For a code that the setup doesn't have, the number of things.
pub(crate) fn thing_no(setup: &Setup, code: &ThingCode) -> ThingNo
    ensures { result ≡ thing_no setup.now code.now }
{
    match setup.thing(code) {
        Some(x) => x,
        None => setup.things(),
    }
}

/// A place's number. For a code that the setup doesn't have, the number of places.
pub(crate) fn place_no(setup: &Setup, code: &PlaceCode) -> PlaceNo
    ensures { result ≡ place_no setup.now code.now }
{
    match setup.place(code) {
        Some(p) => p,
        None => setup.places(),
    }
}
