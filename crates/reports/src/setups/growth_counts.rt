//! How much a setup grew.
ghost use Rattle.std.specs.Prelude.{◌≡◌, ◌<◌, false, length};
ghost use Rattle.nest_core.specs.SetupGrowing.{Extends};
ghost use Rattle.reports.specs.GrowthTexts.{counts, has_changes, is_any, is_rehomed};
ghost use Rattle.reports.specs.GrowthTexts.{rehomed_things};

use nest_core::{Setup, ThingNo};

/// How many items are new, and how many things have another normal location.
#[derive(Clone, Copy)]
pub(crate) struct GrowthCounts {
    pub(crate) places: u32,
    pub(crate) things: u32,
    pub(crate) stations: u32,
    pub(crate) normal_locations: u32,
}

impl GrowthCounts {
    /// Whether any count is above 0.
    pub(crate) fn is_any(self) -> bool
        ensures { result ≡ is_any self }
    {
        self.places > 0 || self.things > 0 || self.stations > 0 || self.normal_locations > 0
    }
}

/// Whether `after`, which is `before` grown by a further file, has a new station, place or thing,
/// or another normal location of a thing. If not, the two are equal.
pub fn has_changes(before: &Setup, after: &Setup) -> bool
    requires { Extends before.now after.now }
    ensures changes { result ≡ has_changes before.now after.now }
    ensures same { result ≡ false → after.now ≡ before.now }
{
    counts(before, after).is_any()
}

/// How much `after` has more than `before`.
pub(crate) fn counts(before: &Setup, after: &Setup) -> GrowthCounts
    requires { Extends before.now after.now }
    ensures { result ≡ counts before.now after.now }
{
    GrowthCounts {
        places: after.places() - before.places(),
        things: after.things() - before.things(),
        stations: after.stations() - before.stations(),
        normal_locations: count_rehomed(before, after),
    }
}

/// The number of things with another normal location.
fn count_rehomed(before: &Setup, after: &Setup) -> u32
    requires { Extends before.now after.now }
    ensures { result ≡ length (rehomed_things before.now after.now) }
{
    let mut count = 0;
    for thing in 0..before.things() {
        if is_rehomed(before, after, thing) {
            count += 1;
        }
    }
    count
}

/// Whether a thing has another normal location.
pub(crate) fn is_rehomed(before: &Setup, after: &Setup, thing: ThingNo) -> bool
    requires listed { thing < length before.now.things }
    requires kept { Extends before.now after.now }
    ensures { result ≡ is_rehomed before.now after.now thing }
{
    before.normal(thing) != after.normal(thing)
}
