//! How a setup grew, and what was listed earlier.
ghost use Rattle.std.specs.Prelude.{◌≡◌, ◌≢◌, ◌<◌, ◌≤◌, Some, length, is_some};
ghost use Rattle.std.specs.Prelude.{IfSome, MatchResult};
ghost use Rattle.std.specs.Bool.{Decides};
ghost use Rattle.nest_core.specs.Museum.{find_place, find_thing, find_place_at, find_thing_at};
ghost use Rattle.nest_core.specs.SetupGrowing.{Extends, grown};
ghost use Rattle.nest_core.specs.Museum.{NeverFell, among_first, listed_by, listed_now, listed_at};

use crate::MOST_GROWTHS;
use crate::grow_fault::GrowFault;
use crate::growth::{Growth, Listed};
use crate::setup::{PlaceNo, Setup, ThingNo};
use crate::setup_fault::SetupFault;
use codes_core::{PlaceCode, ThingCode};

impl Setup {
    /// How the setup grew, the newest growth first.
    pub fn growths(&self) -> &[Growth]
        ensures { result.now ≡ self.now.growths }
    {
        &self.growths
    }

    /// The number of places and things that are listed now.
    pub fn listed_now(&self) -> Listed
        ensures { result ≡ listed_now self.now }
    {
        Listed {
            places: self.places(),
            things: self.things(),
        }
    }

    /// The setup with these growths, the newest first. `None` if there are more than
    /// [`MOST_GROWTHS`], or if one of them found more listed than there was after it.
    pub fn with_growths(self, growths: Vec<Growth>) -> Option<Setup>
        ensures some { IfSome result (λ setup. setup ≡ record self { growths = growths.items }) }
        ensures fits { Decides (is_some result)
            ((length growths.items ≤ MOST_GROWTHS)
            × NeverFell growths.items (listed_now self)) }
    {
        if growths.len() > MOST_GROWTHS || !never_fell(&growths, self.listed_now()) {
            return None;
        }
        let Setup {
            stations,
            places,
            things,
            growths: before,
        } = self;
        drop(before);
        Some(Setup {
            stations,
            places,
            things,
            growths,
        })
    }

    /// Returns the setup that this one becomes when it grows to `further` after `posted` entries,
    /// where `further` is what [`Setup::with_file`] returned. Fails with `TooManyGrowths` if there
    /// are already [`MOST_GROWTHS`], or with `NoMemory`.
    pub fn grown(&self, further: Setup, posted: u32) -> Result<Setup, GrowFault>
        requires { Extends self.now further }
        ensures exact { MatchResult result
            (λ setup. setup ≡ grown posted self.now further)
            (λ fault. fault ≢ GrowFault.Setup SetupFault.NoMemory
            → (fault ≡ GrowFault.TooManyGrowths) × (MOST_GROWTHS ≤ length self.now.growths)) }
    {
        if self.growths.len() >= MOST_GROWTHS {
            return Err(GrowFault::TooManyGrowths);
        }
        let growth = Growth {
            after: posted,
            listed: self.listed_now(),
        };
        let Setup {
            stations,
            places,
            things,
            mut growths,
        } = further;
        match growths.insert(0, growth) {
            Ok(()) => Ok(Setup {
                stations,
                places,
                things,
                growths,
            }),
            Err(_) => Err(GrowFault::Setup(SetupFault::NoMemory)),
        }
    }

    /// The number of places and things that were listed when `posted` entries had been posted.
    pub fn listed_at(&self, posted: u32) -> Listed
        ensures { result ≡ listed_at self.now posted }
    {
        listed_by(&self.growths, posted, self.listed_now())
    }

    /// The number of the place with this code, if it was listed when `posted` entries had been
    /// posted.
    pub fn place_at(&self, code: &PlaceCode, posted: u32) -> Option<PlaceNo>
        ensures found { result ≡ find_place_at self.now posted code.now }
        ensures listed { IfSome result (λ p. find_place self.now code.now ≡ Some p) }
        ensures within { IfSome result (λ p. p < length self.now.places) }
    {
        let number = self.place(code)?;
        if_less(number, self.listed_at(posted).places)
    }

    /// The number of the thing with this code, if it was listed when `posted` entries had been
    /// posted.
    pub fn thing_at(&self, code: &ThingCode, posted: u32) -> Option<ThingNo>
        ensures found { result ≡ find_thing_at self.now posted code.now }
        ensures listed { IfSome result (λ x. find_thing self.now code.now ≡ Some x) }
        ensures within { IfSome result (λ x. x < length self.now.things) }
    {
        let number = self.thing(code)?;
        if_less(number, self.listed_at(posted).things)
    }
}

/// The number, if it is less than the count.
fn if_less(number: u32, count: u32) -> Option<u32>
    ensures less { result ≡ among_first count (Some number) }
    ensures same { IfSome result (λ found. found ≡ number) }
{
    if number < count { Some(number) } else { None }
}

/// The part of the setup that was listed when `posted` entries had been posted. `now` is all that
/// is listed today.
fn listed_by(growths: &[Growth], posted: u32, now: Listed) -> Listed
    ensures { result ≡ listed_by growths.now posted now }
{
    let mut listed = now;
    for i in 0..growths.len() {
        if growths[i].after <= posted {
            return listed;
        }
        listed = growths[i].listed;
    }
    listed
}

/// Whether no growth found more listed than there was after it.
fn never_fell(growths: &[Growth], now: Listed) -> bool
    ensures { Decides result (NeverFell growths.now now) }
{
    let mut after = now;
    for i in 0..growths.len() {
        let listed = growths[i].listed;
        if listed.places > after.places || listed.things > after.things {
            return false;
        }
        after = listed;
    }
    true
}
