//! The rules of moves and packs.
ghost use Rattle.std.specs.Prelude.{ℤ, ◌≡◌, ◌<◌, length, IfSome, None, false, if◌then◌else◌};
ghost use Rattle.std.specs.Option.{option_map_or};
ghost use Rattle.nest_core.specs.Museum.{find_thing, is_inside};
ghost use Rattle.nest_core.specs.Puts.{last};
ghost use Rattle.nest_core.specs.Nest.{pack_bar};
ghost use Rattle.posting_core.specs.declared.message.Message.TheVariants.{Move, Pack};
ghost use Rattle.posting_core.specs.History.{puts, put_by};
ghost use Rattle.posting_core.specs.Verdicts.{first_of, move_rows, pack_rows, is_away};
ghost use Rattle.posting_core.specs.Verdicts.{is_known_container};
ghost use Rattle.posting_core.specs.Book.{place_in};

use super::Ledger;
use super::judged::{Judged, putting, unput};
use crate::Verdict;
use codes_core::{PlaceCode, ThingCode, ThingKind};
use nest_core::{PackBar, Target, ThingNo};

impl Ledger {
    pub(crate) fn judge_move(&self, thing: &ThingCode, place: &PlaceCode) -> Judged
        ensures verdict { result.verdict
            ≡ first_of (move_rows self.now.museum self.now.posted thing.now place.now) }
        ensures put { (day : ℤ) → result.put
            ≡ put_by self.now.museum self.now.posted result.verdict
            (Move day thing.now place.now) }
        ensures carried { result.carried ≡ None }
        ensures loan { result.loan ≡ None }
    {
        let Some(x) = self.thing(thing) else {
            return unput(Verdict::UnknownThing);
        };
        let Some(p) = self.place(place) else {
            return unput(Verdict::UnknownPlace);
        };
        if !self.setup.is_inside(p) {
            return unput(Verdict::ElsewherePlace);
        }
        if self.is_away(x) {
            return unput(Verdict::NotHere);
        }
        putting(Verdict::Applied, x, Target::At(p), None, None)
    }

    pub(crate) fn judge_pack(&self, thing: &ThingCode, container: &ThingCode) -> Judged
        ensures verdict { result.verdict
            ≡ first_of (pack_rows self.now.museum self.now.depth self.now.posted thing.now
            container.now) }
        ensures put { (day : ℤ) → result.put
            ≡ put_by self.now.museum self.now.posted result.verdict
            (Pack day thing.now container.now) }
        ensures carried { result.carried ≡ None }
        ensures loan { result.loan ≡ None }
    {
        let Some(x) = self.thing(thing) else {
            return unput(Verdict::UnknownThing);
        };
        let Some(c) = self.container(container) else {
            return unput(Verdict::UnknownContainer);
        };
        if self.is_away(x) {
            return unput(Verdict::NotHere);
        }
        if !self.is_inside(c) {
            return unput(Verdict::ContainerNotHere);
        }
        match self.pack_bar(x, c) {
            Some(PackBar::Cycle) => unput(Verdict::Cycle),
            Some(PackBar::TooDeep) => unput(Verdict::TooDeep),
            None => putting(Verdict::Applied, x, Target::Within(c), None, None),
        }
    }

    /// The number of a container, or `None` if the code isn't a container's or the setup doesn't
    /// list it yet.
    fn container(&self, code: &ThingCode) -> Option<ThingNo>
        ensures found { result
            ≡ (if is_known_container self.now.museum self.now.posted code.now
            then find_thing self.now.museum code.now else None) }
        ensures within { IfSome result (λ c. c < length self.now.museum.things) }
    {
        let thing = self.thing(code)?;
        match self.setup.kind(thing) {
            ThingKind::Container => Some(thing),
            _ => None,
        }
    }

    /// Whether a thing isn't in the museum: it is elsewhere, or it is borrowed and has no place
    /// yet.
    fn is_away(&self, thing: ThingNo) -> bool
        requires { thing < length self.now.museum.things }
        ensures { result ≡ is_away self.now.museum thing (place_in self.now thing) }
    {
        match self.place_of(thing) {
            Some(place) => !self.setup.is_inside(place),
            None => matches!(self.setup.kind(thing), ThingKind::Borrowed),
        }
    }

    /// Whether a thing's place is inside the museum. False for a thing without a place.
    pub(crate) fn is_inside(&self, thing: ThingNo) -> bool
        requires { thing < length self.now.museum.things }
        ensures { result
            ≡ option_map_or (is_inside self.now.museum) (place_in self.now thing) false }
    {
        match self.place_of(thing) {
            Some(place) => self.setup.is_inside(place),
            None => false,
        }
    }

    /// Why a thing can't be packed into a container, or `None` if it can.
    fn pack_bar(&self, thing: ThingNo, container: ThingNo) -> Option<PackBar>
        requires thing { thing < length self.now.museum.things }
        requires container { container < length self.now.museum.things }
        ensures { result
            ≡ pack_bar (last (puts self.now.museum self.now.posted))
            (length self.now.museum.things) self.now.depth thing container }
    {
        self.nest.test_pack(thing, container)
    }
}
