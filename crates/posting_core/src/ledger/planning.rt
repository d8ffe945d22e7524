//! Plans a message that is applied: its put, and the spots and loan lines that it adds.
ghost use Rattle.std.specs.Prelude.{◌≡◌, ◌<◌, ◌≤◌, ◌+◌, ◌&&◌, [], if◌then◌else◌, length, All, IfOk};
ghost use Rattle.std.specs.Prelude.{OnErr, IfSome, Some, true, not, map, filter};
ghost use Rattle.std.specs.List.{filter_map};
ghost use Rattle.nest_core.specs.Puts.{container_of};
ghost use Rattle.posting_core.specs.declared.stage.LineStage.TheVariants.{Awaiting};
ghost use Rattle.posting_core.specs.declared.verdict.Verdict.TheVariants.{Applied};
ghost use Rattle.nest_core.specs.Museum.{is_container};
ghost use Rattle.posting_core.specs.Messages.{thing_no, day_of};
ghost use Rattle.posting_core.specs.History.{put_in, put_by, carried_with, takes_along};
ghost use Rattle.posting_core.specs.Loans.{exit_stage};
ghost use Rattle.posting_core.specs.VerdictNames.{is_applied};
ghost use Rattle.posting_core.specs.Book.{place_in, spots_in, verdict_in, new_spot, new_spots};
ghost use Rattle.posting_core.specs.Book.{new_lines, has_lines};
ghost use Rattle.posting_core.specs.Rows.{place_to};

use super::Ledger;
use crate::numbers::thing_no;
use crate::{
    EntryNo, LineStage, MOST_ENTRIES, Message, NewLine, NewLines, NewSpot, NewSpots, Spot, Verdict,
};
use codes_core::{Day, LoanCode, NoMemory, ThingCode, ThingKind};
use nest_core::{PlaceNo, Put, Setup, Target, ThingNo, ThingNos};
use smallvec::SmallVec;
use std::alloc::Global;

impl Ledger {
    /// Everything that moves with a put, or nothing without a put. `found` is this list, if it was
    /// already gathered. Fails with `NoMemory`, but only if something is in the thing that is put.
    pub(crate) fn carried_with(
        &self,
        alloc: Global,
        put: Option<Put>,
        found: Option<ThingNos>,
    ) -> Result<ThingNos, NoMemory>
        requires known { IfSome put (λ p. p.thing < length self.now.museum.things) }
        requires found { IfSome found
            (λ carried. carried ≡ carried_with self.now.museum self.now.posted put) }
        ensures ok { IfOk result
            (λ carried. carried ≡ carried_with self.now.museum self.now.posted put) }
        ensures err { OnErr result (takes_along self.now.museum self.now.posted put ≡ true) }
    {
        if let Some(found) = found {
            return Ok(found);
        }
        match put {
            Some(put) => self.carried(alloc, put.thing),
            None => Ok(ThingNos::new(Vec::new(alloc))),
        }
    }

    /// The spots that the message adds: one for each carried thing that comes to another place.
    /// `put` is where it puts its thing under its verdict, and `carried` the things that move with
    /// that. Fails with `NoMemory`, but only if the message is applied and something is in its
    /// thing.
    pub(crate) fn spots_under(
        &self,
        alloc: Global,
        message: &Message,
        put: Option<Put>,
        carried: &[ThingNo],
        entry: EntryNo,
    ) -> Result<NewSpots, NoMemory>
        requires put { put
            ≡ put_by self.now.museum self.now.posted (verdict_in self.now message.now) message.now }
        requires carried { carried.now ≡ carried_with self.now.museum self.now.posted put }
        requires number { entry ≡ length self.now.posted + 1 }
        ensures ok { IfOk result
            (λ spots. spots
            ≡ (if is_applied (verdict_in self.now message.now)
            then new_spots self.now.museum self.now.posted message.now else [])) }
        ensures err { OnErr result
            ((is_applied (verdict_in self.now message.now)
            && takes_along self.now.museum self.now.posted
            (put_in self.now.museum self.now.posted message.now)) ≡ true) }
    {
        let Some(put) = put else {
            return Ok(NewSpots::new(alloc));
        };
        let Some(day) = day_of(message) else {
            return Ok(NewSpots::new(alloc));
        };
        self.is_lawful();
        match self.place_to(put.to) {
            Some(place) => self.spots_of(alloc, carried, place, day, entry),
            None => Ok(NewSpots::new(alloc)),
        }
    }

    /// The new spots of these things at this place. A thing that is already there gets none. Fails
    /// with `NoMemory`, but only if there are several things.
    fn spots_of(
        &self,
        alloc: Global,
        things: &[ThingNo],
        place: PlaceNo,
        day: Day,
        entry: EntryNo,
    ) -> Result<NewSpots, NoMemory>
        requires { All (λ y. y < length self.now.museum.things) things.now }
        ensures spots { IfOk result
            (λ spots. spots
            ≡ filter_map
            (λ y. new_spot entry (length (spots_in self.now y)) (place_in self.now y) (Some place)
            (Some day) y) things.now) }
        ensures gives_up { OnErr result (1 < length things.now) }
    {
        let mut spots = NewSpots::new(alloc);
        for i in 0..things.len() {
            if let Some(spot) = self.spot_at(things[i], place, day, entry) {
                spots.push(spot)?;
            }
        }
        Ok(spots)
    }

    /// The new spot of a thing at this place, or `None` if the thing is already there.
    fn spot_at(&self, thing: ThingNo, place: PlaceNo, day: Day, entry: EntryNo) -> Option<NewSpot>
        requires { thing < length self.now.museum.things }
        ensures { result
            ≡ new_spot entry (length (spots_in self.now thing)) (place_in self.now thing)
            (Some place) (Some day) thing }
    {
        if self.place_of(thing) == Some(place) {
            return None;
        }
        Some(NewSpot {
            thing,
            k: self.spot_count(thing) + 1,
            spot: Spot { entry, place, day },
        })
    }

    /// The number of spots that a thing has.
    fn spot_count(&self, thing: ThingNo) -> u32
        requires { thing < length self.now.museum.things }
        ensures count { result ≡ length (spots_in self.now thing) }
        ensures few { result ≤ MOST_ENTRIES }
    {
        self.setup.is_museum();
        self.spots.count_of(thing) as u32
    }

    /// The place that a thing gets from this target.
    fn place_to(&self, to: Target) -> Option<PlaceNo>
        requires { IfSome (container_of (Some to)) (λ c. c < length self.now.museum.things) }
        ensures { result ≡ place_to self.now.museum self.now.posted to }
    {
        match to {
            Target::At(place) => Some(place),
            Target::Within(container) => self.place_of(container),
        }
    }

    /// The loan lines that the message makes or changes under this verdict. `carried` has the
    /// things that move with its thing. Fails with `NoMemory`, but only if the message is applied
    /// and of a kind with lines.
    pub(crate) fn lines_under(
        &self,
        alloc: Global,
        message: &Message,
        verdict: Verdict,
        carried: &[ThingNo],
    ) -> Result<NewLines, NoMemory>
        requires judged { verdict ≡ verdict_in self.now message.now }
        requires carried { carried.now ≡ carried_with self.now.museum self.now.posted
            (put_by self.now.museum self.now.posted verdict message.now) }
        ensures ok { IfOk result
            (λ lines. lines
            ≡ (if is_applied verdict then new_lines self.now.museum self.now.posted message.now
            else [])) }
        ensures err { OnErr result ((is_applied verdict && has_lines message.now) ≡ true) }
    {
        match verdict {
            Verdict::Applied => self.new_lines(alloc, message, carried),
            _ => Ok(NewLines::new(alloc)),
        }
    }

    /// The loan lines of an applied message. Those of an agreement are awaited; those of a crossing
    /// get the stage that the crossing leads to.
    fn new_lines(
        &self,
        alloc: Global,
        message: &Message,
        carried: &[ThingNo],
    ) -> Result<NewLines, NoMemory>
        requires applied { verdict_in self.now message.now ≡ Applied }
        requires carried { carried.now ≡ carried_with self.now.museum self.now.posted
            (put_in self.now.museum self.now.posted message.now) }
        ensures ok { IfOk result
            (λ lines. lines ≡ new_lines self.now.museum self.now.posted message.now) }
        ensures err { OnErr result (has_lines message.now ≡ true) }
    {
        match message {
            Message::Agree { loan, objects, .. } => {
                awaited_lines(alloc, &self.setup, *loan, objects.as_slice())
            }
            Message::Exit { loan, .. } => {
                self.lines_across(alloc, carried, *loan, exit_stage(loan))
            }
            Message::Return { loan, .. } => {
                self.lines_across(alloc, carried, *loan, LineStage::Back)
            }
            Message::Receive { loan, .. } => {
                self.lines_across(alloc, carried, *loan, LineStage::Here)
            }
            Message::Move { .. }
            | Message::Pack { .. }
            | Message::Authorise { .. }
            | Message::SignOff { .. }
            | Message::Extend { .. } => Ok(NewLines::new(alloc)),
        }
    }

    /// The loan lines, at this stage, of the objects among the things carried.
    fn lines_across(
        &self,
        alloc: Global,
        carried: &[ThingNo],
        loan: LoanCode,
        stage: LineStage,
    ) -> Result<NewLines, NoMemory>
        requires { All (λ y. y < length self.now.museum.things) carried.now }
        ensures { IfOk result
            (λ lines. lines
            ≡ map (λ o. record { loan = loan; object = o; stage = stage })
            (filter (λ o. not (is_container self.now.museum o)) carried.now)) }
    {
        let objects = objects_among(alloc, &self.setup, carried)?;
        lines_of(alloc, loan, &objects, stage)
    }
}

/// The things that aren't containers. Fails with `NoMemory`, but only if there are several things.
pub(crate) fn objects_among(
    alloc: Global,
    setup: &Setup,
    things: &[ThingNo],
) -> Result<SmallVec<ThingNo, 1>, NoMemory>
    requires { All (λ y. y < length setup.now.things) things.now }
    ensures objects { IfOk result
        (λ objects. objects.items ≡ filter (λ o. not (is_container setup.now o)) things.now) }
    ensures gives_up { OnErr result (1 < length things.now) }
{
    let mut objects = SmallVec::new(alloc);
    for i in 0..things.len() {
        if !matches!(setup.kind(things[i]), ThingKind::Container) {
            objects.push(things[i])?;
        }
    }
    Ok(objects)
}

/// An awaited loan line for each of these objects.
fn awaited_lines(
    alloc: Global,
    setup: &Setup,
    loan: LoanCode,
    objects: &[ThingCode],
) -> Result<NewLines, NoMemory>
    ensures { IfOk result
        (λ lines. lines ≡ map (λ o. record { loan = loan; object = o; stage = Awaiting })
        (map (thing_no setup.now) objects.now)) }
{
    let mut lines = NewLines::new(alloc);
    for i in 0..objects.len() {
        lines.push(NewLine {
            loan,
            object: thing_no(setup, &objects[i]),
            stage: LineStage::Awaiting,
        })?;
    }
    Ok(lines)
}

/// A loan line at this stage for each of these objects.
fn lines_of(
    alloc: Global,
    loan: LoanCode,
    objects: &[ThingNo],
    stage: LineStage,
) -> Result<NewLines, NoMemory>
    ensures { IfOk result
        (λ lines. lines
        ≡ map (λ o. record { loan = loan; object = o; stage = stage }) objects.now) }
{
    let mut lines = NewLines::new(alloc);
    for i in 0..objects.len() {
        lines.push(NewLine {
            loan,
            object: objects[i],
            stage,
        })?;
    }
    Ok(lines)
}

/// The stage to which an exit brings its objects: away under a loan out, given back under a loan
/// in.
fn exit_stage(loan: &LoanCode) -> LineStage
    ensures { result ≡ exit_stage loan.now }
{
    if loan.is_out() {
        LineStage::Away
    } else {
        LineStage::GivenBack
    }
}

/// The location date of a message, or `None` if its kind has none.
fn day_of(message: &Message) -> Option<Day>
    ensures { result ≡ day_of message.now }
{
    match message {
        Message::Move { day, .. } => Some(*day),
        Message::Pack { day, .. } => Some(*day),
        Message::Exit { day, .. } => Some(*day),
        Message::Return { day, .. } => Some(*day),
        Message::Receive { day, .. } => Some(*day),
        Message::Agree { .. }
        | Message::Authorise { .. }
        | Message::SignOff { .. }
        | Message::Extend { .. } => None,
    }
}
