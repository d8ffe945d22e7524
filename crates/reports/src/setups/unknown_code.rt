//! The code for which a message was refused as unknown.
ghost use Rattle.std.specs.Prelude.{◌≡◌, ◌&&◌, IfOk, None, if◌then◌else◌, not, option_map};
ghost use Rattle.std.specs.List.{find};
ghost use Rattle.posting_core.specs.Verdicts.{is_container_code};
ghost use Rattle.posting_core.specs.Culprits.{a_place, a_thing};
ghost use Rattle.reports.specs.NowKnown.{code_of, is_new_place, is_new_thing, kept_if};
ghost use Rattle.reports.specs.NowKnown.{knows_all, new_code, was_unlisted};

use codes_core::{NoMemory, PlaceCode, ThingCode, ThingKind};
use nest_core::Setup;
use posting_core::{Culprit, PostedEntry, Verdict, container_named, place_named, things_named};
use std::alloc::Global;

/// The code for which the entry after `earlier` others was refused as unknown, if `after` lists
/// what it lacked and `before` doesn't. Fails with `NoMemory`.
pub(crate) fn new_code(
    alloc: Global,
    before: &Setup,
    after: &Setup,
    earlier: u32,
    entry: &PostedEntry,
) -> Result<Option<Culprit>, NoMemory>
    ensures { IfOk result (λ code. code ≡ new_code before.now after.now earlier entry.now) }
{
    match entry.verdict() {
        Verdict::UnknownThing => {
            let message = entry.message().to_message(alloc)?;
            Ok(new_thing(before, after, earlier, things_named(&message)))
        }
        Verdict::UnknownPlace => {
            let message = entry.message().to_message(alloc)?;
            Ok(new_place(before, after, place_named(&message)))
        }
        Verdict::UnknownContainer => {
            let message = entry.message().to_message(alloc)?;
            Ok(new_container(before, after, container_named(&message)))
        }
        _ => Ok(None),
    }
}

/// The first of the things that wasn't listed yet when `posted` entries had been posted, if `after`
/// lists them all and `before` doesn't.
fn new_thing(before: &Setup, after: &Setup, posted: u32, things: &[ThingCode]) -> Option<Culprit>
    ensures { result
        ≡ (if knows_all after.now things.now && not (knows_all before.now things.now)
        then a_thing (find (was_unlisted before.now posted) things.now) else None) }
{
    if knows_all(after, things) && !knows_all(before, things) {
        as_thing(first_unlisted(before, posted, things).copied())
    } else {
        None
    }
}

/// Whether the setup lists all of these things.
fn knows_all(setup: &Setup, things: &[ThingCode]) -> bool
    ensures { result ≡ knows_all setup.now things.now }
{
    things.iter().all(|thing| setup.thing(thing).is_some())
}

/// The place, if `after` lists it and `before` doesn't.
fn new_place(before: &Setup, after: &Setup, place: Option<PlaceCode>) -> Option<Culprit>
    ensures { result ≡ a_place (kept_if (is_new_place before.now after.now) place) }
{
    let place = place?;
    if after.place(&place).is_some() && before.place(&place).is_none() {
        Some(Culprit::Place(place))
    } else {
        None
    }
}

/// The container, if its code is a container's, `after` lists it and `before` doesn't.
fn new_container(before: &Setup, after: &Setup, code: Option<ThingCode>) -> Option<Culprit>
    ensures { result
        ≡ a_thing (kept_if (is_new_thing before.now after.now) (kept_if is_container_code code)) }
{
    let code = if_container(code)?;
    if after.thing(&code).is_some() && before.thing(&code).is_none() {
        Some(Culprit::Thing(code))
    } else {
        None
    }
}

/// The first thing that wasn't listed yet when `posted` entries had been posted.
fn first_unlisted<'a>(setup: &Setup, posted: u32, things: &'a [ThingCode]) -> Option<&'a ThingCode>
    ensures { option_map (λ x. x.now) result ≡ find (was_unlisted setup.now posted) things.now }
{
    things
        .iter()
        .find(|thing| setup.thing_at(thing, posted).is_none())
}

/// The code, if it is a container's.
fn if_container(code: Option<ThingCode>) -> Option<ThingCode>
    ensures { result ≡ kept_if is_container_code code }
{
    let code = code?;
    if matches!(code.kind(), ThingKind::Container) {
        Some(code)
    } else {
        None
    }
}

fn as_thing(code: Option<ThingCode>) -> Option<Culprit>
    ensures { result ≡ a_thing code }
{
    Some(Culprit::Thing(code?))
}

/// The code as text.
pub(crate) fn code_text(code: &Culprit) -> &str
    ensures { result.now ≡ code_of code.entry.now }
{
    match code {
        Culprit::Thing(thing) => thing.as_str(),
        Culprit::Place(place) => place.as_str(),
        Culprit::Loan(loan) => loan.as_str(),
    }
}
