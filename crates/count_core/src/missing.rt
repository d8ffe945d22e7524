//! Finds the objects that a count list misses.
ghost use Rattle.std.specs.Prelude.{◌≡◌, ◌<◌, ◌++◌, All, IfOk, OnOk, length, map};
ghost use Rattle.std.specs.List.{range_with_len};
ghost use Rattle.count_core.specs.Counts.{look_at, mentioned, missing, missing_at, named};
ghost use Rattle.count_core.specs.Counts.{IsMissingIn};
ghost use Rattle.count_core.specs.Marks.{AreNames};

use crate::lookup::{Looked, looked_in};
use crate::marks::set_flag;
use crate::unnamed::unnamed_in_each;
use crate::{CountRow, MissingObject};
use codes_core::NoMemory;
use nest_core::{PlaceNo, ThingNo};
use posting_core::Ledger;
use std::alloc::Global;

/// Returns the objects that no row names in each known place of the rows. The places come once
/// each, in the order of first mention, and the objects in ascending order. `flags` marks the
/// things that rows name.
pub(crate) fn missing(
    alloc: Global,
    ledger: &Ledger,
    rows: &[CountRow],
    looked: &[Looked],
    flags: &[bool],
) -> Result<Vec<MissingObject>, NoMemory>
    requires looked { looked.now
        ≡ map (look_at ledger.now rows.now) (range_with_len 0 (length rows.now)) }
    requires flags { AreNames (named ledger.now.museum)
        (length ledger.now.museum.things) rows.now flags.now }
    ensures missing { IfOk result (λ v. v.items ≡ missing ledger.now rows.now) }
    ensures within { IfOk result (λ v. All (IsMissingIn ledger.now.museum) v.items) }
{
    let unnamed = unnamed_in_each(alloc, ledger, flags)?;
    let places = mentioned(alloc, ledger, rows, looked)?;
    let mut missing = Vec::new(alloc);
    for i in 0..places.len() {
        let place = places[i];
        add_missing(&mut missing, place, unnamed[place as usize].as_slice())?;
    }
    Ok(missing)
}

/// The known places of the rows, once each, in the order of first mention.
fn mentioned(
    alloc: Global,
    ledger: &Ledger,
    rows: &[CountRow],
    looked: &[Looked],
) -> Result<Vec<PlaceNo>, NoMemory>
    requires { looked.now ≡ map (look_at ledger.now rows.now) (range_with_len 0 (length rows.now)) }
    ensures places { IfOk result (λ v. v.items ≡ mentioned ledger.now.museum rows.now) }
    ensures within { IfOk result (λ v. All (λ q. q < length ledger.now.museum.places) v.items) }
{
    let mut flags = vec![in alloc; false; ledger.setup().places() as usize]?;
    let mut places = Vec::new(alloc);
    for i in 0..rows.len() {
        let first = looked_in(looked, i);
        if let Some(place) = first.place {
            if !set_flag(&mut flags, place) {
                places.push(place)?;
            }
        }
    }
    Ok(places)
}

/// Adds the objects as missing in the place.
fn add_missing(
    missing: &mut Vec<MissingObject>,
    place: PlaceNo,
    objects: &[ThingNo],
) -> Result<(), NoMemory>
    ensures { OnOk result (missing.new.items
        ≡ missing.old.items ++ map (missing_at place) objects.now) }
{
    for i in 0..objects.len() {
        let object = objects[i];
        missing.push(MissingObject { place, object })?;
    }
    Ok(())
}
