//! The places where a thing has been, each with the containers above it and the entry's message.
ghost use Rattle.std.specs.Prelude.{◌≡◌, ◌<◌, ◌==◌, All, IfOk, IfSome, Some, filter, length, map};
ghost use Rattle.std.specs.Prelude.{reverse, slice_get};
ghost use Rattle.std.specs.Option.{option_to_list};
ghost use Rattle.posting_core.specs.Book.{spots_in};
ghost use Rattle.reports.specs.declared.form.Form.{Form};
ghost use Rattle.reports.specs.LongHistory.{IsListed, IsSpotIn, container_cells, location_row};
ghost use Rattle.reports.specs.LongHistory.{locations, long_history_rows, long_row, message_cells};
ghost use Rattle.reports.specs.Texts.{thing_text};
ghost use Rattle.reports.specs.Cells.{cell_of};

use crate::Form;
use crate::field::Field;
use crate::optional_fields::{in_if, loan_if};
use crate::reports::history::spot_row;
use crate::reports::whereabouts::thing_codes;
use crate::rows::Rows;
use crate::sections::{entry_at, station_name};
use codes_core::{NoMemory, ThingCode};
use nest_core::{Setup, ThingNo, ThingNos};
use posting_core::{Ledger, PostedEntry, Spot, kind_name, loan_named, past, post_next};
use std::alloc::Global;

/// A spot of a thing, and the containers that the thing was in right after the spot's entry,
/// innermost first.
#[derive(Drop)]
pub(crate) struct Location {
    spot: Spot,
    containers: ThingNos,
}

/// The locations of a thing, oldest first.
#[derive(Drop)]
pub(crate) struct LongHistory<'a> {
    ledger: &'a Ledger,
    locations: Vec<Location>,
    ghost listed: { All (IsListed ledger.now) locations.items },
}

impl<'a> Rows for LongHistory<'a> {
    ghost use Rattle.std.specs.Prelude.{map};
    ghost use Rattle.reports.specs.LongHistory.{long_row};

    ghost rows = { λ s form. map (long_row s.ledger.now form) s.locations.items };

    fn len(&self, _form: Form) -> usize {
        self.locations.len()
    }

    fn row(&self, alloc: Global, form: Form, i: usize) -> Result<Vec<Field<'_>>, NoMemory> {
        long_row(alloc, self.ledger, form, &self.locations[i])
    }
}

impl<'a> LongHistory<'a> {
    /// Finds the locations of the thing with this code. There are none if the setup doesn't have
    /// it. Takes memory for a spot for each location, for a number for each container above it, and
    /// for a second ledger while it looks.
    pub(crate) fn find(
        alloc: Global,
        ledger: &'a Ledger,
        code: &ThingCode,
    ) -> Result<LongHistory<'a>, NoMemory>
        ensures { IfOk result (λ found. (form : Form)
            → map (long_row found.ledger.now form) found.locations.items
            ≡ long_history_rows ledger.entry.now form code.now) }
    {
        let locations = match ledger.setup().thing(code) {
            None => Vec::new(alloc),
            Some(thing) => locations(alloc, ledger, thing)?,
        };
        Ok(LongHistory { ledger, locations })
    }
}

/// The locations of a thing of the setup. Goes through the record once, from its first entry on.
fn locations(alloc: Global, ledger: &Ledger, thing: ThingNo) -> Result<Vec<Location>, NoMemory>
    requires { thing < length ledger.now.museum.things }
    ensures locations { IfOk result (λ found. found.items ≡ locations ledger.now thing) }
    ensures listed { IfOk result (λ found. All (IsListed ledger.now) found.items) }
{
    let mut so_far = past(alloc, ledger, 0)?;
    let mut found = Vec::new(alloc);
    for i in 0..ledger.entry_count() as usize {
        post_next(alloc, ledger, &mut so_far, i)?;
        if let Some(spot) = newest_spot(&so_far, thing) {
            let containers = so_far.chain(alloc, thing)?;
            found.push(Location { spot, containers })?;
        }
    }
    Ok(found)
}

/// The spot that the last entry of the record made for a thing, if it changed its place.
fn newest_spot(ledger: &Ledger, thing: ThingNo) -> Option<Spot>
    requires { thing < length ledger.now.museum.things }
    ensures newest { option_to_list result
        ≡ filter (λ s. s.entry == length ledger.now.posted) (spots_in ledger.now thing) }
    ensures listed { IfSome result (IsSpotIn ledger.now) }
{
    let spot = ledger.spots(thing).next_back()?;
    if spot.entry == ledger.entry_count() {
        Some(spot)
    } else {
        None
    }
}

fn long_row<'a>(
    alloc: Global,
    ledger: &'a Ledger,
    form: Form,
    location: &Location,
) -> Result<Vec<Field<'a>>, NoMemory>
    requires { IsListed ledger.now location.now }
    ensures { IfOk result
        (λ row. map cell_of row.items ≡ long_row ledger.entry.now form location.now) }
{
    let entry = entry_at(ledger, location.spot.entry as usize - 1);
    location_row(alloc, ledger.setup(), form, location, entry)
}

/// The row of a location that this entry made.
fn location_row<'a>(
    alloc: Global,
    setup: &'a Setup,
    form: Form,
    location: &Location,
    entry: &PostedEntry,
) -> Result<Vec<Field<'a>>, NoMemory>
    requires place { location.now.spot.place < length setup.now.places }
    requires containers { All (λ c. c < length setup.now.things) location.now.containers }
    ensures { IfOk result (λ row. map cell_of row.items
        ≡ location_row setup.entry.now form location.now entry.now) }
{
    let mut row = spot_row(alloc, setup, location.spot)?;
    let mut inside = container_fields(alloc, setup, form, location.containers.as_slice())?;
    let mut named = message_fields(alloc, setup, entry)?;
    inside.append(&mut named)?;
    row.append(&mut inside)?;
    Ok(row)
}

/// The codes of the containers, after the word `in` in a plain line.
fn container_fields<'a>(
    alloc: Global,
    setup: &Setup,
    form: Form,
    containers: &[ThingNo],
) -> Result<Vec<Field<'a>>, NoMemory>
    requires { All (λ c. c < length setup.now.things) containers.now }
    ensures { IfOk result (λ row. map cell_of row.items
        ≡ container_cells form (map (thing_text setup.now) containers.now)) }
{
    let codes = thing_codes(alloc, setup, containers)?;
    let inside = in_if(codes.as_slice());
    Ok(match form {
        Form::Plain => vec![in alloc; inside, Field::Things(codes)]?,
        Form::Csv | Form::Json | Form::Table => vec![in alloc; Field::Things(codes)]?,
    })
}

/// The loan that the entry's message names, and the message's station, number and kind.
fn message_fields<'a>(
    alloc: Global,
    setup: &'a Setup,
    entry: &PostedEntry,
) -> Result<Vec<Field<'a>>, NoMemory>
    ensures { IfOk result
        (λ row. map cell_of row.items ≡ message_cells setup.entry.now entry.now) }
{
    let message = entry.message().to_message(alloc)?;
    Ok(vec![in alloc;
        loan_if(loan_named(&message)),
        Field::Word(station_name(setup, entry.station())),
        Field::Number(u64::from(entry.n())),
        Field::Word(kind_name(&message)),
    ]?)
}
