//! Writes the rows that list a setup.
ghost use Rattle.std.specs.Prelude.{◌≡◌, ◌-◌, ◌<◌, ◌≤◌, length, map, Some, IfOk, slice_get};
ghost use Rattle.std.specs.Prelude.{string_bytes};
ghost use Rattle.nest_core.specs.Museum.{row_count};
ghost use Rattle.nest_core.specs.SetupTexts.{joined, kind_word, place_fields, setup_rows};
ghost use Rattle.nest_core.specs.SetupTexts.{growth_fields, station_fields, thing_fields};

use crate::setup::{PlaceNo, Setup, StationNo, ThingNo};
use codes_core::{NoMemory, ThingKind};
use std::alloc::Global;

impl Setup {
    /// Returns row `i` of the rows that list the setup, from 1, as in a setup file: stations, then
    /// places, then things, each in the order of their numbers, with the fields joined by commas.
    /// Growths come last, the newest first. Fails with `NoMemory`.
    pub fn row_text(&self, alloc: Global, i: u32) -> Result<String, NoMemory>
        requires from_one { 1 ≤ i }
        requires within { i ≤ row_count self.now }
        ensures { IfOk result
            (λ text. slice_get (setup_rows self.now) (i - 1) ≡ Some (string_bytes text)) }
    {
        let station = i - 1;
        if station < self.stations() {
            return self.station_text(alloc, station);
        }
        let place = station - self.stations();
        if place < self.places() {
            return self.place_text(alloc, place);
        }
        let thing = place - self.places();
        if thing < self.things() {
            return self.thing_text(alloc, thing);
        }
        self.growth_text(alloc, (thing - self.things()) as usize)
    }

    fn growth_text(&self, alloc: Global, growth: usize) -> Result<String, NoMemory>
        requires { growth < length self.now.growths }
        ensures { IfOk result
            (λ text. slice_get (map (λ g. joined (growth_fields g)) self.now.growths) growth
            ≡ Some (string_bytes text)) }
    {
        let growth = &self.growths()[growth];
        let after = growth.after;
        let places = growth.listed.places;
        let things = growth.listed.things;
        let text = format!(in alloc; "grew,{after},{places},{things}")?;
        Ok(text)
    }

    fn station_text(&self, alloc: Global, station: StationNo) -> Result<String, NoMemory>
        requires { station < length self.now.stations }
        ensures { IfOk result
            (λ text. slice_get
            (map (λ name. joined (station_fields name)) self.now.stations) station
            ≡ Some (string_bytes text)) }
    {
        let mut text = String::from_str(alloc, "station,")?;
        text.push_str(self.station_name(station))?;
        Ok(text)
    }

    fn place_text(&self, alloc: Global, place: PlaceNo) -> Result<String, NoMemory>
        requires { place < length self.now.places }
        ensures { IfOk result
            (λ text. slice_get (map (λ row. joined (place_fields row)) self.now.places) place
            ≡ Some (string_bytes text)) }
    {
        let mut text = String::from_str(alloc, "place,")?;
        self.place_code(place).write(alloc, &mut text)?;
        let word = if self.is_inside(place) {
            ",inside"
        } else {
            ",elsewhere"
        };
        text.push_str(word)?;
        Ok(text)
    }

    fn thing_text(&self, alloc: Global, thing: ThingNo) -> Result<String, NoMemory>
        requires { thing < length self.now.things }
        ensures { IfOk result
            (λ text. slice_get
            (map (λ row. joined (thing_fields self.now row)) self.now.things) thing
            ≡ Some (string_bytes text)) }
    {
        let mut text = String::from_str(alloc, kind_word(self.kind(thing)))?;
        text.push_str(",")?;
        self.thing_code(thing).write(alloc, &mut text)?;
        let Some(normal) = self.normal(thing) else {
            return Ok(text);
        };
        text.push_str(",")?;
        self.place_code(normal).write(alloc, &mut text)?;
        Ok(text)
    }
}

/// The word in the first field of a thing's row.
fn kind_word(kind: ThingKind) -> &'static str
    ensures { result.now ≡ kind_word kind }
{
    match kind {
        ThingKind::Own => "own",
        ThingKind::Borrowed => "lent",
        ThingKind::Container => "box",
    }
}
