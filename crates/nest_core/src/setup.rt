//! The setup: the museum's lists, and the lookups in them.
ghost use Rattle.std.specs.Prelude.{◌≡◌, ◌≢◌, ◌<◌, ◌≤◌, ◌+◌, true, length, None, Some, IfSome};
ghost use Rattle.std.specs.Prelude.{OnOk, OnErr, IfErr, IfOk, is_some};
ghost use Rattle.std.specs.Option.{option_and_then};
ghost use Rattle.nest_core.specs.Museum.{IsMuseum, find_station, find_place, find_thing};
ghost use Rattle.nest_core.specs.Museum.{station_name_of, place_code_of, thing_code_of, is_inside};
ghost use Rattle.nest_core.specs.Museum.{kind_of, normal_of, row_count, no_museum, is_thing_row};
ghost use Rattle.nest_core.specs.SetupRows.{is_place_code, is_right, listing_fault, with_listed};
ghost use Rattle.nest_core.specs.SetupGrowing.{rehomed, taking_fault, with_taken};
ghost use Rattle.nest_core.specs.StationName.{is_station_name};

use crate::grow_fault::GrowFault;
use crate::growth::Growth;
use crate::setup_fault::SetupFault;
use crate::setup_row::SetupRow;
use crate::station_name::StationName;
use crate::{MOST_GROWTHS, MOST_PLACES, MOST_STATIONS, MOST_THINGS};
use codes_core::{NoMemory, PlaceCode, ThingCode, ThingKind};
use indexmap::{IndexMap, IndexSet};
use std::alloc::Global;
use std::marker::Model;

mod growths;

/// A thing's number, from 0 in the order of the setup's rows.
pub type ThingNo = u32;

/// A place's number, from 0 in the order of the setup's rows.
pub type PlaceNo = u32;

/// A station's number, from 0 in the order of the setup's rows.
pub type StationNo = u32;

/// The museum's stations, places and things, and how the setup grew. Contracts see it as its lists,
/// in the order of the numbers, and its growths, the newest first.
pub struct Setup {
    stations: IndexSet<StationName>,
    places: IndexMap<PlaceCode, bool>,
    things: IndexMap<ThingCode, Option<PlaceNo>>,
    growths: Vec<Growth>,
}

impl Model for Setup {
    ghost use Rattle.std.specs.Option.{option_and_then};
    ghost use Rattle.nest_core.specs.Museum.{Museum, IsMuseum};

    ghost Value = { Museum };

    ghost view = { λ s.
        record {
          stations = s.stations.keys;
          places = s.places.entries;
          things = s.things.entries;
          growths = s.growths.items;
        } };

    ghost invariant = { λ s.
        IsMuseum (record {
          stations = s.stations.keys;
          places = s.places.entries;
          things = s.things.entries;
          growths = s.growths.items;
        }) };
}

/// Manual `Drop`: a derived one is inlined at every return and slows the proof.
impl Drop for Setup {
    fn drop(self) {
        let Setup {
            stations,
            places,
            things,
            growths,
        } = self;
        drop(stations);
        drop(places);
        drop(things);
        drop(growths);
    }
}

impl Setup {
    /// The invariant of every setup, for proofs: its names and codes are valid, none is listed
    /// twice, and no list is longer than its limit. The function does nothing.
    pub fn is_museum(&self)
        ensures { IsMuseum self.now }
    {
        let _ = &self.things;
    }

    /// Returns a setup with the same lists. Fails with `NoMemory`.
    pub fn copy(&self) -> Result<Setup, NoMemory>
        ensures { IfOk result (λ copy. copy ≡ self.now) }
    {
        Ok(Setup {
            stations: self.stations.clone()?,
            places: self.places.clone()?,
            things: self.things.clone()?,
            growths: self.growths.clone()?,
        })
    }

    /// The number of stations, at most [`MOST_STATIONS`].
    pub fn stations(&self) -> u32
        ensures count { result ≡ length self.now.stations }
        ensures few { result ≤ MOST_STATIONS }
    {
        self.stations.len() as u32
    }

    /// The number of places, at most [`MOST_PLACES`].
    pub fn places(&self) -> u32
        ensures count { result ≡ length self.now.places }
        ensures few { result ≤ MOST_PLACES }
    {
        self.places.len() as u32
    }

    /// The number of things, at most [`MOST_THINGS`].
    pub fn things(&self) -> u32
        ensures count { result ≡ length self.now.things }
        ensures few { result ≤ MOST_THINGS }
    {
        self.things.len() as u32
    }

    /// The number of rows that list the setup: one for each station, place and thing, and one for
    /// each growth.
    pub fn rows(&self) -> u32
        ensures count { result ≡ row_count self.now }
        ensures few { result ≤ MOST_STATIONS + MOST_PLACES + MOST_THINGS + MOST_GROWTHS }
    {
        self.stations() + self.places() + self.things() + self.growth_count()
    }

    /// The number of growths, at most [`MOST_GROWTHS`].
    pub fn growth_count(&self) -> u32
        ensures count { result ≡ length self.now.growths }
        ensures few { result ≤ MOST_GROWTHS }
    {
        self.growths.len() as u32
    }

    /// The number of the station with this name, or `None` if there is none.
    pub fn station(&self, name: &str) -> Option<StationNo>
        ensures found { result ≡ find_station self.now name.now }
        ensures within { IfSome result (λ s. s < length self.now.stations) }
    {
        let stations = &self.stations;
        let name = StationName::parse(name.as_bytes())?;
        let number = stations.get_index_of(&name)?;
        Some(number as u32)
    }

    /// The number of the place with this code, or `None` if there is none.
    pub fn place(&self, code: &PlaceCode) -> Option<PlaceNo>
        ensures found { result ≡ find_place self.now code.now }
        ensures within { IfSome result (λ p. p < length self.now.places) }
    {
        let number = self.places.get_index_of(code)?;
        Some(number as u32)
    }

    /// The number of the thing with this code, or `None` if there is none.
    pub fn thing(&self, code: &ThingCode) -> Option<ThingNo>
        ensures found { result ≡ find_thing self.now code.now }
        ensures within { IfSome result (λ x. x < length self.now.things) }
    {
        let number = self.things.get_index_of(code)?;
        Some(number as u32)
    }

    /// The name of a station, which must be one of the setup.
    pub fn station_name(&self, station: StationNo) -> &str
        requires { station < length self.now.stations }
        ensures { station_name_of self.now station ≡ Some result.now }
    {
        self.stations.get_index(station as usize).unwrap().as_str()
    }

    /// The code of a place, which must be one of the setup.
    pub fn place_code(&self, place: PlaceNo) -> PlaceCode
        requires { place < length self.now.places }
        ensures { place_code_of self.now place ≡ Some result }
    {
        *self.places.get_index(place as usize).unwrap().0
    }

    /// The code of a thing, which must be one of the setup.
    pub fn thing_code(&self, thing: ThingNo) -> ThingCode
        requires { thing < length self.now.things }
        ensures { thing_code_of self.now thing ≡ Some result }
    {
        *self.things.get_index(thing as usize).unwrap().0
    }

    /// The kind of a thing of the setup.
    pub fn kind(&self, thing: ThingNo) -> ThingKind
        requires { thing < length self.now.things }
        ensures { kind_of self.now thing ≡ Some result }
    {
        self.thing_code(thing).kind()
    }

    /// Whether a place of the setup belongs to the museum. Otherwise it is a partner's.
    pub fn is_inside(&self, place: PlaceNo) -> bool
        requires { place < length self.now.places }
        ensures { result ≡ is_inside self.now place }
    {
        *self.places.get_index(place as usize).unwrap().1
    }

    /// The normal location of a thing of the setup. Only own objects have one.
    pub fn normal(&self, thing: ThingNo) -> Option<PlaceNo>
        requires { thing < length self.now.things }
        ensures normal { result ≡ normal_of self.now thing }
        ensures within { IfSome result (λ p. p < length self.now.places) }
    {
        *self.things.get_index(thing as usize).unwrap().1
    }

    /// Returns a setup that lists nothing and never grew: what the rows of a first file are added
    /// to.
    pub fn new(alloc: Global) -> Setup
        ensures { result ≡ no_museum }
    {
        Setup {
            stations: IndexSet::new(alloc),
            places: IndexMap::new(alloc),
            things: IndexMap::new(alloc),
            growths: Vec::new(alloc),
        }
    }

    /// Adds the item that row `number` lists at the end of its list. Fails with the first of
    /// `Repeated`, `UnknownNormal`, `TooMany` and `NoMemory` that applies, and then nothing is
    /// added.
    pub(crate) fn add(&mut self, number: u64, row: SetupRow) -> Result<(), SetupFault>
        requires { is_right row ≡ true }
        ensures ok { OnOk result
            ((listing_fault self.old number row ≡ None) × (self.new ≡ with_listed self.old row)) }
        ensures fault { IfErr result
            (λ fault. fault ≢ SetupFault.NoMemory
            → listing_fault self.old number row ≡ Some fault) }
        ensures gives_up { result ≡ Err SetupFault.NoMemory
            → listing_fault self.old number row ≡ None }
        ensures unchanged { OnErr result (self.new ≡ self.old) }
    {
        match row {
            SetupRow::Station(name) => self.add_station(number, name),
            SetupRow::Place(code, inside) => self.add_place(number, code, inside),
            SetupRow::Thing(code, normal) => self.add_thing(number, code, normal),
        }
    }

    fn add_station(&mut self, number: u64, name: StationName) -> Result<(), SetupFault>
        requires { is_station_name name ≡ true }
        ensures ok { OnOk result
            ((listing_fault self.old number (SetupRow.Station name) ≡ None)
            × (self.new ≡ with_listed self.old (SetupRow.Station name))) }
        ensures fault { IfErr result
            (λ fault. fault ≢ SetupFault.NoMemory
            → listing_fault self.old number (SetupRow.Station name) ≡ Some fault) }
        ensures gives_up { result ≡ Err SetupFault.NoMemory
            → listing_fault self.old number (SetupRow.Station name) ≡ None }
        ensures unchanged { OnErr result (self.new ≡ self.old) }
    {
        if self.stations.get_index_of(&name).is_some() {
            return Err(SetupFault::Repeated(number));
        }
        if self.stations.len() >= MOST_STATIONS {
            return Err(SetupFault::TooMany(number));
        }
        self.stations.insert(name)?;
        Ok(())
    }

    fn add_place(&mut self, number: u64, code: PlaceCode, inside: bool) -> Result<(), SetupFault>
        requires { is_place_code code ≡ true }
        ensures ok { OnOk result
            ((listing_fault self.old number (SetupRow.Place code inside) ≡ None)
            × (self.new ≡ with_listed self.old (SetupRow.Place code inside))) }
        ensures fault { IfErr result
            (λ fault. fault ≢ SetupFault.NoMemory
            → listing_fault self.old number (SetupRow.Place code inside) ≡ Some fault) }
        ensures gives_up { result ≡ Err SetupFault.NoMemory
            → listing_fault self.old number (SetupRow.Place code inside) ≡ None }
        ensures unchanged { OnErr result (self.new ≡ self.old) }
    {
        if self.places.get_index_of(&code).is_some() {
            return Err(SetupFault::Repeated(number));
        }
        if self.places.len() >= MOST_PLACES {
            return Err(SetupFault::TooMany(number));
        }
        self.places.insert(code, inside)?;
        Ok(())
    }

    /// The number of the normal location, if there is one and it is listed.
    fn normal_no(&self, normal: Option<PlaceCode>) -> Option<PlaceNo>
        ensures { result ≡ option_and_then (find_place self.now) normal }
    {
        match normal {
            Some(place) => self.place(&place),
            None => None,
        }
    }

    /// Gives the thing with this code, which must be listed, the normal location of row `number`.
    /// Fails with `UnknownNormal`, and then nothing changes.
    pub(crate) fn rehome(
        &mut self,
        number: u64,
        code: ThingCode,
        normal: Option<PlaceCode>,
    ) -> Result<(), GrowFault>
        requires right { is_right (SetupRow.Thing code normal) ≡ true }
        requires listed { is_some (find_thing self.old code) ≡ true }
        ensures ok { OnOk result
            ((taking_fault self.old number (SetupRow.Thing code normal) ≡ None)
            × (self.new ≡ with_taken self.old (SetupRow.Thing code normal))) }
        ensures fault { IfErr result
            (λ fault. taking_fault self.old number (SetupRow.Thing code normal) ≡ Some fault) }
        ensures told { IfErr result (λ fault. fault ≢ GrowFault.Setup SetupFault.NoMemory) }
        ensures unchanged { OnErr result (self.new ≡ self.old) }
    {
        let normal_no = self.normal_no(normal);
        if normal.is_some() && normal_no.is_none() {
            return Err(GrowFault::Setup(SetupFault::UnknownNormal(number)));
        }
        self.set_normal(code, normal_no);
        Ok(())
    }

    /// Gives the thing with this code, which must be listed, this normal location.
    fn set_normal(&mut self, code: ThingCode, normal: Option<PlaceNo>)
        requires right { is_thing_row (length self.old.places) (code, normal) ≡ true }
        requires listed { is_some (find_thing self.old code) ≡ true }
        ensures { self.new ≡ record self.old { things = rehomed self.old.things code normal } }
    {
        match self.things.insert(code, normal) {
            Ok(_) => (),
            // No room is needed for a thing that is listed.
            Err(_) => unreachable!(),
        }
    }

    fn add_thing(
        &mut self,
        number: u64,
        code: ThingCode,
        normal: Option<PlaceCode>,
    ) -> Result<(), SetupFault>
        requires { is_right (SetupRow.Thing code normal) ≡ true }
        ensures ok { OnOk result
            ((listing_fault self.old number (SetupRow.Thing code normal) ≡ None)
            × (self.new ≡ with_listed self.old (SetupRow.Thing code normal))) }
        ensures fault { IfErr result
            (λ fault. fault ≢ SetupFault.NoMemory
            → listing_fault self.old number (SetupRow.Thing code normal) ≡ Some fault) }
        ensures gives_up { result ≡ Err SetupFault.NoMemory
            → listing_fault self.old number (SetupRow.Thing code normal) ≡ None }
        ensures unchanged { OnErr result (self.new ≡ self.old) }
    {
        if self.things.get_index_of(&code).is_some() {
            return Err(SetupFault::Repeated(number));
        }
        let normal_no = self.normal_no(normal);
        if normal.is_some() && normal_no.is_none() {
            return Err(SetupFault::UnknownNormal(number));
        }
        if self.things.len() >= MOST_THINGS {
            return Err(SetupFault::TooMany(number));
        }
        self.things.insert(code, normal_no)?;
        Ok(())
    }
}
