//! The items that rows list.
ghost use Rattle.std.specs.Prelude.{◌≡◌, false, OnOk, []};
ghost use Rattle.nest_core.specs.SetupGrowing.{is_among, with_item};

use crate::setup_row::SetupRow;
use crate::station_name::StationName;
use codes_core::{NoMemory, PlaceCode, ThingCode};
use indexmap::IndexSet;
use std::alloc::Global;
use std::marker::Model;

/// The stations, places and things that rows list.
pub(crate) struct ListedItems {
    stations: IndexSet<StationName>,
    places: IndexSet<PlaceCode>,
    things: IndexSet<ThingCode>,
}

impl Model for ListedItems {
    ghost use Rattle.nest_core.specs.SetupGrowing.{Items};

    ghost Value = { Items };

    ghost view = { λ items.
        record {
          stations = items.stations.keys;
          places = items.places.keys;
          things = items.things.keys;
        } };
}

/// Manual `Drop`: a derived one is inlined at every return and slows the proof.
impl Drop for ListedItems {
    fn drop(self) {
        let ListedItems {
            stations,
            places,
            things,
        } = self;
        drop(stations);
        drop(places);
        drop(things);
    }
}

impl ListedItems {
    /// No items.
    pub fn new(alloc: Global) -> ListedItems
        ensures { result ≡ record { stations = []; places = []; things = [] } }
    {
        ListedItems {
            stations: IndexSet::new(alloc),
            places: IndexSet::new(alloc),
            things: IndexSet::new(alloc),
        }
    }

    /// Whether the item of a row is among these.
    pub fn contains(&self, item: &SetupRow) -> bool
        ensures { result ≡ is_among self.now item.now }
    {
        match item {
            SetupRow::Station(name) => self.stations.contains(name),
            SetupRow::Place(code, _) => self.places.contains(code),
            SetupRow::Thing(code, _) => self.things.contains(code),
        }
    }

    /// Adds the item of a row, which is a new one. Fails with `NoMemory`.
    pub fn add(&mut self, item: SetupRow) -> Result<(), NoMemory>
        requires { is_among self.old item ≡ false }
        ensures { OnOk result (self.new ≡ with_item self.old item) }
    {
        match item {
            SetupRow::Station(name) => {
                self.stations.insert(name)?;
            }
            SetupRow::Place(code, _) => {
                self.places.insert(code)?;
            }
            SetupRow::Thing(code, _) => {
                self.things.insert(code)?;
            }
        }
        Ok(())
    }
}
