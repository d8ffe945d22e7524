//! The museum's setup, and the nest: which thing is in which container, and at which place.
//!
//! [`Setup`] lists the stations, places and things of the museum and numbers them. It is read from
//! a CSV file (or rejected with a [`SetupFault`]), and may grow by a further file: what it lists
//! keeps its number. [`Nest`] keeps where each thing was last put: directly at a place, or directly
//! in a container. It returns a thing's place through all its containers, these containers, and the
//! things that it carries.
//!
//! The answers of a nest are those of looking back through the list of all puts. No thing is ever
//! in itself, no thing has more containers above it than the depth limit, and everything that a
//! thing carries moves with it (see [`laws`]). The cost of a put depends only on the things that
//! the thing carries and on the contents that it leaves, not on the size of the museum (see
//! [`Nest::put`]).
//!
//! ```text
//! let rows = b"station,desk\nplace,S1,inside\nbox,C1\nown,2001.1,S1\n";
//! let setup = Setup::read(alloc, rows)?;
//! let mut nest = Nest::new(alloc, &setup, 12)?;
//! nest.put(alloc, 0, Target::At(0), &mut steps)?;               // crate C1 is put at S1
//! if nest.test_pack(1, 0).is_none() {
//!     nest.put(alloc, 1, Target::Within(0), &mut steps)?;       // object 2001.1 goes into it
//! }
//! nest.place_of(1)                                              // Some(0), which is S1
//! ```
#![tactic(auto)]

mod grow_fault;
mod growth;
mod listed_items;
mod nest;
mod put;
mod records;
mod setup;
mod setup_fault;
mod setup_growing;
mod setup_reader;
mod setup_row;
mod setup_text;
mod station_name;
mod steps;
mod taking;
mod thing_nos;

pub use grow_fault::GrowFault;
pub use growth::{Growth, Listed};
pub use nest::{Nest, PackBar, laws};
pub use put::{Put, Target};
pub use setup::{PlaceNo, Setup, StationNo, ThingNo};
pub use setup_fault::SetupFault;
pub use setup_growing::{FurtherSetup, taking_keeps_numbers};
pub use setup_row::{field, field_count};
pub use steps::Steps;
pub use thing_nos::{Moved, ThingNos};

/// The most stations that a setup can have.
pub const MOST_STATIONS: usize = 64;

/// The most places that a setup can have.
pub const MOST_PLACES: usize = 10_000;

/// The most things that a setup can have.
pub const MOST_THINGS: usize = 100_000;

/// The most growths of a setup.
pub const MOST_GROWTHS: usize = 10_000;
