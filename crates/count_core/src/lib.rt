//! Checks count lists against the ledger, and reports on the ledger: overdue loans, own objects
//! away from their normal place, and the things in a place.
//!
//! [`read_counts`] reads a list of [`CountRow`]s, and [`check`] compares it with the ledger. Its
//! [`CountReport`] has an answer for each row, and the objects that the list misses. With
//! [`check_sealed`], a container that was seen vouches for the objects in it. [`overdue`],
//! [`away`] and [`in_place`] are the other reports.
//!
//! [`check_setup`] and [`check_counts`] return all faults of a setup file or a count list, in the
//! order of the rows. The first is the one with which the readers, `Setup::read` and
//! `read_counts`, reject the file (see [`check_laws`]). [`setup_summary`] and [`counts_summary`]
//! return the line that is printed for a file without faults.
//!
//! The contracts promise:
//!
//! - A list is read exactly, or rejected with its first fault.
//! - The report is the one that the definitions give, whatever the number of workers.
//! - All places and things in a report are in the setup. `laws` has facts that follow from the
//!   definitions, such as that no thing is Found twice.
//!
//! The only fault of a report is NoMemory.
//!
//! ```text
//! let rows = read_counts(alloc, bytes)?;
//! let report = check(&rt, alloc, hub.ledger(), rows.as_slice())?;
//! let loans = overdue(alloc, hub.ledger(), day)?;
//!
//! let check = check_setup(alloc, b"station,desk\nplace,S1,inside\nown,2001.1,S2\n")?;
//! check.faults                            // row 3 has an unknown normal location
//! setup_summary(alloc, &check.setup)?     // ok: 1 station, 1 place, 0 boxes, 0 objects
//! ```
#![tactic(auto)]

mod answer;
pub mod check_laws;
mod checking;
mod count_fault;
mod count_reader;
mod count_row;
mod counts_check;
pub mod laws;
mod lookup;
mod marks;
mod missing;
mod outer;
mod reports;
mod sealed;
mod setup_check;
mod summary;
mod unnamed;

pub use answer::{AwayObject, CountAnswer, CountReport, MissingObject};
pub use checking::{Probe, check, check_by};
pub use count_fault::CountFault;
pub use count_reader::read_counts;
pub use count_row::CountRow;
pub use counts_check::{CountsCheck, check_counts};
pub use reports::{away, in_place, overdue};
pub use sealed::check_sealed;
pub use setup_check::{SetupCheck, check_setup};
pub use summary::{counts_summary, setup_summary};

/// The most rows of a count list, not counting skipped ones.
pub const MOST_COUNT_ROWS: usize = 100_000;
