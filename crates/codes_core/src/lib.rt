//! Codes of things, places and loans, civil days, people's names, and texts that are safe to show.
//!
//! Text is checked once, where it enters the program; from then on its type guarantees that it is
//! valid. A code has only one spelling: equal codes have equal bytes, and writing a code appends
//! the bytes from which it was parsed.
//!
//! - [`ThingCode`], [`PlaceCode`] and [`LoanCode`] keep their text in place, so parsing one takes
//!   no memory. Contracts see a code as its bytes.
//! - [`Day`] is a day of the years 1 to 9999. Contracts see it as its day number.
//! - [`Name`] owns its text. Contracts see it as its bytes.
//!
//! [`add_quoted`] puts a text in quotes and writes each character that looks like another one, or
//! like none, by its number. [`add_on_one_line`] and [`write_on_one_line`] do so for control
//! characters alone.
//!
//! An error of this crate is called a *fault*. `parse` returns the value, or the first
//! [`CodeFault`] that applies. `write` appends to a string, which is unchanged after [`NoMemory`].
//!
//! ```text
//! let shelf = PlaceCode::parse(b"S1-A")?;
//! let building = PlaceCode::parse(b"S1")?;
//! assert!(rt; shelf.lies_in(&building));
//! assert!(rt; ThingCode::parse(b"2001.04") == Err(CodeFault::BadNumber));
//!
//! add_quoted(&mut text, "A\u{a0}1")?           // 'A\u{a0}1'
//! add_on_one_line(&mut text, "A\u{a0}1\n")?    // A 1\u{a}, with the no-break space as it is
//! ```
#![tactic(auto)]

mod day;
mod digits;
mod fault;
mod groups;
mod loan;
mod name;
mod place;
mod spelling;
mod thing;
mod visible;
mod written;

pub use day::Day;
pub use fault::{CodeFault, NameFault, NoMemory};
pub use loan::LoanCode;
pub use name::Name;
pub use place::PlaceCode;
pub use spelling::Spelling;
pub use thing::{ThingCode, ThingKind};
pub use visible::{add_on_one_line, add_quoted};
pub use written::write_on_one_line;

/// The longest name, in bytes.
pub const LONGEST_NAME: usize = 60;
