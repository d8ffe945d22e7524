//! Prints a setup, and how it grows.
//!
//! [`print_setup`] prints a setup as a setup file. [`print_growth`] prints what a further file adds
//! to a setup, and [`has_changes`] returns whether it adds or changes anything.
//! [`print_now_known`] prints which messages were refused for a code that the setup lists now.
//!
//! The contracts promise each byte: `specs/` defines the text that is written.
//!
//! ```text
//! let after = before.with_file(alloc, bytes)?.setup;
//! print_growth(alloc, &before, &after, ledger.entry_count(), &mut output)?;
//! print_now_known(alloc, &before, &after, ledger.posted(), &mut output)?;
//! ```

mod growth;
mod growth_counts;
mod now_known;
mod rows;
mod setup_file;
mod unknown_code;

pub use growth::print_growth;
pub use growth_counts::has_changes;
pub use now_known::print_now_known;
pub use setup_file::print_setup;
