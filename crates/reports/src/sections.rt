//! What a page of a record and its export have in common: sections of rows, the values of a row,
//! the terms of loans, and what each entry changed.
//!
//! [`Rows`] are the rows of a section. [`write_rows`] makes each when it writes it, so that a
//! section is never in memory. [`write_section`] also writes the text before and after the rows.
//! Their contracts promise each byte, and after a fault the beginning of the text.
//!
//! [`Value`] is a value of a row. [`agreed_terms`] returns the terms of a loan, and
//! [`post_planned`] what an entry changed, while it posts the entry once more to a second ledger.
//! [`laws`] proves that the new locations of all entries are those of the report `history`.
//!
//! ```text
//! let mut so_far = past(alloc, ledger, 0)?;
//! let changes = post_planned(alloc, ledger, &mut so_far, 0)?;    // those of entry 1
//! ```

mod changes;
pub mod laws;
mod rows;
mod terms;
mod things;
mod values;
mod writing;

pub use changes::{entry_at, post_planned};
pub use rows::{Rows, write_rows, write_section};
pub use terms::{Terms, agreed_terms, is_out, stage_of};
pub use things::codes_text;
pub use values::{
    Value, day_if, place_if, place_value, stage_if, state_if, station_name, thing_value, word_if,
};
pub use writing::write_text;
