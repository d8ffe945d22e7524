//! A record as one page of HTML: a file to look at, to search and to print.
//!
//! [`write_page`] writes the page. Its contract promises each byte: it writes the text of the
//! pieces that `specs/Pages` defines for the ledger, and after a fault only the beginning of that
//! text. The rows of a section are made one at a time, as they are written, except those of the
//! last entries. The page is never in memory. While it writes the locations of all things, it posts
//! the entries once more, to a second ledger: a row has the containers that the thing was in right
//! after the entry. It does so again for the last entries, because the cause of a verdict depends
//! on the record before the entry. [`write_page_as_of`] does the same for the record as it was
//! after an earlier entry.
//!
//! ```text
//! write_page(alloc, hub.ledger(), Some(today), &mut out)?;
//! ```
//!
//! The tables have the values that the reports of the crate `reports` print. [`laws`] proves two
//! facts about every page: it lists each thing once, at its current location, and no code or name
//! can add a tag to it. [`html_laws`] proves that a text as it is written between tags has no `<`,
//! `>` or quote, and that each `&` begins a reference.
#![tactic(auto)]

mod away;
mod counts;
mod entries;
mod escapes;
mod frame;
mod histories;
pub mod html_laws;
pub mod laws;
mod lines;
mod loan_objects;
mod loans;
mod numbers;
mod page;
mod past_page;
mod script;
mod seal;
mod selection;
mod stations;
mod tables;
mod tree;
mod values;

pub use page::write_page;
pub use past_page::write_page_as_of;
