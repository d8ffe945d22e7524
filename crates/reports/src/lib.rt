//! The reports on a record, printed as plain lines, comma-separated values, JSON or a table. Prints
//! a setup, too.
//!
//! A [`Question`] is what a report answers, such as the location of a thing or the entries from a
//! number on. [`print`] writes the answer in a [`Form`]. A [`PrintFault`] says why it stopped.
//!
//! The contract of [`print`] promises each byte: what is written is the text that `specs/Reports`
//! defines for the ledger, the question and the form, and after a fault a prefix of it, which ends
//! with a whole line if memory ran out. The rows are made one at a time, as they are printed. For a
//! table they are made once more before, to find how wide its columns are.
//!
//! ```text
//! print(&rt, alloc, hub.ledger(), &Question::Where(code), Form::Plain, &mut out)?;
//! // 2001.4.1 at S2 in C2 C1
//! ```
//!
//! [`print_setup`] prints a setup as a file, and [`print_growth`] how it grows. The module
//! [`sections`] has what a page of the record and its export share.
//!
//! A new report takes a variant of [`Question`], the names of its columns, a definition of its
//! rows in `specs/`, a file in `reports/` that builds them, and an arm in [`print`].
#![tactic(auto)]

mod columns;
mod fault;
mod field;
mod form;
mod line;
mod optional_fields;
mod printing;
mod question;
mod reports;
mod rows;
pub mod sections;
mod sentences;
mod setups;
mod table;
mod writing;

pub use fault::PrintFault;
pub use form::Form;
pub use printing::{print, print_as_of};
pub use question::{EntryFilter, LoanFilter, Question, names_of};
pub use reports::loan::partner_of;
pub use sentences::{cause_text, where_text};
pub use setups::{has_changes, print_growth, print_now_known, print_setup};
