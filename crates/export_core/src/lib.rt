//! A record as a flat SQLite database, for other programs.
//!
//! [`script`] returns the statements of SQL that make the database. Its contract promises each
//! byte: the text that `specs/Script` defines for the ledger. The rows have the codes and values
//! that the reports of the crate `reports` print. Each text is an SQL string, in which a quote is
//! doubled.
//!
//! [`export`] runs the script on a new database and closes it. Its contract promises that all
//! statements ran, and that the database file alone has what they made.
//!
//! ```text
//! let script = script(alloc, hub.ledger(), Some(today))?;
//! // .. INSERT INTO place VALUES ..
//! export(alloc, hub.ledger(), Some(today), Connection::open(rt, "flat.db")?)?;
//! ```
#![tactic(auto)]

mod changes;
mod database;
mod entries;
mod literals;
mod loan_objects;
mod loans;
mod places;
mod schema;
mod sections;
mod statements;
mod things;

pub use database::{ExportFault, export};
pub use sections::script;
