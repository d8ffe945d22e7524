//! Messages as JSON text, and registers, which keep a posted list in a store.
//!
//! [`read_message`] reads a message from JSON, or returns its first [`ReadFault`]. [`message_text`]
//! writes it: each message has one text, and reading that text returns the message.
//! [`write_message`] writes the same text inside another. [`sent_line`] writes the line that a
//! station sends: its name, the message's number and the message. A replay that reads the line
//! takes this message from this station under this number. A [`Register`] keeps a posted list: it
//! binds a setup, posts entries and lists them, or fails with a [`StoreFault`]. [`PlainRegister`]
//! keeps its rows in memory, `register_sql` keeps them in an SQLite database, and [`NoStore`] keeps
//! none.
//!
//! Contracts speak of every content that a store may have after a call, if the store is quiet:
//! nobody else writes to it, and it returns the rows that were written. An entry is stored with all
//! its rows or, after a fault, perhaps not at all. Listing returns all entries, or names the first
//! damaged row. [`laws`] has the facts that follow for every register.
//!
//! ```text
//! let mut register = PlainRegister::new(alloc);
//! let depth = register.bind(alloc, &setup)?;
//! register.post(alloc, &entry, &changes)?;
//! let entries = register.all(alloc)?;
//!
//! sent_line(..)?      // {"station":"REG","n":6,"message":{"by":"Ann","kind":"signoff"}}
//! ```
#![tactic(auto)]

mod fault;
mod field;
mod kept_entry;
mod key;
pub mod laws;
mod ledger_rows;
mod line_writer;
mod loan_reader;
mod loan_rows;
mod loan_writer;
mod member;
mod message_reader;
mod message_writer;
mod no_store;
mod object_list;
mod plain;
mod register;
mod rows;
mod same_rows;
mod spelled;
mod store_fault;

pub use fault::ReadFault;
pub use field::{string_at, thing_at, value_at};
pub use key::Key;
pub use ledger_rows::{lines_of, row_texts, spot_rows, terms_of};
pub use line_writer::sent_line;
pub use loan_rows::{LineKey, term_of};
pub use message_reader::{message_in, message_of, read_message};
pub use message_writer::{message_text, write_message};
pub use no_store::NoStore;
pub use plain::{NEW_DEPTH, PlainRegister};
pub use register::Register;
pub use rows::{KeptPosting, entry_of, row_of};
pub use same_rows::{has_all, has_rows};
pub use store_fault::StoreFault;
