//! A register in an SQLite database: the trait `Register` of `register_store`, kept in six tables.
//!
//! [`SqlRegister`] has a connection to the database. It is opened in memory (`in_memory`), on a
//! file (`on_file`, `on_file_from`), or from an open connection (`adopt`). `bind` comes first: it
//! fills a new store, or compares an old one with the setup. [`fault_of`] turns an error of the
//! connection into the fault that a register returns.
//!
//! The contracts promise, as long as the disk returns the bytes written to it and no other program
//! writes the file:
//!
//! - A posting is one transaction. Once the call has returned, a crash leaves the entry with all
//!   its changes, or nothing of it; after an Ok, the former. The binding of a new store and a
//!   migration from version 1 are one transaction too. A crash before the return is tested, not
//!   proved.
//! - `bind` leaves the rows of an old store as they are. A store with other tables, another version
//!   or another setup is rejected.
//! - A register that has stopped, because a statement failed, returns Store from each later call.
//!   It stops only if memory ran out, the disk failed or refused a call, or the database refused a
//!   statement.
//! - After a close the next run has the same rows ([`closed_and_opened`]). After a kill it has only
//!   rows that this run may have had ([`left_and_opened`]).
//!
//! ```text
//! let mut register = SqlRegister::on_file(&rt, rt.alloc(), "museum.db")?;
//! let depth = register.bind(rt.alloc(), &setup)?;
//! register.post(rt.alloc(), &entry, &changes)?;
//! let entries = register.all(rt.alloc())?;
//! let files = register.close();
//! ```
#![tactic(auto)]

mod again;
mod agree;
mod bind;
mod grow;
mod identity;
mod link;
mod list;
mod make;
mod migrate;
mod mismatch;
mod opening;
mod profile;
mod put;
mod queries;
mod row_values;
mod rowids;
mod schema;
mod sql;
mod stored_setup;
mod table;
mod upgrade;
mod version;
mod version_one;

pub use again::{closed_and_opened, left_and_opened};
pub use link::fault_of;
pub use migrate::given_days_are_of_looking_back;
pub use sql::SqlRegister;
