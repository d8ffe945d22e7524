//! The work of a command on the record in a store: answer lines, serve all stations, work at a
//! desk, or print a report.
//!
//! [`do_work`] opens a hub over a register, does the [`Work`], and hands the register back;
//! [`do_session_work`] does it without a store. A [`WorkFault`] says why it stopped. Notes for the
//! user are collected in a text.
//!
//! The contract of [`do_work`] promises, for work that ends without a fault (`did`):
//!
//! - The register had a list of entries, and the hub stood for it.
//! - Of a replay: every line that was read is answered, and the register has the record with the
//!   messages of these lines.
//! - Of a serving: the log is a merge of all feeds, every byte of the log was written, and the
//!   register has the record with the log's messages.
//! - Of a desk: its station had not signed off, every line of the input is answered, and the
//!   register has the record with the messages of these lines.
//! - Of a report: exactly its text was written, and the register is as it was opened.
//!
//! If the work stops, the contract says what it leaves (`stopped`): a store that was not opened, or
//! what the fault of the replay, the report, the desk or the serving leaves. A desk stops with
//! SignedOff only if its station had signed off, and then nothing is read, written or changed. No
//! clause speaks of the notes, nor of where a register keeps its rows.
//!
//! A backup has two steps. [`pour`] writes the bytes of a database file to another file: after an
//! Ok, that file has grown by exactly these bytes, if the disk returns the bytes written to it.
//! [`opens_to`] opens the store that was made of them, judges all its entries again, and compares
//! it with a ledger. If it returns true, the store has the rows of the ledger's entries, and can
//! have no others. A store that isn't a copy may also fail to open, with the faults of `Hub::open`.
//!
//! ```text
//! let (register, ended) = do_work(
//!     &rt, alloc, &questions, setup, register, Work::Replay { why: false }, &mut tally,
//!     &mut input, &mut output, &mut notes,
//! );
//!
//! pour(alloc, &mut files.db, &mut output)?;
//! let (register, same) = opens_to(alloc, setup, copied_register, &ledger)?;
//! ```
#![tactic(auto)]

mod copied_bytes;
mod copied_record;
mod desk;
mod fault;
mod notes;
mod printing;
mod replaying;
mod serving;
mod work;

pub use copied_bytes::{PourFault, pour};
pub use copied_record::opens_to;
pub use fault::WorkFault;
pub use work::{Work, do_session_work, do_work};
