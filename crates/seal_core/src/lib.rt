//! Seals of a record, and receipts of its entries: evidence that the past is as it was.
//!
//! A [`Seal`] has a number of entries and the head of a Merkle tree over them (RFC 6962). The
//! leaves are the entries' lines as the report of posted entries prints them. Whoever keeps a seal
//! can check later that none of these entries was changed, removed or added. A [`Receipt`] has one
//! entry's line and its audit path. Whoever holds it can check it without the record. The [`laws`]
//! state the value of a seal or a receipt that holds.
//!
//! [`seal_line`] and [`receipt_line`] return the lines to give out. [`check_seals`] compares the
//! seals in a file with the record, a seal on each line. [`check_receipt_file`] checks the receipt
//! in a file without a record.
//!
//! The head of a list of leaves is 32 bytes that identify the whole list ([`HeadBuilder`]). An
//! audit path ([`audit_path`], [`verify_path`]) proves that a leaf is at a place in the list: the
//! head can be computed from the leaf and the path, without the other leaves. A leaf is any
//! sequence of bytes. The hash is SHA-256.
//!
//! ```text
//! let seal = make_seal(rt, alloc, ledger, None)?;
//! seal_text(alloc, &seal)?;                       // 80000 sha256:1029..
//! let seal = read_seal(b"80000 sha256:1029..")?;
//! check_seal(rt, alloc, ledger, &seal)?;          // true, also after more entries are posted
//!
//! let receipt = make_receipt(alloc, ledger, 12, None)?;
//! receipt_text(alloc, &receipt)?;                 // {"entry":12,"head":"1029..",..}
//! check_receipt(&receipt);                        // true
//!
//! let checked = check_seals(rt, alloc, ledger, bytes)?; // 79000 holds, 80000 broken, line 3 bad
//!
//! let hashes = [leaf_hash(b"first"), leaf_hash(b"second")];
//! let path = audit_path(alloc, &hashes, 1)?;          // of leaf 1, counted from 0
//! verify_path(b"second", 1, 2, &path, &head)          // true: leaf 1 of 2 is "second"
//! ```
#![tactic(auto)]

mod builder;
mod hashes;
pub mod laws;
mod leaves;
mod lines;
mod paths;
mod printing;
mod reading;
mod receipt;
mod receipt_check;
mod receipt_fault;
mod receipt_fields;
mod receipt_reader;
mod receipt_writer;
mod receipts;
mod seal;
mod seal_check;
mod sealing;
pub mod tree_laws;
mod trees;
mod workers;

pub use builder::HeadBuilder;
pub use hashes::leaf_hash;
pub use paths::{audit_path, root_from_path, verify_path};
pub use printing::{receipt_line, seal_line};
pub use reading::{LineFault, read_seal};
pub use receipt::{Receipt, check_receipt};
pub use receipt_check::{CheckedReceipt, check_receipt_file};
pub use receipt_fault::ReceiptFault;
pub use receipt_reader::read_receipt;
pub use receipt_writer::receipt_text;
pub use receipts::make_receipt;
pub use seal::{Seal, check_text, seal_text};
pub use seal_check::{CheckedSeal, CheckedSeals, check_seals};
pub use sealing::{SealFault, check_seal, make_seal};
pub use trees::head_of_hashes;
