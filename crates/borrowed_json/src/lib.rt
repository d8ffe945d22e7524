//! JSON values that borrow their text, and access to the fields of any JSON value.
//!
//! [`Value::from_slice`] reads a value. It borrows from the text and from a [`Scratch`], which is
//! memory for one text after another. Plain JSON, as most lines of input have it, is read straight
//! from the bytes, and any other text from its tokens. [`Fields`] reads the fields of a value,
//! whether it is a borrowed [`Value`] or an owned `serde_json::Value`. Contracts see both as the
//! same data.
//!
//! A value that is read is the one that `serde_json` reads. [`TextFault`] is `NotJson` only for
//! bytes that `serde_json` rejects, too; any call may fail with `NoMemory`.
//!
//! ```text
//! let mut scratch = Scratch::new(alloc);
//! let value = Value::from_slice(alloc, b"{\"n\": 7}", &mut scratch)?;
//! let n = value.at("n").and_then(|n| n.whole_number());     // Some(7)
//! ```
#![tactic(auto)]

mod fault;
mod fields;
mod number;
mod plain;
mod reader;
mod scratch;
mod value;

pub use fault::TextFault;
pub use fields::Fields;
/// The memory that a reader of tokens needs. It can move to another thread.
pub use json::Scratch as TokenScratch;
pub use scratch::Scratch;
pub use value::Value;
