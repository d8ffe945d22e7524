//! The ledger: judges messages by the museum's rules, posts them, and returns where things are and
//! how far loans have come.
//!
//! A [`Message`] of a station is of one of nine kinds, such as a move or an exit. Its [`Verdict`]
//! is `Applied`, or the first rule that it breaks. [`Ledger`] keeps the posted messages, each as an
//! [`Entry`] with its verdict; a refused message is posted, too, and changes nothing else. A
//! [`Spot`] is one location of a thing, current or former. A *loan line* is an object on a loan,
//! with the [`LineStage`] that it has reached.
//!
//! Each answer of a ledger is that of looking back through its entries. [`Changes`] has exactly the
//! changes that posting a message makes. [`laws`] has facts that are true of every ledger: for
//! example, each own object is home, or away under exactly one loan out.
//!
//! [`find_culprit`] returns the code that broke a rule: a thing, place or loan that the message
//! names, or an object that crosses with the message's thing. [`past`] returns the ledger as it was
//! after an earlier entry, and [`post_next`] posts the entry after it.
//!
//! ```text
//! let changes = ledger.plan(alloc, &message)?;
//! let verdict = changes.verdict;
//! let entry = Entry { station, n, message, verdict };
//! ledger.apply(alloc, &entry, &changes)?;     // after NoMemory the ledger is unchanged
//! ledger.place_of(thing)
//!
//! let culprit = find_culprit(alloc, &ledger, &message, Verdict::NotListed)?;
//! // 1987.12.3, which is in the crate that left, and isn't on the loan
//!
//! let mut then = past(alloc, &ledger, 17)?;     // as it was after entry 17
//! post_next(alloc, &ledger, &mut then, 17)?;    // and after entry 18, which has index 17
//! ```
#![tactic(auto)]

mod crossing;
mod culprit;
mod entry;
mod kept_loan;
mod kept_loans;
mod kept_message;
pub mod laws;
mod ledger;
mod message;
mod named;
mod numbers;
mod objects;
mod past_ledger;
mod placement;
mod posted_entry;
mod recording;
mod spot_rows;
mod spots;
mod stage;
mod standing;
mod verdict;

pub use culprit::{Culprit, find_culprit};
pub use entry::{Changes, Entry, EntryNo, NewLine, NewLines, NewSpot, NewSpots, Spot};
pub use kept_message::KeptMessage;
pub use ledger::Ledger;
pub use message::Message;
pub use named::{container_named, kind_name, loan_named, place_named, thing_named, things_named};
pub use objects::Objects;
pub use past_ledger::{past, post_next};
pub use posted_entry::PostedEntry;
pub use spots::Spots;
pub use stage::{LineStage, LoanState};
pub use verdict::Verdict;

/// The most objects that a loan can list.
pub const MOST_OBJECTS: usize = 256;

/// The greatest number that a station can give a message.
pub const LAST_NUMBER: u32 = 999_999;

/// The most entries that can be posted: 64 stations, each up to [`LAST_NUMBER`].
pub const MOST_ENTRIES: u32 = 63_999_936;
