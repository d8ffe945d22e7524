//! The hub: takes messages from all stations, holds back those that come early, and posts the rest.
//!
//! [`Hub`] brings together the hold-back of `station_core`, the ledger of `posting_core` and a
//! register of `register_store`. [`Hub::open`] checks the register's entries, [`Hub::arrive`] takes
//! a message, and [`Hub::ask`] returns where a thing is. [`replay`] reads lines and writes the
//! replies, and [`run`] does so with a setup at the head of its input and without a store, over
//! [`Hub::session`]. A [`Watch`], such as [`Tally`], sees the outcomes of the lines.
//!
//! The contracts promise:
//!
//! - The reply to an arrival is the one that follows from all arrivals before it. Of each station,
//!   the longest unbroken run of its messages is posted, in order, up to its sign-off.
//! - A refused arrival changes nothing. After a fault the hub is down; its register opens again,
//!   with the posted messages and perhaps the next one.
//! - If `replay` returns Ok, it has read all bytes and written exactly their replies.
//!
//! ```text
//! let mut hub = Hub::open(alloc, setup, register)?;
//! let answer = hub.arrive(alloc, Arrival { station, n, message })?;
//! let place = hub.ask(alloc, &code)?;
//! let register = hub.close();
//! ```
#![tactic(auto)]

mod hub;
pub mod laws;
mod line;
mod outcome;
mod replay_fault;
mod run_fault;
mod stream;
mod tally;

pub use hub::answer::{Answer, Arrival, HubFault, Where};
pub use hub::{Hub, OpenFault};
pub use line::bytes::{MOST_KEPT, Reads, feed_at, flush, next_line, without_return};
pub use line::reply::{LONGEST_LINE, answer_request};
pub use line::request::{
    Line, Request, read_line, read_line_with, read_request, read_request_with,
};
pub use line::wording::{REPLY_ROOM, add_answer, add_asked, add_bad, add_too_long};
pub use outcome::{Outcome, Watch};
pub use replay_fault::ReplayFault;
pub use run_fault::RunFault;
pub use stream::head::LONGEST_HEAD;
pub use stream::lines::{replay, replay_watched, write_text};
pub use stream::run::run;
pub use tally::{Tally, VERDICTS};
