//! Serves many stations at once: each station's thread sends, and the calling thread owns the hub.
//!
//! [`serve`] takes a hub and a [`Feed`] for each station. A thread sends the items of each feed
//! through a [`Lane`]. The calling thread takes them from the [`Intake`], passes them to the hub,
//! and adds each with its reply to the [`Log`]. [`ListFeed`] and [`TextFeed`] are feeds, and
//! [`add_logged`] prints a line of a log.
//!
//! The contracts promise, whatever the scheduler does:
//!
//! - The log is a merge of all feeds, each whole and in its order.
//! - Each reply is the one that follows from the lines above it, and the hub at the end is that of
//!   the log.
//! - After a fault the log has the first items of each feed, and all that the hub took, except
//!   perhaps the item that met the fault.
//!
//! That `serve` returns is tested, not proved. `docs/ARCHITECTURE.md` explains the lanes and
//! threads.
//!
//! ```text
//! match serve(&rt, alloc, hub, feeds) {
//!     Ok(Served { hub, log }) => ..,
//!     Err(ServeFailed { fault, hub, log }) => ..,
//! }
//! ```
#![tactic(auto)]

mod ending;
mod feed;
mod intake;
mod item;
mod item_replies;
mod lane;
mod log;
mod pause;
mod sending;
mod serve_fault;
mod serving;
mod text_feed;
mod turns;
mod wording;

pub use feed::{Feed, ListFeed};
pub use intake::{Intake, lanes};
pub use item::{Item, LineFault, LogLine, Reply};
pub use lane::{Full, Lane, LaneEnd};
pub use log::Log;
pub use sending::{SendsAll, Sent};
pub use serve_fault::ServeFault;
pub use serving::{ServeFailed, Served, serve};
pub use text_feed::TextFeed;
pub use wording::add_logged;
