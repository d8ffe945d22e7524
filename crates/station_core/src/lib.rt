//! Hold-back: brings each station's messages into order before they are posted.
//!
//! Each station numbers its messages from 1. They may arrive late, twice or out of order. They come
//! out once each, in the order of their numbers, up to the station's sign-off. A message that
//! arrives before its turn is held, if it is at most [`WINDOW`] numbers above the posted ones.
//!
//! [`Sequences`] has the state of all stations. `test` returns why a message can't be taken
//! ([`Refusal`]), `take` holds it ([`Taken`]), and `next_due` returns the next message to post.
//! `new` takes all the memory; no other call can run out of it. The clauses named `taken` promise
//! that the stations agree with the list of all messages taken so far.
//!
//! ```text
//! let mut stations = Sequences::new(alloc, &[Start { posted: 0, signed: false }])?;
//! if stations.test(0, n).is_none() {
//!     stations.take(0, n, message);
//!     while let Some((number, due)) = stations.next_due(0) {
//!         // post it; if it is the sign-off, call stations.sign_off(0)
//!     }
//! }
//! ```
#![tactic(auto)]

ghost use Rattle.std.specs.Prelude.{◌≡◌};
ghost use Rattle.station_core.specs.Refusals.{refusal_name};

mod sequences;
mod series;

pub use sequences::Sequences;

/// How many numbers above its posted ones a station may send.
pub const WINDOW: usize = 256;

/// The greatest number that a message can have.
pub const LAST: u32 = 999_999;

/// The state in which a station starts: how many of its messages are posted, at most [`LAST`], and
/// whether the last of them is a sign-off.
#[derive(Clone, Copy, Debug, PartialEq, Eq)]
pub struct Start {
    pub posted: u32,
    pub signed: bool,
}

/// Why a message is refused. If several apply, the first in this order is returned.
#[derive(Clone, Copy, Debug, PartialEq, Eq)]
pub enum Refusal {
    /// There is no station with this number.
    UnknownStation,
    /// The message's number is 0 or above [`LAST`].
    BadNumber,
    /// A message with this number is already posted or held.
    Double,
    /// The station's sign-off is posted.
    SignedOff,
    /// The number is more than [`WINDOW`] above the posted ones.
    TooEarly,
}

impl Refusal {
    /// The name that a reply prints.
    pub fn name(&self) -> &'static str
        ensures { result.now ≡ refusal_name self.now }
    {
        match self {
            Refusal::UnknownStation => "UnknownStation",
            Refusal::BadNumber => "BadNumber",
            Refusal::Double => "Double",
            Refusal::SignedOff => "SignedOff",
            Refusal::TooEarly => "TooEarly",
        }
    }
}

/// The result of taking a message.
#[derive(Clone, Copy, Debug, PartialEq, Eq)]
pub enum Taken {
    /// It waits for a lower number.
    Held,
    /// It is the station's next message.
    Ready,
}
