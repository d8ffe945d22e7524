//! The messages that stations send to the hub, and its answers.

use nest_core::{PlaceNo, StationNo, ThingNos};
use posting_core::Message;
use station_core::Refusal;
use std::alloc::AllocError;
use thiserror::Error;

/// A message as it arrives: from any station, known or not, under any number.
#[derive(Drop)]
pub struct Arrival {
    pub station: StationNo,
    pub n: u64,
    pub message: Message,
}

/// The hub's answer to an arrival.
#[derive(Clone, Copy, Debug, PartialEq, Eq)]
pub enum Answer {
    /// The message isn't taken, for this reason.
    Refused(Refusal),
    /// The message is taken, and waits for one with a lower number.
    Held,
    /// Entries were posted: the numbers of the first and the last, from 1.
    Posted { first: u64, last: u64 },
}

/// Where a thing is.
#[derive(Debug, Drop)]
pub enum Where {
    /// The setup doesn't have the thing.
    UnknownThing,
    /// The thing was never placed.
    Unplaced,
    /// The thing is at this place, in these containers, innermost first.
    At { place: PlaceNo, chain: ThingNos },
}

/// Why the hub returns no answer. A hub that is down always returns Down.
#[derive(Clone, Copy, Debug, PartialEq, Eq, Error)]
pub enum HubFault {
    /// A request for memory was refused.
    #[error("out of memory")]
    NoMemory,
    /// The register's store failed, for another reason than memory.
    #[error("the store failed")]
    Store,
    /// The hub met a fault earlier.
    #[error("the hub is down")]
    Down,
}

impl From<codes_core::NoMemory> for HubFault {
    ghost use Rattle.std.specs.Prelude.{◌≡◌};
    ghost use Rattle.hub_core.specs.declared.hub.answer.HubFault.TheVariants as faults;

    ghost from_gives = { λ _ e. e ≡ faults.NoMemory };

    fn from(_fault: codes_core::NoMemory) -> HubFault {
        HubFault::NoMemory
    }
}

impl From<AllocError> for HubFault {
    ghost use Rattle.std.specs.Prelude.{◌≡◌};
    ghost use Rattle.hub_core.specs.declared.hub.answer.HubFault.TheVariants as faults;

    ghost from_gives = { λ _ e. e ≡ faults.NoMemory };

    fn from(_error: AllocError) -> HubFault {
        HubFault::NoMemory
    }
}
