//! The items that a station sends, and the lines that a log has of them.
ghost use Rattle.std.specs.Prelude.{◌≡◌, IfOk};

use codes_core::{NoMemory, ThingCode};
use hub_core::{Answer, Where};
use posting_core::Message;
use register_store::ReadFault;
use std::alloc::Global;

/// Why a line of a feed has no request.
#[derive(Clone, Copy, Debug, PartialEq, Eq)]
pub enum LineFault {
    /// It has more bytes than a line may have.
    TooLong,
    /// It has this fault, which is never NoMemory in a [`TextFeed`](crate::TextFeed).
    Read(ReadFault),
}

/// An item of a feed.
#[derive(Drop)]
pub enum Item {
    /// A message with its number at the station.
    Scan { n: u64, message: Message },
    /// A question where the thing with this code is.
    Ask(ThingCode),
    /// A faulty line with its number, counted from 1.
    Bad { line: u64, fault: LineFault },
}

impl Item {
    /// Returns an item equal to this one. Fault: NoMemory.
    pub fn copy(&self, alloc: Global) -> Result<Item, NoMemory>
        ensures same { IfOk result (λ copy. copy ≡ self.now) }
    {
        match self {
            Item::Scan { n, message } => Ok(Item::Scan {
                n: *n,
                message: message.copy(alloc)?,
            }),
            Item::Ask(code) => Ok(Item::Ask(*code)),
            Item::Bad { line, fault } => Ok(Item::Bad {
                line: *line,
                fault: *fault,
            }),
        }
    }
}

/// The reply to an item.
#[derive(Debug, Drop)]
pub enum Reply {
    /// The hub's answer to a message.
    Answered(Answer),
    /// The place of a question's thing.
    Found(Where),
    /// A faulty line isn't passed to the hub.
    Unread,
}

/// A line of a log: a station, one of its items, and the reply.
#[derive(Drop)]
pub struct LogLine {
    pub station: u32,
    pub item: Item,
    pub reply: Reply,
}
