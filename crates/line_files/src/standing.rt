//! How a line stands to the record.
ghost use Rattle.std.specs.Prelude.{◌≡◌, IfOk};

use crate::LineFault;
use codes_core::NoMemory;
use posting_core::Message;
use std::alloc::Global;

/// How a line of a station's file stands to the record.
#[derive(Drop)]
pub enum Standing {
    /// The record, or an earlier line of the file, has this message under this number.
    Same,
    /// The record, or an earlier line of the file, has this other message under the number.
    Other(Message),
    /// The message is posted if the file's lines are sent in the order of their numbers.
    Next,
    /// The message waits for these numbers, the first that neither the record nor the file has.
    Waits { from: u32, to: u32 },
    /// No record takes the line.
    Bad(LineFault),
}

/// A line of a file with its standing.
#[derive(Drop)]
pub struct Compared {
    /// The line's place in the file, from 1.
    pub row: usize,
    pub standing: Standing,
}

impl Standing {
    /// Returns a copy of the standing. Fails with `NoMemory`.
    pub(crate) fn copy(&self, alloc: Global) -> Result<Standing, NoMemory>
        ensures { IfOk result (λ copy. copy ≡ self.now) }
    {
        match self {
            Standing::Same => Ok(Standing::Same),
            Standing::Other(known) => Ok(Standing::Other(known.copy(alloc)?)),
            Standing::Next => Ok(Standing::Next),
            Standing::Waits { from, to } => Ok(Standing::Waits {
                from: *from,
                to: *to,
            }),
            Standing::Bad(fault) => Ok(Standing::Bad(*fault)),
        }
    }
}
