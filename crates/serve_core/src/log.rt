//! The log of a serving.
ghost use Rattle.std.specs.Prelude.{◌≡◌, []};

use crate::LogLine;
use std::alloc::Global;
use std::marker::Model;

/// The items that were taken from lanes, each with its reply, in the order in which they were
/// taken. Contracts see it as the list of its lines.
#[derive(Drop)]
pub struct Log {
    pub(crate) lines: Vec<LogLine>,
}

impl Model for Log {
    ghost use Rattle.std.specs.Prelude.{List};
    ghost use Rattle.serve_core.specs.declared.item.LogLine.{LogLine};

    ghost Value = { List LogLine };

    ghost view = { λ l. l.lines.items };
}

impl Log {
    /// An empty log. Takes no memory.
    pub fn new(alloc: Global) -> Log
        ensures { result ≡ [] }
    {
        Log {
            lines: Vec::new(alloc),
        }
    }

    /// Returns the lines, in order.
    pub fn lines(&self) -> &[LogLine]
        ensures { result.now ≡ self.now }
    {
        &self.lines
    }
}
