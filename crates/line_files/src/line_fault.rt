//! Why no record takes a line.
ghost use Rattle.std.specs.Prelude.{◌≡◌, ◌++◌, IfOk, codes, string_bytes};
ghost use Rattle.line_files.specs.Readings.{fault_text};
ghost use Rattle.hub_core.specs.LineText as line_text;

use codes_core::NoMemory;
use register_store::ReadFault;
use std::alloc::Global;

/// Why no record takes a line. If several apply, the first in this order is returned.
#[derive(Clone, Copy, Debug, PartialEq, Eq)]
pub enum LineFault {
    /// The line has more than 16,384 bytes.
    TooLong,
    /// The line doesn't read as a message or a question.
    Unread(ReadFault),
    /// The setup doesn't have the line's station.
    UnknownStation,
    /// The line is another station's.
    OtherStation,
    /// The line asks where a thing is.
    Question,
    /// The message's number is 0, or greater than the last number that a message may have.
    BadNumber,
    /// The message's number is greater than that of the station's sign-off.
    SignedOff,
}

impl LineFault {
    /// The fault's words: its name, as a replay's reply to the line has it, and its key, if it has
    /// one. Fails with `NoMemory`.
    pub(crate) fn text(self, alloc: Global) -> Result<String, NoMemory>
        ensures { IfOk result (λ text. string_bytes text ≡ fault_text self) }
    {
        let (name, key) = self.words();
        Ok(format!(in alloc; "{name}{key}")?)
    }

    /// The name, and the key.
    fn words(self) -> (&'static str, &'static str)
        ensures { result.0.now ++ result.1.now ≡ fault_text self }
    {
        match self {
            LineFault::TooLong => ("TooLong", ""),
            LineFault::Unread(fault) => read_words(fault),
            LineFault::UnknownStation => ("UnknownStation", ""),
            LineFault::OtherStation => ("OtherStation", ""),
            LineFault::Question => ("Question", ""),
            LineFault::BadNumber => ("BadNumber", ""),
            LineFault::SignedOff => ("SignedOff", ""),
        }
    }
}

fn read_words(fault: ReadFault) -> (&'static str, &'static str)
    ensures { result.0.now ++ result.1.now ≡ line_text.fault_text fault }
{
    match fault {
        ReadFault::NotJson => ("NotJson", ""),
        ReadFault::Missing(key) => ("Missing ", key.name()),
        ReadFault::BadKind => ("BadKind", ""),
        ReadFault::BadField(key) => ("BadField ", key.name()),
        ReadFault::NoMemory => ("NoMemory", ""),
    }
}
