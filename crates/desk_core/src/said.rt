//! What a line says.
use crate::Words;
use crate::desk::Target;
use codes_core::{Day, PlaceCode, ThingCode};
use posting_core::Message;

/// The code of a thing or of a place.
#[derive(Clone, Copy)]
pub enum Code {
    Thing(ThingCode),
    Place(PlaceCode),
}

/// Why a line isn't done. Nothing changes then.
#[derive(Clone, Copy)]
pub enum Rejection {
    /// The code isn't in the setup.
    NotListed(Code),
    /// The setup lists this code, which differs from the line's in upper and lower case only.
    OtherCase(Code),
    /// The setup lists the code as a place and as a container. The line needs `to` or `into`.
    Ambiguous,
    /// There is no target for the thing.
    NoTarget,
    /// There is no day for the message.
    NoDay,
    /// The line is none of those that a desk takes.
    NotUnderstood,
}

/// What a line says.
#[derive(Drop)]
pub enum Said {
    /// An empty line, or a remark.
    Nothing,
    /// Help is wanted.
    Help,
    /// The new target of the desk, or that it has none.
    Target(Option<Target>),
    /// The new day of the desk.
    Day(Day),
    /// A message for the desk to send.
    Message(Message),
    /// The line is a JSON line of another station, to be passed on as it is.
    Line,
    /// The words of a report that is wanted, first the name of its command.
    Report(Words),
    /// The line isn't done.
    Rejected(Rejection),
}
