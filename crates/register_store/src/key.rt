//! The keys of messages and of the lines around them.
ghost use Rattle.std.specs.Prelude.{◌≡◌};
ghost use Rattle.register_store.specs.Spelling.{key_name};

use std::fmt;

/// A key of a message, or of the line that has the message in it.
#[derive(Clone, Copy, Debug, PartialEq, Eq)]
pub enum Key {
    Kind,
    Thing,
    Place,
    Container,
    Day,
    By,
    Loan,
    Partner,
    Objects,
    First,
    Last,
    Station,
    N,
    Message,
    Ask,
}

impl Key {
    /// The key as it is spelled in JSON.
    pub fn name(self) -> &'static str
        ensures { result.now ≡ key_name self }
    {
        match self {
            Key::Kind => "kind",
            Key::Thing => "thing",
            Key::Place => "place",
            Key::Container => "container",
            Key::Day => "day",
            Key::By => "by",
            Key::Loan => "loan",
            Key::Partner => "partner",
            Key::Objects => "objects",
            Key::First => "first",
            Key::Last => "last",
            Key::Station => "station",
            Key::N => "n",
            Key::Message => "message",
            Key::Ask => "ask",
        }
    }
}

impl fmt::Display for Key {
    fn fmt<W: fmt::Write>(&self, f: &mut fmt::Formatter<W>) -> fmt::Result {
        f.write_str(self.name())
    }
}
