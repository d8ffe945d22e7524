//! How a setup grew.

/// The number of places and of things that are listed.
#[derive(Clone, Copy, Debug, PartialEq, Eq)]
pub struct Listed {
    pub places: u32,
    pub things: u32,
}

/// A growth: how many entries came before it, and what the setup listed until then.
/// Each entry is judged by what was listed when it was posted.
#[derive(Clone, Copy, Debug, PartialEq, Eq)]
pub struct Growth {
    pub after: u32,
    pub listed: Listed,
}
