//! The explanation of a word that the program prints.

/// The explanation of a word. Its lines fit a terminal of 80 columns. A longer text has a line feed
/// at the break.
#[derive(Clone, Copy)]
pub struct Meaning {
    /// The word as it is printed.
    pub word: &'static str,
    /// The meaning, in half a line and without a full stop.
    pub means: &'static str,
    /// Its usual cause.
    pub cause: &'static str,
    /// What to do.
    pub action: &'static str,
}
