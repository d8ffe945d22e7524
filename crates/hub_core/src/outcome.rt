//! The outcomes of lines, and the watch that a replay shows them to.

use posting_core::Verdict;
use station_core::Refusal;

/// An outcome of a line. An empty line has none. Any other line has [`Outcome::Answered`] and then
/// one other outcome, or an [`Outcome::Posted`] for each entry that it posts.
#[derive(Clone, Copy, Debug, PartialEq, Eq)]
pub enum Outcome {
    /// The line isn't empty and has a reply. Its other outcomes follow.
    Answered,
    /// The line is faulty or too long.
    Bad,
    /// The setup doesn't have the line's station.
    UnknownStation,
    /// The message is refused for this reason.
    Refused(Refusal),
    /// The message is held: it waits for one with a lower number.
    Held,
    /// An entry is posted with this verdict.
    Posted(Verdict),
    /// The line is a question.
    Asked,
}

/// Sees the outcomes of the lines that a replay answers.
pub trait Watch {
    ghost use Rattle.std.specs.Prelude.{List, [], ◌∷◌, ◌++◌};
    ghost use Rattle.hub_core.specs.declared.outcome.Outcome.{Outcome};

    /// The watch has seen these outcomes, oldest first. For a watch that keeps only counts, this is
    /// true of every list with those counts.
    ghost has_seen: { Self → List Outcome → Type 0 };

    /// Sees one more outcome.
    fn see(&mut self, outcome: Outcome)
        ensures { (before : List Outcome) → has_seen self.old before
            → has_seen self.new (before ++ outcome ∷ []) };
}

/// A watch that keeps nothing.
#[derive(Drop)]
pub(crate) struct Unwatched;

impl Watch for Unwatched {
    ghost has_seen = { λ _ _. Unit {0} };

    fn see(&mut self, _outcome: Outcome) {}
}
