//! Counts the outcomes of lines.
ghost use Rattle.std.specs.Prelude.{◌≡◌, ◌<◌, ◌==◌, List, slice_index};
ghost use Rattle.std.specs.List.{list_all};
ghost use Rattle.posting_core.specs.VerdictNames.{verdict_number};
ghost use Rattle.hub_core.specs.Tallies.{refusal_place, nothing_seen, tallied, HasTallied};
ghost use Rattle.hub_core.specs.Tallies.{is_clean, is_fine};
ghost use Rattle.hub_core.specs.declared.outcome.Outcome.{Outcome};

use crate::{Outcome, Watch};
use posting_core::Verdict;
use station_core::Refusal;

/// The number of refusals. TooEarly is the last one.
const REFUSALS: usize = Refusal::TooEarly as usize + 1;

/// The number of verdicts. NotLater is the last one.
pub const VERDICTS: usize = Verdict::NotLater as usize + 1;

/// A watch that counts each outcome. Counts stop at 2^64 - 1.
#[derive(Clone, Copy, Debug)]
pub struct Tally {
    lines: u64,
    bad: u64,
    unknown_station: u64,
    refused: [u64; REFUSALS],
    held: u64,
    posted: [u64; VERDICTS],
    asked: u64,
}

impl Tally {
    /// A tally that has seen nothing.
    pub fn new() -> Tally
        ensures { result ≡ nothing_seen }
    {
        Tally {
            lines: 0,
            bad: 0,
            unknown_station: 0,
            refused: [0; REFUSALS],
            held: 0,
            posted: [0; VERDICTS],
            asked: 0,
        }
    }

    /// Returns how many lines have a reply. Empty lines aren't counted.
    pub fn lines(&self) -> u64
        ensures { result ≡ self.now.lines }
    {
        self.lines
    }

    /// Returns how many lines are faulty or too long.
    pub fn bad(&self) -> u64
        ensures { result ≡ self.now.bad }
    {
        self.bad
    }

    /// Returns how many lines name a station that the setup doesn't have.
    pub fn unknown_station(&self) -> u64
        ensures { result ≡ self.now.unknown_station }
    {
        self.unknown_station
    }

    /// Returns how many messages are refused for this reason.
    pub fn refused(&self, refusal: Refusal) -> u64
        ensures { result ≡ slice_index self.now.refused (refusal_place refusal) }
    {
        self.refused[refusal_place(refusal)]
    }

    /// Returns how many messages were held when they arrived.
    pub fn held(&self) -> u64
        ensures { result ≡ self.now.held }
    {
        self.held
    }

    /// Returns how many entries are posted with this verdict.
    pub fn posted(&self, verdict: Verdict) -> u64
        ensures { result ≡ slice_index self.now.posted (verdict_number verdict) }
    {
        self.posted[verdict_place(verdict)]
    }

    /// Returns how many lines are questions.
    pub fn asked(&self) -> u64
        ensures { result ≡ self.now.asked }
    {
        self.asked
    }

    /// Returns whether nothing went wrong: no line is bad or of an unknown station, no message is
    /// refused, and every entry is Applied.
    pub fn is_clean(&self) -> bool
        ensures counts { result ≡ is_clean self.now }
        // This is so exactly if each outcome that it has seen is fine.
        ensures seen { (outcomes : List Outcome) → HasTallied self.now outcomes
            → result ≡ list_all is_fine outcomes }
    {
        if self.bad > 0 || self.unknown_station > 0 {
            return false;
        }
        are_zero(&self.refused) && are_zero(&self.posted[1..])
    }

    /// Counts one more outcome.
    fn add(&mut self, outcome: Outcome)
        ensures { self.new ≡ tallied self.old outcome }
    {
        match outcome {
            Outcome::Answered => self.lines = self.lines.saturating_add(1),
            Outcome::Bad => self.bad = self.bad.saturating_add(1),
            Outcome::UnknownStation => {
                self.unknown_station = self.unknown_station.saturating_add(1);
            }
            Outcome::Refused(refusal) => {
                let place = refusal_place(refusal);
                self.refused[place] = self.refused[place].saturating_add(1);
            }
            Outcome::Held => self.held = self.held.saturating_add(1),
            Outcome::Posted(verdict) => {
                let place = verdict_place(verdict);
                self.posted[place] = self.posted[place].saturating_add(1);
            }
            Outcome::Asked => self.asked = self.asked.saturating_add(1),
        }
    }
}

impl Watch for Tally {
    ghost use Rattle.hub_core.specs.Tallies.{HasTallied};

    ghost has_seen = { HasTallied };

    fn see(&mut self, outcome: Outcome) {
        self.add(outcome);
    }
}

/// Whether all counts are 0.
fn are_zero(counts: &[u64]) -> bool
    ensures { result ≡ list_all (λ n. n == 0) counts.now }
{
    counts.iter().all(|count| *count == 0)
}

/// The index of a refusal's count.
fn refusal_place(refusal: Refusal) -> usize
    ensures place { result ≡ refusal_place refusal }
    ensures within { result < REFUSALS }
{
    match refusal {
        Refusal::UnknownStation => 0,
        Refusal::BadNumber => 1,
        Refusal::Double => 2,
        Refusal::SignedOff => 3,
        Refusal::TooEarly => 4,
    }
}

/// The index of a verdict's count.
fn verdict_place(verdict: Verdict) -> usize
    ensures place { result ≡ verdict_number verdict }
    ensures within { result < VERDICTS }
{
    verdict.number() as usize
}
