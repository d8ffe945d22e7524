//! A desk of one station, and the questions that it can answer.
ghost use Rattle.std.specs.Prelude.{IfOk, map, string_bytes};

use codes_core::NoMemory;
use nest_core::StationNo;
use reports::Question;
use std::alloc::Global;
use table_core::Labels;

/// A desk of one station.
#[derive(Clone, Copy)]
pub struct Bench<'a> {
    /// The station whose messages are sent from here.
    pub station: StationNo,
    /// Whether the answer to a line that isn't done rings the bell of a terminal: byte 7 before the
    /// line feed.
    pub has_bell: bool,
    /// The text that the line `help` prints.
    pub help: &'a str,
    /// The labels that stand for codes.
    pub labels: &'a Labels,
}

/// Reads the words of reports.
pub trait Questions {
    ghost use Rattle.std.specs.Prelude.{ℕ, List, Option};
    ghost use Rattle.reports.specs.declared.question.Question.{Question};

    /// Which question the words ask, each as its bytes.
    ghost asks: { List (List ℕ) → Option Question → Type 0 };

    /// Returns the question that the words ask. The first word names a report. None if they ask
    /// none. Fails with `NoMemory`.
    fn question(&self, alloc: Global, words: &[String]) -> Result<Option<Question>, NoMemory>
        ensures { IfOk result (asks (map string_bytes words.now)) };
}
