//! All words that are explained.
ghost use Rattle.std.specs.Prelude.{IfOk};
ghost use Rattle.command_words.specs.Distances.{IsFoundBy};

use crate::columns::COLUMNS;
use crate::desk_words::DESK_WORDS;
use crate::faults::{INPUT_FAULTS, RUN_FAULTS};
use crate::nearest::nearest_in;
use crate::refusals::REFUSALS;
use crate::seal_words::SEAL_WORDS;
use crate::sheet_words::SHEET_WORDS;
use crate::states::{ANSWERS, COUNT_ANSWERS, STAGES};
use crate::store_faults::STORE_FAULTS;
use crate::verdicts::VERDICTS;
use crate::{Meaning, Nearest};
use std::alloc::{AllocError, Global};

/// The subject of a table of words.
#[derive(Clone, Copy)]
enum Subject {
    Verdicts,
    Refusals,
    InputFaults,
    RunFaults,
    StoreFaults,
    Answers,
    Stages,
    CountAnswers,
    DeskWords,
    SheetWords,
    SealWords,
    Columns,
}

/// All subjects.
const SUBJECTS: &[Subject] = &[
    Subject::Verdicts,
    Subject::Refusals,
    Subject::InputFaults,
    Subject::RunFaults,
    Subject::StoreFaults,
    Subject::Answers,
    Subject::Stages,
    Subject::CountAnswers,
    Subject::DeskWords,
    Subject::SheetWords,
    Subject::SealWords,
    Subject::Columns,
];

/// The words of a subject. No two of all words differ only in the case of their letters. One table
/// of all would be too large for the prover.
fn words_of(subject: Subject) -> &'static [Meaning] {
    match subject {
        Subject::Verdicts => VERDICTS,
        Subject::Refusals => REFUSALS,
        Subject::InputFaults => INPUT_FAULTS,
        Subject::RunFaults => RUN_FAULTS,
        Subject::StoreFaults => STORE_FAULTS,
        Subject::Answers => ANSWERS,
        Subject::Stages => STAGES,
        Subject::CountAnswers => COUNT_ANSWERS,
        Subject::DeskWords => DESK_WORDS,
        Subject::SheetWords => SHEET_WORDS,
        Subject::SealWords => SEAL_WORDS,
        Subject::Columns => COLUMNS,
    }
}

/// Returns the meanings of the verdicts, in the order of the verdicts.
pub fn list_verdicts() -> &'static [Meaning] {
    words_of(Subject::Verdicts)
}

/// Returns the explained word that is nearest to the text, and its distance. Fault: AllocError, if
/// memory runs out.
pub fn nearest_explained(alloc: Global, text: &str) -> Result<Option<Nearest>, AllocError>
    ensures { IfOk result (IsFoundBy text.now) }
{
    let mut best = None;
    for subject in SUBJECTS {
        best = nearest_in(alloc, text, words_of(*subject), best)?;
    }
    Ok(best)
}
