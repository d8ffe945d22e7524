//! The question that the words of a report ask at a desk.
ghost use Rattle.std.specs.Prelude.{◌≡◌, None, IfOk, IsTrue, MatchResult, map, string_bytes};
ghost use Rattle.command_words.specs.Words.{texts_of};
ghost use Rattle.question_words.specs.Desk.{DeskAsks, IsDeskQuestion};
ghost use Rattle.question_words.specs.Questions.{faulty, names_station};

use crate::{Wanted, WantedFault, wanted_of};
use codes_core::NoMemory;
use command_words::Asked;
use command_words::desk::{asked, desk_line};
use reports::Question;
use std::alloc::Global;

/// Returns the question that the words ask at a desk. The first word is the report's name. None for
/// a usage error, for words that choose no report or one that a desk doesn't print, and if a value
/// is not in its form. Fails with `NoMemory`.
pub fn desk_question(alloc: Global, words: &[String]) -> Result<Option<Question>, NoMemory>
    ensures { IfOk result (DeskAsks (map string_bytes words.now)) }
{
    let words = borrowed(alloc, words)?;
    let line = desk_line(alloc, words.as_slice())?;
    match asked(alloc, line.as_slice())? {
        Some(asked) => question_of(alloc, asked),
        None => Ok(None),
    }
}

/// Returns the question of a report at a desk. None for a count list, and if a value is not in its
/// form. Fails with `NoMemory` only if the words name a station and no value is faulty.
pub fn question_of(alloc: Global, asked: Asked<'_>) -> Result<Option<Question>, NoMemory>
    ensures { MatchResult result
        (IsDeskQuestion asked.entry)
        (λ _. IsTrue (names_station asked.entry) × (faulty asked.entry ≡ None)) }
{
    match wanted_of(alloc, asked) {
        Ok(Wanted::Answer(question)) => Ok(Some(question)),
        Ok(Wanted::Count { .. }) => Ok(None),
        Err(WantedFault::Value(_)) => Ok(None),
        Err(WantedFault::NoMemory) => Err(NoMemory),
    }
}

/// The same words, borrowed.
fn borrowed(alloc: Global, texts: &[String]) -> Result<Vec<&str>, NoMemory>
    ensures { IfOk result (λ words. texts_of words.items ≡ map string_bytes texts.now) }
{
    let mut words = Vec::new(alloc);
    for text in texts {
        words.push(text.as_str())?;
    }
    Ok(words)
}
