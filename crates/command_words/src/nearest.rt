//! Finds the explained word that is nearest to a text.
ghost use Rattle.std.specs.Prelude.{◌≡◌, ◌≤◌, ◌⊎◌, All, IfOk, IfSome, Some};
ghost use Rattle.command_words.specs.Distances.{IsAsNear, IsFoundBy, IsNoNearer, edits_between};
ghost use Rattle.command_words.specs.Distances.{lowered};

use crate::Meaning;
use std::alloc::{AllocError, Global};
use strsim::generic_levenshtein;

/// An explained word, and its distance from a text: the number of bytes to add, drop or change to
/// turn one into the other. The case of letters is ignored.
#[derive(Clone, Copy)]
pub struct Nearest {
    pub meaning: &'static Meaning,
    pub edits: usize,
}

/// Returns the nearest of the best word so far and the words of a table. Fault: AllocError, if
/// memory runs out.
pub(crate) fn nearest_in(
    alloc: Global,
    text: &str,
    table: &'static [Meaning],
    best: Option<Nearest>,
) -> Result<Option<Nearest>, AllocError>
    requires { IsFoundBy text.now best }
    ensures found { IfOk result (IsFoundBy text.now) }
    ensures least { IfOk result (λ found. All (IsNoNearer text.now found) table.now) }
    ensures best { IfOk result (IsAsNear best) }
{
    let mut best = best;
    for meaning in table {
        let edits = edits_between(alloc, text, meaning.word)?;
        best = Some(nearer(best, Nearest { meaning, edits }));
    }
    Ok(best)
}

/// The nearer of two words.
fn nearer(best: Option<Nearest>, next: Nearest) -> Nearest
    ensures one { (result ≡ next) ⊎ (Some result ≡ best) }
    ensures next { result.edits ≤ next.edits }
    ensures best { IfSome best (λ best. result.edits ≤ best.edits) }
{
    match best {
        Some(best) if best.edits <= next.edits => best,
        _ => next,
    }
}

/// The distance of a word from a text.
fn edits_between(alloc: Global, text: &str, word: &str) -> Result<usize, AllocError>
    ensures { IfOk result (λ edits. edits ≡ edits_between text.now word.now) }
{
    let text = lowered(alloc, text)?;
    let word = lowered(alloc, word)?;
    generic_levenshtein(alloc, text.as_slice(), word.as_slice())
}

/// The bytes of a text, with A to Z in lower case.
fn lowered(alloc: Global, text: &str) -> Result<Vec<u8>, AllocError>
    ensures { IfOk result (λ bytes. bytes.items ≡ lowered text.now) }
{
    text.as_bytes()
        .iter()
        .map(|byte| byte.to_ascii_lowercase())
        .collect(alloc)
}
