//! Explains a word that the program prints.

use crate::advice::Advice;
use crate::fault::CommandFault;
use command_words::{Meaning, Nearest, nearest_explained};
use std::alloc::Global;
use std::io;
use std::io::Write;

/// The longest text in bytes that is compared with the words. Every word is shorter.
const LONGEST: usize = 100;

/// Prints the word's meaning, its usual cause, and the action to take. The case of letters is
/// ignored. Faults: Name, if the word is not explained; WriteFailed. NoMemory can come instead of
/// any result.
pub fn explain<W: Write>(alloc: Global, word: &str, output: &mut W) -> Result<(), CommandFault> {
    let found = if word.len() <= LONGEST {
        nearest_explained(alloc, word)?
    } else {
        None
    };
    match found {
        Some(found) if found.edits == 0 => {
            write_meaning(found.meaning, output).map_err(|_| CommandFault::WriteFailed)
        }
        found => Err(CommandFault::Name(on_word(alloc, word, found))),
    }
}

fn write_meaning<W: Write>(meaning: &Meaning, output: &mut W) -> io::Result<()> {
    writeln!(output, "{}: {}.", meaning.word, meaning.means)?;
    writeln!(output, "Cause: {}", meaning.cause)?;
    writeln!(output, "Do: {}", meaning.action)
}

/// The advice on an unknown word: the nearest word, if its distance is at most half of the length.
fn on_word(alloc: Global, word: &str, nearest: Option<Nearest>) -> Advice {
    match nearest {
        Some(found) if found.edits <= word.len() / 2 => {
            format!(in alloc; "did you mean {}?", found.meaning.word).ok()
        }
        _ => format!(in alloc;
            "copy a word of the output, for example 'pairsalder explain NotListed'"
        ).ok(),
    }
}
