//! The words of a report.
ghost use Rattle.std.specs.Prelude.{◌≡◌, ◌++◌, ◌∷◌, [], OnErr, OnOk, map, string_bytes};

use codes_core::NoMemory;
use std::alloc::Global;
use std::marker::Model;

/// Words, in order. Contracts see each as its bytes.
#[derive(Drop)]
pub struct Words {
    texts: Vec<String>,
}

impl Model for Words {
    ghost use Rattle.std.specs.Prelude.{List, ℕ, map, string_bytes};

    ghost Value = { List (List ℕ) };

    ghost view = { λ w. map string_bytes w.texts.items };
}

impl Words {
    /// No words.
    pub(crate) fn new(alloc: Global) -> Words
        ensures { result ≡ [] }
    {
        Words {
            texts: Vec::new(alloc),
        }
    }

    /// Adds a word at the end. Fails with `NoMemory`.
    pub(crate) fn push(&mut self, alloc: Global, word: &str) -> Result<(), NoMemory>
        ensures { OnOk result (self.new ≡ self.old ++ word.now ∷ []) }
    {
        let text = String::from_str(alloc, word)?;
        self.texts.push(text)?;
        Ok(())
    }

    /// The words, as texts.
    pub fn as_slice(&self) -> &[String]
        ensures { map string_bytes result.now ≡ self.now }
    {
        &self.texts
    }
}
