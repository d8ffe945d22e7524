//! The text of a cell.
ghost use Rattle.std.specs.Prelude.{◌≡◌, IfOk};

use codes_core::NoMemory;
use std::alloc::Global;
use std::marker::Model;

/// The text of a cell, exactly as it is in the table. Contracts see it as its bytes.
#[derive(Debug, Drop)]
pub struct CellText {
    text: String,
}

impl Model for CellText {
    ghost use Rattle.std.specs.Prelude.{List, ℕ, string_bytes};

    ghost Value = { List ℕ };

    ghost view = { λ t. string_bytes t.text };
}

impl CellText {
    /// Copies a text. Fails with `NoMemory`.
    pub fn new(alloc: Global, text: &str) -> Result<CellText, NoMemory>
        ensures { IfOk result (λ copy. copy ≡ text.now) }
    {
        Ok(CellText {
            text: String::from_str(alloc, text)?,
        })
    }

    /// The text.
    pub fn as_str(&self) -> &str
        ensures { result.now ≡ self.now }
    {
        self.text.as_str()
    }
}
