//! Labels, and the code that a text stands for.
ghost use Rattle.std.specs.Prelude.{◌≡◌, ◌≢◌, ◌++◌, ◌∷◌, [], None, OnOk, OnErr, option_map};
ghost use Rattle.std.specs.Bool.{MatchBool};
ghost use Rattle.table_core.specs.Labels.{code_for, code_of};

pub(crate) mod fault;
mod reader;
mod row;
mod text;

use crate::labels::text::trim;
use codes_core::NoMemory;
use indexmap::IndexMap;
use std::alloc::Global;
use std::marker::Model;

/// Labels, each with its code. Contracts see them as a list, in the order of their rows.
pub struct Labels {
    codes: IndexMap<Vec<u8>, Vec<u8>>,
}

impl Model for Labels {
    ghost use Rattle.std.specs.Prelude.{List, map};
    ghost use Rattle.table_core.specs.Labels.{Label};

    ghost Value = { List Label };

    ghost view = { λ l. map (λ e. record { label = e.0.items; code = e.1.items }) l.codes.entries };
}

/// Manual `Drop`: a derived one is inlined at every return and slows the proof.
impl Drop for Labels {
    fn drop(self) {
        let Labels { codes } = self;
        drop(codes);
    }
}

impl Labels {
    /// No labels: each text stands for itself.
    pub fn none(alloc: Global) -> Labels
        ensures { result ≡ [] }
    {
        Labels {
            codes: IndexMap::new(alloc),
        }
    }

    /// Whether there is no label.
    pub fn is_empty(&self) -> bool
        ensures { MatchBool result (self.now ≡ []) (self.now ≢ []) }
    {
        self.codes.is_empty()
    }

    /// The code that the text stands for: that of the label that the text is, without the blanks at
    /// its ends. A text that is no label is returned as it is.
    pub fn code_for<'a>(&'a self, text: &'a [u8]) -> &'a [u8]
        ensures { result.now ≡ code_for self.now text.now }
    {
        match self.code_of(trim(text)) {
            Some(code) => code,
            None => text,
        }
    }

    /// The code of the label that is this text.
    pub(crate) fn code_of(&self, text: &[u8]) -> Option<&[u8]>
        ensures { option_map (λ code. code.now) result ≡ code_of self.now text.now }
    {
        match self.codes.get(text) {
            Some(code) => Some(code.as_slice()),
            None => None,
        }
    }

    /// Adds a label, which must be new, with its code. Fails with `NoMemory`.
    pub(crate) fn add(&mut self, alloc: Global, label: &[u8], code: &[u8]) -> Result<(), NoMemory>
        requires { code_of self.old label.now ≡ None }
        ensures { OnOk result
            (self.new ≡ self.old ++ record { label = label.now; code = code.now } ∷ []) }
    {
        let label = Vec::from_slice(alloc, label)?;
        let code = Vec::from_slice(alloc, code)?;
        self.codes.insert(label, code)?;
        Ok(())
    }
}
