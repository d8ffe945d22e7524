//! The list of objects of a loan.
ghost use Rattle.std.specs.Prelude.{◌≡◌, ◌<◌, ◌≤◌, length, Vec, MatchResult, IfOk};

use crate::MOST_OBJECTS;
use codes_core::{NoMemory, ThingCode};
use std::alloc::Global;
use std::marker::Model;

/// The codes that a loan lists, in the order of the agreement, at most [`MOST_OBJECTS`]. Contracts
/// see it as the list.
#[derive(Drop)]
pub struct Objects {
    codes: Vec<ThingCode>,
}

impl Model for Objects {
    ghost use Rattle.std.specs.Prelude.{List, ℕ, ◌≤◌, length};
    ghost use Rattle.posting_core.specs.declared.TheConstants.{MOST_OBJECTS};

    ghost Value = { List (List ℕ) };

    ghost view = { λ o. o.codes.items };

    ghost invariant = { λ o. length o.codes.items ≤ MOST_OBJECTS };
}

impl Objects {
    /// Makes a list of these codes, which may be of any kind. If there are more than
    /// [`MOST_OBJECTS`], returns them as the error.
    pub fn new(codes: Vec<ThingCode>) -> Result<Objects, Vec<ThingCode>>
        ensures { MatchResult result
            (λ objects. (objects ≡ codes.items) × (length codes.items ≤ MOST_OBJECTS))
            (λ back. (back ≡ codes) × (MOST_OBJECTS < length codes.items)) }
    {
        if codes.len() > MOST_OBJECTS {
            return Err(codes);
        }
        Ok(Objects { codes })
    }

    /// The codes, in the order of the agreement.
    pub fn as_slice(&self) -> &[ThingCode]
        ensures codes { result.now ≡ self.now }
        ensures few { length self.now ≤ MOST_OBJECTS }
    {
        &self.codes
    }

    /// Returns a copy of the list. Fails with `NoMemory`.
    pub(crate) fn copy(&self, alloc: Global) -> Result<Objects, NoMemory>
        ensures { IfOk result (λ copy. copy ≡ self.now) }
    {
        let mut codes = Vec::new(alloc);
        codes.extend_from_slice(&self.codes)?;
        Ok(Objects { codes })
    }
}
