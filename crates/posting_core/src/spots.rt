//! The spots of one thing, read from the last one back.
ghost use Rattle.std.specs.Prelude.{◌≡◌, ◌<◌, ◌++◌, ◌∷◌, [], length, IfOk, OnErr, IfSome, IfNone};
ghost use Rattle.posting_core.specs.SpotRows.{spots_at, LeadBack};

use crate::Spot;
use crate::spot_rows::{KeptSpot, LastSpot};
use codes_core::NoMemory;
use std::alloc::Global;
use std::marker::Model;

/// Reads the spots of one thing from the last one back. Contracts see the spots that are left,
/// oldest first.
#[derive(Drop)]
pub struct Spots<'a> {
    // the spots of all things, the index of the thing's last spot that is left, and how many are
    // left
    kept: &'a [KeptSpot],
    at: usize,
    left: usize,
}

impl<'a> Model for Spots<'a> {
    ghost use Rattle.std.specs.Prelude.{List};
    ghost use Rattle.posting_core.specs.declared.entry.Spot.{Spot};
    ghost use Rattle.posting_core.specs.SpotRows.{spots_at, LeadBack};

    ghost Value = { List Spot };

    ghost view = { λ s. spots_at s.kept.now s.at s.left };

    ghost invariant = { λ s. LeadBack s.kept.now s.at s.left };
}

impl<'a> Spots<'a> {
    /// The spots of the thing whose last spot this is, in the list of those of all things.
    pub(crate) fn new(kept: &'a [KeptSpot], last: LastSpot) -> Spots<'a>
        requires { LeadBack kept.now last.at last.count }
        ensures { result ≡ spots_at kept.now last.at last.count }
    {
        Spots {
            kept,
            at: last.at,
            left: last.count,
        }
    }

    /// Returns the last spot that is left. At the end it returns `None`, and stays there.
    pub fn next_back(&mut self) -> Option<Spot>
        ensures last { IfSome result (λ spot. self.old ≡ self.new ++ spot ∷ []) }
        ensures none { IfNone result ((self.old ≡ []) × (self.new ≡ [])) }
    {
        if self.left == 0 {
            return None;
        }
        let kept = self.kept[self.at];
        self.at = kept.before;
        self.left -= 1;
        Some(kept.spot)
    }

    /// Returns the spots that are left, oldest first. Fails with `NoMemory`, but only if there is
    /// one.
    pub fn to_vec(self, alloc: Global) -> Result<Vec<Spot>, NoMemory>
        ensures spots { IfOk result (λ spots. spots.items ≡ self.entry) }
        ensures err { OnErr result (0 < length self.entry) }
    {
        let mut left = self;
        let mut spots = Vec::new(alloc);
        while let Some(spot) = left.next_back() {
            spots.push(spot)?;
        }
        spots.reverse();
        Ok(spots)
    }
}
