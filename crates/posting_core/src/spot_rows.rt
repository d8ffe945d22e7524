//! The spots of all things, in one list.
ghost use Rattle.std.specs.Prelude.{◌≡◌, ◌<◌, ◌≤◌, ◌+◌, ◌∷◌, [], length, replicate, All, IfOk};
ghost use Rattle.std.specs.Prelude.{OnOk};
ghost use Rattle.posting_core.specs.Rows.{row_of, rows_after};

use crate::{NewSpot, Spot, Spots};
use codes_core::NoMemory;
use nest_core::ThingNo;
use std::alloc::{AllocError, Global};
use std::marker::Model;

/// The number of spots that a thing has, and the index of the last one in the list. Without any
/// spots the index has no meaning.
#[derive(Clone, Copy)]
pub(crate) struct LastSpot {
    pub(crate) at: usize,
    pub(crate) count: usize,
}

/// A spot in the list, and the index of the thing's previous spot, if it has one.
#[derive(Clone, Copy)]
pub(crate) struct KeptSpot {
    pub(crate) spot: Spot,
    pub(crate) before: usize,
}

/// The spots of all things in one list, each linking to the thing's previous spot. Contracts see
/// each thing's spots, oldest first, and for how many more there is room.
///
/// Only that one list grows, so a message that moves many things makes room for all of them at
/// once.
#[derive(Drop)]
pub(crate) struct SpotRows {
    last: Vec<LastSpot>,
    spots: Vec<KeptSpot>,
}

impl Model for SpotRows {
    ghost use Rattle.std.specs.Prelude.{◌-◌, map, All, vec_len, vec_capacity};
    ghost use Rattle.posting_core.specs.SpotRows.{Rows, spots_at, IsLast};

    ghost Value = { Rows };

    ghost view = { λ a. record {
      rows = map (λ l. spots_at a.spots.items l.at l.count) a.last.items;
      room = vec_capacity a.spots - vec_len a.spots;
    } };

    ghost invariant = { λ a. All (IsLast a.spots.items) a.last.items };
}

impl SpotRows {
    /// The rows of this many things without any spots. Fails with `NoMemory`.
    pub(crate) fn new(alloc: Global, things: u32) -> Result<SpotRows, NoMemory>
        ensures { IfOk result (λ spots. spots.rows ≡ replicate things []) }
    {
        let none = LastSpot { at: 0, count: 0 };
        let last = vec![in alloc; none; things as usize]?;
        let spots = Vec::new(alloc);
        Ok(SpotRows { last, spots })
    }

    /// Makes room for this many more spots, of any things. Fails with `AllocError`. The spots stay
    /// as they are.
    pub(crate) fn reserve(&mut self, more: usize) -> Result<(), AllocError>
        ensures rows { self.new.rows ≡ self.old.rows }
        ensures room { OnOk result (more ≤ self.new.room) }
    {
        self.spots.reserve(more)
    }

    /// Adds these spots, one after another, each as the last of its thing. There must be room for
    /// all.
    pub(crate) fn push_all(&mut self, news: &[NewSpot])
        requires room { length news.now ≤ self.old.room }
        requires within { All (λ s. s.thing < length self.old.rows) news.now }
        ensures { self.new.rows ≡ rows_after self.old.rows news.now }
    {
        for i in 0..news.len() {
            self.push(news[i]);
        }
    }

    /// Adds a spot as the last of its thing. There must be room for it.
    fn push(&mut self, new: NewSpot)
        requires room { 0 < self.old.room }
        requires within { new.thing < length self.old.rows }
        ensures rows { self.new.rows ≡ rows_after self.old.rows (new ∷ []) }
        ensures room { self.new.room + 1 ≡ self.old.room }
    {
        let last = self.last[new.thing as usize];
        let at = self.spots.len();
        self.spots.push_reserved(KeptSpot {
            spot: new.spot,
            before: last.at,
        });
        let count = last.count + 1;
        self.last[new.thing as usize] = LastSpot { at, count };
    }

    /// The number of spots that a thing has.
    pub(crate) fn count_of(&self, thing: ThingNo) -> usize
        requires { thing < length self.now.rows }
        ensures { result ≡ length (row_of self.now.rows thing) }
    {
        self.last[thing as usize].count
    }

    /// A thing's spots.
    pub(crate) fn of(&self, thing: ThingNo) -> Spots<'_>
        requires { thing < length self.now.rows }
        ensures { result ≡ row_of self.now.rows thing }
    {
        Spots::new(&self.spots, self.last[thing as usize])
    }
}
