//! Posted entries, and the changes that posting an entry makes.

use crate::{LineStage, Message, Verdict};
use codes_core::{Day, LoanCode, NoMemory};
use nest_core::{PlaceNo, Put, StationNo, ThingNo, ThingNos};
use smallvec::SmallVec;
use std::alloc::Global;
use std::marker::Model;

/// The number of an entry in the posted list, from 1.
pub type EntryNo = u32;

/// A posted message: the number of its station, the number that the station gave it (from 1), and
/// its verdict.
#[derive(Drop)]
pub struct Entry {
    pub station: StationNo,
    pub n: u32,
    pub message: Message,
    pub verdict: Verdict,
}

/// One location of a thing: the number of the entry that brought it there, the place, and the
/// location date.
#[derive(Clone, Copy, Debug, Default, PartialEq, Eq, PartialOrd, Ord)]
pub struct Spot {
    pub entry: EntryNo,
    pub place: PlaceNo,
    pub day: Day,
}

/// A new spot of a thing. `k` is its number among the thing's spots, from 1.
#[derive(Clone, Copy, Debug, Default, PartialEq, Eq, PartialOrd, Ord)]
pub struct NewSpot {
    pub thing: ThingNo,
    pub k: u32,
    pub spot: Spot,
}

/// The new spots that an entry adds. A list of one takes no memory. Contracts see it as the list.
#[derive(Debug)]
pub struct NewSpots {
    items: SmallVec<NewSpot, 1>,
}

impl Model for NewSpots {
    ghost use Rattle.std.specs.Prelude.{◌≤◌, List};
    ghost use Rattle.posting_core.specs.declared.entry.NewSpot.{NewSpot};

    ghost Value = { List NewSpot };

    ghost view = { λ s. s.items.items };

    ghost invariant = { λ s. 1 ≤ s.items.capacity };
}

/// Manual `Drop`: a derived one is inlined at every return and slows the proof.
impl Drop for NewSpots {
    fn drop(self) {
        let NewSpots { items } = self;
        drop(items);
    }
}

impl NewSpots {
    ghost use Rattle.std.specs.Prelude.{◌≡◌, ◌<◌, ◌++◌, ◌∷◌, [], length, OnOk, OnErr};

    /// An empty list. Takes no memory.
    pub fn new(alloc: Global) -> NewSpots
        ensures { result ≡ [] }
    {
        NewSpots {
            items: SmallVec::new(alloc),
        }
    }

    /// Adds a spot at the end. Fails with `NoMemory`, but only if there is a spot already, and then
    /// the list is unchanged.
    pub fn push(&mut self, spot: NewSpot) -> Result<(), NoMemory>
        ensures ok { OnOk result (self.new ≡ self.old ++ spot ∷ []) }
        ensures err { OnErr result (self.new ≡ self.old) }
        ensures gives_up { OnErr result (0 < length self.old) }
    {
        self.items.push(spot)?;
        Ok(())
    }

    /// The spots, in their order.
    pub fn as_slice(&self) -> &[NewSpot]
        ensures { result.now ≡ self.now }
    {
        &self.items
    }
}

/// A loan line that an entry makes or changes: the loan, the object, and the line's new stage.
#[derive(Clone, Copy, Debug, PartialEq, Eq)]
pub struct NewLine {
    pub loan: LoanCode,
    pub object: ThingNo,
    pub stage: LineStage,
}

/// The loan lines that an entry makes or changes. A list of one takes no memory. Contracts see it
/// as the list.
#[derive(Debug, Drop)]
pub struct NewLines {
    // the line, if there is only one
    one: Option<NewLine>,
    // the lines, if there are several
    several: Vec<NewLine>,
}

impl Model for NewLines {
    ghost use Rattle.std.specs.Prelude.{◌≡◌, ◌∷◌, [], List, IfSome};
    ghost use Rattle.std.specs.Option.{option_map_or};
    ghost use Rattle.posting_core.specs.declared.entry.NewLine.{NewLine};

    ghost Value = { List NewLine };

    ghost view = { λ l. option_map_or (λ line. line ∷ []) l.one l.several.items };

    ghost invariant = { λ l. IfSome l.one (λ line. l.several.items ≡ []) };
}

impl NewLines {
    ghost use Rattle.std.specs.Prelude.{◌≡◌, ◌<◌, ◌++◌, ◌∷◌, [], length, OnOk, OnErr};

    /// An empty list. Takes no memory.
    pub fn new(alloc: Global) -> NewLines
        ensures { result ≡ [] }
    {
        NewLines {
            one: None,
            several: Vec::new(alloc),
        }
    }

    /// Adds a line at the end. Fails with `NoMemory`, but only if there is a line already, and then
    /// the list is unchanged.
    pub fn push(&mut self, line: NewLine) -> Result<(), NoMemory>
        ensures ok { OnOk result (self.new ≡ self.old ++ line ∷ []) }
        ensures err { OnErr result (self.new ≡ self.old) }
        ensures gives_up { OnErr result (0 < length self.old) }
    {
        if let Some(first) = self.one {
            self.several.reserve(2)?;
            self.several.push_reserved(first);
            self.several.push_reserved(line);
            self.one = None;
        } else if self.several.is_empty() {
            self.one = Some(line);
        } else {
            self.several.push(line)?;
        }
        Ok(())
    }

    /// The lines, in their order.
    pub fn as_slice(&self) -> &[NewLine]
        ensures { result.now ≡ self.now }
    {
        if self.one.is_some() {
            return self.one.as_slice();
        }
        &self.several
    }
}

/// The changes that posting a message makes. For a refused message there is no put and no loan, and
/// the lists are empty.
#[derive(Debug, Drop)]
pub struct Changes {
    /// The number that the entry gets, from 1.
    pub entry: EntryNo,
    /// The verdict on the message.
    pub verdict: Verdict,
    /// Where the message puts its thing, if it puts one.
    pub put: Option<Put>,
    /// Everything that moves with the put, the thing itself included, in ascending order.
    pub carried: ThingNos,
    /// The new spots, in ascending order of things, at most one for each thing.
    pub spots: NewSpots,
    /// The number of the agreed loan that the message continues, from 0 in the order of the
    /// agreements.
    pub loan: Option<usize>,
    /// The loan lines that the message makes (in the order of the agreement) or changes (in
    /// ascending order of objects).
    pub lines: NewLines,
}
