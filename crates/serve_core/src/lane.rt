//! A station's lane: a ring with room for 2,048 items.
ghost use Rattle.std.specs.Prelude.{◌≡◌, [], ◌∷◌, ◌++◌, OnOk, IfErr, IfSome};
ghost use Rattle.serve_core.specs.Lanes.{sent_items, SameLane, IsEndOf};

use crate::Item;
use rtrb::{Finished, Producer, PushError};

/// How many items a lane has room for. The hub takes fewer than these while a thread
/// [rests](crate::pause::rest), so that it doesn't have to wait for items.
pub(crate) const ROOM: usize = 2048;

/// The end of a lane through which a station sends, from its own thread.
#[derive(Drop)]
pub struct Lane {
    pub(crate) producer: Producer<Item>,
}

/// A lane that has ended. It knows all items that were sent through the lane.
#[derive(Drop)]
pub struct LaneEnd {
    pub(crate) finished: Finished<Item>,
}

/// The lane is full. The item is handed back.
#[derive(Drop)]
pub struct Full(pub Item);

impl Lane {
    /// Sends an item after those that were sent before. Full hands the item back, and nothing was
    /// sent. The call needs no memory and doesn't wait. No clause promises that Full comes only
    /// from a full lane.
    pub fn send(&mut self, item: Item) -> Result<(), Full>
        ensures lane { SameLane self.old self.new }
        ensures sent { OnOk result (sent_items self.new ≡ sent_items self.old ++ item ∷ []) }
        ensures full { IfErr result
            (λ e. (e.0 ≡ item) × (sent_items self.new ≡ sent_items self.old)) }
    {
        match self.producer.push(item) {
            Ok(()) => Ok(()),
            Err(PushError::Full(item)) => Err(Full(item)),
        }
    }

    /// Ends the lane. Its end knows all items that were sent through it. None can come only if the
    /// intake was dropped before, though no clause promises that. The call needs no memory and
    /// doesn't wait.
    pub fn finish(self) -> Option<LaneEnd>
        ensures { IfSome result (λ e. IsEndOf self e) }
    {
        let Lane { producer } = self;
        let finished = producer.finish()?;
        Some(LaneEnd { finished })
    }
}
