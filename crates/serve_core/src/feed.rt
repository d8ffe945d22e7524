//! The feeds that the stations' threads send.
ghost use Rattle.std.specs.Prelude.{◌≡◌, List, [], ◌∷◌, IfOk, IfNone, IfSome, OnErr};
ghost use Rattle.serve_core.specs.declared.item.Item.{Item};

use crate::Item;
use codes_core::NoMemory;
use std::alloc::Global;
use std::marker::Model;

/// A finite sequence of items. Contracts see a feed as the items that are left.
pub trait Feed {
    /// The items that are left.
    ghost items: { Self → List Item };

    /// Returns the next item, or None if none is left. Fault: NoMemory, after which the same items
    /// are left.
    fn next(&mut self, alloc: Global) -> Result<Option<Item>, NoMemory>
        ensures none { IfOk result
            (λ next. IfNone next ((items self.old ≡ []) × (items self.new ≡ []))) }
        ensures some { IfOk result
            (λ next. IfSome next (λ x. items self.old ≡ x ∷ items self.new)) }
        ensures kept { OnErr result (items self.new ≡ items self.old) };
}

/// A feed of the items in a list.
#[derive(Drop)]
pub struct ListFeed {
    // The next item is the last element.
    left: Vec<Item>,
}

impl Model for ListFeed {
    ghost use Rattle.std.specs.Prelude.{List, reverse};
    ghost use Rattle.serve_core.specs.declared.item.Item.{Item};

    ghost Value = { List Item };

    ghost view = { λ f. reverse f.left.items };
}

impl ListFeed {
    /// A feed of these items, from the first to the last.
    pub fn new(items: Vec<Item>) -> ListFeed
        ensures { result ≡ items.items }
    {
        let mut left = items;
        left.reverse();
        ListFeed { left }
    }
}

impl Feed for ListFeed {
    ghost items = { λ f. f };

    fn next(&mut self, _alloc: Global) -> Result<Option<Item>, NoMemory> {
        Ok(self.left.pop())
    }
}
