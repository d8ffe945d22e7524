//! No store: what a session without a store has for a register.
ghost use Rattle.std.specs.Prelude.{◌≡◌};

use crate::{NEW_DEPTH, Register, StoreFault};
use nest_core::Setup;
use posting_core::{Changes, Entry, Ledger};
use std::alloc::Global;

/// A register that keeps nothing, and takes no memory. It never returns a fault. Its store loses
/// what is written, so it is never quiet, and no clause states what it has.
#[derive(Clone, Copy)]
pub struct NoStore {
    /// The number of stations of the setup.
    pub stations: u32,
}

impl Register for NoStore {
    ghost use Rattle.std.specs.Prelude.{true, false};
    ghost use Rattle.register_store.specs.NoStore.{in_no_store};

    ghost holding = { in_no_store };

    ghost is_bound = { λ r. true };

    ghost stations = { λ r. r.stations };

    ghost refusals = { λ r. 0 };

    ghost is_stopped = { λ r. false };

    ghost can_refuse = { false };

    fn bind(&mut self, _alloc: Global, setup: &Setup) -> Result<u32, StoreFault> {
        self.stations = setup.stations();
        Ok(NEW_DEPTH)
    }

    fn all(&mut self, alloc: Global) -> Result<Vec<Entry>, StoreFault> {
        Ok(Vec::new(alloc))
    }

    fn post(
        &mut self,
        _alloc: Global,
        _entry: &Entry,
        _changes: &Changes,
    ) -> Result<(), StoreFault> {
        Ok(())
    }

    fn agrees(&mut self, _alloc: Global, _ledger: &Ledger) -> Result<bool, StoreFault> {
        Ok(true)
    }
}
