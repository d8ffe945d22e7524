//! A hub without a store.
ghost use Rattle.std.specs.Prelude.{◌≡◌, IfOk, IfErr};
ghost use Rattle.register_store.specs.NoStore.{in_no_store};
ghost use Rattle.hub_core.specs.Openings.{IsSessionFault};
ghost use Rattle.hub_core.specs.StandsFor.{IsFresh};

use crate::Hub;
use nest_core::Setup;
use register_store::{NoStore, PlainRegister, Register, StoreFault};
use std::alloc::Global;

impl Hub<NoStore> {
    /// Opens a hub with this setup and nothing posted, for a session without a store. What it posts
    /// is not stored. Faults: NoMemory; Damaged(0), only if the setup has grown after some entry.
    pub fn session(alloc: Global, setup: Setup) -> Result<Hub<NoStore>, StoreFault>
        ensures fresh { IfOk result (λ hub. IsFresh in_no_store hub setup) }
        ensures fault { IfErr result (IsSessionFault setup) }
    {
        match Hub::open(alloc, setup, PlainRegister::new(alloc)) {
            Ok(hub) => Ok(hub.without_store()),
            Err(failed) => Err(failed.fault),
        }
    }
}

impl<R: Register + Drop> Hub<R> {
    /// The same hub without its register, which is dropped.
    fn without_store(self) -> Hub<NoStore>
        ensures sequences { result.sequences ≡ self.sequences }
        ensures book { result.book ≡ self.book }
        ensures down { result.down ≡ self.down }
    {
        let Hub {
            sequences,
            ledger,
            register,
            down,
        } = self;
        drop(register);
        let stations = ledger.setup().stations();
        Hub {
            sequences,
            ledger,
            register: NoStore { stations },
            down,
        }
    }
}
