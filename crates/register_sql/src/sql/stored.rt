//! The setup that a store holds, and how it grew.
ghost use Rattle.std.specs.Prelude.{◌≡◌, true, Err, IfOk, IfErr, IfSome, IfNone};
ghost use Rattle.sqlite.specs.Held.{state};
ghost use Rattle.sqlite.specs.State.{HasCleanDisk};
ghost use Rattle.register_store.specs.Holdings.{Comes};
ghost use Rattle.register_store.specs.Registers.{is_failure, CountsRefusal, Stops};
ghost use Rattle.register_store.specs.StoredRows.{AreSame};
ghost use Rattle.register_sql.specs.StoredSetups.{AreGrowthsIn, HoldsSetup, LacksSetup};
ghost use Rattle.register_sql.specs.Stores.{in_store, IsExcusedStop};

use super::{SqlRegister, recount};
use crate::link::{growths_of_store, setup_of_store};
use nest_core::{Growth, Setup};
use register_store::StoreFault;
use sqlite::Alter;
use std::alloc::Global;

impl<S: Alter> SqlRegister<S> {
    /// Returns how the setup in the store grew, the newest growth first; none if the store has no
    /// record yet. A setup file lists no growths, so
    /// [`Setup::with_growths`](nest_core::Setup::with_growths) adds these to what it lists before
    /// the store is bound to it. If the rows in the store are those of no setup, these may be any
    /// growths, and [`bind`](register_store::Register::bind) rejects the store. The store stays as
    /// it was. Faults: Store if a statement fails, or failed before; NoMemory. If this call stops
    /// the register, a statement failed.
    pub fn growths(&mut self, alloc: Global) -> Result<Vec<Growth>, StoreFault>
        ensures growths { HasCleanDisk (state S.Store self.new.conn) → IfOk result
            (λ growths. AreGrowthsIn (state S.Store self.old.conn).now growths.items) }
        ensures faults { IfErr result (λ fault. is_failure fault ≡ true) }
        ensures unchanged { Comes (in_store (state S.Store self.old.conn))
            (in_store (state S.Store self.new.conn)) AreSame }
        ensures still { (self.new.bound ≡ self.old.bound)
            × (self.new.stations ≡ self.old.stations) }
        ensures count { CountsRefusal self.old.refusals self.new.refusals result }
        ensures stops { Stops self.old.stopped self.new.stopped result }
        ensures excused { IsExcusedStop S.Store self.old self.new result }
        ensures store { result ≡ Err StoreFault.Store → self.new.stopped ≡ true }
    {
        let answer = growths_of_store(alloc, &mut self.link);
        self.refusals = recount(self.refusals, &answer);
        answer
    }

    /// Returns the setup that the store holds, with its growths. None if the rows in the store are
    /// those of no setup, as in a store that has no record yet. The store stays as it was. Faults:
    /// Store if a statement fails, or failed before; NoMemory. If this call stops the register, a
    /// statement failed.
    pub fn setup(&mut self, alloc: Global) -> Result<Option<Setup>, StoreFault>
        ensures held { HasCleanDisk (state S.Store self.new.conn) → IfOk result
            (λ found. IfSome found (HoldsSetup (state S.Store self.old.conn).now)) }
        ensures none { HasCleanDisk (state S.Store self.new.conn) → IfOk result
            (λ found. IfNone found (LacksSetup (state S.Store self.old.conn).now)) }
        ensures faults { IfErr result (λ fault. is_failure fault ≡ true) }
        ensures unchanged { Comes (in_store (state S.Store self.old.conn))
            (in_store (state S.Store self.new.conn)) AreSame }
        ensures still { (self.new.bound ≡ self.old.bound)
            × (self.new.stations ≡ self.old.stations) }
        ensures count { CountsRefusal self.old.refusals self.new.refusals result }
        ensures stops { Stops self.old.stopped self.new.stopped result }
        ensures excused { IsExcusedStop S.Store self.old self.new result }
        ensures store { result ≡ Err StoreFault.Store → self.new.stopped ≡ true }
    {
        let answer = setup_of_store(alloc, &mut self.link);
        self.refusals = recount(self.refusals, &answer);
        answer
    }
}
