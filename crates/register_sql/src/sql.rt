//! The register over a connection to a database.
ghost use Rattle.std.specs.Prelude.{◌≡◌, ◌⊎◌, true, false, Err, length, IsTrue, IfOk, IfErr, OnOk};
ghost use Rattle.std.specs.Prelude.{OnErr, is_some, reverse, All};
ghost use Rattle.std.specs.Bool.{Decides};
ghost use Rattle.sqlite.specs.Held.{state};
ghost use Rattle.sqlite.specs.State.{HasCleanDisk, Survives};
ghost use Rattle.register_store.specs.Holdings.{Each, Has, Comes, IsPosted, IsBound};
ghost use Rattle.register_store.specs.Holdings.{IsNotBound};
ghost use Rattle.register_store.specs.Registers.{is_failure, is_of_listing, CountsRefusal, Stops};
ghost use Rattle.register_store.specs.Registers.{IsListFault, IsOfStation};
ghost use Rattle.register_store.specs.StoredRows.{AreSame, HasList, HasRows, IsBoundTo};
ghost use Rattle.register_sql.specs.Binding.{IsNewness, IsUnfitFor, LeavesBound};
ghost use Rattle.register_sql.specs.Growing.{with_setup, IsGrown};
ghost use Rattle.register_sql.specs.Posting.{LeavesPosted, LeavesWhole};
ghost use Rattle.register_sql.specs.Queries.{AreApart};
ghost use Rattle.register_sql.specs.Migrating.{Migrates, IsNotMigrated, IsCompleted, IsUnfit};
ghost use Rattle.register_sql.specs.Stores.{in_store, IsExcusedStop};
ghost use Rattle.register_sql.specs.Runs.{HasIts};

mod stored;

use crate::link::{
    Link, bind_store, grow_store, list_store, migrate_store, post_to_store, store_agrees,
    store_is_new,
};
use nest_core::Setup;
use posting_core::{Changes, Entry, Ledger};
use register_store::{Register, StoreFault};
use sqlite::{Alter, Connection, Error};
use std::alloc::Global;
use std::marker::Model;

/// A register whose rows are in a database. When a statement fails, the register stops: it sends no
/// further statement, and from then on each call returns Store. [`SqlRegister::failure`] returns
/// the statement's error.
///
/// On a clean disk there are three reasons for a stop: memory ran out, the disk failed or refused a
/// call, or the database refused a statement. An error of the disk comes only for the second.
pub struct SqlRegister<S: Alter> {
    link: Link<S>,
    stations: u32,
    refusals: u64,
}

impl<S: Alter> Model for SqlRegister<S> {
    ghost use Rattle.std.specs.Prelude.{is_some};
    ghost use Rattle.sqlite.specs.Held.{state};
    ghost use Rattle.register_sql.specs.Stores.{Kept, kept_code, IsKept};

    ghost Value = { Kept S };

    ghost coded = { kept_code S.code };

    ghost view = { λ r. record {
      conn = r.link.conn;
      bound = r.link.bound;
      stopped = is_some r.link.stopped;
      failure = r.link.stopped;
      stations = r.stations;
      refusals = r.refusals;
    } };

    ghost invariant = { λ r. IsKept (state S.Store r.link.conn) r.link.bound r.link.stopped };
}

impl<S: Alter> SqlRegister<S> {
    ghost use Rattle.register_sql.specs.Stores.{Kept};

    /// Takes over an open connection that has no transaction, and sends it nothing. The store may
    /// hold the rows of the connection's committed database, and no others. No setup is bound to it
    /// yet.
    pub fn adopt(conn: Connection<S>) -> SqlRegister<S>
        requires between { conn.in_transaction ≡ false }
        requires open { HasCleanDisk (state S.Store conn) → IsTrue (state S.Store conn).is_open }
        ensures new { (result.bound ≡ false) × (result.stations ≡ 0) × (result.refusals ≡ 0) }
        ensures going { result.stopped ≡ false }
        ensures same { result.conn ≡ conn }
        ensures shown { HasCleanDisk (state S.Store conn)
            → HasIts (in_store (state S.Store conn)) (state S.Store conn).committed.trees }
    {
        let _settled = conn.is_autocommit();
        SqlRegister {
            link: Link {
                conn,
                bound: false,
                stopped: None,
            },
            stations: 0,
            refusals: 0,
        }
    }

    /// Makes a store of version 1 with this setup one of version 2. Entries, spots, loan lines,
    /// setup and the depth limit (8) stay. The store gets the table of last days, with those that
    /// its entries set, and version 2. A store of version 2 stays as it is, whatever else is in it.
    ///
    /// Faults, in this order:
    /// - Store: the tables aren't those of a store, whole or partly created.
    /// - OtherVersion: the store is new, or of a version other than 1 and 2.
    /// - Damaged(0): the rows about the store aren't whole.
    /// - OtherSetup.
    /// - Store: the tables aren't the five of version 1, or rowids aren't distinct numbers.
    /// - Damaged(i): row i is the first that is no entry of version 1. That version has no
    ///   extension, and no verdict NotLater.
    ///
    /// NoMemory, and Store after a failed statement, can come instead of any other result; the
    /// store may then have been migrated all the same. After any other fault it is as it was. If
    /// the register had stopped before, the fault is always Store. If this call stops it, a
    /// statement failed.
    pub fn migrate(&mut self, alloc: Global, setup: &Setup) -> Result<(), StoreFault>
        ensures migrated { OnOk result
            (Comes (in_store (state S.Store self.old.conn))
            (in_store (state S.Store self.new.conn)) (Migrates setup.now)) }
        ensures whole { HasCleanDisk (state S.Store self.new.conn)
            → OnOk result
            (IsCompleted (state S.Store self.old.conn) (state S.Store self.new.conn)) }
        ensures refused { IfErr result
            (λ fault. Comes (in_store (state S.Store self.old.conn))
            (in_store (state S.Store self.new.conn)) (IsNotMigrated setup.now fault)) }
        ensures unfit { HasCleanDisk (state S.Store self.new.conn) → self.new.stopped ≡ false
            → result ≡ Err StoreFault.Store → IsUnfit setup.now (state S.Store self.old.conn).now }
        ensures still { (self.new.bound ≡ self.old.bound)
            × (self.new.stations ≡ self.old.stations) }
        ensures count { CountsRefusal self.old.refusals self.new.refusals result }
        ensures stops { Stops self.old.stopped self.new.stopped result }
        ensures excused { IsExcusedStop S.Store self.old self.new result }
    {
        let answer = migrate_store(alloc, &mut self.link, setup);
        self.refusals = recount(self.refusals, &answer);
        answer
    }

    /// Returns whether the store has no record yet, so that [`bind`](Register::bind) begins one. A
    /// database with other tables than a store's isn't new; `bind` rejects it. The store stays as
    /// it was. Faults: Store if a statement fails, or failed before; NoMemory. If this call stops
    /// the register, a statement failed.
    pub fn is_new(&mut self, alloc: Global) -> Result<bool, StoreFault>
        ensures told { HasCleanDisk (state S.Store self.new.conn)
            → IfOk result (IsNewness (state S.Store self.old.conn).now) }
        ensures faults { IfErr result (λ fault. is_failure fault ≡ true) }
        ensures unchanged { Comes (in_store (state S.Store self.old.conn))
            (in_store (state S.Store self.new.conn)) AreSame }
        ensures still { (self.new.bound ≡ self.old.bound)
            × (self.new.stations ≡ self.old.stations) }
        ensures count { CountsRefusal self.old.refusals self.new.refusals result }
        ensures stops { Stops self.old.stopped self.new.stopped result }
        ensures excused { IsExcusedStop S.Store self.old self.new result }
        ensures store { result ≡ Err StoreFault.Store → self.new.stopped ≡ true }
    {
        let answer = store_is_new(alloc, &mut self.link);
        self.refusals = recount(self.refusals, &answer);
        answer
    }

    /// Replaces the setup in a bound store by one that has grown, in one transaction; everything
    /// else stays. The register is then bound to the new setup. The call doesn't compare the two
    /// setups: the caller takes what [`Setup::grown`](nest_core::Setup::grown) returned.
    ///
    /// Faults: Store if rowids aren't distinct numbers, or if a statement fails or failed before;
    /// NoMemory. Unless the register has stopped, the store is then as it was. Otherwise a later
    /// opening finds either setup whole. If the register had stopped before, the fault is Store. If
    /// this call stops it, a statement failed.
    pub fn grow(&mut self, alloc: Global, setup: &Setup) -> Result<(), StoreFault>
        requires { self.old.bound ≡ true }
        ensures grown { OnOk result
            (Comes (in_store (state S.Store self.old.conn))
            (in_store (state S.Store self.new.conn)) (IsGrown setup.now)) }
        ensures failed { OnErr result
            (Comes (in_store (state S.Store self.old.conn))
            (in_store (state S.Store self.new.conn))
            (λ c d. AreSame c d ⊎ IsGrown setup.now c d)) }
        ensures unchanged { self.new.stopped ≡ false → OnErr result
            (Comes (in_store (state S.Store self.old.conn))
            (in_store (state S.Store self.new.conn)) AreSame) }
        ensures faults { IfErr result (λ fault. is_failure fault ≡ true) }
        ensures unfit { HasCleanDisk (state S.Store self.new.conn) → self.new.stopped ≡ false
            → result ≡ Err StoreFault.Store
            → ¬ AreApart 6 (state S.Store self.old.conn).now.trees }
        ensures ready { OnOk result (self.new.stations ≡ length setup.now.stations) }
        ensures not_ready { OnErr result (self.new.stations ≡ self.old.stations) }
        ensures still { self.new.bound ≡ true }
        ensures count { CountsRefusal self.old.refusals self.new.refusals result }
        ensures crash { Survives (state S.Store self.old.conn) (state S.Store self.new.conn)
            (LeavesWhole (state S.Store self.old.conn) (with_setup setup.now)) }
        ensures stops { Stops self.old.stopped self.new.stopped result }
        ensures excused { IsExcusedStop S.Store self.old self.new result }
    {
        let answer = grow_store(alloc, &mut self.link, setup);
        self.refusals = recount(self.refusals, &answer);
        if answer.is_ok() {
            self.stations = setup.stations();
        }
        answer
    }

    /// Returns the error of the statement that stopped the register, or None while it runs. A
    /// stopped register never runs again.
    pub fn failure(&self) -> Option<Error>
        ensures same { result ≡ self.now.failure }
        ensures stopped { is_some result ≡ self.now.stopped }
    {
        self.link.stopped
    }

    /// Ends the register, and returns its connection as it is.
    pub fn into_connection(self) -> Connection<S>
        ensures same { result ≡ self.conn }
        ensures shown { IsTrue (state S.Store self.conn).is_open
            → HasIts (in_store (state S.Store self.conn))
            (state S.Store self.conn).committed.trees }
    {
        let SqlRegister {
            link,
            stations: _,
            refusals: _,
        } = self;
        let Link {
            conn,
            bound: _,
            stopped: _,
        } = link;
        conn
    }
}

impl<S: Alter> Register for SqlRegister<S> {
    ghost use Rattle.std.specs.Prelude.{true};
    ghost use Rattle.sqlite.specs.Held.{state};
    ghost use Rattle.register_sql.specs.Stores.{in_store};

    ghost holding = { λ r. in_store (state S.Store r.conn) };

    ghost is_bound = { λ r. r.bound };

    ghost stations = { λ r. r.stations };

    ghost refusals = { λ r. r.refusals };

    ghost is_stopped = { λ r. r.stopped };

    ghost can_refuse = { true };

    /// Like `bind` of any register. In addition:
    /// - On a clean disk, if the register hasn't stopped, Store means that the store is unfit: it
    ///   has other tables, lacks some, or has rowids that aren't distinct numbers.
    /// - Once the call has returned, whatever it returned, a crash leaves a database that could be
    ///   left before, or one that is bound to the setup.
    /// - If the register had stopped before, the fault is Store, whatever the store holds.
    /// - If this call stops the register, a statement failed.
    fn bind(&mut self, alloc: Global, setup: &Setup) -> Result<u32, StoreFault>
        ensures bound { IfOk result
            (λ depth. Has (in_store (state S.Store self.new.conn)) (IsBoundTo setup.now depth)) }
        ensures kept { OnOk result
            (Comes (in_store (state S.Store self.old.conn))
            (in_store (state S.Store self.new.conn)) (IsBound setup.now)) }
        ensures refused { IfErr result
            (λ fault. Comes (in_store (state S.Store self.old.conn))
            (in_store (state S.Store self.new.conn)) (IsNotBound setup.now fault)) }
        ensures ready { OnOk result
            ((self.new.bound ≡ true) × (self.new.stations ≡ length setup.now.stations)) }
        ensures not_ready { OnErr result
            ((self.new.bound ≡ self.old.bound) × (self.new.stations ≡ self.old.stations)) }
        ensures count { CountsRefusal self.old.refusals self.new.refusals result }
        ensures crash { Survives (state S.Store self.old.conn) (state S.Store self.new.conn)
            (LeavesBound setup.now (state S.Store self.old.conn)) }
        ensures stops { Stops self.old.stopped self.new.stopped result }
        ensures excused { IsExcusedStop S.Store self.old self.new result }
        ensures unfit { HasCleanDisk (state S.Store self.new.conn) → self.new.stopped ≡ false
            → result ≡ Err StoreFault.Store
            → IsUnfitFor setup.now (state S.Store self.old.conn).now }
    {
        let answer = bind_store(alloc, &mut self.link, setup);
        self.refusals = recount(self.refusals, &answer);
        if answer.is_ok() {
            self.stations = setup.stations();
        }
        answer
    }

    /// Like `all` of any register. If the register had stopped before, the fault is Store. If this
    /// call stops it, a statement failed.
    fn all(&mut self, alloc: Global) -> Result<Vec<Entry>, StoreFault>
        requires { self.old.bound ≡ true }
        ensures listed { IfOk result
            (λ entries.
            Each (in_store (state S.Store self.new.conn)) (HasList (reverse entries.items))) }
        ensures stationed { IfOk result
            (λ entries. All (IsOfStation self.old.stations) entries.items) }
        ensures cause { IfErr result
            (λ fault. Each (in_store (state S.Store self.new.conn))
            (λ c. IsListFault self.old.stations c fault)) }
        ensures faults { IfErr result (λ fault. is_of_listing fault ≡ true) }
        ensures unchanged { Comes (in_store (state S.Store self.old.conn))
            (in_store (state S.Store self.new.conn)) AreSame }
        ensures still { (self.new.bound ≡ true) × (self.new.stations ≡ self.old.stations) }
        ensures count { CountsRefusal self.old.refusals self.new.refusals result }
        ensures stops { Stops self.old.stopped self.new.stopped result }
        ensures excused { IsExcusedStop S.Store self.old self.new result }
        ensures store { result ≡ Err StoreFault.Store → self.new.stopped ≡ true }
    {
        let answer = list_store(alloc, &mut self.link, self.stations);
        self.refusals = recount(self.refusals, &answer);
        answer
    }

    /// Like `post` of any register. In addition, once the call has returned, whatever it returned,
    /// a crash leaves a database that could be left before, or one with the entry and all its
    /// changes. If the register had stopped before, the fault is Store. If this call stops it, a
    /// statement failed.
    fn post(&mut self, alloc: Global, entry: &Entry, changes: &Changes) -> Result<(), StoreFault>
        requires { self.old.bound ≡ true }
        ensures posted { OnOk result
            (Comes (in_store (state S.Store self.old.conn))
            (in_store (state S.Store self.new.conn)) (IsPosted entry.now changes.now)) }
        ensures failed { OnErr result
            (Comes (in_store (state S.Store self.old.conn))
            (in_store (state S.Store self.new.conn))
            (λ c d. AreSame c d ⊎ IsPosted entry.now changes.now c d)) }
        ensures faults { IfErr result (λ fault. is_failure fault ≡ true) }
        ensures still { (self.new.bound ≡ true) × (self.new.stations ≡ self.old.stations) }
        ensures count { CountsRefusal self.old.refusals self.new.refusals result }
        ensures stops { Stops self.old.stopped self.new.stopped result }
        ensures excused { IsExcusedStop S.Store self.old self.new result }
        ensures store { result ≡ Err StoreFault.Store → self.new.stopped ≡ true }
        ensures crash { Survives (state S.Store self.old.conn) (state S.Store self.new.conn)
            (LeavesPosted entry.now changes.now (state S.Store self.old.conn)) }
    {
        let answer = post_to_store(alloc, &mut self.link, entry, changes);
        self.refusals = recount(self.refusals, &answer);
        answer
    }

    /// Like `agrees` of any register. If the register had stopped before, the fault is Store.
    /// Otherwise Store can also mean that two loan lines or two last days have the same key, or
    /// that a statement failed. If this call stops the register, a statement failed.
    fn agrees(&mut self, alloc: Global, ledger: &Ledger) -> Result<bool, StoreFault>
        requires { self.old.bound ≡ true }
        ensures told { IfOk result
            (λ same. Each (in_store (state S.Store self.new.conn))
            (λ c. Decides same (HasRows ledger.now.museum ledger.now.posted c))) }
        ensures faults { IfErr result (λ fault. is_failure fault ≡ true) }
        ensures unchanged { Comes (in_store (state S.Store self.old.conn))
            (in_store (state S.Store self.new.conn)) AreSame }
        ensures still { (self.new.bound ≡ true) × (self.new.stations ≡ self.old.stations) }
        ensures count { CountsRefusal self.old.refusals self.new.refusals result }
        ensures stops { Stops self.old.stopped self.new.stopped result }
        ensures excused { IsExcusedStop S.Store self.old self.new result }
    {
        let answer = store_agrees(alloc, &mut self.link, ledger);
        self.refusals = recount(self.refusals, &answer);
        answer
    }
}

/// The count of Store faults after this result, up to 2^64 - 1.
fn recount<T>(refusals: u64, answer: &Result<T, StoreFault>) -> u64
    ensures { CountsRefusal refusals result answer.now }
{
    match answer {
        Err(StoreFault::Store) => refusals.saturating_add(1),
        _ => refusals,
    }
}
