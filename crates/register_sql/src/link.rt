//! A connection to a store that sends no further statement once one has failed.
ghost use Rattle.std.specs.Prelude.{◌≡◌, ◌≢◌, ◌⊎◌, true, Some, Err, reverse, All, IsNone, is_some};
ghost use Rattle.std.specs.Prelude.{IfOk, IfErr, OnOk, OnErr, IfSome, IfNone};
ghost use Rattle.std.specs.Bool.{Decides};
ghost use Rattle.sqlite.specs.Held.{state};
ghost use Rattle.sqlite.specs.State.{HasCleanDisk, Survives};
ghost use Rattle.register_store.specs.Holdings.{Each, Has, Comes, IsPosted, IsBound, IsNotBound};
ghost use Rattle.register_store.specs.Registers.{Stops, is_failure, is_of_listing, IsOfStation};
ghost use Rattle.register_store.specs.Registers.{IsListFault};
ghost use Rattle.register_store.specs.StoredRows.{AreSame, HasList, HasRows, IsBoundTo};
ghost use Rattle.register_sql.specs.Binding.{IsNewness, IsUnfitFor, LeavesBound};
ghost use Rattle.register_sql.specs.Failing.{StopsFor};
ghost use Rattle.register_sql.specs.Growing.{with_setup, IsGrown};
ghost use Rattle.register_sql.specs.Migrating.{Migrates, IsNotMigrated, IsCompleted, IsUnfit};
ghost use Rattle.register_sql.specs.Posting.{LeavesPosted, LeavesWhole};
ghost use Rattle.register_sql.specs.Queries.{AreApart};
ghost use Rattle.register_sql.specs.StoredSetups.{AreGrowthsIn, HoldsSetup, LacksSetup};
ghost use Rattle.register_sql.specs.Stores.{in_store, IsKept, OnlyReads};

use crate::agree::agrees;
use crate::bind::{bind, is_new};
use crate::grow::grow;
use crate::list::list;
use crate::migrate::migrate;
use crate::put::put_whole;
use crate::stored_setup::{growths, setup};
use nest_core::{Growth, Setup};
use posting_core::{Changes, Entry, Ledger};
use register_store::{StoreFault, row_of};
use sqlite::{Alter, Connection, Error, ErrorCode};
use std::alloc::Global;

/// A connection, whether a setup is bound to its store, and the error of the statement that failed,
/// if one has. A failed statement may close the connection. So each function below returns Store at
/// once if an earlier call has stopped the link. It stops the link only for the error of a failed
/// statement.
pub(crate) struct Link<S: Alter> {
    pub(crate) conn: Connection<S>,
    pub(crate) bound: bool,
    pub(crate) stopped: Option<Error>,
}

/// The fault of a failed statement: NoMemory if it ran out of memory, otherwise Store.
pub fn fault_of(error: Error) -> StoreFault
    ensures memory { error ≡ Error.SqliteFailure ErrorCode.OutOfMemory
        → result ≡ StoreFault.NoMemory }
    ensures store { error ≢ Error.SqliteFailure ErrorCode.OutOfMemory → result ≡ StoreFault.Store }
    ensures failure { is_failure result ≡ true }
{
    match error {
        Error::SqliteFailure(ErrorCode::OutOfMemory) => StoreFault::NoMemory,
        _ => StoreFault::Store,
    }
}

/// Stops the link for good with this error, and returns the error's fault.
pub(crate) fn stop<S: Alter>(link: &mut Link<S>, error: Error) -> StoreFault
    ensures conn { link.new.conn ≡ link.old.conn }
    ensures bound { link.new.bound ≡ link.old.bound }
    ensures stopped { link.new.stopped ≡ Some error }
    ensures memory { error ≡ Error.SqliteFailure ErrorCode.OutOfMemory
        → result ≡ StoreFault.NoMemory }
    ensures store { error ≢ Error.SqliteFailure ErrorCode.OutOfMemory → result ≡ StoreFault.Store }
    ensures failure { is_failure result ≡ true }
{
    link.stopped = Some(error);
    fault_of(error)
}

/// Binds the store to the setup, and returns its depth limit. Store if the link has stopped.
pub(crate) fn bind_store<S: Alter>(
    alloc: Global,
    link: &mut Link<S>,
    setup: &Setup,
) -> Result<u32, StoreFault>
    requires { IsKept (state S.Store link.old.conn) link.old.bound link.old.stopped }
    ensures invariant { IsKept (state S.Store link.new.conn) link.new.bound link.new.stopped }
    ensures bound { IfOk result
        (λ depth. Has (in_store (state S.Store link.new.conn)) (IsBoundTo setup.now depth)) }
    ensures kept { OnOk result
        (Comes (in_store (state S.Store link.old.conn)) (in_store (state S.Store link.new.conn))
        (IsBound setup.now)) }
    ensures refused { IfErr result
        (λ fault. Comes (in_store (state S.Store link.old.conn))
        (in_store (state S.Store link.new.conn)) (IsNotBound setup.now fault)) }
    ensures unfit { HasCleanDisk (state S.Store link.new.conn) → IsNone link.new.stopped
        → result ≡ Err StoreFault.Store → IsUnfitFor setup.now (state S.Store link.old.conn).now }
    ensures ready { OnOk result (link.new.bound ≡ true) }
    ensures not_ready { OnErr result (link.new.bound ≡ link.old.bound) }
    ensures crash { Survives (state S.Store link.old.conn) (state S.Store link.new.conn)
        (LeavesBound setup.now (state S.Store link.old.conn)) }
    ensures stops { Stops (is_some link.old.stopped) (is_some link.new.stopped) result }
    ensures excused { StopsFor (state S.Store link.old.conn) (state S.Store link.new.conn)
        (is_some link.old.stopped) (is_some link.new.stopped) link.new.stopped result }
{
    if let Some(_) = link.stopped {
        return Err(StoreFault::Store);
    }
    match bind(alloc, &mut link.conn, setup) {
        Ok(Ok(depth)) => {
            link.bound = true;
            Ok(depth)
        }
        Ok(Err(fault)) => Err(fault),
        Err(error) => Err(stop(link, error)),
    }
}

/// Returns whether the store has no rows about itself, so that binding it begins a record. Store if
/// the link has stopped.
pub(crate) fn store_is_new<S: Alter>(alloc: Global, link: &mut Link<S>) -> Result<bool, StoreFault>
    requires { IsKept (state S.Store link.old.conn) link.old.bound link.old.stopped }
    ensures invariant { IsKept (state S.Store link.new.conn) link.new.bound link.new.stopped }
    ensures told { HasCleanDisk (state S.Store link.new.conn)
        → IfOk result (IsNewness (state S.Store link.old.conn).now) }
    ensures still { link.new.bound ≡ link.old.bound }
    ensures reads { OnlyReads (state S.Store link.old.conn) (state S.Store link.new.conn)
        link.old.stopped link.new.stopped result }
{
    if let Some(_) = link.stopped {
        return Err(StoreFault::Store);
    }
    match is_new(alloc, &mut link.conn) {
        Ok(Ok(new)) => Ok(new),
        Ok(Err(_)) => Err(StoreFault::NoMemory),
        Err(error) => Err(stop(link, error)),
    }
}

/// Makes a store of version 1 with this setup one of version 2, with the last days that its entries
/// set. Store if the link has stopped.
pub(crate) fn migrate_store<S: Alter>(
    alloc: Global,
    link: &mut Link<S>,
    setup: &Setup,
) -> Result<(), StoreFault>
    requires { IsKept (state S.Store link.old.conn) link.old.bound link.old.stopped }
    ensures invariant { IsKept (state S.Store link.new.conn) link.new.bound link.new.stopped }
    ensures migrated { OnOk result
        (Comes (in_store (state S.Store link.old.conn)) (in_store (state S.Store link.new.conn))
        (Migrates setup.now)) }
    ensures whole { HasCleanDisk (state S.Store link.new.conn)
        → OnOk result (IsCompleted (state S.Store link.old.conn) (state S.Store link.new.conn)) }
    ensures refused { IfErr result
        (λ fault. Comes (in_store (state S.Store link.old.conn))
        (in_store (state S.Store link.new.conn)) (IsNotMigrated setup.now fault)) }
    ensures unfit { HasCleanDisk (state S.Store link.new.conn) → IsNone link.new.stopped
        → result ≡ Err StoreFault.Store → IsUnfit setup.now (state S.Store link.old.conn).now }
    ensures still { link.new.bound ≡ link.old.bound }
    ensures stops { Stops (is_some link.old.stopped) (is_some link.new.stopped) result }
    ensures excused { StopsFor (state S.Store link.old.conn) (state S.Store link.new.conn)
        (is_some link.old.stopped) (is_some link.new.stopped) link.new.stopped result }
{
    if let Some(_) = link.stopped {
        return Err(StoreFault::Store);
    }
    match migrate(alloc, &mut link.conn, setup) {
        Ok(answer) => answer,
        Err(error) => Err(stop(link, error)),
    }
}

/// Returns the entries of a bound store, oldest first. Store comes only if the link has stopped, in
/// this call or before.
pub(crate) fn list_store<S: Alter>(
    alloc: Global,
    link: &mut Link<S>,
    stations: u32,
) -> Result<Vec<Entry>, StoreFault>
    requires { IsKept (state S.Store link.old.conn) true link.old.stopped }
    ensures invariant { IsKept (state S.Store link.new.conn) true link.new.stopped }
    ensures listed { IfOk result
        (λ entries.
        Each (in_store (state S.Store link.new.conn)) (HasList (reverse entries.items))) }
    ensures stationed { IfOk result (λ entries. All (IsOfStation stations) entries.items) }
    ensures cause { IfErr result
        (λ fault. Each (in_store (state S.Store link.new.conn))
        (λ c. IsListFault stations c fault)) }
    ensures faults { IfErr result (λ fault. is_of_listing fault ≡ true) }
    ensures unchanged { Comes (in_store (state S.Store link.old.conn))
        (in_store (state S.Store link.new.conn)) AreSame }
    ensures still { link.new.bound ≡ link.old.bound }
    ensures stops { Stops (is_some link.old.stopped) (is_some link.new.stopped) result }
    ensures excused { StopsFor (state S.Store link.old.conn) (state S.Store link.new.conn)
        (is_some link.old.stopped) (is_some link.new.stopped) link.new.stopped result }
    ensures store { result ≡ Err StoreFault.Store → is_some link.new.stopped ≡ true }
{
    if let Some(_) = link.stopped {
        return Err(StoreFault::Store);
    }
    match list(alloc, &mut link.conn, stations) {
        Ok(answer) => answer,
        Err(error) => Err(stop(link, error)),
    }
}

/// Adds an entry with its changes to a bound store. Store comes only if the link has stopped, in
/// this call or before.
pub(crate) fn post_to_store<S: Alter>(
    alloc: Global,
    link: &mut Link<S>,
    entry: &Entry,
    changes: &Changes,
) -> Result<(), StoreFault>
    requires { IsKept (state S.Store link.old.conn) true link.old.stopped }
    ensures invariant { IsKept (state S.Store link.new.conn) true link.new.stopped }
    ensures posted { OnOk result
        (Comes (in_store (state S.Store link.old.conn)) (in_store (state S.Store link.new.conn))
        (IsPosted entry.now changes.now)) }
    ensures failed { OnErr result
        (Comes (in_store (state S.Store link.old.conn)) (in_store (state S.Store link.new.conn))
        (λ c d. AreSame c d ⊎ IsPosted entry.now changes.now c d)) }
    ensures faults { IfErr result (λ fault. is_failure fault ≡ true) }
    ensures still { link.new.bound ≡ link.old.bound }
    ensures crash { Survives (state S.Store link.old.conn) (state S.Store link.new.conn)
        (LeavesPosted entry.now changes.now (state S.Store link.old.conn)) }
    ensures stops { Stops (is_some link.old.stopped) (is_some link.new.stopped) result }
    ensures excused { StopsFor (state S.Store link.old.conn) (state S.Store link.new.conn)
        (is_some link.old.stopped) (is_some link.new.stopped) link.new.stopped result }
    ensures store { result ≡ Err StoreFault.Store → is_some link.new.stopped ≡ true }
{
    if let Some(_) = link.stopped {
        return Err(StoreFault::Store);
    }
    let row = match row_of(alloc, changes.entry, entry) {
        Ok(row) => row,
        Err(_) => return Err(StoreFault::NoMemory),
    };
    match put_whole(&mut link.conn, &row, entry, changes) {
        Ok(()) => Ok(()),
        Err(error) => Err(stop(link, error)),
    }
}

/// Returns whether the rows of spots, loan lines and last days of a bound store are exactly those
/// of the ledger. Store if the link has stopped.
pub(crate) fn store_agrees<S: Alter>(
    alloc: Global,
    link: &mut Link<S>,
    ledger: &Ledger,
) -> Result<bool, StoreFault>
    requires { IsKept (state S.Store link.old.conn) true link.old.stopped }
    ensures invariant { IsKept (state S.Store link.new.conn) true link.new.stopped }
    ensures told { IfOk result
        (λ same. Each (in_store (state S.Store link.new.conn))
        (λ c. Decides same (HasRows ledger.now.museum ledger.now.posted c))) }
    ensures faults { IfErr result (λ fault. is_failure fault ≡ true) }
    ensures unchanged { Comes (in_store (state S.Store link.old.conn))
        (in_store (state S.Store link.new.conn)) AreSame }
    ensures still { link.new.bound ≡ link.old.bound }
    ensures stops { Stops (is_some link.old.stopped) (is_some link.new.stopped) result }
    ensures excused { StopsFor (state S.Store link.old.conn) (state S.Store link.new.conn)
        (is_some link.old.stopped) (is_some link.new.stopped) link.new.stopped result }
{
    if let Some(_) = link.stopped {
        return Err(StoreFault::Store);
    }
    match agrees(alloc, &mut link.conn, ledger) {
        Ok(answer) => answer,
        Err(error) => Err(stop(link, error)),
    }
}

/// Replaces the setup of a bound store by this one, which has grown. Store if the link has stopped,
/// or if rowids aren't distinct numbers.
pub(crate) fn grow_store<S: Alter>(
    alloc: Global,
    link: &mut Link<S>,
    setup: &Setup,
) -> Result<(), StoreFault>
    requires { IsKept (state S.Store link.old.conn) true link.old.stopped }
    ensures invariant { IsKept (state S.Store link.new.conn) true link.new.stopped }
    ensures grown { OnOk result
        (Comes (in_store (state S.Store link.old.conn)) (in_store (state S.Store link.new.conn))
        (IsGrown setup.now)) }
    ensures failed { OnErr result
        (Comes (in_store (state S.Store link.old.conn)) (in_store (state S.Store link.new.conn))
        (λ c d. AreSame c d ⊎ IsGrown setup.now c d)) }
    ensures unchanged { IsNone link.new.stopped → OnErr result
        (Comes (in_store (state S.Store link.old.conn)) (in_store (state S.Store link.new.conn))
        AreSame) }
    ensures faults { IfErr result (λ fault. is_failure fault ≡ true) }
    ensures unfit { HasCleanDisk (state S.Store link.new.conn) → IsNone link.new.stopped
        → result ≡ Err StoreFault.Store → ¬ AreApart 6 (state S.Store link.old.conn).now.trees }
    ensures still { link.new.bound ≡ link.old.bound }
    ensures crash { Survives (state S.Store link.old.conn) (state S.Store link.new.conn)
        (LeavesWhole (state S.Store link.old.conn) (with_setup setup.now)) }
    ensures stops { Stops (is_some link.old.stopped) (is_some link.new.stopped) result }
    ensures excused { StopsFor (state S.Store link.old.conn) (state S.Store link.new.conn)
        (is_some link.old.stopped) (is_some link.new.stopped) link.new.stopped result }
{
    if let Some(_) = link.stopped {
        return Err(StoreFault::Store);
    }
    match grow(alloc, &mut link.conn, setup) {
        Ok(answer) => answer,
        Err(error) => Err(stop(link, error)),
    }
}

/// Returns how the setup of the store grew, the newest growth first. Store if the link has stopped.
pub(crate) fn growths_of_store<S: Alter>(
    alloc: Global,
    link: &mut Link<S>,
) -> Result<Vec<Growth>, StoreFault>
    requires { IsKept (state S.Store link.old.conn) link.old.bound link.old.stopped }
    ensures invariant { IsKept (state S.Store link.new.conn) link.new.bound link.new.stopped }
    ensures growths { HasCleanDisk (state S.Store link.new.conn) → IfOk result
        (λ growths. AreGrowthsIn (state S.Store link.old.conn).now growths.items) }
    ensures still { link.new.bound ≡ link.old.bound }
    ensures reads { OnlyReads (state S.Store link.old.conn) (state S.Store link.new.conn)
        link.old.stopped link.new.stopped result }
{
    if let Some(_) = link.stopped {
        return Err(StoreFault::Store);
    }
    match growths(alloc, &mut link.conn) {
        Ok(Ok(found)) => Ok(found),
        Ok(Err(_)) => Err(StoreFault::NoMemory),
        Err(error) => Err(stop(link, error)),
    }
}

/// Returns the setup that the store holds, and None if its rows are those of no setup. Store if the
/// link has stopped.
pub(crate) fn setup_of_store<S: Alter>(
    alloc: Global,
    link: &mut Link<S>,
) -> Result<Option<Setup>, StoreFault>
    requires { IsKept (state S.Store link.old.conn) link.old.bound link.old.stopped }
    ensures invariant { IsKept (state S.Store link.new.conn) link.new.bound link.new.stopped }
    ensures held { HasCleanDisk (state S.Store link.new.conn) → IfOk result
        (λ found. IfSome found (HoldsSetup (state S.Store link.old.conn).now)) }
    ensures none { HasCleanDisk (state S.Store link.new.conn) → IfOk result
        (λ found. IfNone found (LacksSetup (state S.Store link.old.conn).now)) }
    ensures still { link.new.bound ≡ link.old.bound }
    ensures reads { OnlyReads (state S.Store link.old.conn) (state S.Store link.new.conn)
        link.old.stopped link.new.stopped result }
{
    if let Some(_) = link.stopped {
        return Err(StoreFault::Store);
    }
    match setup(alloc, &mut link.conn) {
        Ok(Ok(found)) => Ok(found),
        Ok(Err(_)) => Err(StoreFault::NoMemory),
        Err(error) => Err(stop(link, error)),
    }
}
