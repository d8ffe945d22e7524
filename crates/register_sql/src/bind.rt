//! Binds a store to a setup: fills a new store, or compares an old one.
ghost use Rattle.std.specs.Prelude.{◌≡◌, ◌≤◌, [], false, IfOk, IfErr};
ghost use Rattle.sqlite.specs.Held.{state};
ghost use Rattle.sqlite.specs.State.{HasCleanDisk, Survives};
ghost use Rattle.register_sql.specs.Binding.{IsSettled, IsRefused, IsBoundAs, IsNewness};
ghost use Rattle.register_sql.specs.Binding.{LeavesBound};
ghost use Rattle.register_sql.specs.Failing.{Excused, IsReading};
ghost use Rattle.register_sql.specs.Queries.{IsPart};
ghost use Rattle.register_sql.specs.Rows.{had};

use crate::identity::{Identity, judge};
use crate::make::make_whole;
use crate::profile::{compare, profile_of};
use crate::rowids::are_all_apart;
use codes_core::NoMemory;
use nest_core::Setup;
use register_store::{NEW_DEPTH, StoreFault, row_texts};
use sqlite::{Alter, Connection, Error};
use std::alloc::Global;

/// The depth limit of the bound store, or why it isn't bound.
type Answer = Result<u32, StoreFault>;

/// Completes a new store that has the first `made` tables and no row about itself. Faults: Store if
/// its rowids aren't distinct numbers; NoMemory.
fn make_new<S: Alter>(
    alloc: Global,
    conn: &mut Connection<S>,
    setup: &Setup,
    made: usize,
) -> Result<Answer, Error>
    requires few { made ≤ 6 }
    requires part { HasCleanDisk (state S.Store conn.old) → IsPart made (state S.Store conn.old) }
    requires new { HasCleanDisk (state S.Store conn.old)
        → had 1 made ((state S.Store conn.old).now.trees 0) ≡ [] }
    requires between { conn.old.in_transaction ≡ false }
    ensures between { conn.new.in_transaction ≡ false }
    ensures bound { HasCleanDisk (state S.Store conn.new)
        → IfOk result (λ answer. IfOk answer (λ depth.
        IsBoundAs setup.now depth (state S.Store conn.old) (state S.Store conn.new))) }
    ensures refused { HasCleanDisk (state S.Store conn.new) → IfOk result (λ answer. IfErr answer
        (IsRefused setup.now (state S.Store conn.old) (state S.Store conn.new))) }
    ensures crash { Survives (state S.Store conn.old) (state S.Store conn.new)
        (LeavesBound setup.now (state S.Store conn.old)) }
    ensures excused { Excused (state S.Store conn.old) (state S.Store conn.new) result }
{
    let apart = are_all_apart(conn, made)?;
    if !apart {
        return Ok(Err(StoreFault::Store));
    }
    let texts = match row_texts(alloc, setup) {
        Ok(texts) => texts,
        Err(_) => return Ok(Err(StoreFault::NoMemory)),
    };
    make_whole(conn, made, &texts, NEW_DEPTH)?;
    Ok(Ok(NEW_DEPTH))
}

/// Binds the store to the setup, and returns its depth limit or the cause of the rejection. A
/// rejected store stays as it was. The outer error is that of a failed statement, after which the
/// connection may be closed.
pub(crate) fn bind<S: Alter>(
    alloc: Global,
    conn: &mut Connection<S>,
    setup: &Setup,
) -> Result<Answer, Error>
    requires settled { HasCleanDisk (state S.Store conn.old) → IsSettled (state S.Store conn.old) }
    requires between { conn.old.in_transaction ≡ false }
    ensures between { conn.new.in_transaction ≡ false }
    ensures bound { HasCleanDisk (state S.Store conn.new)
        → IfOk result (λ answer. IfOk answer (λ depth.
        IsBoundAs setup.now depth (state S.Store conn.old) (state S.Store conn.new))) }
    ensures refused { HasCleanDisk (state S.Store conn.new) → IfOk result (λ answer. IfErr answer
        (IsRefused setup.now (state S.Store conn.old) (state S.Store conn.new))) }
    ensures crash { Survives (state S.Store conn.old) (state S.Store conn.new)
        (LeavesBound setup.now (state S.Store conn.old)) }
    ensures excused { Excused (state S.Store conn.old) (state S.Store conn.new) result }
{
    let found = profile_of(alloc, conn)?;
    let (made, identity) = match found {
        Ok(profile) => (profile.made, judge(&profile.metas)),
        Err(fault) => return Ok(Err(fault)),
    };
    match identity {
        Identity::New => {
            let answer = make_new(alloc, conn, setup, made);
            answer
        }
        Identity::OtherVersion => Ok(Err(StoreFault::OtherVersion)),
        Identity::Damaged => Ok(Err(StoreFault::Damaged(0))),
        Identity::Bound(depth) => {
            let compared = compare(alloc, conn, setup, made, 6)?;
            match compared {
                Ok(()) => Ok(Ok(depth)),
                Err(fault) => Ok(Err(fault)),
            }
        }
    }
}

/// Returns whether the store has no rows about itself, so that binding it begins a record. False if
/// the database has other tables than a store's. The outer error is that of a failed statement,
/// after which the connection may be closed.
pub(crate) fn is_new<S: Alter>(
    alloc: Global,
    conn: &mut Connection<S>,
) -> Result<Result<bool, NoMemory>, Error>
    requires settled { HasCleanDisk (state S.Store conn.old) → IsSettled (state S.Store conn.old) }
    requires between { conn.old.in_transaction ≡ false }
    ensures told { HasCleanDisk (state S.Store conn.new)
        → IfOk result (λ answer. IfOk answer (IsNewness (state S.Store conn.old).now)) }
    ensures reading { IsReading (state S.Store conn.old) (state S.Store conn.new) result }
{
    let found = profile_of(alloc, conn)?;
    match found {
        Ok(profile) => Ok(Ok(profile.metas.is_empty())),
        Err(StoreFault::NoMemory) => Ok(Err(NoMemory)),
        Err(_) => Ok(Ok(false)),
    }
}
