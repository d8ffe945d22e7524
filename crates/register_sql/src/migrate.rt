//! Migrates a store from version 1 to version 2.
ghost use Rattle.std.specs.Prelude.{◌≡◌, ◌≤◌, ℕ, List, false, IfOk, IfErr, OnOk};
ghost use Rattle.std.specs.List.Sorted.{IsPermutation};
ghost use Rattle.nest_core.specs.Museum.{Museum};
ghost use Rattle.posting_core.specs.declared.entry.Entry.{Entry};
ghost use Rattle.posting_core.specs.Lawful.{IsLawful};
ghost use Rattle.sqlite.specs.Held.{state};
ghost use Rattle.sqlite.specs.State.{HasCleanDisk, Survives};
ghost use Rattle.register_store.specs.StoredRows.{rows_of_terms};
ghost use Rattle.register_sql.specs.Ages.{IsFirst};
ghost use Rattle.register_sql.specs.Binding.{IsSettled};
ghost use Rattle.register_sql.specs.Failing.{Excused};
ghost use Rattle.register_sql.specs.Migrating.{days_given, IsRaisable, IsRaised, IsLeft};
ghost use Rattle.register_sql.specs.Migrating.{LeavesMoved};
ghost use Rattle.register_sql.specs.Queries.{IsPart};
ghost use Rattle.register_sql.specs.Says.{metas_in};

use crate::profile::{compare, profile_of};
use crate::queries::Query;
use crate::rowids::is_apart;
use crate::upgrade::lift_whole;
use crate::version::{Age, age_of};
use crate::version_one::early_list;
use nest_core::Setup;
use register_store::StoreFault;
use sqlite::{Alter, Connection, Error};
use std::alloc::Global;

/// Ok if the store is of version 2 now, otherwise why it isn't.
type Answer = Result<(), StoreFault>;

/// A law: the last days that the entries of a lawful list set, each replacing the loan's previous
/// one, are those of looking back.
pub fn given_days_are_of_looking_back()
    ensures { (S : Museum) (depth : ℕ) (P : List Entry) → IsLawful S depth P
        → IsPermutation (rows_of_terms P) (days_given P) }
{}

/// Migrates a store of version 1 that has this setup and distinct rowids. Faults: Damaged with the
/// number of the first row that is no entry of version 1; NoMemory.
fn move_entries<S: Alter>(
    alloc: Global,
    conn: &mut Connection<S>,
    setup: &Setup,
) -> Result<Answer, Error>
    requires raisable { HasCleanDisk (state S.Store conn.old)
        → IsRaisable setup.now (state S.Store conn.old) }
    requires between { conn.old.in_transaction ≡ false }
    ensures between { conn.new.in_transaction ≡ false }
    ensures raised { HasCleanDisk (state S.Store conn.new) → IfOk result (λ answer.
        OnOk answer (IsRaised setup.now (state S.Store conn.old) (state S.Store conn.new))) }
    ensures refused { HasCleanDisk (state S.Store conn.new) → IfOk result (λ answer. IfErr answer
        (IsLeft setup.now (state S.Store conn.old) (state S.Store conn.new))) }
    ensures crash { Survives (state S.Store conn.old) (state S.Store conn.new)
        (LeavesMoved setup.now (state S.Store conn.old)) }
    ensures excused { Excused (state S.Store conn.old) (state S.Store conn.new) result }
{
    let listed = early_list(alloc, conn, setup.stations())?;
    let entries = match listed {
        Ok(entries) => entries,
        Err(fault) => return Ok(Err(fault)),
    };
    lift_whole(conn, &entries)?;
    Ok(Ok(()))
}

/// Migrates a store of the first `made` tables whose rows about itself are those of version 1.
/// Faults: those of `compare`; Store if the rowids of `meta` aren't distinct numbers; those of
/// `move_entries`.
fn move_first<S: Alter>(
    alloc: Global,
    conn: &mut Connection<S>,
    setup: &Setup,
    made: usize,
) -> Result<Answer, Error>
    requires few { made ≤ 6 }
    requires part { HasCleanDisk (state S.Store conn.old) → IsPart made (state S.Store conn.old) }
    requires first { HasCleanDisk (state S.Store conn.old)
        → IsFirst (metas_in made (state S.Store conn.old).now.trees) }
    requires between { conn.old.in_transaction ≡ false }
    ensures between { conn.new.in_transaction ≡ false }
    ensures raised { HasCleanDisk (state S.Store conn.new) → IfOk result (λ answer.
        OnOk answer (IsRaised setup.now (state S.Store conn.old) (state S.Store conn.new))) }
    ensures refused { HasCleanDisk (state S.Store conn.new) → IfOk result (λ answer. IfErr answer
        (IsLeft setup.now (state S.Store conn.old) (state S.Store conn.new))) }
    ensures crash { Survives (state S.Store conn.old) (state S.Store conn.new)
        (LeavesMoved setup.now (state S.Store conn.old)) }
    ensures excused { Excused (state S.Store conn.old) (state S.Store conn.new) result }
{
    let compared = compare(alloc, conn, setup, made, 5)?;
    if let Err(fault) = compared {
        return Ok(Err(fault));
    }
    let apart = is_apart(conn, Query::MetaIds, 5)?;
    if !apart {
        return Ok(Err(StoreFault::Store));
    }
    let answer = move_entries(alloc, conn, setup);
    answer
}

/// Migrates the store, or returns why it can't be migrated. A rejected store stays as it was. The
/// outer error is that of a failed statement, after which the connection may be closed.
pub(crate) fn migrate<S: Alter>(
    alloc: Global,
    conn: &mut Connection<S>,
    setup: &Setup,
) -> Result<Answer, Error>
    requires settled { HasCleanDisk (state S.Store conn.old) → IsSettled (state S.Store conn.old) }
    requires between { conn.old.in_transaction ≡ false }
    ensures between { conn.new.in_transaction ≡ false }
    ensures raised { HasCleanDisk (state S.Store conn.new) → IfOk result (λ answer.
        OnOk answer (IsRaised setup.now (state S.Store conn.old) (state S.Store conn.new))) }
    ensures refused { HasCleanDisk (state S.Store conn.new) → IfOk result (λ answer. IfErr answer
        (IsLeft setup.now (state S.Store conn.old) (state S.Store conn.new))) }
    ensures crash { Survives (state S.Store conn.old) (state S.Store conn.new)
        (LeavesMoved setup.now (state S.Store conn.old)) }
    ensures excused { Excused (state S.Store conn.old) (state S.Store conn.new) result }
{
    let found = profile_of(alloc, conn)?;
    let (made, age) = match found {
        Ok(profile) => (profile.made, age_of(&profile.metas)),
        Err(fault) => return Ok(Err(fault)),
    };
    match age {
        Age::New => Ok(Err(StoreFault::OtherVersion)),
        Age::Second => Ok(Ok(())),
        Age::First => {
            let answer = move_first(alloc, conn, setup, made);
            answer
        }
        Age::Other => Ok(Err(StoreFault::OtherVersion)),
        Age::Damaged => Ok(Err(StoreFault::Damaged(0))),
    }
}
