//! The checks that opening and migrating a store share. The first reads which tables the store has,
//! and its rows about itself. The second compares its setup, its tables and its rowids.
ghost use Rattle.std.specs.Prelude.{◌≤◌, IfOk, IfErr, OnOk};
ghost use Rattle.sqlite.specs.Held.{state};
ghost use Rattle.sqlite.specs.State.{HasCleanDisk};
ghost use Rattle.register_sql.specs.Binding.{IsSettled};
ghost use Rattle.register_sql.specs.Failing.{IsReading};
ghost use Rattle.register_sql.specs.Profiles.{IsProfile, IsProfileFault, IsComplete};
ghost use Rattle.register_sql.specs.Profiles.{IsCompareFault};
ghost use Rattle.register_sql.specs.Queries.{IsPart};

use crate::identity::has_setup;
use crate::queries::{Query, read};
use crate::rowids::are_all_apart;
use crate::schema::tables_made;
use nest_core::Setup;
use register_store::StoreFault;
use sqlite::{Alter, Connection, Error, Row};
use std::alloc::Global;

/// Which tables a store has, and its rows about itself.
#[derive(Drop)]
pub(crate) struct Profile {
    /// How many of a store's tables it has, in the order of creation.
    pub(crate) made: usize,
    /// The rows of `meta`; none if that table is missing.
    pub(crate) metas: Vec<Row>,
    ghost few: { made ≤ 6 },
}

/// Reads which tables a store has, and its rows about itself. The store stays as it was. The inner
/// fault is NoMemory, or Store if the database has other tables than a store's. The outer error is
/// that of a failed statement, after which the connection may be closed.
pub(crate) fn profile_of<S: Alter>(
    alloc: Global,
    conn: &mut Connection<S>,
) -> Result<Result<Profile, StoreFault>, Error>
    requires settled { HasCleanDisk (state S.Store conn.old) → IsSettled (state S.Store conn.old) }
    ensures profile { HasCleanDisk (state S.Store conn.new)
        → IfOk result (λ answer. IfOk answer (λ profile.
        IsProfile (state S.Store conn.old) profile.made profile.metas.items)) }
    ensures refused { HasCleanDisk (state S.Store conn.new) → IfOk result (λ answer. IfErr answer
        (IsProfileFault (state S.Store conn.old).now)) }
    ensures reading { IsReading (state S.Store conn.old) (state S.Store conn.new) result }
{
    let found = match tables_made(alloc, conn.schema()) {
        Ok(found) => found,
        Err(_) => return Ok(Err(StoreFault::NoMemory)),
    };
    match found {
        None => Ok(Err(StoreFault::Store)),
        Some(0) => {
            let metas = Vec::new(alloc);
            Ok(Ok(Profile { made: 0, metas }))
        }
        Some(made) => {
            let metas = read(conn, Query::Metas, made)?;
            Ok(Ok(Profile { made, metas }))
        }
    }
}

/// Checks that a store of the first `made` tables has this setup, exactly the first `wanted`
/// tables, and rowids that are distinct numbers in the setup, the entries, the loan lines and the
/// last days. The store stays as it was. The inner fault is the first that applies: NoMemory;
/// OtherSetup; Store for other tables; Store for the rowids. The outer error is that of a failed
/// statement, after which the connection may be closed.
pub(crate) fn compare<S: Alter>(
    alloc: Global,
    conn: &mut Connection<S>,
    setup: &Setup,
    made: usize,
    wanted: usize,
) -> Result<Result<(), StoreFault>, Error>
    requires few { made ≤ 6 }
    requires part { HasCleanDisk (state S.Store conn.old) → IsPart made (state S.Store conn.old) }
    ensures complete { HasCleanDisk (state S.Store conn.new) → IfOk result (λ answer. OnOk answer
        (IsComplete setup.now made wanted (state S.Store conn.old).now.trees)) }
    ensures refused { HasCleanDisk (state S.Store conn.new) → IfOk result (λ answer. IfErr answer
        (IsCompareFault setup.now made wanted (state S.Store conn.old).now.trees)) }
    ensures reading { IsReading (state S.Store conn.old) (state S.Store conn.new) result }
{
    let answer = has_setup(alloc, conn, setup, made)?;
    let same = match answer {
        Ok(same) => same,
        Err(_) => return Ok(Err(StoreFault::NoMemory)),
    };
    if !same {
        return Ok(Err(StoreFault::OtherSetup));
    }
    if made != wanted {
        return Ok(Err(StoreFault::Store));
    }
    let apart = are_all_apart(conn, made)?;
    if !apart {
        return Ok(Err(StoreFault::Store));
    }
    Ok(Ok(()))
}
