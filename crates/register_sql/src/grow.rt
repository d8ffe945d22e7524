//! Replaces the setup of a whole store by one that has grown.
ghost use Rattle.std.specs.Prelude.{◌≡◌, ◌≢◌, OnOk, OnErr, IfOk, IfErr, IsTrue, true, false, map};
ghost use Rattle.std.specs.Prelude.{string_bytes};
ghost use Rattle.nest_core.specs.SetupTexts.{setup_rows};
ghost use Rattle.sqlite.specs.Held.{state};
ghost use Rattle.sqlite.specs.State.{HasCleanDisk, Survives};
ghost use Rattle.register_store.specs.Registers.{is_failure};
ghost use Rattle.register_sql.specs.Failing.{Excused};
ghost use Rattle.register_sql.specs.Growing.{with_setup};
ghost use Rattle.register_sql.specs.Posting.{IsBack, IsDone, IsReady, LeavesWhole};
ghost use Rattle.register_sql.specs.Queries.{AreApart, IsSame};
ghost use Rattle.register_sql.specs.Rows.{Apart};

use crate::make::replace_setup;
use crate::rowids::are_all_apart;
use nest_core::Setup;
use register_store::{StoreFault, row_texts};
use sqlite::{Alter, Connection, Error};
use std::alloc::Global;

/// Replaces the rows of the setup in one transaction. After an error the database is as it was, if
/// the connection is still open. Once the call has returned, a crash leaves the setup from before
/// it, or this one; after an Ok, the latter.
fn grow_whole<S: Alter>(
    conn: &mut Connection<S>,
    setup: &Setup,
    texts: &[String],
) -> Result<(), Error>
    requires ready { HasCleanDisk (state S.Store conn.old) → IsReady (state S.Store conn.old) }
    requires apart { HasCleanDisk (state S.Store conn.old)
        → Apart ((state S.Store conn.old).now.trees 2) }
    requires between { (state S.Store conn.old).in_transaction ≡ false }
    requires texts { map string_bytes texts.now ≡ setup_rows setup.now }
    ensures between { (state S.Store conn.new).in_transaction ≡ false }
    ensures grown { HasCleanDisk (state S.Store conn.new)
        → OnOk result (IsDone (state S.Store conn.old) (state S.Store conn.new)
        (with_setup setup.now)) }
    ensures failed { HasCleanDisk (state S.Store conn.new) → IsTrue (state S.Store conn.new).is_open
        → OnErr result (IsBack (state S.Store conn.old) (state S.Store conn.new)) }
    ensures crash { Survives (state S.Store conn.old) (state S.Store conn.new)
        (LeavesWhole (state S.Store conn.old) (with_setup setup.now)) }
    ensures excused { Excused (state S.Store conn.old) (state S.Store conn.new) result }
{
    let _setup = setup;
    let _live = conn.schema();
    let _between = conn.is_autocommit();
    let mut tx = conn.transaction();
    replace_setup(&mut tx, texts)?;
    tx.commit()
}

/// Replaces the setup of a whole store by this one, which has grown. The inner fault is Store if
/// rowids aren't distinct numbers, or NoMemory; the store is then as it was. The outer error is
/// that of a failed statement, after which the connection may be closed.
pub(crate) fn grow<S: Alter>(
    alloc: Global,
    conn: &mut Connection<S>,
    setup: &Setup,
) -> Result<Result<(), StoreFault>, Error>
    requires ready { HasCleanDisk (state S.Store conn.old) → IsReady (state S.Store conn.old) }
    requires between { conn.old.in_transaction ≡ false }
    ensures between { conn.new.in_transaction ≡ false }
    ensures grown { HasCleanDisk (state S.Store conn.new) → IfOk result (λ answer. OnOk answer
        (IsDone (state S.Store conn.old) (state S.Store conn.new) (with_setup setup.now))) }
    ensures refused { HasCleanDisk (state S.Store conn.new) → IfOk result (λ answer. OnErr answer
        (IsSame (state S.Store conn.old) (state S.Store conn.new))) }
    ensures faults { IfOk result (λ answer. IfErr answer (λ fault. is_failure fault ≡ true)) }
    ensures unfit { HasCleanDisk (state S.Store conn.new) → IfOk result (λ answer. IfErr answer
        (λ fault. fault ≡ StoreFault.Store → ¬ AreApart 6 (state S.Store conn.old).now.trees)) }
    ensures crash { Survives (state S.Store conn.old) (state S.Store conn.new)
        (LeavesWhole (state S.Store conn.old) (with_setup setup.now)) }
    ensures excused { Excused (state S.Store conn.old) (state S.Store conn.new) result }
{
    let apart = are_all_apart(conn, 6)?;
    if !apart {
        return Ok(Err(StoreFault::Store));
    }
    let texts = match row_texts(alloc, setup) {
        Ok(texts) => texts,
        Err(_) => return Ok(Err(StoreFault::NoMemory)),
    };
    grow_whole(conn, setup, &texts)?;
    Ok(Ok(()))
}
