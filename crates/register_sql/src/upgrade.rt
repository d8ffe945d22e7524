//! Turns the tables of version 1 into those of version 2, in one transaction.
ghost use Rattle.std.specs.Prelude.{◌≡◌, OnOk, OnErr, IsTrue, false};
ghost use Rattle.sqlite.specs.Held.{state};
ghost use Rattle.sqlite.specs.State.{HasCleanDisk, Survives};
ghost use Rattle.register_store.specs.StoredRows.{rows_of_meta, term_of};
ghost use Rattle.register_sql.specs.Failing.{Excused, IsStep};
ghost use Rattle.register_sql.specs.Making.{IsMaking, Went};
ghost use Rattle.register_sql.specs.Migrating.{ClearsMeta, RenewsMeta, Raises, IsLifting, IsLifted};
ghost use Rattle.register_sql.specs.Migrating.{LeavesLifted};
ghost use Rattle.register_sql.specs.Posting as step;
ghost use Rattle.register_sql.specs.Posting.{IsWithin, Wrote, IsBack};
ghost use Rattle.register_sql.specs.Queries.{IsPart};
ghost use Rattle.register_sql.specs.Rows.{Apart};

use crate::make::{add_metas, make_at};
use crate::put::{put_some_term, run};
use posting_core::Entry;
use sqlite::{Alter, Connection, Error, Transaction};

/// The depth limit of a store of version 1. A migrated store keeps it.
const FIRST_DEPTH: u32 = 8;

/// Removes the rows about the store.
fn clear_metas<S: Alter>(tx: &mut Transaction<'_, S>) -> Result<(), Error>
    requires made { IsMaking 6 (state S.Store tx.old.conn.now) }
    requires apart { HasCleanDisk (state S.Store tx.old.conn.now)
        → IsTrue (state S.Store tx.old.conn.now).is_open
        → Apart ((state S.Store tx.old.conn.now).now.trees 0) }
    ensures same_reference { tx.new.conn.ghost_name ≡ tx.old.conn.ghost_name }
    ensures wrote { Went (state S.Store tx.old.conn.now) (state S.Store tx.new.conn.now) result
        6 ClearsMeta }
    ensures step { IsStep (state S.Store tx.old.conn.now) (state S.Store tx.new.conn.now) result }
{
    run(tx, "DELETE FROM meta", &[])
}

/// Replaces the rows about the store with version 2 and the old depth limit.
fn renew_metas<S: Alter>(tx: &mut Transaction<'_, S>) -> Result<(), Error>
    requires made { IsMaking 6 (state S.Store tx.old.conn.now) }
    requires apart { HasCleanDisk (state S.Store tx.old.conn.now)
        → IsTrue (state S.Store tx.old.conn.now).is_open
        → Apart ((state S.Store tx.old.conn.now).now.trees 0) }
    ensures same_reference { tx.new.conn.ghost_name ≡ tx.old.conn.ghost_name }
    ensures wrote { Went (state S.Store tx.old.conn.now) (state S.Store tx.new.conn.now) result
        6 (RenewsMeta (rows_of_meta 8)) }
    ensures step { IsStep (state S.Store tx.old.conn.now) (state S.Store tx.new.conn.now) result }
{
    clear_metas(tx)?;
    add_metas(tx, FIRST_DEPTH)
}

/// Creates the table of last days, empty, and sets version 2.
fn raise<S: Alter>(tx: &mut Transaction<'_, S>) -> Result<(), Error>
    requires made { IsMaking 5 (state S.Store tx.old.conn.now) }
    requires apart { HasCleanDisk (state S.Store tx.old.conn.now)
        → IsTrue (state S.Store tx.old.conn.now).is_open
        → Apart ((state S.Store tx.old.conn.now).now.trees 0) }
    ensures same_reference { tx.new.conn.ghost_name ≡ tx.old.conn.ghost_name }
    ensures wrote { Went (state S.Store tx.old.conn.now)
        (state S.Store tx.new.conn.now) result 6 Raises }
    ensures step { IsStep (state S.Store tx.old.conn.now) (state S.Store tx.new.conn.now) result }
{
    make_at(tx, 5)?;
    renew_metas(tx)
}

/// Writes the last days that the entries set. They come oldest first, so that a later one replaces
/// an earlier one.
fn put_terms<S: Alter>(tx: &mut Transaction<'_, S>, entries: &[Entry]) -> Result<(), Error>
    requires { IsWithin (state S.Store tx.old.conn.now) }
    ensures same_reference { tx.new.conn.ghost_name ≡ tx.old.conn.ghost_name }
    ensures wrote { Wrote (state S.Store tx.old.conn.now) (state S.Store tx.new.conn.now) result
        (step.with_each (λ e. step.with_some_term (term_of e)) entries.now) }
    ensures step { IsStep (state S.Store tx.old.conn.now) (state S.Store tx.new.conn.now) result }
{
    'entries: for entry in entries {
        put_some_term(tx, entry)?;
    }
    Ok(())
}

/// Makes all changes of a migration.
fn lift<S: Alter>(tx: &mut Transaction<'_, S>, entries: &[Entry]) -> Result<(), Error>
    requires made { IsMaking 5 (state S.Store tx.old.conn.now) }
    requires metas { HasCleanDisk (state S.Store tx.old.conn.now)
        → IsTrue (state S.Store tx.old.conn.now).is_open
        → Apart ((state S.Store tx.old.conn.now).now.trees 0) }
    requires lines { HasCleanDisk (state S.Store tx.old.conn.now)
        → IsTrue (state S.Store tx.old.conn.now).is_open
        → Apart ((state S.Store tx.old.conn.now).now.trees 7) }
    ensures same_reference { tx.new.conn.ghost_name ≡ tx.old.conn.ghost_name }
    ensures wrote { HasCleanDisk (state S.Store tx.new.conn.now)
        → OnOk result
        (IsLifting entries.now (state S.Store tx.old.conn.now) (state S.Store tx.new.conn.now)) }
    ensures step { IsStep (state S.Store tx.old.conn.now) (state S.Store tx.new.conn.now) result }
{
    raise(tx)?;
    put_terms(tx, entries)
}

/// Migrates a store of version 1 with these entries, oldest first, in one transaction. After an
/// error the database is as it was, if the connection is still open. Once the call has returned, a
/// crash leaves the rows from before it, or those of version 2; after an Ok, the latter.
pub(crate) fn lift_whole<S: Alter>(conn: &mut Connection<S>, entries: &[Entry]) -> Result<(), Error>
    requires part { HasCleanDisk (state S.Store conn.old) → IsPart 5 (state S.Store conn.old) }
    requires metas { HasCleanDisk (state S.Store conn.old)
        → Apart ((state S.Store conn.old).now.trees 0) }
    requires lines { HasCleanDisk (state S.Store conn.old)
        → Apart ((state S.Store conn.old).now.trees 7) }
    requires between { (state S.Store conn.old).in_transaction ≡ false }
    ensures between { (state S.Store conn.new).in_transaction ≡ false }
    ensures lifted { HasCleanDisk (state S.Store conn.new)
        → OnOk result (IsLifted entries.now (state S.Store conn.old) (state S.Store conn.new)) }
    ensures failed { HasCleanDisk (state S.Store conn.new) → IsTrue (state S.Store conn.new).is_open
        → OnErr result (IsBack (state S.Store conn.old) (state S.Store conn.new)) }
    ensures crash { Survives (state S.Store conn.old) (state S.Store conn.new)
        (LeavesLifted entries.now (state S.Store conn.old)) }
    ensures excused { Excused (state S.Store conn.old) (state S.Store conn.new) result }
{
    let _live = conn.schema();
    let _between = conn.is_autocommit();
    let mut tx = conn.transaction();
    lift(&mut tx, entries)?;
    tx.commit()
}
