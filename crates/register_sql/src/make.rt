//! Creates and fills the tables of a new store, in one transaction.
ghost use Rattle.std.specs.Prelude.{◌≡◌, ◌<◌, ◌≤◌, ◌+◌, ◌^◌, ◌∷◌, [], OnOk, OnErr, IsTrue, false};
ghost use Rattle.std.specs.Prelude.{map, pos, string_bytes};
ghost use Rattle.sqlite.specs.Held.{state};
ghost use Rattle.sqlite.specs.State.{HasCleanDisk, Survives};
ghost use Rattle.register_store.specs.StoredRows.{rows_of_meta};
ghost use Rattle.register_sql.specs.Failing.{Excused, IsStep};
ghost use Rattle.register_sql.specs.Making.{create_of, setup_from, IsMaking, Went, Grown};
ghost use Rattle.register_sql.specs.Making.{ClearsSetup, AddsSetup, ReplacesSetup, AddsMeta, Fills};
ghost use Rattle.register_sql.specs.Making.{MakesWhole, IsMadeWhole, LeavesMade};
ghost use Rattle.register_sql.specs.Posting.{IsBack};
ghost use Rattle.register_sql.specs.Queries.{IsPart};
ghost use Rattle.register_sql.specs.Rows.{had, Apart};

use crate::put::{run, wide};
use sqlite::{Alter, Connection, Error, Transaction, params};

/// The statement that creates table `at`, counted from 0.
fn create_text(at: usize) -> &'static str
    ensures { result.now ≡ create_of at }
{
    match at {
        0 => "CREATE TABLE meta (name TEXT PRIMARY KEY, val INTEGER NOT NULL) STRICT",
        1 => "CREATE TABLE setup (id INTEGER PRIMARY KEY, txt TEXT NOT NULL) STRICT",
        2 => {
            "CREATE TABLE posting (id INTEGER PRIMARY KEY, station INTEGER NOT NULL, n INTEGER NOT NULL, body TEXT NOT NULL, verdict INTEGER NOT NULL, UNIQUE (station, n)) STRICT"
        }
        3 => {
            "CREATE TABLE spot (thing INTEGER, k INTEGER, entry INTEGER NOT NULL, place INTEGER NOT NULL, day INTEGER NOT NULL, PRIMARY KEY (thing, k)) STRICT"
        }
        4 => {
            "CREATE TABLE line (loan TEXT, object INTEGER, stage INTEGER NOT NULL, PRIMARY KEY (loan, object)) STRICT"
        }
        _ => "CREATE TABLE term (loan TEXT PRIMARY KEY, day INTEGER NOT NULL) STRICT",
    }
}

/// Creates table `at`, counted from 0, after the tables before it.
pub(crate) fn make_at<S: Alter>(tx: &mut Transaction<'_, S>, at: usize) -> Result<(), Error>
    requires few { at < 6 }
    requires made { IsMaking at (state S.Store tx.old.conn.now) }
    ensures same_reference { tx.new.conn.ghost_name ≡ tx.old.conn.ghost_name }
    ensures wrote { Went (state S.Store tx.old.conn.now) (state S.Store tx.new.conn.now) result
        (at + 1) (Grown at (at + 1)) }
    ensures step { IsStep (state S.Store tx.old.conn.now) (state S.Store tx.new.conn.now) result }
{
    let text = create_text(at);
    run(tx, text, &[])
}

/// Creates the tables that are missing after the first `made`.
fn make_rest<S: Alter>(tx: &mut Transaction<'_, S>, made: usize) -> Result<(), Error>
    requires few { made ≤ 6 }
    requires made { IsMaking made (state S.Store tx.old.conn.now) }
    ensures same_reference { tx.new.conn.ghost_name ≡ tx.old.conn.ghost_name }
    ensures wrote { Went (state S.Store tx.old.conn.now) (state S.Store tx.new.conn.now) result
        6 (Grown made 6) }
    ensures step { IsStep (state S.Store tx.old.conn.now) (state S.Store tx.new.conn.now) result }
{
    'tables: for at in made..6 {
        make_at(tx, at)?;
    }
    Ok(())
}

/// Removes all rows of the setup.
fn clear_setup<S: Alter>(tx: &mut Transaction<'_, S>) -> Result<(), Error>
    requires made { IsMaking 6 (state S.Store tx.old.conn.now) }
    requires apart { HasCleanDisk (state S.Store tx.old.conn.now)
        → IsTrue (state S.Store tx.old.conn.now).is_open
        → Apart ((state S.Store tx.old.conn.now).now.trees 2) }
    ensures same_reference { tx.new.conn.ghost_name ≡ tx.old.conn.ghost_name }
    ensures wrote { Went (state S.Store tx.old.conn.now) (state S.Store tx.new.conn.now) result
        6 ClearsSetup }
    ensures step { IsStep (state S.Store tx.old.conn.now) (state S.Store tx.new.conn.now) result }
{
    run(tx, "DELETE FROM setup", &[])
}

/// Adds a row of the setup.
fn add_setup<S: Alter>(tx: &mut Transaction<'_, S>, number: u64, text: &str) -> Result<(), Error>
    requires made { IsMaking 6 (state S.Store tx.old.conn.now) }
    requires small { number < 2 ^ 63 }
    ensures same_reference { tx.new.conn.ghost_name ≡ tx.old.conn.ghost_name }
    ensures wrote { Went (state S.Store tx.old.conn.now) (state S.Store tx.new.conn.now) result
        6 (AddsSetup (record { id = pos number; text = text.now } ∷ [])) }
    ensures step { IsStep (state S.Store tx.old.conn.now) (state S.Store tx.new.conn.now) result }
{
    let id = wide(number);
    run(
        tx,
        "INSERT INTO setup (id, txt) VALUES (?1, ?2)",
        params![id, text],
    )
}

/// Adds the rows of the setup, numbered from 1.
fn add_setups<S: Alter>(tx: &mut Transaction<'_, S>, texts: &[String]) -> Result<(), Error>
    requires { IsMaking 6 (state S.Store tx.old.conn.now) }
    ensures same_reference { tx.new.conn.ghost_name ≡ tx.old.conn.ghost_name }
    ensures wrote { Went (state S.Store tx.old.conn.now) (state S.Store tx.new.conn.now) result
        6 (AddsSetup (setup_from 1 (map string_bytes texts.now))) }
    ensures step { IsStep (state S.Store tx.old.conn.now) (state S.Store tx.new.conn.now) result }
{
    'texts: for at in 0..texts.len() {
        add_setup(tx, at as u64 + 1, texts[at].as_str())?;
    }
    Ok(())
}

/// Adds a row about the store.
fn add_meta<S: Alter>(tx: &mut Transaction<'_, S>, name: &str, val: u32) -> Result<(), Error>
    requires { IsMaking 6 (state S.Store tx.old.conn.now) }
    ensures same_reference { tx.new.conn.ghost_name ≡ tx.old.conn.ghost_name }
    ensures wrote { Went (state S.Store tx.old.conn.now) (state S.Store tx.new.conn.now) result
        6 (AddsMeta (record { name = name.now; val = pos val } ∷ [])) }
    ensures step { IsStep (state S.Store tx.old.conn.now) (state S.Store tx.new.conn.now) result }
{
    run(
        tx,
        "INSERT INTO meta (name, val) VALUES (?1, ?2)",
        params![name, i64::from(val)],
    )
}

/// Adds the rows about the store: version 2, and this depth limit.
pub(crate) fn add_metas<S: Alter>(tx: &mut Transaction<'_, S>, depth: u32) -> Result<(), Error>
    requires { IsMaking 6 (state S.Store tx.old.conn.now) }
    ensures same_reference { tx.new.conn.ghost_name ≡ tx.old.conn.ghost_name }
    ensures wrote { Went (state S.Store tx.old.conn.now) (state S.Store tx.new.conn.now) result
        6 (AddsMeta (rows_of_meta depth)) }
    ensures step { IsStep (state S.Store tx.old.conn.now) (state S.Store tx.new.conn.now) result }
{
    add_meta(tx, "depth", depth)?;
    let version = add_meta(tx, "version", 2);
    version
}

/// Replaces the rows of the setup.
pub(crate) fn replace_setup<S: Alter>(
    tx: &mut Transaction<'_, S>,
    texts: &[String],
) -> Result<(), Error>
    requires made { IsMaking 6 (state S.Store tx.old.conn.now) }
    requires apart { HasCleanDisk (state S.Store tx.old.conn.now)
        → IsTrue (state S.Store tx.old.conn.now).is_open
        → Apart ((state S.Store tx.old.conn.now).now.trees 2) }
    ensures same_reference { tx.new.conn.ghost_name ≡ tx.old.conn.ghost_name }
    ensures wrote { Went (state S.Store tx.old.conn.now) (state S.Store tx.new.conn.now) result
        6 (ReplacesSetup (setup_from 1 (map string_bytes texts.now))) }
    ensures step { IsStep (state S.Store tx.old.conn.now) (state S.Store tx.new.conn.now) result }
{
    clear_setup(tx)?;
    add_setups(tx, texts)
}

/// Replaces the rows of the setup, and adds the rows about the store.
fn fill<S: Alter>(tx: &mut Transaction<'_, S>, texts: &[String], depth: u32) -> Result<(), Error>
    requires made { IsMaking 6 (state S.Store tx.old.conn.now) }
    requires apart { HasCleanDisk (state S.Store tx.old.conn.now)
        → IsTrue (state S.Store tx.old.conn.now).is_open
        → Apart ((state S.Store tx.old.conn.now).now.trees 2) }
    ensures same_reference { tx.new.conn.ghost_name ≡ tx.old.conn.ghost_name }
    ensures wrote { Went (state S.Store tx.old.conn.now) (state S.Store tx.new.conn.now) result
        6 (Fills (setup_from 1 (map string_bytes texts.now)) (rows_of_meta depth)) }
    ensures step { IsStep (state S.Store tx.old.conn.now) (state S.Store tx.new.conn.now) result }
{
    replace_setup(tx, texts)?;
    add_metas(tx, depth)
}

/// Creates the tables that are missing after the first `made`, and fills them.
fn make_all<S: Alter>(
    tx: &mut Transaction<'_, S>,
    made: usize,
    texts: &[String],
    depth: u32,
) -> Result<(), Error>
    requires few { made ≤ 6 }
    requires made { IsMaking made (state S.Store tx.old.conn.now) }
    requires apart { HasCleanDisk (state S.Store tx.old.conn.now)
        → IsTrue (state S.Store tx.old.conn.now).is_open
        → Apart (had 2 made ((state S.Store tx.old.conn.now).now.trees 2)) }
    ensures same_reference { tx.new.conn.ghost_name ≡ tx.old.conn.ghost_name }
    ensures wrote { Went (state S.Store tx.old.conn.now) (state S.Store tx.new.conn.now) result
        6 (MakesWhole made (setup_from 1 (map string_bytes texts.now)) (rows_of_meta depth)) }
    ensures step { IsStep (state S.Store tx.old.conn.now) (state S.Store tx.new.conn.now) result }
{
    make_rest(tx, made)?;
    fill(tx, texts, depth)
}

/// Completes a store that has the first `made` tables, with these rows of the setup and this depth
/// limit, in one transaction. After an error the database is as it was, if the connection is still
/// open. Once the call has returned, a crash leaves the database from before it, or the complete
/// one.
pub(crate) fn make_whole<S: Alter>(
    conn: &mut Connection<S>,
    made: usize,
    texts: &[String],
    depth: u32,
) -> Result<(), Error>
    requires few { made ≤ 6 }
    requires part { HasCleanDisk (state S.Store conn.old) → IsPart made (state S.Store conn.old) }
    requires apart { HasCleanDisk (state S.Store conn.old)
        → Apart (had 2 made ((state S.Store conn.old).now.trees 2)) }
    requires between { (state S.Store conn.old).in_transaction ≡ false }
    ensures between { (state S.Store conn.new).in_transaction ≡ false }
    ensures made { HasCleanDisk (state S.Store conn.new) → OnOk result (IsMadeWhole made
        (setup_from 1 (map string_bytes texts.now)) (rows_of_meta depth) (state S.Store conn.old)
        (state S.Store conn.new)) }
    ensures failed { HasCleanDisk (state S.Store conn.new) → IsTrue (state S.Store conn.new).is_open
        → OnErr result (IsBack (state S.Store conn.old) (state S.Store conn.new)) }
    ensures crash { Survives (state S.Store conn.old) (state S.Store conn.new)
        (LeavesMade made (setup_from 1 (map string_bytes texts.now)) (rows_of_meta depth)
        (state S.Store conn.old)) }
    ensures excused { Excused (state S.Store conn.old) (state S.Store conn.new) result }
{
    let _live = conn.schema();
    let _between = conn.is_autocommit();
    let mut tx = conn.transaction();
    make_all(&mut tx, made, texts, depth)?;
    tx.commit()
}
