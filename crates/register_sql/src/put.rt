//! Adds an entry with its spots, loan lines and last day to a whole store, in one transaction.
ghost use Rattle.std.specs.Prelude.{◌≡◌, ◌<◌, ◌^◌, Ok, OnOk, OnErr, IsTrue, false};
ghost use Rattle.std.specs.Prelude.{pos, ℕ};
ghost use Rattle.sqlite.specs.Held.{state};
ghost use Rattle.sqlite.specs.State.{ExecutesInside, HasCleanDisk, Survives};
ghost use Rattle.sqlite.specs.Values.{bound};
ghost use Rattle.register_store.specs.Plain.{posting_row};
ghost use Rattle.register_store.specs.StoredRows.{spot_row, line_row, term_of, with_posted};
ghost use Rattle.register_sql.specs.Failing.{Excused, IsStep};
ghost use Rattle.register_sql.specs.Posting as step;
ghost use Rattle.register_sql.specs.Posting.{IsWithin, Wrote, IsReady, IsDone};
ghost use Rattle.register_sql.specs.Posting.{IsBack, LeavesWhole};

use codes_core::{Day, LoanCode};
use posting_core::{Changes, Entry, NewLine, NewSpot};
use register_store::{KeptPosting, term_of};
use sqlite::{Alter, Connection, Error, Transaction, params};
use sqlite_value::value::ValueRef;

/// The number as a cell takes it.
pub(crate) fn wide(number: u64) -> i64
    requires { number < 2 ^ 63 }
    ensures { result ≡ pos number }
{
    number as i64
}

/// Runs a statement inside the transaction.
pub(crate) fn run<S: Alter>(
    tx: &mut Transaction<'_, S>,
    text: &str,
    given: &[ValueRef<'_>],
) -> Result<(), Error>
    ensures same_reference { tx.new.conn.ghost_name ≡ tx.old.conn.ghost_name }
    ensures ran { HasCleanDisk (state S.Store tx.new.conn.now)
        → IsTrue (state S.Store tx.old.conn.now).in_transaction
        → OnOk result ((count : ℕ) × ExecutesInside 0 text.now (bound given.now)
        (state S.Store tx.old.conn.now) (state S.Store tx.new.conn.now) (Ok count)) }
    ensures step { IsStep (state S.Store tx.old.conn.now) (state S.Store tx.new.conn.now) result }
{
    tx.execute(text, given)?;
    Ok(())
}

/// Adds the row of an entry.
fn put_posting<S: Alter>(tx: &mut Transaction<'_, S>, row: &KeptPosting) -> Result<(), Error>
    requires within { IsWithin (state S.Store tx.old.conn.now) }
    requires small { row.now.id < 2 ^ 63 }
    ensures same_reference { tx.new.conn.ghost_name ≡ tx.old.conn.ghost_name }
    ensures wrote { Wrote (state S.Store tx.old.conn.now) (state S.Store tx.new.conn.now) result
        (step.with_posting (posting_row row.now)) }
    ensures step { IsStep (state S.Store tx.old.conn.now) (state S.Store tx.new.conn.now) result }
{
    let id = wide(row.id);
    run(
        tx,
        "INSERT INTO posting (id, station, n, body, verdict) VALUES (?1, ?2, ?3, ?4, ?5)",
        params![
            id,
            i64::from(row.station),
            i64::from(row.n),
            row.body.as_str(),
            i64::from(row.verdict)
        ],
    )
}

/// Adds the row of a spot.
fn put_spot<S: Alter>(tx: &mut Transaction<'_, S>, spot: &NewSpot) -> Result<(), Error>
    requires { IsWithin (state S.Store tx.old.conn.now) }
    ensures same_reference { tx.new.conn.ghost_name ≡ tx.old.conn.ghost_name }
    ensures wrote { Wrote (state S.Store tx.old.conn.now) (state S.Store tx.new.conn.now) result
        (step.with_spot (spot_row spot.now)) }
    ensures step { IsStep (state S.Store tx.old.conn.now) (state S.Store tx.new.conn.now) result }
{
    run(
        tx,
        "INSERT INTO spot (thing, k, entry, place, day) VALUES (?1, ?2, ?3, ?4, ?5)",
        params![
            i64::from(spot.thing),
            i64::from(spot.k),
            i64::from(spot.spot.entry),
            i64::from(spot.spot.place),
            i64::from(spot.spot.day.number())
        ],
    )
}

/// Adds the rows of the spots.
fn put_spots<S: Alter>(tx: &mut Transaction<'_, S>, spots: &[NewSpot]) -> Result<(), Error>
    requires { IsWithin (state S.Store tx.old.conn.now) }
    ensures same_reference { tx.new.conn.ghost_name ≡ tx.old.conn.ghost_name }
    ensures wrote { Wrote (state S.Store tx.old.conn.now) (state S.Store tx.new.conn.now) result
        (step.with_each (λ s. step.with_spot (spot_row s)) spots.now) }
    ensures step { IsStep (state S.Store tx.old.conn.now) (state S.Store tx.new.conn.now) result }
{
    'spots: for spot in spots {
        put_spot(tx, spot)?;
    }
    Ok(())
}

/// Removes the row with the line's loan and object, if there is one.
fn clear_line<S: Alter>(tx: &mut Transaction<'_, S>, line: &NewLine) -> Result<(), Error>
    requires { IsWithin (state S.Store tx.old.conn.now) }
    ensures same_reference { tx.new.conn.ghost_name ≡ tx.old.conn.ghost_name }
    ensures wrote { Wrote (state S.Store tx.old.conn.now) (state S.Store tx.new.conn.now) result
        (step.without_line (line_row line.now)) }
    ensures step { IsStep (state S.Store tx.old.conn.now) (state S.Store tx.new.conn.now) result }
{
    run(
        tx,
        "DELETE FROM line WHERE loan = ?1 AND object = ?2",
        params![line.loan.as_str(), i64::from(line.object)],
    )
}

/// Adds the row of a loan line.
fn add_line<S: Alter>(tx: &mut Transaction<'_, S>, line: &NewLine) -> Result<(), Error>
    requires { IsWithin (state S.Store tx.old.conn.now) }
    ensures same_reference { tx.new.conn.ghost_name ≡ tx.old.conn.ghost_name }
    ensures wrote { Wrote (state S.Store tx.old.conn.now) (state S.Store tx.new.conn.now) result
        (step.more_line (line_row line.now)) }
    ensures step { IsStep (state S.Store tx.old.conn.now) (state S.Store tx.new.conn.now) result }
{
    run(
        tx,
        "INSERT INTO line (loan, object, stage) VALUES (?1, ?2, ?3)",
        params![
            line.loan.as_str(),
            i64::from(line.object),
            i64::from(line.stage.number())
        ],
    )
}

/// Replaces a loan line's row.
fn put_line<S: Alter>(tx: &mut Transaction<'_, S>, line: &NewLine) -> Result<(), Error>
    requires { IsWithin (state S.Store tx.old.conn.now) }
    ensures same_reference { tx.new.conn.ghost_name ≡ tx.old.conn.ghost_name }
    ensures wrote { Wrote (state S.Store tx.old.conn.now) (state S.Store tx.new.conn.now) result
        (step.with_line (line_row line.now)) }
    ensures step { IsStep (state S.Store tx.old.conn.now) (state S.Store tx.new.conn.now) result }
{
    clear_line(tx, line)?;
    add_line(tx, line)
}

/// Replaces the rows of the loan lines.
fn put_lines<S: Alter>(tx: &mut Transaction<'_, S>, lines: &[NewLine]) -> Result<(), Error>
    requires { IsWithin (state S.Store tx.old.conn.now) }
    ensures same_reference { tx.new.conn.ghost_name ≡ tx.old.conn.ghost_name }
    ensures wrote { Wrote (state S.Store tx.old.conn.now) (state S.Store tx.new.conn.now) result
        (step.with_each (λ l. step.with_line (line_row l)) lines.now) }
    ensures step { IsStep (state S.Store tx.old.conn.now) (state S.Store tx.new.conn.now) result }
{
    'lines: for line in lines {
        put_line(tx, line)?;
    }
    Ok(())
}

/// Removes the loan's last day, if it has one.
fn clear_term<S: Alter>(tx: &mut Transaction<'_, S>, term: &(LoanCode, Day)) -> Result<(), Error>
    requires { IsWithin (state S.Store tx.old.conn.now) }
    ensures same_reference { tx.new.conn.ghost_name ≡ tx.old.conn.ghost_name }
    ensures wrote { Wrote (state S.Store tx.old.conn.now) (state S.Store tx.new.conn.now) result
        (step.without_term (record { loan = term.now.0; day = term.now.1 })) }
    ensures step { IsStep (state S.Store tx.old.conn.now) (state S.Store tx.new.conn.now) result }
{
    run(
        tx,
        "DELETE FROM term WHERE loan = ?1",
        params![term.0.as_str()],
    )
}

/// Adds a loan's last day.
fn add_term<S: Alter>(tx: &mut Transaction<'_, S>, term: &(LoanCode, Day)) -> Result<(), Error>
    requires { IsWithin (state S.Store tx.old.conn.now) }
    ensures same_reference { tx.new.conn.ghost_name ≡ tx.old.conn.ghost_name }
    ensures wrote { Wrote (state S.Store tx.old.conn.now) (state S.Store tx.new.conn.now) result
        (step.more_term (record { loan = term.now.0; day = term.now.1 })) }
    ensures step { IsStep (state S.Store tx.old.conn.now) (state S.Store tx.new.conn.now) result }
{
    run(
        tx,
        "INSERT INTO term (loan, day) VALUES (?1, ?2)",
        params![term.0.as_str(), i64::from(term.1.number())],
    )
}

/// Replaces a loan's last day.
fn put_term<S: Alter>(tx: &mut Transaction<'_, S>, term: &(LoanCode, Day)) -> Result<(), Error>
    requires { IsWithin (state S.Store tx.old.conn.now) }
    ensures same_reference { tx.new.conn.ghost_name ≡ tx.old.conn.ghost_name }
    ensures wrote { Wrote (state S.Store tx.old.conn.now) (state S.Store tx.new.conn.now) result
        (step.with_term (record { loan = term.now.0; day = term.now.1 })) }
    ensures step { IsStep (state S.Store tx.old.conn.now) (state S.Store tx.new.conn.now) result }
{
    clear_term(tx, term)?;
    add_term(tx, term)
}

/// Replaces the last day of the loan whose last day the entry sets, if it sets one.
pub(crate) fn put_some_term<S: Alter>(
    tx: &mut Transaction<'_, S>,
    entry: &Entry,
) -> Result<(), Error>
    requires { IsWithin (state S.Store tx.old.conn.now) }
    ensures same_reference { tx.new.conn.ghost_name ≡ tx.old.conn.ghost_name }
    ensures wrote { Wrote (state S.Store tx.old.conn.now) (state S.Store tx.new.conn.now) result
        (step.with_some_term (term_of entry.now)) }
    ensures step { IsStep (state S.Store tx.old.conn.now) (state S.Store tx.new.conn.now) result }
{
    if let Some(term) = term_of(entry) {
        put_term(tx, &term)?;
    }
    Ok(())
}

/// Adds an entry and its spots.
fn put_first<S: Alter>(
    tx: &mut Transaction<'_, S>,
    row: &KeptPosting,
    changes: &Changes,
) -> Result<(), Error>
    requires within { IsWithin (state S.Store tx.old.conn.now) }
    requires small { row.now.id < 2 ^ 63 }
    ensures same_reference { tx.new.conn.ghost_name ≡ tx.old.conn.ghost_name }
    ensures wrote { Wrote (state S.Store tx.old.conn.now) (state S.Store tx.new.conn.now) result
        (λ c. step.with_each (λ s. step.with_spot (spot_row s)) changes.now.spots
        (step.with_posting (posting_row row.now) c)) }
    ensures step { IsStep (state S.Store tx.old.conn.now) (state S.Store tx.new.conn.now) result }
{
    put_posting(tx, row)?;
    put_spots(tx, changes.spots.as_slice())
}

/// Replaces the loan lines and the last day that the entry changes.
fn put_last<S: Alter>(
    tx: &mut Transaction<'_, S>,
    entry: &Entry,
    changes: &Changes,
) -> Result<(), Error>
    requires { IsWithin (state S.Store tx.old.conn.now) }
    ensures same_reference { tx.new.conn.ghost_name ≡ tx.old.conn.ghost_name }
    ensures wrote { Wrote (state S.Store tx.old.conn.now) (state S.Store tx.new.conn.now) result
        (λ c. step.with_some_term (term_of entry.now)
        (step.with_each (λ l. step.with_line (line_row l)) changes.now.lines c)) }
    ensures step { IsStep (state S.Store tx.old.conn.now) (state S.Store tx.new.conn.now) result }
{
    put_lines(tx, changes.lines.as_slice())?;
    put_some_term(tx, entry)
}

/// Writes the entry and all its changes.
fn put_rows<S: Alter>(
    tx: &mut Transaction<'_, S>,
    row: &KeptPosting,
    entry: &Entry,
    changes: &Changes,
) -> Result<(), Error>
    requires within { IsWithin (state S.Store tx.old.conn.now) }
    requires small { row.now.id < 2 ^ 63 }
    ensures same_reference { tx.new.conn.ghost_name ≡ tx.old.conn.ghost_name }
    ensures wrote { Wrote (state S.Store tx.old.conn.now) (state S.Store tx.new.conn.now) result
        (with_posted (posting_row row.now) entry.now changes.now) }
    ensures step { IsStep (state S.Store tx.old.conn.now) (state S.Store tx.new.conn.now) result }
{
    put_first(tx, row, changes)?;
    put_last(tx, entry, changes)
}

/// Adds an entry and all its changes to the store, in one transaction. After an error the database
/// is as it was, if the connection is still open. Once the call has returned, a crash leaves the
/// rows from before it, or those with the whole posting; after an Ok, the latter.
pub(crate) fn put_whole<S: Alter>(
    conn: &mut Connection<S>,
    row: &KeptPosting,
    entry: &Entry,
    changes: &Changes,
) -> Result<(), Error>
    requires ready { HasCleanDisk (state S.Store conn.old) → IsReady (state S.Store conn.old) }
    requires between { (state S.Store conn.old).in_transaction ≡ false }
    requires small { row.now.id < 2 ^ 63 }
    ensures between { (state S.Store conn.new).in_transaction ≡ false }
    ensures posted { HasCleanDisk (state S.Store conn.new)
        → OnOk result (IsDone (state S.Store conn.old) (state S.Store conn.new)
        (with_posted (posting_row row.now) entry.now changes.now)) }
    ensures failed { HasCleanDisk (state S.Store conn.new) → IsTrue (state S.Store conn.new).is_open
        → OnErr result (IsBack (state S.Store conn.old) (state S.Store conn.new)) }
    ensures crash { Survives (state S.Store conn.old) (state S.Store conn.new)
        (LeavesWhole (state S.Store conn.old)
        (with_posted (posting_row row.now) entry.now changes.now)) }
    ensures excused { Excused (state S.Store conn.old) (state S.Store conn.new) result }
{
    let _between = conn.is_autocommit();
    let mut tx = conn.transaction();
    put_rows(&mut tx, row, entry, changes)?;
    tx.commit()
}
