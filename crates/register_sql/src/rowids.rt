//! Checks that rowids are distinct numbers. A database made elsewhere could have others, and
//! deleting a row by its key would then delete more than one.
ghost use Rattle.std.specs.Prelude.{◌≡◌, ◌≤◌, true, false, IfOk, IfSome, IfNone, IsTrue};
ghost use Rattle.std.specs.Bool.{Decides};
ghost use Rattle.std.specs.List.Sorted.{IsSorted};
ghost use Rattle.sqlite.specs.Held.{state};
ghost use Rattle.sqlite.specs.State.{HasCleanDisk};
ghost use Rattle.sqlite.specs.Tree.{rowid};
ghost use Rattle.sqlite.specs.declared.types.Value.TheVariants.{Int};
ghost use Rattle.register_sql.specs.Failing.{IsReading};
ghost use Rattle.register_sql.specs.Queries.{shows_id, IsPart, IsApartIn, AreApart};
ghost use Rattle.register_sql.specs.Rowids.{HasId, IsBelow, IsRising};
ghost use Rattle.register_sql.specs.Rows.{Apart};
ghost use Rattle.register_sql.specs.Shown.{id_cmp};

use crate::queries::{Query, least_of, read};
use sqlite::{Alter, Connection, Error, Row};
use sqlite_value::value::ValueRef;

/// The number in the first column; None if it isn't an integer.
fn id_of(row: &Row) -> Option<i64>
    ensures some { IfSome result (λ n. rowid row.now ≡ Int n) }
    ensures none { IfNone result (¬ HasId row.now) }
{
    match row.get_ref(0) {
        Ok(ValueRef::Int(id)) => Some(id),
        _ => None,
    }
}

/// Whether the row begins with a number.
fn has_id(row: &Row) -> bool
    ensures { Decides result (HasId row.now) }
{
    id_of(row).is_some()
}

/// Whether both rows begin with a number, and the first number is smaller.
fn is_below(a: &Row, b: &Row) -> bool
    ensures { Decides result (IsBelow a.now b.now) }
{
    let Some(m) = id_of(a) else {
        return false;
    };
    let Some(n) = id_of(b) else {
        return false;
    };
    m < n
}

/// Whether each row's first number is greater than that of the row before it.
fn are_rising(rows: &[Row]) -> bool
    ensures { Decides result (IsRising rows.now) }
{
    'rows: for at in 1..rows.len() {
        if !is_below(&rows[at - 1], &rows[at]) {
            return false;
        }
    }
    true
}

/// Whether the rows' first numbers rise. Then they are distinct; and if the rows are sorted,
/// distinct numbers always rise.
#[tactic(auto, using(crate::proofs::Rising::rises))]
fn are_apart(rows: &[Row]) -> bool
    ensures apart { IsTrue result → Apart rows.now }
    ensures sorted { IsSorted id_cmp rows.now → Apart rows.now → IsTrue result }
{
    match rows {
        [] => true,
        [first, ..] => has_id(first) && are_rising(rows),
    }
}

/// Returns whether the rowids that the query returns are distinct numbers. True if the query's
/// table isn't among the first `made`. The store stays as it was.
pub(crate) fn is_apart<S: Alter>(
    conn: &mut Connection<S>,
    query: Query,
    made: usize,
) -> Result<bool, Error>
    requires ids { shows_id query ≡ true }
    requires few { made ≤ 6 }
    requires part { HasCleanDisk (state S.Store conn.old) → IsPart made (state S.Store conn.old) }
    ensures told { HasCleanDisk (state S.Store conn.new) → IfOk result (λ apart.
        Decides apart (IsApartIn query made (state S.Store conn.old).now.trees)) }
    ensures reading { IsReading (state S.Store conn.old) (state S.Store conn.new) result }
{
    if least_of(query) > made {
        return Ok(true);
    }
    let rows = read(conn, query, made)?;
    Ok(are_apart(&rows))
}

/// The same for the tables of two queries.
fn are_both_apart<S: Alter>(
    conn: &mut Connection<S>,
    one: Query,
    other: Query,
    made: usize,
) -> Result<bool, Error>
    requires one { shows_id one ≡ true }
    requires other { shows_id other ≡ true }
    requires few { made ≤ 6 }
    requires part { HasCleanDisk (state S.Store conn.old) → IsPart made (state S.Store conn.old) }
    ensures told { HasCleanDisk (state S.Store conn.new) → IfOk result (λ apart.
        Decides apart (IsApartIn one made (state S.Store conn.old).now.trees
        × IsApartIn other made (state S.Store conn.old).now.trees)) }
    ensures reading { IsReading (state S.Store conn.old) (state S.Store conn.new) result }
{
    let first = is_apart(conn, one, made)?;
    if !first {
        return Ok(false);
    }
    let second = is_apart(conn, other, made);
    second
}

/// Returns whether the rowids of the setup, the entries, the loan lines and the last days are
/// distinct numbers, in those of the first `made` tables that the store has.
pub(crate) fn are_all_apart<S: Alter>(conn: &mut Connection<S>, made: usize) -> Result<bool, Error>
    requires few { made ≤ 6 }
    requires part { HasCleanDisk (state S.Store conn.old) → IsPart made (state S.Store conn.old) }
    ensures told { HasCleanDisk (state S.Store conn.new) → IfOk result (λ apart.
        Decides apart (AreApart made (state S.Store conn.old).now.trees)) }
    ensures reading { IsReading (state S.Store conn.old) (state S.Store conn.new) result }
{
    let first = are_both_apart(conn, Query::SetupIds, Query::PostingIds, made)?;
    if !first {
        return Ok(false);
    }
    let last = are_both_apart(conn, Query::LineIds, Query::TermIds, made);
    last
}
