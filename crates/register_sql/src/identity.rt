//! Checks the information about a store in its tables `meta` and `setup`: its version, its depth
//! limit and its setup.
ghost use Rattle.std.specs.Prelude.{◌≡◌, ◌<◌, ◌≤◌, ◌+◌, ◌∷◌, [], pos, ℕ, ℤ, true, false, map};
ghost use Rattle.std.specs.Prelude.{codes, length, IfOk, IfSome, IfNone, string_bytes};
ghost use Rattle.std.specs.Bool.{Decides};
ghost use Rattle.std.specs.List.Sorted.{IsPermutation};
ghost use Rattle.sqlite.specs.Held.{state};
ghost use Rattle.sqlite.specs.Order.{column};
ghost use Rattle.sqlite.specs.State.{HasCleanDisk};
ghost use Rattle.sqlite.specs.declared.types.Value.TheVariants.{Int, Text};
ghost use Rattle.register_store.specs.StoredRows.{is_depth};
ghost use Rattle.register_sql.specs.Failing.{IsReading};
ghost use Rattle.register_sql.specs.Queries.{IsPart};
ghost use Rattle.register_sql.specs.Says.{IsOther, HasOther, IsWhole, IsIdentity, setup_rows_shown};
ghost use Rattle.register_sql.specs.Says.{setup_in, HasSetup};
ghost use Rattle.register_sql.specs.Shown.{setup_shown};

use crate::queries::{Query, read};
use codes_core::NoMemory;
use nest_core::Setup;
use register_store::row_texts;
use sqlite::{Alter, Connection, Error, Row};
use sqlite_value::value::ValueRef;
use std::alloc::Global;

/// The result of checking the rows of `meta`.
#[derive(Clone, Copy)]
pub(crate) enum Identity {
    /// There are none: the store is new.
    New,
    /// A row has another version than 2.
    OtherVersion,
    /// They aren't exactly the version 2 and a possible depth limit.
    Damaged,
    /// They have the version 2 and this depth limit.
    Bound(u32),
}

/// Whether the cell is this text.
pub(crate) fn is_text(row: &Row, at: usize, text: &str) -> bool
    requires { at < length row.now }
    ensures { Decides result (column row.now at ≡ Text text.now) }
{
    match row.get_ref(at) {
        Ok(ValueRef::Text(found)) => found == text.as_bytes(),
        _ => false,
    }
}

/// Whether the cell is this number.
pub(crate) fn is_number(row: &Row, at: usize, number: u64) -> bool
    requires { at < length row.now }
    ensures { Decides result (column row.now at ≡ Int (pos number)) }
{
    match row.get_ref(at) {
        Ok(ValueRef::Int(found)) => is_same_number(found, number),
        _ => false,
    }
}

/// Whether the two numbers are equal.
fn is_same_number(found: i64, number: u64) -> bool
    ensures { Decides result (found ≡ pos number) }
{
    match u64::try_from(found) {
        Ok(found) => found == number,
        Err(_) => false,
    }
}

/// Whether the cell is any integer.
fn is_some_number(row: &Row, at: usize) -> bool
    requires { at < length row.now }
    ensures { Decides result ((n : ℤ) × (column row.now at ≡ Int n)) }
{
    matches!(row.get_ref(at), Ok(ValueRef::Int(_)))
}

/// Whether the row of `meta` has this name and value.
pub(crate) fn is_meta(row: &Row, name: &str, val: u32) -> bool
    ensures { Decides result (row.now ≡ Text name.now ∷ Int (pos val) ∷ []) }
{
    row.column_count() == 2 && is_text(row, 0, name) && is_number(row, 1, u64::from(val))
}

/// Whether the row has another version than 2.
fn is_other(row: &Row) -> bool
    ensures { Decides result (IsOther row.now) }
{
    row.column_count() == 2
        && is_text(row, 0, "version")
        && is_some_number(row, 1)
        && !is_number(row, 1, 2)
}

/// Whether one of the rows has another version than 2.
pub(crate) fn has_other(rows: &[Row]) -> bool
    ensures { Decides result (HasOther rows.now) }
{
    'rows: for row in rows {
        if is_other(row) {
            return true;
        }
    }
    false
}

/// Whether the first row has version 2 and the second this depth limit.
fn are_pair(version: &Row, depth: &Row, limit: u32) -> bool
    ensures { Decides result ((version.now ≡ Text (codes "version") ∷ Int (pos 2) ∷ [])
        × (depth.now ≡ Text (codes "depth") ∷ Int (pos limit) ∷ [])) }
{
    is_meta(version, "version", 2) && is_meta(depth, "depth", limit)
}

/// Whether these are the two rows of a store with this depth limit, in any order.
#[tactic(auto, using(crate::proofs::Pairs::one_order, crate::proofs::Pairs::other_order, crate::proofs::Pairs::either_order))]
fn is_whole(rows: &[Row], limit: u32) -> bool
    ensures { Decides result (IsWhole limit rows.now) }
{
    match rows {
        [a, b] => are_pair(a, b, limit) || are_pair(b, a, limit),
        _ => false,
    }
}

/// Returns the depth limit in the two rows about a store; None if they aren't those of a store.
fn depth_of(rows: &[Row]) -> Option<u32>
    ensures some { IfSome result (λ depth. (is_depth depth ≡ true) × IsWhole depth rows.now) }
    ensures none { IfNone result ((depth : ℕ) → is_depth depth ≡ true → ¬ IsWhole depth rows.now) }
{
    if is_whole(rows, 8) {
        return Some(8);
    }
    if is_whole(rows, 12) {
        return Some(12);
    }
    None
}

/// Checks the rows of `meta`.
pub(crate) fn judge(rows: &[Row]) -> Identity
    ensures { IsIdentity rows.now result }
{
    if rows.is_empty() {
        return Identity::New;
    }
    if has_other(rows) {
        return Identity::OtherVersion;
    }
    match depth_of(rows) {
        Some(depth) => Identity::Bound(depth),
        None => Identity::Damaged,
    }
}

/// Whether the row of `setup` has this number and text.
fn is_setup(row: &Row, id: u64, text: &str) -> bool
    ensures { Decides result (row.now ≡ setup_shown (record { id = pos id; text = text.now })) }
{
    row.column_count() == 2 && is_number(row, 0, id) && is_text(row, 1, text)
}

/// Whether these are the rows of `setup` with these texts, numbered from 1.
pub(crate) fn are_setup(rows: &[Row], texts: &[String]) -> bool
    ensures { Decides result (rows.now ≡ setup_rows_shown (map string_bytes texts.now)) }
{
    if rows.len() != texts.len() {
        return false;
    }
    'rows: for at in 0..rows.len() {
        if !is_setup(&rows[at], at as u64 + 1, texts[at].as_str()) {
            return false;
        }
    }
    true
}

/// Returns whether the setup of a store of the first `made` tables has these texts. Without its
/// table it has none.
fn has_texts<S: Alter>(
    conn: &mut Connection<S>,
    texts: &[String],
    made: usize,
) -> Result<bool, Error>
    requires few { made ≤ 6 }
    requires part { HasCleanDisk (state S.Store conn.old) → IsPart made (state S.Store conn.old) }
    ensures told { HasCleanDisk (state S.Store conn.new) → IfOk result (λ same. Decides same
        (IsPermutation (setup_rows_shown (map string_bytes texts.now))
        (setup_in made (state S.Store conn.old).now.trees))) }
    ensures reading { IsReading (state S.Store conn.old) (state S.Store conn.new) result }
{
    if made < 2 {
        return Ok(are_setup(&[], texts));
    }
    let rows = read(conn, Query::Setups, made)?;
    Ok(are_setup(&rows, texts))
}

/// Returns whether a store of the first `made` tables has this setup. Without the table `setup` it
/// has no rows of one. The inner fault is NoMemory, the outer error that of a failed statement. The
/// store stays as it was.
pub(crate) fn has_setup<S: Alter>(
    alloc: Global,
    conn: &mut Connection<S>,
    setup: &Setup,
    made: usize,
) -> Result<Result<bool, NoMemory>, Error>
    requires few { made ≤ 6 }
    requires part { HasCleanDisk (state S.Store conn.old) → IsPart made (state S.Store conn.old) }
    ensures told { HasCleanDisk (state S.Store conn.new)
        → IfOk result (λ answer. IfOk answer (λ same. Decides same
        (HasSetup setup.now made (state S.Store conn.old).now.trees))) }
    ensures reading { IsReading (state S.Store conn.old) (state S.Store conn.new) result }
{
    let texts = match row_texts(alloc, setup) {
        Ok(texts) => texts,
        Err(fault) => return Ok(Err(fault)),
    };
    let same = has_texts(conn, &texts, made)?;
    Ok(Ok(same))
}
