//! Finds the version of a store, by its rows in `meta`.
ghost use Rattle.std.specs.Prelude.{◌≡◌, pos, codes};
ghost use Rattle.std.specs.Bool.{Decides};
ghost use Rattle.register_sql.specs.Ages.{version_row, LacksRow, IsFirst, IsAged};
ghost use Rattle.register_sql.specs.Rows.{meta_cells};
ghost use Rattle.register_sql.specs.Says.{HasOther};

use crate::identity::{has_other, is_meta};
use sqlite::Row;

/// The version of a store.
#[derive(Clone, Copy)]
pub(crate) enum Age {
    /// `meta` has no rows: the store is new.
    New,
    /// A row has version 2.
    Second,
    /// The rows are version 1 and the depth limit 8.
    First,
    /// A row has another version, and none has 1 or 2.
    Other,
    /// Anything else.
    Damaged,
}

/// Whether no row has this version.
fn lacks_version(rows: &[Row], version: u32) -> bool
    ensures { Decides result (LacksRow version rows.now) }
{
    'rows: for row in rows {
        if is_meta(row, "version", version) {
            return false;
        }
    }
    true
}

/// Whether the first row has version 1 and the second the depth limit 8.
fn are_first_pair(version: &Row, depth: &Row) -> bool
    ensures { Decides result
        ((version.now ≡ meta_cells (version_row 1))
        × (depth.now ≡ meta_cells (record { name = codes "depth"; val = pos 8 }))) }
{
    is_meta(version, "version", 1) && is_meta(depth, "depth", 8)
}

/// Whether these are the two rows of a store of version 1, in any order.
fn are_first(rows: &[Row]) -> bool
    ensures { Decides result (IsFirst rows.now) }
{
    match rows {
        [a, b] => are_first_pair(a, b) || are_first_pair(b, a),
        _ => false,
    }
}

/// Whether a row has a version other than 1 and 2. The caller has checked that none has 2.
fn says_another(rows: &[Row]) -> bool
    ensures { Decides result (HasOther rows.now × LacksRow 1 rows.now) }
{
    has_other(rows) && lacks_version(rows, 1)
}

/// Finds the version in the rows of `meta`.
pub(crate) fn age_of(rows: &[Row]) -> Age
    ensures { IsAged rows.now result }
{
    if rows.is_empty() {
        return Age::New;
    }
    if !lacks_version(rows, 2) {
        return Age::Second;
    }
    if are_first(rows) {
        return Age::First;
    }
    if says_another(rows) {
        return Age::Other;
    }
    Age::Damaged
}
