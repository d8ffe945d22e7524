//! Recognises the six tables of a store.
ghost use Rattle.std.specs.Prelude.{◌≡◌, ◌∷◌, [], IfOk, true, false};
ghost use Rattle.std.specs.Bool.{Decides};
ghost use Rattle.sqlite_value.specs.Keys.{plain};
ghost use Rattle.register_sql.specs.Tables as tables;

use sqlite_items::Items;
use sqlite_schema::code::Terms;
use sqlite_schema::schema::{Column, Kind, Stamps, Table};
use sqlite_value::keys::{Collation, Order};
use sqlite_value::value::Value;
use std::alloc::{AllocError, Global};

/// Whether it is the column of a STRICT table with this name and type, no default, compared by its
/// bytes.
fn is_column(column: &Column, name: &str, kind: Kind, not_null: bool) -> bool
    ensures { Decides result (column.now ≡ tables.typed name.now kind not_null) }
{
    column.name.as_slice() == name.as_bytes()
        && column.kind == kind
        && column.is_strict
        && column.not_null == not_null
        && matches!(column.default, Value::Null)
        && column.collation == Collation::Binary
}

/// Whether the list has exactly these column numbers, in this order.
pub(crate) fn are_places(places: &Items<usize>, wanted: &[usize]) -> bool
    ensures { Decides result (places.now ≡ wanted.now) }
{
    places.as_slice() == wanted
}

/// Whether the list is empty.
fn is_no_term(alloc: Global, terms: &Terms) -> Result<bool, AllocError>
    ensures { IfOk result (λ none. Decides none (terms.now ≡ [])) }
{
    let lent = terms.lend(alloc)?;
    Ok(lent.roots.is_empty())
}

/// Whether no default reads the clock.
fn is_unstamped(alloc: Global, stamps: &Stamps) -> Result<bool, AllocError>
    ensures { IfOk result
        (λ none. Decides none (stamps.now ≡ record { places = []; terms = []; formats = [] })) }
{
    Ok(stamps.places.is_empty() && stamps.formats.is_empty() && is_no_term(alloc, &stamps.terms)?)
}

/// Whether the table has no rules besides its columns and keys.
fn has_no_rule(alloc: Global, table: &Table) -> Result<bool, AllocError>
    ensures { IfOk result
        (λ none. Decides none
        ((table.now.checks ≡ []) × (table.now.references ≡ []) × (table.now.computed ≡ [])
        × (table.now.stamps ≡ record { places = []; terms = []; formats = [] })
        × (table.now.is_counted ≡ false))) }
{
    Ok(
        table.references.is_empty()
            && table.computed.is_empty()
            && !table.is_counted
            && is_no_term(alloc, &table.checks)?
            && is_unstamped(alloc, &table.stamps)?,
    )
}

/// Whether the table has no UNIQUE.
fn has_no_unique(table: &Table) -> bool
    ensures { Decides result ((table.now.uniques ≡ []) × (table.now.orders ≡ [])) }
{
    table.uniques.is_empty() && table.orders.is_empty()
}

/// Whether there is one order, in which all columns ascend.
fn are_plain(orders: &Items<Order>) -> bool
    ensures { Decides result (orders.now ≡ plain ∷ []) }
{
    match orders.as_slice() {
        [order] => order.digits == 0,
        _ => false,
    }
}

/// Whether there is one key, over these columns.
fn are_one(keys: &Items<Items<usize>>, places: &[usize]) -> bool
    ensures { Decides result (keys.now ≡ places.now ∷ []) }
{
    match keys.as_slice() {
        [key] => are_places(key, places),
        _ => false,
    }
}

/// Whether the table has one UNIQUE, over these columns.
fn has_unique(table: &Table, places: &[usize]) -> bool
    ensures { Decides result
        ((table.now.uniques ≡ places.now ∷ []) × (table.now.orders ≡ plain ∷ [])) }
{
    are_one(&table.uniques, places) && are_plain(&table.orders)
}

/// Whether the table has this name, tree and key.
fn is_headed(table: &Table, name: &str, tree: u32, key: Option<usize>, primary: &[usize]) -> bool
    ensures { Decides result
        ((table.now.name ≡ name.now) × (table.now.tree ≡ tree) × (table.now.key ≡ key)
        × (table.now.primary ≡ primary.now)) }
{
    table.name.as_slice() == name.as_bytes()
        && table.tree == tree
        && table.key == key
        && are_places(&table.primary, primary)
}

/// Whether the table has the columns of `meta`.
fn has_meta_columns(table: &Table) -> bool
    ensures { Decides result (table.now.columns ≡ tables.meta.columns) }
{
    match table.columns.as_slice() {
        [name, val] => {
            is_column(name, "name", Kind::Text, true) && is_column(val, "val", Kind::Integer, true)
        }
        _ => false,
    }
}

/// Whether the table is `meta`, the rows about the store.
pub(crate) fn is_meta(alloc: Global, table: &Table) -> Result<bool, AllocError>
    ensures { IfOk result (λ same. Decides same (table.now ≡ tables.meta)) }
{
    Ok(
        is_headed(table, "meta", 0, None, &[1])
            && has_meta_columns(table)
            && has_unique(table, &[1])
            && has_no_rule(alloc, table)?,
    )
}

/// Whether the table has the columns of `setup`.
fn has_setup_columns(table: &Table) -> bool
    ensures { Decides result (table.now.columns ≡ tables.setup.columns) }
{
    match table.columns.as_slice() {
        [id, txt] => {
            is_column(id, "id", Kind::Integer, false) && is_column(txt, "txt", Kind::Text, true)
        }
        _ => false,
    }
}

/// Whether the table is `setup`.
pub(crate) fn is_setup(alloc: Global, table: &Table) -> Result<bool, AllocError>
    ensures { IfOk result (λ same. Decides same (table.now ≡ tables.setup)) }
{
    Ok(
        is_headed(table, "setup", 2, Some(0), &[0])
            && has_setup_columns(table)
            && has_no_unique(table)
            && has_no_rule(alloc, table)?,
    )
}

/// Whether the table has the columns of `posting`.
fn has_posting_columns(table: &Table) -> bool
    ensures { Decides result (table.now.columns ≡ tables.posting.columns) }
{
    match table.columns.as_slice() {
        [id, station, n, body, verdict] => {
            is_column(id, "id", Kind::Integer, false)
                && is_column(station, "station", Kind::Integer, true)
                && is_column(n, "n", Kind::Integer, true)
                && is_column(body, "body", Kind::Text, true)
                && is_column(verdict, "verdict", Kind::Integer, true)
        }
        _ => false,
    }
}

/// Whether the table is `posting`, the entries.
pub(crate) fn is_posting(alloc: Global, table: &Table) -> Result<bool, AllocError>
    ensures { IfOk result (λ same. Decides same (table.now ≡ tables.posting)) }
{
    Ok(
        is_headed(table, "posting", 3, Some(0), &[0])
            && has_posting_columns(table)
            && has_unique(table, &[2, 3])
            && has_no_rule(alloc, table)?,
    )
}

/// Whether the table has the columns of `spot`.
fn has_spot_columns(table: &Table) -> bool
    ensures { Decides result (table.now.columns ≡ tables.spot.columns) }
{
    match table.columns.as_slice() {
        [thing, k, entry, place, day] => {
            is_column(thing, "thing", Kind::Integer, true)
                && is_column(k, "k", Kind::Integer, true)
                && is_column(entry, "entry", Kind::Integer, true)
                && is_column(place, "place", Kind::Integer, true)
                && is_column(day, "day", Kind::Integer, true)
        }
        _ => false,
    }
}

/// Whether the table is `spot`.
pub(crate) fn is_spot(alloc: Global, table: &Table) -> Result<bool, AllocError>
    ensures { IfOk result (λ same. Decides same (table.now ≡ tables.spot)) }
{
    Ok(
        is_headed(table, "spot", 5, None, &[1, 2])
            && has_spot_columns(table)
            && has_unique(table, &[1, 2])
            && has_no_rule(alloc, table)?,
    )
}

/// Whether the table has the columns of `line`.
fn has_line_columns(table: &Table) -> bool
    ensures { Decides result (table.now.columns ≡ tables.line.columns) }
{
    match table.columns.as_slice() {
        [loan, object, stage] => {
            is_column(loan, "loan", Kind::Text, true)
                && is_column(object, "object", Kind::Integer, true)
                && is_column(stage, "stage", Kind::Integer, true)
        }
        _ => false,
    }
}

/// Whether the table is `line`, the loan lines.
pub(crate) fn is_line(alloc: Global, table: &Table) -> Result<bool, AllocError>
    ensures { IfOk result (λ same. Decides same (table.now ≡ tables.line)) }
{
    Ok(
        is_headed(table, "line", 7, None, &[1, 2])
            && has_line_columns(table)
            && has_unique(table, &[1, 2])
            && has_no_rule(alloc, table)?,
    )
}

/// Whether the table has the columns of `term`.
fn has_term_columns(table: &Table) -> bool
    ensures { Decides result (table.now.columns ≡ tables.term.columns) }
{
    match table.columns.as_slice() {
        [loan, day] => {
            is_column(loan, "loan", Kind::Text, true) && is_column(day, "day", Kind::Integer, true)
        }
        _ => false,
    }
}

/// Whether the table is `term`, the last days of loans.
pub(crate) fn is_term(alloc: Global, table: &Table) -> Result<bool, AllocError>
    ensures { IfOk result (λ same. Decides same (table.now ≡ tables.term)) }
{
    Ok(
        is_headed(table, "term", 9, None, &[1])
            && has_term_columns(table)
            && has_unique(table, &[1])
            && has_no_rule(alloc, table)?,
    )
}
