//! Counts how many of the store's tables a database has.
ghost use Rattle.std.specs.Prelude.{◌≡◌, ◌<◌, ◌≤◌, IfOk, IfSome, IfNone, length, take, true, false};
ghost use Rattle.std.specs.Prelude.{ℕ};
ghost use Rattle.std.specs.Bool.{Decides};
ghost use Rattle.register_sql.specs.Tables as tables;

use crate::table::{are_places, is_line, is_meta, is_posting, is_setup, is_spot, is_term};
use sqlite_schema::schema::{Index, Schema, Table};
use std::alloc::{AllocError, Global};

/// Whether it is the index that SQLite makes for a UNIQUE or a PRIMARY KEY, over these columns.
fn is_index(index: &Index, name: &str, tree: u32, table: u32, places: &[usize]) -> bool
    ensures { Decides result (index.now ≡ tables.automatic name.now tree table places.now) }
{
    index.name.as_slice() == name.as_bytes()
        && index.tree == tree
        && index.table == table
        && are_places(&index.columns, places)
        && index.order.digits == 0
        && index.is_unique
}

/// Whether it is the index of `meta`.
fn is_meta_index(index: &Index) -> bool
    ensures { Decides result (index.now ≡ tables.meta_index) }
{
    is_index(index, "sqlite_autoindex_meta_1", 1, 0, &[1])
}

/// Whether it is the index of `posting`.
fn is_posting_index(index: &Index) -> bool
    ensures { Decides result (index.now ≡ tables.posting_index) }
{
    is_index(index, "sqlite_autoindex_posting_1", 4, 3, &[2, 3])
}

/// Whether it is the index of `spot`.
fn is_spot_index(index: &Index) -> bool
    ensures { Decides result (index.now ≡ tables.spot_index) }
{
    is_index(index, "sqlite_autoindex_spot_1", 6, 5, &[1, 2])
}

/// Whether it is the index of `line`.
fn is_line_index(index: &Index) -> bool
    ensures { Decides result (index.now ≡ tables.line_index) }
{
    is_index(index, "sqlite_autoindex_line_1", 8, 7, &[1, 2])
}

/// Whether it is the index of `term`.
fn is_term_index(index: &Index) -> bool
    ensures { Decides result (index.now ≡ tables.term_index) }
{
    is_index(index, "sqlite_autoindex_term_1", 10, 9, &[1])
}

/// Whether it is the store's table of this number, from 0 in the order of creation.
fn is_table(alloc: Global, table: &Table, number: usize) -> Result<bool, AllocError>
    requires { number < 6 }
    ensures { IfOk result (λ same. Decides same (table.now ≡ tables.table_at number)) }
{
    match number {
        0 => is_meta(alloc, table),
        1 => is_setup(alloc, table),
        2 => is_posting(alloc, table),
        3 => is_spot(alloc, table),
        4 => is_line(alloc, table),
        _ => is_term(alloc, table),
    }
}

/// Whether these are the first of the store's tables, in the order of creation.
fn are_tables(alloc: Global, all: &[Table]) -> Result<bool, AllocError>
    requires { length all.now ≤ 6 }
    ensures { IfOk result
        (λ same. Decides same (all.now ≡ take (length all.now) tables.all_tables)) }
{
    'all: for at in 0..all.len() {
        if !is_table(alloc, &all[at], at)? {
            return Ok(false);
        }
    }
    Ok(true)
}

/// Whether it is the store's index of this number, from 0 in the order of creation.
fn is_index_at(index: &Index, number: usize) -> bool
    requires { number < 5 }
    ensures { Decides result (index.now ≡ tables.index_at number) }
{
    match number {
        0 => is_meta_index(index),
        1 => is_posting_index(index),
        2 => is_spot_index(index),
        3 => is_line_index(index),
        _ => is_term_index(index),
    }
}

/// Whether these are the first of the store's indexes, in the order of creation.
fn are_indexes(all: &[Index]) -> bool
    requires { length all.now ≤ 5 }
    ensures { Decides result (all.now ≡ take (length all.now) tables.all_indexes) }
{
    'all: for at in 0..all.len() {
        if !is_index_at(&all[at], at) {
            return false;
        }
    }
    true
}

/// The number of indexes that the first `made` tables have: `setup` has none.
fn index_count(made: usize) -> usize
    ensures { result ≡ tables.index_count made }
{
    if made < 2 { made } else { made - 1 }
}

/// Whether the schema is exactly that of the first `made` tables.
fn is_prefix(alloc: Global, schema: &Schema, made: usize) -> Result<bool, AllocError>
    requires { made ≤ 6 }
    ensures { IfOk result (λ same. Decides same (schema.now ≡ tables.prefix made)) }
{
    Ok(
        schema.views.is_empty()
            && schema.tables.len() == made
            && schema.indexes.len() == index_count(made)
            && are_indexes(schema.indexes.as_slice())
            && are_tables(alloc, schema.tables.as_slice())?,
    )
}

/// Returns how many of the store's tables the schema has, counted in the order of creation. None if
/// it isn't exactly the first of them.
#[tactic(auto, using(crate::proofs::Prefixes::by_count, crate::proofs::Prefixes::few_tables))]
pub(crate) fn tables_made(alloc: Global, schema: &Schema) -> Result<Option<usize>, AllocError>
    ensures made { IfOk result (λ o. IfSome o (λ k. (k ≤ 6) × (schema.now ≡ tables.prefix k))) }
    ensures other { IfOk result (λ o. IfNone o ((k : ℕ) → schema.now ≡ tables.prefix k → ⊥)) }
{
    let made = schema.tables.len();
    if made <= 6 && is_prefix(alloc, schema, made)? {
        Ok(Some(made))
    } else {
        Ok(None)
    }
}
