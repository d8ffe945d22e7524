//! The queries that read a store's tables.
ghost use Rattle.std.specs.Prelude.{◌≡◌, ◌≤◌, IfOk};
ghost use Rattle.std.specs.List.Sorted.{IsPermutation};
ghost use Rattle.sqlite.specs.Held.{state};
ghost use Rattle.sqlite.specs.State.{HasCleanDisk};
ghost use Rattle.register_sql.specs.Failing.{IsReading};
ghost use Rattle.register_sql.specs.Queries.{text_of, least_of, shown_in, IsInOrder, IsPart};

use sqlite::{Alter, Connection, Error, Row};

/// A query: all rows of a table, or their rowids alone (`..Ids`), ordered by rowid.
#[derive(Clone, Copy)]
pub(crate) enum Query {
    Metas,
    Setups,
    Postings,
    Spots,
    Lines,
    Terms,
    MetaIds,
    SetupIds,
    PostingIds,
    LineIds,
    TermIds,
}

/// The SQL of the query.
fn text_of(query: Query) -> &'static str
    ensures { result.now ≡ text_of query }
{
    match query {
        Query::Metas => "SELECT name, val FROM meta ORDER BY rowid",
        Query::Setups => "SELECT id, txt FROM setup ORDER BY id",
        Query::Postings => "SELECT id, station, n, body, verdict FROM posting ORDER BY id",
        Query::Spots => "SELECT thing, k, entry, place, day FROM spot ORDER BY rowid",
        Query::Lines => "SELECT loan, object, stage FROM line ORDER BY rowid",
        Query::Terms => "SELECT loan, day FROM term ORDER BY rowid",
        Query::MetaIds => "SELECT rowid FROM meta ORDER BY rowid",
        Query::SetupIds => "SELECT id FROM setup ORDER BY id",
        Query::PostingIds => "SELECT id FROM posting ORDER BY id",
        Query::LineIds => "SELECT rowid FROM line ORDER BY rowid",
        Query::TermIds => "SELECT rowid FROM term ORDER BY rowid",
    }
}

/// How many of its tables, in the order of creation, a store must have for this query.
pub(crate) fn least_of(query: Query) -> usize
    ensures { result ≡ least_of query }
{
    match query {
        Query::Metas | Query::MetaIds => 1,
        Query::Setups | Query::SetupIds => 2,
        Query::PostingIds => 3,
        Query::Postings | Query::LineIds => 5,
        _ => 6,
    }
}

/// Runs the query on a store of the first `made` tables, and returns all rows. The store stays as
/// it was.
pub(crate) fn read<S: Alter>(
    conn: &mut Connection<S>,
    query: Query,
    made: usize,
) -> Result<Vec<Row>, Error>
    requires some { least_of query ≤ made }
    requires few { made ≤ 6 }
    requires part { HasCleanDisk (state S.Store conn.old) → IsPart made (state S.Store conn.old) }
    ensures rows { HasCleanDisk (state S.Store conn.new) → IfOk result (λ rows.
        IsPermutation (shown_in query (state S.Store conn.old).now.trees) rows.items) }
    ensures order { HasCleanDisk (state S.Store conn.new)
        → IfOk result (λ rows. IsInOrder query rows.items) }
    ensures reading { IsReading (state S.Store conn.old) (state S.Store conn.new) result }
{
    let text = text_of(query);
    conn.query_all(text, &[])
}
