//! Reads the words of the commands that prepare lines for a replay, or check files, and post
//! nothing: `lines`, `check`, `gap`, `resend` and `audit`.
#![tactic(auto, unfolding(crate::specs::Tables::app_by))]

ghost use Rattle.std.specs.Prelude.{MatchResult, Some, codes};
ghost use Rattle.clap.specs.Words.{found_of, rows_of};
ghost use Rattle.command_words.specs.Commands as commands;
ghost use Rattle.command_words.specs.Words.{Chooses, HoldsAudit, HoldsTable, IsMissing, IsNamed};
ghost use Rattle.command_words.specs.Words.{texts_of};

use crate::reading::{boxed, files_of, is_set, one, read, record_of};
use crate::shapes::Name;
use crate::{AuditWords, Chosen, GapWords, ResendWords, TableWords, WordsFault};
use clap::ArgMatches;
use std::alloc::Global;

pub(crate) fn lines<'a>(alloc: Global, words: &'a [&'a str]) -> Result<Box<Chosen<'a>>, WordsFault>
    requires { IsNamed (texts_of words.now) (codes "lines") }
    ensures { Chooses (Some commands.lines) (texts_of words.now) result }
{
    let matches = read(alloc, Name::Lines, words)?;
    let table = table_words(&matches);
    drop(matches);
    boxed(alloc, Chosen::Lines(table?))
}

/// The arguments of `lines`. Fault: Missing, exactly if one that is needed is missing.
fn table_words<'a, 'b>(found: &'b ArgMatches<'a>) -> Result<TableWords<'a>, WordsFault>
    ensures { MatchResult result
        (HoldsTable (rows_of (found_of found.now)))
        (IsMissing commands.lines.needed (rows_of (found_of found.now))) }
{
    let files = files_of(found);
    let (Some(setup), Some(station), Some(table)) = (
        files.setup,
        one(found, "station"),
        one(found, "table"),
    ) else {
        return Err(WordsFault::Missing);
    };
    Ok(TableWords {
        setup,
        store: files.store,
        station,
        first: one(found, "first"),
        kind: one(found, "kind"),
        day: one(found, "day"),
        place: one(found, "place"),
        loan: one(found, "loan"),
        by: one(found, "by"),
        dates: one(found, "dates"),
        labels: one(found, "labels"),
        strict: is_set(found, "strict"),
        table,
    })
}

pub(crate) fn check<'a>(alloc: Global, words: &'a [&'a str]) -> Result<Box<Chosen<'a>>, WordsFault>
    requires { IsNamed (texts_of words.now) (codes "check") }
    ensures { Chooses (Some commands.check_files) (texts_of words.now) result }
{
    let matches = read(alloc, Name::Check, words)?;
    let setup = one(&matches, "setup");
    let counts = one(&matches, "counts");
    let lines = one(&matches, "lines");
    drop(matches);
    boxed(
        alloc,
        Chosen::Check {
            setup,
            counts,
            lines,
        },
    )
}

pub(crate) fn gap<'a>(alloc: Global, words: &'a [&'a str]) -> Result<Box<Chosen<'a>>, WordsFault>
    requires { IsNamed (texts_of words.now) (codes "gap") }
    ensures { Chooses (Some commands.gap) (texts_of words.now) result }
{
    let matches = read(alloc, Name::Gap, words)?;
    let files = files_of(&matches);
    let station = one(&matches, "station");
    let by = one(&matches, "by");
    drop(matches);
    match (files.setup, files.store, station, by) {
        (Some(setup), Some(store), Some(station), Some(by)) => boxed(
            alloc,
            Chosen::Gap(GapWords {
                setup,
                store,
                station,
                by,
            }),
        ),
        _ => Err(WordsFault::Missing),
    }
}

pub(crate) fn resend<'a>(alloc: Global, words: &'a [&'a str]) -> Result<Box<Chosen<'a>>, WordsFault>
    requires { IsNamed (texts_of words.now) (codes "resend") }
    ensures { Chooses (Some commands.resend) (texts_of words.now) result }
{
    let matches = read(alloc, Name::Resend, words)?;
    let files = files_of(&matches);
    let station = one(&matches, "station");
    let file = one(&matches, "file");
    drop(matches);
    match (files.setup, files.store, station, file) {
        (Some(setup), Some(store), Some(station), Some(file)) => boxed(
            alloc,
            Chosen::Resend(ResendWords {
                setup,
                store,
                station,
                file,
            }),
        ),
        _ => Err(WordsFault::Missing),
    }
}

pub(crate) fn audit<'a>(alloc: Global, words: &'a [&'a str]) -> Result<Box<Chosen<'a>>, WordsFault>
    requires { IsNamed (texts_of words.now) (codes "audit") }
    ensures { Chooses (Some commands.audit) (texts_of words.now) result }
{
    let matches = read(alloc, Name::Audit, words)?;
    let moves = audit_words(&matches);
    drop(matches);
    boxed(alloc, Chosen::Audit(moves?))
}

/// The arguments of `audit`. Fault: Missing, exactly if one that is needed is missing.
fn audit_words<'a, 'b>(found: &'b ArgMatches<'a>) -> Result<AuditWords<'a>, WordsFault>
    ensures { MatchResult result
        (HoldsAudit (rows_of (found_of found.now)))
        (IsMissing commands.audit.needed (rows_of (found_of found.now))) }
{
    let record = record_of(files_of(found))?;
    let (Some(station), Some(day), Some(list)) = (
        one(found, "station"),
        one(found, "day"),
        one(found, "list"),
    ) else {
        return Err(WordsFault::Missing);
    };
    Ok(AuditWords {
        setup: record.setup,
        store: record.store,
        station,
        day,
        first: one(found, "first"),
        sealed: is_set(found, "sealed"),
        list,
    })
}
