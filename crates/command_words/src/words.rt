//! Reads the words of a command line, and returns the command that they choose.
#![tactic(auto, unfolding(crate::specs::Tables::app_by))]

ghost use Rattle.std.specs.Prelude.{◌≡◌, ◌∷◌, [], IfErr, IfOk, MatchResult, None, OnOk, Some};
ghost use Rattle.std.specs.Prelude.{codes};
ghost use Rattle.clap.specs.Words.{found_of, rows_of};
ghost use Rattle.command_words.specs.Commands as commands;
ghost use Rattle.command_words.specs.Tables.{form_by};
ghost use Rattle.command_words.specs.Words.{Chooses, HoldsDesk, IsChosen, IsFault, IsMissing};
ghost use Rattle.command_words.specs.Words.{IsNamed, form_named, refusals, texts_of};

use crate::preparation::{audit, check, gap, lines, resend};
use crate::questions::{
    at, contents, dues, explain, help, loan, loans, posted, stations, where_is, why,
};
use crate::reading::{
    all, boxed, files_of, is_set, needed, one, read, read_by, read_word, record_of,
};
use crate::report_reading::{read_report, read_report_and, read_report_and_flag};
use crate::sealing::{receipt, seal};
use crate::shapes::{self, Name, find_command};
use crate::{Asked, Chosen, DeskWords, PageWords, ReplayWords, WordsFault};
use clap::ArgMatches;
use std::alloc::{AllocError, Global};

/// Returns the command that the words choose, in a box. They are the words after the program's
/// name. The first one names the command, and each value is the one that `clap` has for it.
///
/// Faults, in this order:
/// - Refused, if `clap` rejects the words, if they ask for help or the version, or if a report has
///   two of `--csv`, `--json` and `--table`;
/// - Missing, if no command is named, or if a value that the command needs is missing.
///
/// NoMemory can come instead of any result.
pub fn chosen<'a>(alloc: Global, words: &'a [&'a str]) -> Result<Box<Chosen<'a>>, WordsFault>
    ensures chosen { IfOk result (λ chosen. IsChosen (texts_of words.now) chosen.value) }
    ensures taken { OnOk result (refusals (texts_of words.now) ≡ []) }
    ensures fault { IfErr result (IsFault (texts_of words.now)) }
{
    match find_command(words) {
        Some(name) => named(alloc, name, words),
        None => no_command(alloc, words),
    }
}

/// The command that the first word names, with its values.
fn named<'a>(alloc: Global, name: Name, words: &'a [&'a str]) -> Result<Box<Chosen<'a>>, WordsFault>
    requires { Some (form_by name) ≡ form_named (texts_of words.now) }
    ensures { Chooses (form_named (texts_of words.now)) (texts_of words.now) result }
{
    match name {
        Name::Replay => replay(alloc, words),
        Name::Serve => serve(alloc, words),
        Name::Desk => desk(alloc, words),
        Name::Lines => lines(alloc, words),
        Name::Check => check(alloc, words),
        Name::Gap => gap(alloc, words),
        Name::Resend => resend(alloc, words),
        Name::Count => count(alloc, words),
        Name::Audit => audit(alloc, words),
        Name::Overdue => overdue(alloc, words),
        Name::Away => away(alloc, words),
        Name::History => history(alloc, words),
        Name::Migrate => migrate(alloc, words),
        Name::Copy => copy(alloc, words),
        Name::Seal => seal(alloc, words),
        Name::Receipt => receipt(alloc, words),
        Name::Page => page(alloc, words),
        Name::Export => export(alloc, words),
        Name::Grow => grow(alloc, words),
        Name::Setup => print_setup(alloc, words),
        Name::Explain => explain(alloc, words),
        Name::Stations => stations(alloc, words),
        Name::Where => where_is(alloc, words),
        Name::Contents => contents(alloc, words),
        Name::Loan => loan(alloc, words),
        Name::At => at(alloc, words),
        Name::Posted => posted(alloc, words),
        Name::Loans => loans(alloc, words),
        Name::Dues => dues(alloc, words),
        Name::Why => why(alloc, words),
        Name::Help => help(alloc, words),
    }
}

fn replay<'a>(alloc: Global, words: &'a [&'a str]) -> Result<Box<Chosen<'a>>, WordsFault>
    requires { IsNamed (texts_of words.now) (codes "replay") }
    ensures { Chooses (Some commands.replay) (texts_of words.now) result }
{
    let matches = read(alloc, Name::Replay, words)?;
    let files = files_of(&matches);
    let progress = is_set(&matches, "progress");
    let strict = is_set(&matches, "strict");
    let why = is_set(&matches, "why");
    drop(matches);
    match files.setup {
        Some(setup) => boxed(
            alloc,
            Chosen::Replay(ReplayWords {
                setup,
                store: files.store,
                progress,
                strict,
                why,
            }),
        ),
        None => Err(WordsFault::Missing),
    }
}

fn serve<'a>(alloc: Global, words: &'a [&'a str]) -> Result<Box<Chosen<'a>>, WordsFault>
    requires { IsNamed (texts_of words.now) (codes "serve") }
    ensures { Chooses (Some commands.serve) (texts_of words.now) result }
{
    let matches = read(alloc, Name::Serve, words)?;
    let files = files_of(&matches);
    let feeds = all(alloc, &matches, "feeds");
    drop(matches);
    match files.setup {
        Some(setup) => boxed(
            alloc,
            Chosen::Serve {
                setup,
                store: files.store,
                feeds: feeds?,
            },
        ),
        None => Err(WordsFault::Missing),
    }
}

fn desk<'a>(alloc: Global, words: &'a [&'a str]) -> Result<Box<Chosen<'a>>, WordsFault>
    requires { IsNamed (texts_of words.now) (codes "desk") }
    ensures { Chooses (Some commands.desk) (texts_of words.now) result }
{
    let matches = read(alloc, Name::Desk, words)?;
    let cards = is_set(&matches, "cards");
    let desk = desk_words(&matches);
    drop(matches);
    if cards {
        return boxed(alloc, Chosen::Cards);
    }
    boxed(alloc, Chosen::Desk(desk?))
}

/// The arguments of `desk`. Fault: Missing, exactly if one that is needed is missing.
fn desk_words<'a, 'b>(found: &'b ArgMatches<'a>) -> Result<DeskWords<'a>, WordsFault>
    ensures { MatchResult result
        (HoldsDesk (rows_of (found_of found.now)))
        (IsMissing commands.desk.needed (rows_of (found_of found.now))) }
{
    let files = files_of(found);
    let (Some(setup), Some(store), Some(station)) = (
        files.setup,
        files.store,
        one(found, "station"),
    ) else {
        return Err(WordsFault::Missing);
    };
    Ok(DeskWords {
        setup,
        store,
        station,
        day: one(found, "day"),
        log: one(found, "log"),
        labels: one(found, "labels"),
        bell: is_set(found, "bell"),
    })
}

fn count<'a>(alloc: Global, words: &'a [&'a str]) -> Result<Box<Chosen<'a>>, WordsFault>
    requires { IsNamed (texts_of words.now) (codes "count") }
    ensures { Chooses (Some commands.count) (texts_of words.now) result }
{
    let (report, list, sealed) = read_report_and_flag(alloc, Name::Count, words, "list", "sealed")?;
    boxed(alloc, Chosen::Report(report, Asked::Count { list, sealed }))
}

fn overdue<'a>(alloc: Global, words: &'a [&'a str]) -> Result<Box<Chosen<'a>>, WordsFault>
    requires { IsNamed (texts_of words.now) (codes "overdue") }
    ensures { Chooses (Some commands.overdue) (texts_of words.now) result }
{
    let (report, on) = read_report_and(alloc, Name::Overdue, words, "on")?;
    boxed(alloc, Chosen::Report(report, Asked::Overdue(on)))
}

fn away<'a>(alloc: Global, words: &'a [&'a str]) -> Result<Box<Chosen<'a>>, WordsFault>
    requires { IsNamed (texts_of words.now) (codes "away") }
    ensures { Chooses (Some commands.away) (texts_of words.now) result }
{
    let report = read_report(alloc, Name::Away, words)?;
    boxed(alloc, Chosen::Report(report, Asked::Away))
}

fn history<'a>(alloc: Global, words: &'a [&'a str]) -> Result<Box<Chosen<'a>>, WordsFault>
    requires { IsNamed (texts_of words.now) (codes "history") }
    ensures { Chooses (Some commands.history) (texts_of words.now) result }
{
    let (report, code, long) = read_report_and_flag(alloc, Name::History, words, "code", "long")?;
    boxed(alloc, Chosen::Report(report, Asked::History { code, long }))
}

fn migrate<'a>(alloc: Global, words: &'a [&'a str]) -> Result<Box<Chosen<'a>>, WordsFault>
    requires { IsNamed (texts_of words.now) (codes "migrate") }
    ensures { Chooses (Some commands.migrate) (texts_of words.now) result }
{
    let matches = read(alloc, Name::Migrate, words)?;
    let files = files_of(&matches);
    drop(matches);
    let record = record_of(files)?;
    boxed(
        alloc,
        Chosen::Migrate {
            setup: record.setup,
            store: record.store,
        },
    )
}

fn copy<'a>(alloc: Global, words: &'a [&'a str]) -> Result<Box<Chosen<'a>>, WordsFault>
    requires { IsNamed (texts_of words.now) (codes "copy") }
    ensures { Chooses (Some commands.copy) (texts_of words.now) result }
{
    let matches = read(alloc, Name::Copy, words)?;
    let files = files_of(&matches);
    let to = one(&matches, "to");
    drop(matches);
    match (files.setup, files.store, to) {
        (Some(setup), Some(store), Some(to)) => boxed(alloc, Chosen::Copy { setup, store, to }),
        _ => Err(WordsFault::Missing),
    }
}

fn page<'a>(alloc: Global, words: &'a [&'a str]) -> Result<Box<Chosen<'a>>, WordsFault>
    requires { IsNamed (texts_of words.now) (codes "page") }
    ensures { Chooses (Some commands.page) (texts_of words.now) result }
{
    let matches = read(alloc, Name::Page, words)?;
    let files = files_of(&matches);
    let on = one(&matches, "on");
    let upto = one(&matches, "upto");
    drop(matches);
    let record = record_of(files)?;
    boxed(
        alloc,
        Chosen::Page(PageWords {
            setup: record.setup,
            store: record.store,
            on,
            upto,
        }),
    )
}

fn export<'a>(alloc: Global, words: &'a [&'a str]) -> Result<Box<Chosen<'a>>, WordsFault>
    requires { IsNamed (texts_of words.now) (codes "export") }
    ensures { Chooses (Some commands.export) (texts_of words.now) result }
{
    let matches = read(alloc, Name::Export, words)?;
    let files = files_of(&matches);
    let target = one(&matches, "to");
    drop(matches);
    match (files.setup, files.store, target) {
        (Some(setup), Some(store), Some(to)) => boxed(alloc, Chosen::Export { setup, store, to }),
        _ => Err(WordsFault::Missing),
    }
}

fn grow<'a>(alloc: Global, words: &'a [&'a str]) -> Result<Box<Chosen<'a>>, WordsFault>
    requires { IsNamed (texts_of words.now) (codes "grow") }
    ensures { Chooses (Some commands.grow) (texts_of words.now) result }
{
    let matches = read(alloc, Name::Grow, words)?;
    let files = files_of(&matches);
    let check = is_set(&matches, "check");
    drop(matches);
    let record = record_of(files)?;
    boxed(
        alloc,
        Chosen::Grow {
            setup: record.setup,
            store: record.store,
            check,
        },
    )
}

fn print_setup<'a>(alloc: Global, words: &'a [&'a str]) -> Result<Box<Chosen<'a>>, WordsFault>
    requires { IsNamed (texts_of words.now) (codes "setup") }
    ensures { Chooses (Some commands.print_setup) (texts_of words.now) result }
{
    let store = read_word(alloc, Name::Setup, words, "store")?;
    boxed(
        alloc,
        Chosen::Setup {
            store: needed(store)?,
        },
    )
}

/// The fault of words that name no command: `clap`'s error, or its text for help or the version;
/// Missing if `clap` accepts the words.
fn no_command<'a>(alloc: Global, words: &'a [&'a str]) -> Result<Box<Chosen<'a>>, WordsFault>
    ensures { Chooses None (texts_of words.now) result }
{
    let line = whole_line(alloc, words)?;
    drop(read_by(shapes::overview_command(alloc)?, line.as_slice())?);
    Err(WordsFault::Missing)
}

/// The words with the program's name before them, as `clap` takes them.
fn whole_line<'a>(alloc: Global, words: &[&'a str]) -> Result<Vec<&'a str>, AllocError>
    ensures { IfOk result (λ v. texts_of v.items ≡ codes "pairsalder" ∷ texts_of words.now) }
{
    let mut line = Vec::new(alloc);
    line.push(shapes::PROGRAM)?;
    line.extend_from_slice(words)?;
    Ok(line)
}
