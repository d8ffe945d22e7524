//! Reads the words of the commands that answer a question: `explain`, `help`, and reports.
#![tactic(auto, unfolding(crate::specs::Tables::app_by))]

ghost use Rattle.std.specs.Prelude.{Some, codes};
ghost use Rattle.command_words.specs.Commands as commands;
ghost use Rattle.command_words.specs.Words.{Chooses, IsNamed, texts_of};

use crate::reading::{boxed, is_set, needed, one, read, read_word};
use crate::report_reading::{entries_of, read_report, read_report_and, report_in};
use crate::shapes::Name;
use crate::{Asked, Chosen, WordsFault};
use std::alloc::Global;

pub(crate) fn explain<'a>(
    alloc: Global,
    words: &'a [&'a str],
) -> Result<Box<Chosen<'a>>, WordsFault>
    requires { IsNamed (texts_of words.now) (codes "explain") }
    ensures { Chooses (Some commands.explain) (texts_of words.now) result }
{
    let name = read_word(alloc, Name::Explain, words, "name")?;
    boxed(
        alloc,
        Chosen::Explain {
            name: needed(name)?,
        },
    )
}

pub(crate) fn help<'a>(alloc: Global, words: &'a [&'a str]) -> Result<Box<Chosen<'a>>, WordsFault>
    requires { IsNamed (texts_of words.now) (codes "help") }
    ensures { Chooses (Some commands.help) (texts_of words.now) result }
{
    let topic = read_word(alloc, Name::Help, words, "topic")?;
    boxed(alloc, Chosen::Help { topic })
}

pub(crate) fn stations<'a>(
    alloc: Global,
    words: &'a [&'a str],
) -> Result<Box<Chosen<'a>>, WordsFault>
    requires { IsNamed (texts_of words.now) (codes "stations") }
    ensures { Chooses (Some commands.stations) (texts_of words.now) result }
{
    let report = read_report(alloc, Name::Stations, words)?;
    boxed(alloc, Chosen::Report(report, Asked::Stations))
}

pub(crate) fn where_is<'a>(
    alloc: Global,
    words: &'a [&'a str],
) -> Result<Box<Chosen<'a>>, WordsFault>
    requires { IsNamed (texts_of words.now) (codes "where") }
    ensures { Chooses (Some commands.where_is) (texts_of words.now) result }
{
    let (report, code) = read_report_and(alloc, Name::Where, words, "code")?;
    boxed(alloc, Chosen::Report(report, Asked::Where(code)))
}

pub(crate) fn contents<'a>(
    alloc: Global,
    words: &'a [&'a str],
) -> Result<Box<Chosen<'a>>, WordsFault>
    requires { IsNamed (texts_of words.now) (codes "contents") }
    ensures { Chooses (Some commands.contents) (texts_of words.now) result }
{
    let (report, code) = read_report_and(alloc, Name::Contents, words, "code")?;
    boxed(alloc, Chosen::Report(report, Asked::Contents(code)))
}

pub(crate) fn loan<'a>(alloc: Global, words: &'a [&'a str]) -> Result<Box<Chosen<'a>>, WordsFault>
    requires { IsNamed (texts_of words.now) (codes "loan") }
    ensures { Chooses (Some commands.loan) (texts_of words.now) result }
{
    let (report, code) = read_report_and(alloc, Name::Loan, words, "code")?;
    boxed(alloc, Chosen::Report(report, Asked::Loan(code)))
}

pub(crate) fn at<'a>(alloc: Global, words: &'a [&'a str]) -> Result<Box<Chosen<'a>>, WordsFault>
    requires { IsNamed (texts_of words.now) (codes "at") }
    ensures { Chooses (Some commands.at) (texts_of words.now) result }
{
    let (report, place) = read_report_and(alloc, Name::At, words, "place")?;
    boxed(alloc, Chosen::Report(report, Asked::At(place)))
}

pub(crate) fn posted<'a>(alloc: Global, words: &'a [&'a str]) -> Result<Box<Chosen<'a>>, WordsFault>
    requires { IsNamed (texts_of words.now) (codes "posted") }
    ensures { Chooses (Some commands.posted) (texts_of words.now) result }
{
    let matches = read(alloc, Name::Posted, words)?;
    let entries = entries_of(&matches);
    let report = report_in(alloc, Name::Posted, &matches);
    drop(matches);
    boxed(alloc, Chosen::Report(report?, Asked::Posted(entries)))
}

pub(crate) fn loans<'a>(alloc: Global, words: &'a [&'a str]) -> Result<Box<Chosen<'a>>, WordsFault>
    requires { IsNamed (texts_of words.now) (codes "loans") }
    ensures { Chooses (Some commands.loans) (texts_of words.now) result }
{
    let matches = read(alloc, Name::Loans, words)?;
    let on = one(&matches, "on");
    let by = one(&matches, "by");
    let open = is_set(&matches, "open");
    let report = report_in(alloc, Name::Loans, &matches);
    drop(matches);
    boxed(
        alloc,
        Chosen::Report(report?, Asked::Loans { on, by, open }),
    )
}

pub(crate) fn dues<'a>(alloc: Global, words: &'a [&'a str]) -> Result<Box<Chosen<'a>>, WordsFault>
    requires { IsNamed (texts_of words.now) (codes "dues") }
    ensures { Chooses (Some commands.dues) (texts_of words.now) result }
{
    let (report, by) = read_report_and(alloc, Name::Dues, words, "by")?;
    boxed(alloc, Chosen::Report(report, Asked::Dues(by)))
}

pub(crate) fn why<'a>(alloc: Global, words: &'a [&'a str]) -> Result<Box<Chosen<'a>>, WordsFault>
    requires { IsNamed (texts_of words.now) (codes "why") }
    ensures { Chooses (Some commands.why) (texts_of words.now) result }
{
    let (report, entry) = read_report_and(alloc, Name::Why, words, "entry")?;
    boxed(alloc, Chosen::Report(report, Asked::Why(entry)))
}
