//! The commands and their arguments, as `clap` takes them.
ghost use Rattle.std.specs.Prelude.{◌≡◌, IfOk, option_map};
ghost use Rattle.clap.specs.Words.{app_of, found_of, new_app, rows_of};
ghost use Rattle.command_words.specs.Commands.{overview, program_alone};
ghost use Rattle.command_words.specs.Completion.{form_called};
ghost use Rattle.command_words.specs.Tables.{app_by, form_by, with_arguments};
ghost use Rattle.command_words.specs.Words.{form_named, needed_in, texts_of};

use crate::arguments::{
    BELL, BY, CARDS, CHECK, CONTAINER, DAY, DUE, ENTRY, EXPLAINED, FEEDS, FIRST_DAY, FLAT_FILE,
    FROM, LABELS, LIST, LOAN, LOG, LONG, MARKED_DAY, OF_LOAN, OF_THING, ON, OPEN, OWN_STATION,
    PLACE, PROGRESS, REFUSED, SEALED, STATION, STRICT, THING, TO, TO_ENTRY, TOPIC, WORD,
};
use crate::options::{Argument, CSV, JSON, SETUP, STORE, TABLE, UPTO, made, with_help};
use crate::preparation_arguments::{
    CHECKED_COUNTS, CHECKED_LINES, CHECKED_SETUP, DATES, FILLER, FIRST, MOVE_DAY, OWN_FILE,
    ROW_DAY, ROW_KIND, ROW_LOAN, ROW_NAME, ROW_PLACE, SENDER, SHEET, STRICT_ROWS,
};
use crate::reading::{is_set, one};
use crate::sealing_arguments::{RECEIPT_FILE, SEALED_ENTRIES, SEALED_ENTRY, SEALS};
use crate::texts::{self, Help};
use crate::{preparation_texts, report_texts, sealing_texts};
use clap::{ArgMatches, Command};
use std::alloc::{AllocError, Global};

/// The program's name in its help.
pub(crate) const PROGRAM: &str = "pairsalder";

/// The name of a command.
#[derive(Clone, Copy)]
pub(crate) enum Name {
    Replay,
    Serve,
    Desk,
    Lines,
    Check,
    Gap,
    Resend,
    Count,
    Audit,
    Overdue,
    Away,
    History,
    Migrate,
    Copy,
    Seal,
    Receipt,
    Page,
    Export,
    Grow,
    Setup,
    Explain,
    Stations,
    Where,
    Contents,
    Loan,
    At,
    Posted,
    Loans,
    Dues,
    Why,
    Help,
}

/// The commands in the order of the help. `help` is left out, because `clap` adds it.
const NAMES: [Name; 30] = [
    Name::Replay,
    Name::Serve,
    Name::Desk,
    Name::Lines,
    Name::Check,
    Name::Gap,
    Name::Resend,
    Name::Count,
    Name::Audit,
    Name::Overdue,
    Name::Away,
    Name::History,
    Name::Migrate,
    Name::Copy,
    Name::Seal,
    Name::Receipt,
    Name::Page,
    Name::Export,
    Name::Grow,
    Name::Setup,
    Name::Explain,
    Name::Stations,
    Name::Where,
    Name::Contents,
    Name::Loan,
    Name::At,
    Name::Posted,
    Name::Loans,
    Name::Dues,
    Name::Why,
];

/// The word that names the command.
fn word_of(name: Name) -> &'static str
    ensures { result.now ≡ (app_by name).top.name }
{
    match name {
        Name::Replay => "replay",
        Name::Serve => "serve",
        Name::Desk => "desk",
        Name::Lines => "lines",
        Name::Check => "check",
        Name::Gap => "gap",
        Name::Resend => "resend",
        Name::Count => "count",
        Name::Audit => "audit",
        Name::Overdue => "overdue",
        Name::Away => "away",
        Name::History => "history",
        Name::Migrate => "migrate",
        Name::Copy => "copy",
        Name::Seal => "seal",
        Name::Receipt => "receipt",
        Name::Page => "page",
        Name::Export => "export",
        Name::Grow => "grow",
        Name::Setup => "setup",
        Name::Explain => "explain",
        Name::Stations => "stations",
        Name::Where => "where",
        Name::Contents => "contents",
        Name::Loan => "loan",
        Name::At => "at",
        Name::Posted => "posted",
        Name::Loans => "loans",
        Name::Dues => "dues",
        Name::Why => "why",
        Name::Help => "help",
    }
}

/// Returns the command that the word names. None if it names no command.
#[tactic(auto, unfolding(crate::specs::Tables::form_by, crate::specs::Commands::register_app, crate::specs::Commands::report_app))]
pub(crate) fn name_of(word: &str) -> Option<Name>
    ensures { option_map form_by result ≡ form_called word.now }
{
    if word == "help" {
        return Some(Name::Help);
    }
    for name in &NAMES {
        if word == word_of(*name) {
            return Some(*name);
        }
    }
    None
}

/// Returns the command that the first word names. None if it names no command.
pub(crate) fn find_command(words: &[&str]) -> Option<Name>
    ensures { option_map form_by result ≡ form_named (texts_of words.now) }
{
    match words.first().copied() {
        Some(word) => name_of(word),
        None => None,
    }
}

/// Returns the ids of the arguments that the command needs, in the order of its usage: none for the
/// cards of a desk, or for the check of a receipt.
#[tactic(auto, unfolding(crate::specs::Tables::form_by))]
pub(crate) fn needs_in(name: Name, matches: &ArgMatches<'_>) -> &'static [&'static str]
    ensures { texts_of result.now ≡ needed_in (form_by name) (rows_of (found_of matches.now)) }
{
    match name {
        Name::Desk if is_set(matches, "cards") => &[],
        Name::Receipt if one(matches, "check").is_some() => &[],
        _ => needs_of(name),
    }
}

/// The ids of the arguments that the command needs otherwise.
#[tactic(auto, unfolding(crate::specs::Tables::form_by))]
fn needs_of(name: Name) -> &'static [&'static str]
    ensures { texts_of result.now ≡ (form_by name).needed }
{
    match name {
        Name::Replay | Name::Serve => &["setup"],
        Name::Desk => &["setup", "store", "station"],
        Name::Lines => &["setup", "station", "table"],
        Name::Check => &[],
        Name::Gap => &["setup", "store", "station", "by"],
        Name::Resend => &["setup", "store", "station", "file"],
        Name::Count => &["setup", "store", "list"],
        Name::Audit => &["setup", "store", "station", "day", "list"],
        Name::Overdue => &["setup", "store", "on"],
        Name::Setup => &["store"],
        Name::Away | Name::Migrate | Name::Grow | Name::Stations | Name::Posted | Name::Loans => {
            &["setup", "store"]
        }
        Name::Dues => &["setup", "store", "by"],
        Name::Why => &["setup", "store", "entry"],
        Name::History | Name::Where | Name::Contents | Name::Loan => &["setup", "store", "code"],
        Name::Copy | Name::Export => &["setup", "store", "to"],
        Name::Seal | Name::Page => &["setup", "store"],
        Name::Receipt => &["setup", "store", "entry"],
        Name::Explain => &["name"],
        Name::At => &["setup", "store", "place"],
        Name::Help => &[],
    }
}

/// The command's help.
fn help_of(name: Name) -> &'static Help {
    match name {
        Name::Replay => &texts::REPLAY,
        Name::Serve => &texts::SERVE,
        Name::Desk => &texts::DESK,
        Name::Lines => &preparation_texts::LINES,
        Name::Check => &preparation_texts::CHECK,
        Name::Gap => &preparation_texts::GAP,
        Name::Resend => &preparation_texts::RESEND,
        Name::Count => &report_texts::COUNT,
        Name::Audit => &preparation_texts::AUDIT,
        Name::Overdue => &report_texts::OVERDUE,
        Name::Away => &report_texts::AWAY,
        Name::History => &report_texts::HISTORY,
        Name::Migrate => &texts::MIGRATE,
        Name::Copy => &texts::COPY,
        Name::Seal => &sealing_texts::SEAL,
        Name::Receipt => &sealing_texts::RECEIPT,
        Name::Page => &texts::PAGE,
        Name::Export => &texts::EXPORT,
        Name::Grow => &texts::GROW,
        Name::Setup => &texts::SETUP,
        Name::Explain => &texts::EXPLAIN,
        Name::Stations => &report_texts::STATIONS,
        Name::Where => &report_texts::WHERE,
        Name::Contents => &report_texts::CONTENTS,
        Name::Loan => &report_texts::LOAN,
        Name::At => &report_texts::AT,
        Name::Posted => &report_texts::POSTED,
        Name::Loans => &report_texts::LOANS,
        Name::Dues => &report_texts::DUES,
        Name::Why => &report_texts::WHY,
        Name::Help => &texts::HELP,
    }
}

/// The command's arguments, in their order.
#[tactic(auto, unfolding(crate::specs::Tables::app_by, crate::specs::Commands::register_app, crate::specs::Commands::report_app))]
fn arguments_of(name: Name) -> &'static [Argument]
    ensures { with_arguments (new_app (app_by name).top.name) result.now ≡ app_by name }
{
    match name {
        Name::Replay => &[SETUP, STORE, PROGRESS, STRICT, EXPLAINED],
        Name::Serve => &[SETUP, STORE, FEEDS],
        Name::Desk => &[
            SETUP,
            STORE,
            OWN_STATION,
            FIRST_DAY,
            LOG,
            LABELS,
            BELL,
            CARDS,
        ],
        Name::Lines => &[
            SETUP,
            STORE,
            SENDER,
            FIRST,
            ROW_KIND,
            ROW_DAY,
            ROW_PLACE,
            ROW_LOAN,
            ROW_NAME,
            DATES,
            LABELS,
            STRICT_ROWS,
            SHEET,
        ],
        Name::Check => &[CHECKED_SETUP, CHECKED_COUNTS, CHECKED_LINES],
        Name::Gap => &[SETUP, STORE, SENDER, FILLER],
        Name::Resend => &[SETUP, STORE, SENDER, OWN_FILE],
        Name::Count => &[SETUP, STORE, LIST, SEALED, UPTO, CSV, JSON, TABLE],
        Name::Audit => &[SETUP, STORE, SENDER, MOVE_DAY, FIRST, SEALED, LIST],
        Name::Overdue => &[SETUP, STORE, DAY, UPTO, CSV, JSON, TABLE],
        Name::Away => &[SETUP, STORE, UPTO, CSV, JSON, TABLE],
        Name::History => &[SETUP, STORE, THING, LONG, UPTO, CSV, JSON, TABLE],
        Name::Migrate => &[SETUP, STORE],
        Name::Copy => &[SETUP, STORE, TO],
        Name::Seal => &[SETUP, STORE, SEALED_ENTRIES, SEALS],
        Name::Receipt => &[SETUP, STORE, SEALED_ENTRIES, RECEIPT_FILE, SEALED_ENTRY],
        Name::Page => &[SETUP, STORE, MARKED_DAY, UPTO],
        Name::Export => &[SETUP, STORE, FLAT_FILE],
        Name::Grow => &[SETUP, STORE, CHECK],
        Name::Setup => &[STORE],
        Name::Explain => &[WORD],
        Name::Stations => &[SETUP, STORE, UPTO, CSV, JSON, TABLE],
        Name::Where => &[SETUP, STORE, THING, UPTO, CSV, JSON, TABLE],
        Name::Contents => &[SETUP, STORE, CONTAINER, UPTO, CSV, JSON, TABLE],
        Name::Loan => &[SETUP, STORE, LOAN, UPTO, CSV, JSON, TABLE],
        Name::At => &[SETUP, STORE, PLACE, UPTO, CSV, JSON, TABLE],
        Name::Posted => &[
            SETUP, STORE, FROM, TO_ENTRY, STATION, OF_THING, OF_LOAN, REFUSED, UPTO, CSV, JSON,
            TABLE,
        ],
        Name::Loans => &[SETUP, STORE, ON, BY, OPEN, UPTO, CSV, JSON, TABLE],
        Name::Dues => &[SETUP, STORE, DUE, UPTO, CSV, JSON, TABLE],
        Name::Why => &[SETUP, STORE, ENTRY, UPTO, CSV, JSON, TABLE],
        Name::Help => &[TOPIC],
    }
}

/// Returns the command with its help, but without its arguments.
pub(crate) fn bare<'a>(alloc: Global, name: Name) -> Command<'a>
    ensures { app_of result ≡ new_app (app_by name).top.name }
{
    let word: &'a str = word_of(name);
    with_help(Command::new(alloc, word), help_of(name))
}

/// Returns the command with its help and its arguments. Fault: AllocError, if memory runs out.
pub(crate) fn command_of<'a>(alloc: Global, name: Name) -> Result<Command<'a>, AllocError>
    ensures { IfOk result (λ r. app_of r ≡ app_by name) }
{
    let mut command = bare(alloc, name);
    for argument in arguments_of(name) {
        command = command.arg(made(alloc, argument))?;
    }
    Ok(command)
}

/// The program's help. Its long text costs more to prove in a longer function.
fn program_help() -> &'static Help {
    &texts::PROGRAM
}

/// The program without its commands.
fn program<'a>(alloc: Global) -> Command<'a>
    ensures { app_of result ≡ program_alone }
{
    let command = Command::new(alloc, PROGRAM).version(texts::VERSION);
    with_help(command, program_help())
}

/// Returns the program with all commands of [`NAMES`], which reads words that name no command.
/// Fault: AllocError, if memory runs out.
pub(crate) fn overview_command<'a>(alloc: Global) -> Result<Command<'a>, AllocError>
    ensures { IfOk result (λ r. app_of r ≡ overview) }
{
    let mut command = program(alloc);
    for name in &NAMES {
        let next = match command_of(alloc, *name) {
            Ok(next) => next,
            // After `?`, the drop of each field of the command would be proved here.
            Err(fault) => {
                drop(command);
                return Err(fault);
            }
        };
        command = command.subcommand(next)?;
    }
    Ok(command)
}
