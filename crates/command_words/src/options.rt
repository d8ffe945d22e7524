//! The arguments of commands, and how they are built for `clap`.
ghost use Rattle.std.specs.Prelude.{◌≡◌, Some, false};
ghost use Rattle.clap.specs.Words.{app_of, rule_of};
ghost use Rattle.command_words.specs.Commands.{file_rule, flag_rule, option_rule};
ghost use Rattle.command_words.specs.Commands.{word_rule, words_rule};
ghost use Rattle.command_words.specs.Tables.{rule_by};

use crate::texts::Help;
use clap::{Arg, ArgAction, Command};
use std::alloc::Global;

/// How an argument takes its values.
#[derive(Clone, Copy)]
pub(crate) enum Kind {
    /// One value, after its name or its letter: `--setup PATH`, `-s PATH`.
    File(char),
    /// One value, after its name: `--on DAY`.
    Valued,
    /// No value: `--csv`.
    Flag,
    /// One value, by its position: LIST.
    Word,
    /// Any number of values, from its position on: FEEDS.
    Words,
}

/// An argument, with its text in the help.
#[derive(Clone, Copy)]
pub(crate) struct Argument {
    pub kind: Kind,
    pub id: &'static str,
    pub value: &'static str,
    pub help: &'static str,
}

pub(crate) const SETUP: Argument = Argument {
    kind: Kind::File('s'),
    id: "setup",
    value: "PATH",
    help: "The museum's setup file [default: $PAIRSALDER_SETUP]",
};

pub(crate) const STORE: Argument = Argument {
    kind: Kind::File('d'),
    id: "store",
    value: "PATH",
    help: "The file that keeps the record [default: $PAIRSALDER_STORE]",
};

pub(crate) const UPTO: Argument = Argument {
    kind: Kind::Valued,
    id: "upto",
    value: "N",
    help: "Answer from the record as it was after entry N",
};

pub(crate) const CSV: Argument = Argument {
    kind: Kind::Flag,
    id: "csv",
    value: "",
    help: "Print comma-separated values with a header",
};

pub(crate) const JSON: Argument = Argument {
    kind: Kind::Flag,
    id: "json",
    value: "",
    help: "Print one JSON object per line",
};

pub(crate) const TABLE: Argument = Argument {
    kind: Kind::Flag,
    id: "table",
    value: "",
    help: "Print aligned columns with a heading",
};

/// What `clap` does with the argument's values.
fn action_of(argument: &Argument) -> ArgAction
    ensures { (rule_by argument.now).action ≡ Some result }
{
    match argument.kind {
        Kind::File(_) | Kind::Valued | Kind::Word => ArgAction::Set,
        Kind::Flag => ArgAction::SetTrue,
        Kind::Words => ArgAction::Append,
    }
}

/// Returns the argument as `clap` takes it.
pub(crate) fn made<'a>(alloc: Global, argument: &Argument) -> Arg<'a>
    ensures rule { rule_of result ≡ rule_by argument.now }
    ensures local { result.global ≡ false }
{
    let id = argument.id;
    let made = Arg::new(alloc, id)
        .help(argument.help)
        .action(action_of(argument));
    match argument.kind {
        Kind::File(letter) => made.long(id).short(letter).value_name(argument.value),
        Kind::Valued => made.long(id).value_name(argument.value),
        Kind::Flag => made.long(id),
        Kind::Word | Kind::Words => made.value_name(argument.value),
    }
}

/// Returns the command with its help. Its arguments stay the same.
pub(crate) fn with_help<'a>(command: Command<'a>, help: &Help) -> Command<'a>
    ensures { app_of result ≡ app_of command.entry }
{
    command
        .about(help.about)
        .override_usage(help.usage)
        .after_help(help.more)
}
