//! Fills in a default setup and store for words that name none.
#![tactic(auto)]

ghost use Rattle.std.specs.Prelude.{◌≡◌, ◌++◌, ◌||◌, IfOk, OnOk, codes};
ghost use Rattle.std.specs.Str.{bytes_eq};
ghost use Rattle.command_words.specs.Completion as completion;
ghost use Rattle.command_words.specs.Completion.{begins, completed, filled_in, is_filled_in};
ghost use Rattle.command_words.specs.Completion.{is_settled, is_written, lacks_option, settles};
ghost use Rattle.command_words.specs.Tables.{form_by};
ghost use Rattle.command_words.specs.Words.{text_of, texts_of};

use crate::shapes::{Name, find_command};
use std::alloc::{AllocError, Global};

/// An option that names the setup or the store.
#[derive(Clone, Copy, PartialEq, Eq)]
pub enum FileOption {
    /// `--setup PATH` or `-s PATH`.
    Setup,
    /// `--store PATH` or `-d PATH`.
    Store,
}

impl FileOption {
    /// The option as a word: `--setup`.
    fn name(self) -> &'static str
        ensures { result.now ≡ completion.name_of self }
    {
        match self {
            FileOption::Setup => "--setup",
            FileOption::Store => "--store",
        }
    }
}

/// Whether the word is an option: its name, its name with a value after `=`, or its letter, with or
/// without a value. `named` is the name with `=`.
fn is_option(word: &str, name: &str, named: &str, letter: &str) -> bool
    requires { named.now ≡ name.now ++ codes "=" }
    ensures { result ≡ is_written name.now letter.now word.now }
{
    // `|` instead of `||` leaves a single path to prove.
    (word == name) | (word.starts_with(named) | word.starts_with(letter))
}

/// Whether the word asks for help.
fn asks_for_help(word: &str) -> bool
    ensures { result ≡ (bytes_eq word.now (codes "--help") || begins (codes "-h") word.now) }
{
    word == "--help" || word.starts_with("-h")
}

/// Whether the word gives the option, or asks for help.
fn settles_option(word: &str, option: FileOption) -> bool
    ensures { result ≡ settles option word.now }
{
    let is_given = match option {
        FileOption::Setup => is_option(word, "--setup", "--setup=", "-s"),
        FileOption::Store => is_option(word, "--store", "--store=", "-d"),
    };
    is_given || asks_for_help(word)
}

/// Whether any of the words gives the option, or asks for help. Words after `--` are no options.
fn has_settled(words: &[&str], option: FileOption) -> bool
    ensures { result ≡ is_settled option (texts_of words.now) }
{
    for word in words {
        if *word == "--" {
            return false;
        }
        if settles_option(word, option) {
            return true;
        }
    }
    false
}

/// Whether the option is filled in for the command: it has the option, and needs a value.
fn takes_option(name: Name, option: FileOption) -> bool
    ensures { result ≡ is_filled_in option (form_by name) }
{
    match name {
        Name::Explain => false,
        Name::Help => false,
        Name::Check => false,
        Name::Setup => match option {
            FileOption::Setup => false,
            FileOption::Store => true,
        },
        _ => true,
    }
}

/// Returns whether the option can be filled in: the first word names a command that has it and
/// needs a value, and the words neither give it nor ask for help.
pub fn lacks(words: &[&str], option: FileOption) -> bool
    ensures { result ≡ lacks_option option (texts_of words.now) }
{
    match find_command(words) {
        Some(name) => takes_option(name, option) && !has_settled(words, option),
        None => false,
    }
}

/// Appends the option and its value if the words lack it and the value is not empty.
fn fill_in<'a>(
    line: &mut Vec<&'a str>,
    words: &[&'a str],
    option: FileOption,
    value: Option<&'a str>,
) -> Result<(), AllocError>
    ensures { OnOk result (texts_of line.new.items
        ≡ texts_of line.old.items ++ filled_in option (text_of value.entry) (texts_of words.now)) }
{
    match value {
        Some(value) if !value.is_empty() && lacks(words, option) => {
            let name: &'a str = option.name();
            line.extend_from_slice(&[name, value])
        }
        _ => Ok(()),
    }
}

/// Returns the words with `--setup` and `--store` and these values filled in, right after the
/// command's name. Each is added only if [`lacks`] is true for it. A value that is missing or empty
/// adds nothing. Fault: AllocError, if memory runs out.
pub fn complete<'a>(
    alloc: Global,
    words: &[&'a str],
    setup: Option<&'a str>,
    store: Option<&'a str>,
) -> Result<Vec<&'a str>, AllocError>
    ensures words { IfOk result (λ line. texts_of line.items
        ≡ completed (texts_of words.now) (text_of setup.entry) (text_of store.entry)) }
{
    let (first, rest) = words.split_at(words.len().min(1));
    let mut line = first.to_vec(alloc)?;
    fill_in(&mut line, words, FileOption::Setup, setup)?;
    fill_in(&mut line, words, FileOption::Store, store)?;
    line.extend_from_slice(rest)?;
    Ok(line)
}
