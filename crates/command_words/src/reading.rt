//! Reads the values of a command's arguments.
ghost use Rattle.std.specs.Prelude.{◌≡◌, ◌&&◌, [], IfOk, MatchResult, None, Some, codes, false};
ghost use Rattle.std.specs.Prelude.{is_some, true};
ghost use Rattle.clap.specs.Faults.{fault_of, is_simple_and_free};
ghost use Rattle.clap.specs.Words.{app_of, first_of, found_of, rows_of};
ghost use Rattle.command_words.specs.Tables.{app_by};
ghost use Rattle.command_words.specs.Words.{IsRead, IsRefused, all_in};
ghost use Rattle.command_words.specs.Words.{is_true, text_of, texts_of, value};
ghost use Rattle.command_words.specs.declared.command.WordsFault.TheVariants.{Missing, NoMemory};

use crate::shapes::{Name, command_of};
use crate::{Chosen, WordsFault};
use clap::error::ErrorKind;
use clap::{ArgMatches, Command, Error};
use std::alloc::{AllocError, Global};

/// Puts the command into a box. Fault: NoMemory, if memory runs out.
pub(crate) fn boxed<'a>(alloc: Global, chosen: Chosen<'a>) -> Result<Box<Chosen<'a>>, WordsFault>
    ensures { MatchResult result (λ b. b.value ≡ chosen.entry) (λ fault. fault ≡ NoMemory) }
{
    Ok(Box::new(alloc, chosen)?)
}

/// The setup and the store, if the words name them.
#[derive(Clone, Copy)]
pub(crate) struct Files<'a> {
    pub setup: Option<&'a str>,
    pub store: Option<&'a str>,
}

/// The setup and the store of a command that needs both.
#[derive(Clone, Copy)]
pub(crate) struct Record<'a> {
    pub setup: &'a str,
    pub store: &'a str,
}

/// Returns `clap`'s matches for the words. Faults: Refused, if `clap` rejects the words; NoMemory
/// can come instead of any result.
pub(crate) fn read_by<'a>(
    command: Command<'a>,
    words: &'a [&'a str],
) -> Result<ArgMatches<'a>, WordsFault>
    requires { is_simple_and_free (app_of command) ≡ true }
    ensures { MatchResult result
        (λ m. IsRead (app_of command.entry) (texts_of words.now) (rows_of (found_of m)))
        (IsRefused (app_of command.entry) (texts_of words.now)) }
{
    Ok(command.try_get_matches_from(words)?)
}

/// Returns `clap`'s matches for the words of a command. Faults: as for [`read_by`].
pub(crate) fn read<'a>(
    alloc: Global,
    name: Name,
    words: &'a [&'a str],
) -> Result<ArgMatches<'a>, WordsFault>
    ensures { MatchResult result
        (λ m. IsRead (app_by name) (texts_of words.now) (rows_of (found_of m)))
        (IsRefused (app_by name) (texts_of words.now)) }
{
    read_by(command_of(alloc, name)?, words)
}

/// Returns the value of an argument, the first if there are several. None if it has none.
pub(crate) fn one<'a, 'b>(matches: &'b ArgMatches<'a>, id: &'static str) -> Option<&'a str>
    ensures { text_of result ≡ first_of id.now (rows_of (found_of matches.now)) }
{
    matches.get_str(id)
}

pub(crate) fn files_of<'a, 'b>(found: &'b ArgMatches<'a>) -> Files<'a>
    ensures setup { text_of result.setup ≡ first_of (codes "setup") (rows_of (found_of found.now)) }
    ensures store { text_of result.store ≡ first_of (codes "store") (rows_of (found_of found.now)) }
{
    Files {
        setup: one(found, "setup"),
        store: one(found, "store"),
    }
}

/// Returns all values of an argument. Fault: AllocError, if memory runs out.
pub(crate) fn all<'a, 'b>(
    alloc: Global,
    matches: &'b ArgMatches<'a>,
    id: &'static str,
) -> Result<Vec<&'a str>, AllocError>
    ensures { IfOk result (λ v. texts_of v.items ≡ all_in id.now (rows_of (found_of matches.now))) }
{
    match matches.get_raw(id) {
        Some(values) => values.to_vec(alloc),
        None => Ok(Vec::new(alloc)),
    }
}

/// Whether a flag is given.
pub(crate) fn is_set(matches: &ArgMatches<'_>, id: &'static str) -> bool
    ensures { result ≡ is_true (first_of id.now (rows_of (found_of matches.now))) }
{
    match one(matches, id) {
        Some(text) => text == "true",
        None => false,
    }
}

/// Returns the value. Fault: Missing, exactly if there is none.
pub(crate) fn needed(value: Option<&str>) -> Result<&str, WordsFault>
    ensures { MatchResult result
        (λ v. value.entry ≡ Some v)
        (λ fault. (value.entry ≡ None) × (fault ≡ Missing)) }
{
    match value {
        Some(value) => Ok(value),
        None => Err(WordsFault::Missing),
    }
}

/// Returns the setup and the store. Fault: Missing, exactly if either is missing.
pub(crate) fn record_of(files: Files<'_>) -> Result<Record<'_>, WordsFault>
    ensures { MatchResult result
        (λ r. (files.entry.setup ≡ Some r.setup) × (files.entry.store ≡ Some r.store))
        (λ fault. (fault ≡ Missing)
        × (is_some (text_of files.entry.setup) && is_some (text_of files.entry.store) ≡ false)) }
{
    Ok(Record {
        setup: needed(files.setup)?,
        store: needed(files.store)?,
    })
}

/// Returns the value of the only argument of a command, None if it has none. Faults: as for
/// [`read_by`].
pub(crate) fn read_word<'a>(
    alloc: Global,
    name: Name,
    words: &'a [&'a str],
    id: &'static str,
) -> Result<Option<&'a str>, WordsFault>
    ensures { MatchResult result
        (λ r. (fault_of (app_by name) (texts_of words.now) ≡ [])
        × (value (app_by name) (texts_of words.now) id.now ≡ text_of r))
        (IsRefused (app_by name) (texts_of words.now)) }
{
    let matches = read(alloc, name, words)?;
    let own = one(&matches, id);
    drop(matches);
    Ok(own)
}
