//! Lists the arguments that a command needs and the words lack.
#![tactic(auto)]

ghost use Rattle.std.specs.Prelude.{◌≡◌, IfErr, IfOk};
ghost use Rattle.clap.specs.Words.{found_of, rows_of};
ghost use Rattle.command_words.specs.Needs.{IsUnread, missing_values, without_value};
ghost use Rattle.command_words.specs.Words.{texts_of};

use crate::WordsFault;
use crate::reading::{one, read};
use crate::shapes::{find_command, needs_in};
use clap::ArgMatches;
use std::alloc::{AllocError, Global};

/// Returns the ids of the arguments that the command needs and the words lack, for example `setup`
/// or `code`, in the order of the command's usage. The list is empty if the first word names no
/// command. Faults, only if it names one: Refused, if `clap` rejects the words; NoMemory.
pub fn list_missing<'a>(
    alloc: Global,
    words: &'a [&'a str],
) -> Result<Vec<&'static str>, WordsFault>
    ensures missing { IfOk result
        (λ ids. texts_of ids.items ≡ missing_values (texts_of words.now)) }
    ensures fault { IfErr result (IsUnread (texts_of words.now)) }
{
    let Some(name) = find_command(words) else {
        return Ok(Vec::new(alloc));
    };
    let matches = read(alloc, name, words)?;
    let missing = list_without_value(alloc, &matches, needs_in(name, &matches));
    drop(matches);
    Ok(missing?)
}

/// The arguments that have no value.
fn list_without_value(
    alloc: Global,
    matches: &ArgMatches<'_>,
    ids: &'static [&'static str],
) -> Result<Vec<&'static str>, AllocError>
    ensures { IfOk result (λ without. texts_of without.items
        ≡ without_value (rows_of (found_of matches.now)) (texts_of ids.now)) }
{
    let mut without = Vec::new(alloc);
    for id in ids {
        if one(matches, id).is_none() {
            without.push(*id)?;
        }
    }
    Ok(without)
}
