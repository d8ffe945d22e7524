//! Reads the environment variables that replace a missing `--setup` or `--store`.

use crate::fault::CommandFault;
use crate::usage::on_encoding;
use command_words::completion::{FileOption, lacks};
use std::env;
use std::env::VarError;

/// The name of the option's variable.
fn name_of(option: FileOption) -> &'static str {
    match option {
        FileOption::Setup => "PAIRSALDER_SETUP",
        FileOption::Store => "PAIRSALDER_STORE",
    }
}

/// Returns the value of the option's variable, None if it is not set. The variable is read only if
/// the command has the option and the words lack it, so it cannot make any other command fail.
/// Faults: Words, if the value is not UTF-8; NoMemory.
pub fn value_of(
    rt: &HostRuntime,
    words: &[&str],
    option: FileOption,
) -> Result<Option<String>, CommandFault> {
    if !lacks(words, option) {
        return Ok(None);
    }
    let name = name_of(option);
    match env::var(rt, name) {
        Ok(value) => Ok(Some(value)),
        Err(VarError::NotPresent) => Ok(None),
        Err(VarError::NotUnicode) => Err(CommandFault::Words(on_encoding(rt.alloc(), name))),
        Err(VarError::OutOfMemory) => Err(CommandFault::NoMemory),
    }
}
