//! The `help:` lines about arguments, after `fault words`.

use crate::advice::Advice;
use command_words::needs::list_missing;
use std::alloc::{AllocError, Global};

/// Returns the advice on words that name no command, or that lack arguments of their command. None
/// if there are no words.
pub fn on_missing(alloc: Global, words: &[&str]) -> Advice {
    let command = words.first()?;
    let missing = list_missing(alloc, words).ok()?;
    if missing.is_empty() {
        return format!(in alloc; "name a command: 'pairsalder help' lists them").ok();
    }
    let mut text = format!(in alloc; "{command} needs ").ok()?;
    add_needs(&mut text, missing.as_slice()).ok()?;
    Some(text)
}

/// Returns the advice on an argument or a variable that is not UTF-8.
pub fn on_encoding(alloc: Global, what: &str) -> Advice {
    format!(in alloc; "{what} is not UTF-8 text").ok()
}

/// Appends the arguments: `--setup, --store and CODE`.
fn add_needs(text: &mut String, needs: &[&str]) -> Result<(), AllocError> {
    for at in 0..needs.len() {
        if at > 0 {
            text.push_str(if at + 1 == needs.len() { " and " } else { ", " })?;
        }
        text.push_str(label(needs[at]))?;
    }
    Ok(())
}

/// The argument as the usage shows it.
fn label(id: &str) -> &'static str {
    match id {
        "setup" => "--setup",
        "store" => "--store",
        "on" => "--on",
        "by" => "--by",
        "station" => "--station",
        "to" => "--to",
        "day" => "--day",
        "table" => "TABLE",
        "file" => "FILE",
        "list" => "LIST",
        "place" => "PLACE",
        "name" => "NAME",
        "entry" => "ENTRY",
        _ => "CODE",
    }
}
