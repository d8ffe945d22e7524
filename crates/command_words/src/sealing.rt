//! Reads the words of the commands that seal a record: `seal` and `receipt`.
#![tactic(auto, unfolding(crate::specs::Tables::app_by))]

ghost use Rattle.std.specs.Prelude.{Some, codes};
ghost use Rattle.command_words.specs.Commands as commands;
ghost use Rattle.command_words.specs.Words.{Chooses, IsNamed, texts_of};

use crate::reading::{boxed, files_of, one, read, record_of};
use crate::shapes::Name;
use crate::{Chosen, ReceiptWords, SealWords, WordsFault};
use std::alloc::Global;

pub(crate) fn seal<'a>(alloc: Global, words: &'a [&'a str]) -> Result<Box<Chosen<'a>>, WordsFault>
    requires { IsNamed (texts_of words.now) (codes "seal") }
    ensures { Chooses (Some commands.seal) (texts_of words.now) result }
{
    let matches = read(alloc, Name::Seal, words)?;
    let files = files_of(&matches);
    let upto = one(&matches, "upto");
    let check = one(&matches, "check");
    drop(matches);
    let record = record_of(files)?;
    boxed(
        alloc,
        Chosen::Seal(SealWords {
            setup: record.setup,
            store: record.store,
            upto,
            check,
        }),
    )
}

pub(crate) fn receipt<'a>(
    alloc: Global,
    words: &'a [&'a str],
) -> Result<Box<Chosen<'a>>, WordsFault>
    requires { IsNamed (texts_of words.now) (codes "receipt") }
    ensures { Chooses (Some commands.receipt) (texts_of words.now) result }
{
    let matches = read(alloc, Name::Receipt, words)?;
    let files = files_of(&matches);
    let entry = one(&matches, "entry");
    let upto = one(&matches, "upto");
    let check = one(&matches, "check");
    drop(matches);
    if let Some(file) = check {
        return boxed(alloc, Chosen::CheckReceipt { file, entry, upto });
    }
    match (files.setup, files.store, entry) {
        (Some(setup), Some(store), Some(entry)) => boxed(
            alloc,
            Chosen::Receipt(ReceiptWords {
                setup,
                store,
                entry,
                upto,
            }),
        ),
        _ => Err(WordsFault::Missing),
    }
}
