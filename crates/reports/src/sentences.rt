//! One sentence of a report, as a text without a line feed.
ghost use Rattle.std.specs.Prelude.{◌≡◌, IfOk, map, string_bytes};
ghost use Rattle.reports.specs.Causes.{sentence};
ghost use Rattle.reports.specs.Cells.{joined_words};
ghost use Rattle.reports.specs.Things.{where_row};

use crate::Form;
use crate::line::joined_words;
use crate::reports::cause::sentence;
use crate::reports::whereabouts::where_row;
use codes_core::{NoMemory, ThingCode};
use posting_core::{Ledger, Message, Verdict};
use std::alloc::Global;

/// Returns where the thing with the code is, as the report `where` says it: `2001.4.1 at S2 in C2`.
/// Fails with `NoMemory`.
pub fn where_text(alloc: Global, ledger: &Ledger, code: ThingCode) -> Result<String, NoMemory>
    ensures { IfOk result (λ text. string_bytes text
        ≡ joined_words (where_row ledger.now Form.Plain code)) }
{
    let words = where_row(alloc, ledger, Form::Plain, code)?;
    joined_words(alloc, words.as_slice())
}

/// Returns the sentence on why a message gets its verdict, as the report `why` says it, from the
/// record before the message: `1987.12.3 in C2 is not on LO2024.2`. Empty for an applied message
/// that puts nothing. Fails with `NoMemory`.
pub fn cause_text(
    alloc: Global,
    ledger: &Ledger,
    message: &Message,
    verdict: Verdict,
) -> Result<String, NoMemory>
    ensures { IfOk result (λ text. string_bytes text
        ≡ joined_words (sentence ledger.now message.now verdict)) }
{
    let words = sentence(alloc, ledger, message, verdict)?;
    joined_words(alloc, words.as_slice())
}
