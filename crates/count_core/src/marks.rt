//! Marks rows Again if an earlier row names the same thing.
ghost use Rattle.std.specs.Prelude.{◌≡◌, IfOk, length, map, Some};
ghost use Rattle.std.specs.List.{range_with_len};
ghost use Rattle.count_core.specs.Counts.{look_at, answers, named};
ghost use Rattle.count_core.specs.Marks.{AreNames, flagged, with_flag, mark};

use crate::lookup::{Looked, looked_in};
use crate::{CountAnswer, CountRow};
use codes_core::NoMemory;
use posting_core::Ledger;
use std::alloc::Global;

/// The answer to each row, and for each thing whether a row names it.
#[derive(Drop)]
pub(crate) struct MarkedRows {
    pub answers: Vec<CountAnswer>,
    pub named: Vec<bool>,
}

/// Goes through the rows in order. A row becomes Again if an earlier one names its thing.
pub(crate) fn marked(
    alloc: Global,
    ledger: &Ledger,
    rows: &[CountRow],
    looked: &[Looked],
) -> Result<MarkedRows, NoMemory>
    requires { looked.now ≡ map (look_at ledger.now rows.now) (range_with_len 0 (length rows.now)) }
    ensures answers { IfOk result (λ m. m.answers.items ≡ answers ledger.now rows.now) }
    ensures named { IfOk result (λ m.
        AreNames (named ledger.now.museum)
        (length ledger.now.museum.things) rows.now m.named.items) }
{
    let mut flags = vec![in alloc; false; ledger.setup().things() as usize]?;
    let mut done = Vec::with_capacity(alloc, rows.len())?;
    for i in 0..rows.len() {
        let first = looked_in(looked, i);
        let answer = marked_one(&mut flags, first);
        done.push(answer)?;
    }
    Ok(MarkedRows {
        answers: done,
        named: flags,
    })
}

/// The answer to a row, by the flags of the things that earlier rows name. Flags the row's thing.
fn marked_one(flags: &mut Vec<bool>, first: Looked) -> CountAnswer
    ensures answer { result ≡ mark (flagged flags.old.items first.thing) first.answer }
    ensures flags { flags.new.items ≡ with_flag flags.old.items first.thing }
{
    match first.thing {
        None => first.answer,
        Some(thing) => mark(set_flag(flags, thing), first.answer),
    }
}

/// Sets the flag of this number, if there is one, and returns whether it was set before.
pub(crate) fn set_flag(flags: &mut Vec<bool>, number: u32) -> bool
    ensures before { result ≡ flagged flags.old.items (Some number) }
    ensures flags { flags.new.items ≡ with_flag flags.old.items (Some number) }
{
    let i = number as usize;
    if i >= flags.len() {
        return false;
    }
    let before = flags[i];
    flags[i] = true;
    before
}

fn mark(before: bool, answer: CountAnswer) -> CountAnswer
    ensures { result ≡ mark before answer }
{
    if !before {
        return answer;
    }
    match answer {
        CountAnswer::UnknownPlace => CountAnswer::UnknownPlace,
        _ => CountAnswer::Again,
    }
}
