//! Checks a count list whose containers count as sealed.
ghost use Rattle.std.specs.Prelude.{◌≡◌, ◌<◌, All, IfOk, Some, filter, length, not};
ghost use Rattle.std.specs.List.{list_any};
ghost use Rattle.count_core.specs.Counts.{answers, IsAnswerIn, IsMissingIn};
ghost use Rattle.count_core.specs.Marks.{AreNames, flagged, with_flag};
ghost use Rattle.count_core.specs.Sealed.{is_in_flagged, missing_sealed, seen_in_place};

use crate::checking::check;
use crate::lookup::look;
use crate::marks::set_flag;
use crate::{CountAnswer, CountReport, CountRow, MissingObject};
use codes_core::NoMemory;
use nest_core::ThingNo;
use posting_core::Ledger;
use std::alloc::Global;
use std::thread::Threads;

/// Like [`check`], but a container that a row saw where the record has it vouches for the objects
/// in it, at any depth: they aren't missing. Fault: NoMemory.
pub fn check_sealed(
    rt: &(impl Threads + Sync),
    alloc: Global,
    ledger: &Ledger,
    rows: &[CountRow],
) -> Result<CountReport, NoMemory>
    ensures answers { IfOk result (λ report. report.answers.items ≡ answers ledger.now rows.now) }
    ensures missing { IfOk result
        (λ report. report.missing.items ≡ missing_sealed ledger.now rows.now) }
    ensures known { IfOk result
        (λ report. All (IsAnswerIn ledger.now.museum) report.answers.items) }
    ensures within { IfOk result
        (λ report. All (IsMissingIn ledger.now.museum) report.missing.items) }
{
    let CountReport { answers, missing } = check(rt, alloc, ledger, rows)?;
    let seen = seen_in_place(alloc, ledger, rows)?;
    let missing = without_vouched_for(alloc, ledger, &seen, &missing)?;
    Ok(CountReport { answers, missing })
}

/// For each thing, whether a row saw it where the record has it.
fn seen_in_place(alloc: Global, ledger: &Ledger, rows: &[CountRow]) -> Result<Vec<bool>, NoMemory>
    ensures { IfOk result (λ flags. AreNames (seen_in_place ledger.now)
        (length ledger.now.museum.things) rows.now flags.items) }
{
    let mut flags = vec![in alloc; false; ledger.setup().things() as usize]?;
    for i in 0..rows.len() {
        flag_seen(&mut flags, ledger, &rows[i]);
    }
    Ok(flags)
}

/// Flags the row's thing, if the row saw it where the record has it.
fn flag_seen(flags: &mut Vec<bool>, ledger: &Ledger, row: &CountRow)
    ensures { flags.new.items ≡ with_flag flags.old.items (seen_in_place ledger.now row.now) }
{
    if let Some(thing) = thing_seen(ledger, row) {
        set_flag(flags, thing);
    }
}

fn thing_seen(ledger: &Ledger, row: &CountRow) -> Option<ThingNo>
    ensures { result ≡ seen_in_place ledger.now row.now }
{
    let looked = look(ledger, row);
    match looked.answer {
        CountAnswer::Found => looked.thing,
        _ => None,
    }
}

/// Leaves out each object that is in a container with a flag.
fn without_vouched_for(
    alloc: Global,
    ledger: &Ledger,
    seen: &[bool],
    missing: &[MissingObject],
) -> Result<Vec<MissingObject>, NoMemory>
    requires { All (IsMissingIn ledger.now.museum) missing.now }
    ensures { IfOk result (λ v. v.items
        ≡ filter (λ m. not (is_in_flagged ledger.now seen.now m.object)) missing.now) }
{
    let mut left = Vec::new(alloc);
    for i in 0..missing.len() {
        let missed = missing[i];
        if !is_in_flagged(alloc, ledger, seen, missed.object)? {
            left.push(missed)?;
        }
    }
    Ok(left)
}

/// Whether a container that the thing is in, at any depth, has a flag.
fn is_in_flagged(
    alloc: Global,
    ledger: &Ledger,
    flags: &[bool],
    thing: ThingNo,
) -> Result<bool, NoMemory>
    requires { thing < length ledger.now.museum.things }
    ensures { IfOk result (λ found. found ≡ is_in_flagged ledger.now flags.now thing) }
{
    let chain = ledger.chain(alloc, thing)?;
    Ok(has_flag(flags, chain.as_slice()))
}

/// Whether one of these things has a flag.
fn has_flag(flags: &[bool], things: &[ThingNo]) -> bool
    ensures { result ≡ list_any (λ x. flagged flags.now (Some x)) things.now }
{
    for i in 0..things.len() {
        if flag_of(flags, things[i]) {
            return true;
        }
    }
    false
}

fn flag_of(flags: &[bool], thing: ThingNo) -> bool
    ensures { result ≡ flagged flags.now (Some thing) }
{
    let i = thing as usize;
    i < flags.len() && flags[i]
}
