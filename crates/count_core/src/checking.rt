//! Checks a count list against the ledger, with workers.
ghost use Rattle.std.specs.Prelude.{◌≡◌, ◌<◌, All, IfOk, length, map};
ghost use Rattle.std.specs.List.{range_with_len};
ghost use Rattle.count_core.specs.Counts.{look_at, answers, missing, IsAnswerIn, IsMissingIn};

use crate::lookup::{Looked, look};
use crate::marks::marked;
use crate::missing::missing;
use crate::{CountReport, CountRow};
use codes_core::NoMemory;
use posting_core::Ledger;
use rayon::prelude::*;
use std::alloc::{AllocError, Global};
use std::thread::Threads;

/// Called for each row of a count list, numbered from 1, by the worker that looks it up.
pub trait Probe {
    /// A worker looks up this row.
    fn seen(&self, row: usize);
}

/// A probe that does nothing.
struct NoProbe;

impl Probe for NoProbe {
    fn seen(&self, _row: usize) {}
}

/// Checks a count list. Each row gets the first answer that applies, in the order of
/// [`CountAnswer`](crate::CountAnswer). Containers are never missing. The report is the same for
/// any number of workers. Fault: NoMemory.
pub fn check(
    rt: &(impl Threads + Sync),
    alloc: Global,
    ledger: &Ledger,
    rows: &[CountRow],
) -> Result<CountReport, NoMemory>
    ensures answers { IfOk result (λ report. report.answers.items ≡ answers ledger.now rows.now) }
    ensures missing { IfOk result (λ report. report.missing.items ≡ missing ledger.now rows.now) }
    ensures known { IfOk result
        (λ report. All (IsAnswerIn ledger.now.museum) report.answers.items) }
    ensures within { IfOk result
        (λ report. All (IsMissingIn ledger.now.museum) report.missing.items) }
{
    check_by(rt, alloc, ledger, rows, &NoProbe)
}

/// Like [`check`], and the workers call the probe.
pub fn check_by<P: Probe + Sync>(
    rt: &(impl Threads + Sync),
    alloc: Global,
    ledger: &Ledger,
    rows: &[CountRow],
    probe: &P,
) -> Result<CountReport, NoMemory>
    ensures answers { IfOk result (λ report. report.answers.items ≡ answers ledger.now rows.now) }
    ensures missing { IfOk result (λ report. report.missing.items ≡ missing ledger.now rows.now) }
    ensures known { IfOk result
        (λ report. All (IsAnswerIn ledger.now.museum) report.answers.items) }
    ensures within { IfOk result
        (λ report. All (IsMissingIn ledger.now.museum) report.missing.items) }
{
    ledger.is_lawful();
    let looked = looked(rt, alloc, ledger, rows, probe)?;
    let marked = marked(alloc, ledger, rows, &looked)?;
    let missing = missing(alloc, ledger, rows, &looked, &marked.named)?;
    Ok(CountReport {
        answers: marked.answers,
        missing,
    })
}

/// Looks up each row on its own, with workers.
fn looked<P: Probe + Sync>(
    rt: &(impl Threads + Sync),
    alloc: Global,
    ledger: &Ledger,
    rows: &[CountRow],
    probe: &P,
) -> Result<Vec<Looked>, AllocError>
    ensures { IfOk result (λ v. v.items
        ≡ map (look_at ledger.now rows.now) (range_with_len 0 (length rows.now))) }
{
    (0..rows.len())
        .into_par_iter()
        .map(
            |i: usize| -> Looked
                requires { i < length rows.now }
                ensures { result ≡ look_at ledger.entry.now rows.entry.now i }
            {
                probe.seen(i + 1);
                look(ledger, &rows[i])
            },
        )
        .collect(rt, alloc)
}
