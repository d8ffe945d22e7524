//! The numbers of objects at the nodes of the tree.
ghost use Rattle.std.specs.Prelude.{◌≡◌, ◌<◌, ◌≤◌, ◌+◌, All, IfOk, filter, length, map, not};
ghost use Rattle.std.specs.List.{range_with_len};
ghost use Rattle.nest_core.specs.Museum.{is_container};
ghost use Rattle.reports.specs.LoanLists.{is_open};
ghost use Rattle.page_core.specs.Numbers.{objects_in as objects_in_setup, open_loans};
ghost use Rattle.page_core.specs.TreeRows.{counts_among, objects_at, objects_in};

use codes_core::{LoanCode, NoMemory, ThingKind};
use nest_core::{Setup, ThingNo};
use posting_core::{Ledger, LoanState};
use std::alloc::Global;

/// The number of objects in a setup.
pub(crate) fn objects_of(setup: &Setup) -> u32
    ensures count { result ≡ objects_in_setup setup.now }
    ensures few { result ≤ length setup.now.things }
{
    let mut count = 0;
    for thing in 0..setup.things() {
        if is_object(setup, thing) {
            count += 1;
        }
    }
    count
}

/// The number of loans that are not closed.
pub(crate) fn open_loans(ledger: &Ledger) -> u64
    ensures { result ≡ open_loans ledger.now }
{
    let mut count = 0;
    for i in 0..ledger.loan_count() {
        if is_open(ledger, &ledger.loan_at(i)) {
            count += 1;
        }
    }
    count
}

fn is_open(ledger: &Ledger, loan: &LoanCode) -> bool
    ensures { result ≡ is_open ledger.now loan.now }
{
    !matches!(ledger.loan_state(loan), Some(LoanState::Closed))
}

/// The number of objects at each place, also of those in containers. Fails with `NoMemory`.
pub(crate) fn objects_at_places(alloc: Global, ledger: &Ledger) -> Result<Vec<u64>, NoMemory>
    ensures { IfOk result (λ counts. counts.items
        ≡ map (objects_at ledger.now) (range_with_len 0 (length ledger.now.museum.places))) }
{
    let mut counts = vec![in alloc; 0; ledger.setup().places() as usize]?;
    for thing in 0..ledger.setup().things() {
        count_at_place(ledger, thing, counts.as_mut_slice());
    }
    Ok(counts)
}

/// Counts the next thing at its place, if it is an object.
fn count_at_place(ledger: &Ledger, thing: ThingNo, counts: &mut [u64])
    requires thing { thing < length ledger.now.museum.things }
    requires counts { counts.old ≡ counts_among ledger.now thing }
    ensures { counts.new ≡ counts_among ledger.now (thing + 1) }
{
    if is_object(ledger.setup(), thing) {
        if let Some(place) = ledger.place_of(thing) {
            counts[place as usize] += 1;
        }
    }
}

fn is_object(setup: &Setup, thing: ThingNo) -> bool
    requires { thing < length setup.now.things }
    ensures { result ≡ not (is_container setup.now thing) }
{
    !matches!(setup.kind(thing), ThingKind::Container)
}

/// The number of objects in a container, at any depth. Fails with `NoMemory`.
pub(crate) fn objects_in(
    alloc: Global,
    ledger: &Ledger,
    container: ThingNo,
) -> Result<u64, NoMemory>
    requires { container < length ledger.now.museum.things }
    ensures { IfOk result (λ count. count ≡ objects_in ledger.now container) }
{
    let carried = ledger.carried(alloc, container)?;
    Ok(count_objects(ledger.setup(), carried.as_slice()))
}

/// The number of objects among these things.
fn count_objects(setup: &Setup, things: &[ThingNo]) -> u64
    requires { All (λ x. x < length setup.now.things) things.now }
    ensures { result ≡ length (filter (λ x. not (is_container setup.now x)) things.now) }
{
    let mut count = 0;
    for i in 0..things.len() {
        if is_object(setup, things[i]) {
            count += 1;
        }
    }
    count
}
