//! Reports on the ledger: the overdue loans, the own objects away from their normal place, and the
//! things in a place.
ghost use Rattle.std.specs.Prelude.{◌≡◌, ◌<◌, All, IfOk, length, slice_get, Some, false};
ghost use Rattle.std.specs.List.{list_any};
ghost use Rattle.std.specs.Option.{option_map_or};
ghost use Rattle.posting_core.specs.Book.{loans_in};
ghost use Rattle.count_core.specs.Reports.{overdue, is_overdue, is_owed, is_out_still, away};
ghost use Rattle.count_core.specs.Reports.{is_away, in_place, IsAwayIn};

use crate::AwayObject;
use crate::lookup::is_in;
use codes_core::{Day, LoanCode, NoMemory, PlaceCode, ThingKind};
use nest_core::ThingNo;
use posting_core::{Ledger, LineStage};
use std::alloc::Global;

/// Returns the overdue loans, in the order of their agreements: an object is still owed, and the
/// last day, as extended, is before `day`. Fault: NoMemory.
pub fn overdue(alloc: Global, ledger: &Ledger, day: Day) -> Result<Vec<LoanCode>, NoMemory>
    ensures { IfOk result (λ loans. loans.items ≡ overdue ledger.now day) }
{
    let mut loans = Vec::new(alloc);
    for i in 0..ledger.loan_count() {
        let loan = ledger.loan_at(i);
        if is_overdue(ledger, i, &loan, day) {
            loans.push(loan)?;
        }
    }
    Ok(loans)
}

/// Whether the loan, which is number i in the order of agreements, is overdue.
fn is_overdue(ledger: &Ledger, i: usize, loan: &LoanCode, day: Day) -> bool
    requires { slice_get (loans_in ledger.now) i ≡ Some loan.now }
    ensures { result ≡ is_overdue ledger.now day loan.now }
{
    let Some(last) = ledger.last_day(loan) else {
        return false;
    };
    last < day && has_owed(ledger, loan, ledger.objects(i))
}

/// Whether one of the objects is still owed under the loan.
fn has_owed(ledger: &Ledger, loan: &LoanCode, objects: &[ThingNo]) -> bool
    ensures { result ≡ list_any (is_owed ledger.now loan.now) objects.now }
{
    for i in 0..objects.len() {
        if is_owed(ledger.line(loan, objects[i])) {
            return true;
        }
    }
    false
}

/// Whether the object of this loan line has crossed under its loan, and hasn't gone back.
fn is_owed(line: Option<LineStage>) -> bool
    ensures { result ≡ option_map_or is_out_still line false }
{
    matches!(line, Some(LineStage::Away | LineStage::Here))
}

/// Returns the own objects that aren't exactly at their normal place, in ascending order, each with
/// its place. Objects that were never placed are among them. Fault: NoMemory.
pub fn away(alloc: Global, ledger: &Ledger) -> Result<Vec<AwayObject>, NoMemory>
    ensures objects { IfOk result (λ objects. objects.items ≡ away ledger.now) }
    ensures within { IfOk result (λ objects. All (IsAwayIn ledger.now.museum) objects.items) }
{
    let mut objects = Vec::new(alloc);
    for object in 0..ledger.setup().things() {
        if is_away(ledger, object) {
            let place = ledger.place_of(object);
            objects.push(AwayObject { object, place })?;
        }
    }
    Ok(objects)
}

fn is_away(ledger: &Ledger, thing: ThingNo) -> bool
    requires { thing < length ledger.now.museum.things }
    ensures { result ≡ is_away ledger.now thing }
{
    let setup = ledger.setup();
    matches!(setup.kind(thing), ThingKind::Own) && ledger.place_of(thing) != setup.normal(thing)
}

/// Returns the things whose place is the one with this code, or lies in it, in ascending order.
/// Fault: NoMemory.
pub fn in_place(alloc: Global, ledger: &Ledger, place: &PlaceCode) -> Result<Vec<ThingNo>, NoMemory>
    ensures things { IfOk result (λ things. things.items ≡ in_place ledger.now place.now) }
    ensures within { IfOk result
        (λ things. All (λ x. x < length ledger.now.museum.things) things.items) }
{
    let mut things = Vec::new(alloc);
    for thing in 0..ledger.setup().things() {
        if is_in(ledger, thing, place) {
            things.push(thing)?;
        }
    }
    Ok(things)
}
