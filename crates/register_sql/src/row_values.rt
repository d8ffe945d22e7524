//! Reads spots, loan lines and last days from their rows.
ghost use Rattle.std.specs.Prelude.{◌≡◌, ◌≢◌, ◌<◌, ◌^◌, ℕ, ℤ, pos, List, length, IfSome, IfNone};
ghost use Rattle.sqlite.specs.Order.{column};
ghost use Rattle.sqlite.specs.declared.types.Value.TheVariants.{Int, Text};
ghost use Rattle.posting_core.specs.StageNumbers.{stage_number};
ghost use Rattle.register_store.specs.StoredRows.{spot_row, line_row};
ghost use Rattle.register_sql.specs.Fits.{IsDay, IsLoan, FitsSpot, FitsLine, FitsTerm, IsNoSpot};
ghost use Rattle.register_sql.specs.Fits.{IsNoLine, IsNoTerm};
ghost use Rattle.register_sql.specs.Rows.{spot_cells, line_cells, term_cells};

use codes_core::{Day, LoanCode};
use posting_core::{LineStage, NewSpot, Spot};
use register_store::LineKey;
use sqlite::Row;
use sqlite_value::value::ValueRef;

/// The integer in a cell; None if it holds something else.
fn int_at(row: &Row, at: usize) -> Option<i64>
    requires { at < length row.now }
    ensures read { IfSome result (λ n. column row.now at ≡ Int n) }
    ensures none { IfNone result ((n : ℤ) → column row.now at ≢ Int n) }
{
    match row.get_ref(at) {
        Ok(ValueRef::Int(found)) => Some(found),
        _ => None,
    }
}

/// The unsigned 32-bit number in a cell.
fn u32_at(row: &Row, at: usize) -> Option<u32>
    requires { at < length row.now }
    ensures read { IfSome result (λ n. column row.now at ≡ Int (pos n)) }
    ensures none { IfNone result ((n : ℕ) → n < 2 ^ 32 → column row.now at ≢ Int (pos n)) }
{
    u32::try_from(int_at(row, at)?).ok()
}

/// The day in a cell.
fn day_at(row: &Row, at: usize) -> Option<Day>
    requires { at < length row.now }
    ensures read { IfSome result (λ day. column row.now at ≡ Int day) }
    ensures none { IfNone result ((day : ℤ) → IsDay day → column row.now at ≢ Int day) }
{
    Day::numbered(int_at(row, at)?)
}

/// The stage in a cell.
fn stage_at(row: &Row, at: usize) -> Option<LineStage>
    requires { at < length row.now }
    ensures read { IfSome result (λ stage. column row.now at ≡ Int (pos (stage_number stage))) }
    ensures none { IfNone result
        ((stage : LineStage) → column row.now at ≢ Int (pos (stage_number stage))) }
{
    LineStage::numbered(u32_at(row, at)?)
}

/// The loan's code in a cell.
fn loan_at(row: &Row, at: usize) -> Option<LoanCode>
    requires { at < length row.now }
    ensures read { IfSome result (λ loan. column row.now at ≡ Text loan) }
    ensures none { IfNone result ((loan : List ℕ) → IsLoan loan → column row.now at ≢ Text loan) }
{
    match row.get_ref(at) {
        Ok(ValueRef::Text(text)) => LoanCode::parse(text).ok(),
        _ => None,
    }
}

/// Reads the row of a spot; None if it is that of no possible spot.
pub(crate) fn spot_of(row: &Row) -> Option<NewSpot>
    ensures read { IfSome result (λ spot. spot_cells (spot_row spot) ≡ row.now) }
    ensures fits { IfSome result FitsSpot }
    ensures none { IfNone result (IsNoSpot row.now) }
{
    if row.column_count() != 5 {
        return None;
    }
    let entry = u32_at(row, 2)?;
    let place = u32_at(row, 3)?;
    let day = day_at(row, 4)?;
    Some(NewSpot {
        thing: u32_at(row, 0)?,
        k: u32_at(row, 1)?,
        spot: Spot { entry, place, day },
    })
}

/// Reads the row of a loan line; None if it is that of no possible loan line.
pub(crate) fn line_of(row: &Row) -> Option<(LineKey, LineStage)>
    ensures read { IfSome result
        (λ e. line_cells (line_row (record { loan = e.0.loan; object = e.0.object; stage = e.1 }))
        ≡ row.now) }
    ensures fits { IfSome result
        (λ e. FitsLine (record { loan = e.0.loan; object = e.0.object; stage = e.1 })) }
    ensures none { IfNone result (IsNoLine row.now) }
{
    if row.column_count() != 3 {
        return None;
    }
    let loan = loan_at(row, 0)?;
    let object = u32_at(row, 1)?;
    let stage = stage_at(row, 2)?;
    Some((LineKey { loan, object }, stage))
}

/// Reads the row of a loan and its last day; None if it is that of no possible last day.
pub(crate) fn term_of(row: &Row) -> Option<(LoanCode, Day)>
    ensures read { IfSome result (λ e. term_cells (record { loan = e.0; day = e.1 }) ≡ row.now) }
    ensures fits { IfSome result (λ e. FitsTerm (record { loan = e.0; day = e.1 })) }
    ensures none { IfNone result (IsNoTerm row.now) }
{
    if row.column_count() != 2 {
        return None;
    }
    let loan = loan_at(row, 0)?;
    let day = day_at(row, 1)?;
    Some((loan, day))
}
