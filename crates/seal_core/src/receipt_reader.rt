//! Reads receipts from JSON.
ghost use Rattle.std.specs.Prelude.{◌≡◌, IfOk, MatchResult};
ghost use Rattle.std.specs.Option.{IsSomeAnd};
ghost use Rattle.borrowed_json.specs.View.{view};
ghost use Rattle.seal_core.specs.declared.receipt.Receipt as receipts;
ghost use Rattle.seal_core.specs.ReceiptReadings.{IsSame, IsWhole};
ghost use Rattle.seal_core.specs.ReceiptTexts.{receipt_json, receipt_text};

use crate::receipt::Receipt;
use crate::receipt_fault::ReceiptFault;
use crate::receipt_fields::{count_at, head_at, path_at, text_at};
use crate::receipt_writer::receipt_text;
use borrowed_json::{Scratch, TextFault, Value};
use codes_core::NoMemory;
use std::alloc::Global;

/// Reads a receipt that [`receipt_text`](crate::receipt_text) wrote, without a line feed. Rejects
/// any other text, even the same JSON with other spaces.
///
/// Faults: `NotReceipt`. `NoMemory` can come instead of any result.
pub fn read_receipt(alloc: Global, bytes: &[u8]) -> Result<Receipt, ReceiptFault>
    ensures reads { IfOk result (λ receipt. receipt_text receipt ≡ bytes.now) }
    ensures accepts { (receipt : receipts.Receipt) → IsWhole receipt
        → receipt_text receipt ≡ bytes.now
        → MatchResult result (λ found. IsSame found receipt)
        (λ fault. fault ≡ ReceiptFault.NoMemory) }
{
    let mut scratch = Scratch::new(alloc);
    match Value::from_slice(alloc, bytes, &mut scratch) {
        Ok(value) => exact_receipt(alloc, bytes, &value),
        Err(TextFault::NotJson) => Err(ReceiptFault::NotReceipt),
        Err(TextFault::NoMemory) => Err(ReceiptFault::NoMemory),
    }
}

/// The receipt that a JSON value has, if these bytes are its text.
fn exact_receipt(alloc: Global, bytes: &[u8], value: &Value) -> Result<Receipt, ReceiptFault>
    ensures reads { IfOk result (λ receipt. receipt_text receipt ≡ bytes.now) }
    ensures accepts { (receipt : receipts.Receipt) → IsWhole receipt
        → view value.now ≡ receipt_json receipt → receipt_text receipt ≡ bytes.now
        → MatchResult result (λ found. IsSame found receipt)
        (λ fault. fault ≡ ReceiptFault.NoMemory) }
{
    let Some(receipt) = receipt_of(alloc, value)? else {
        return Err(ReceiptFault::NotReceipt);
    };
    let text = receipt_text(alloc, &receipt)?;
    if text.as_bytes() == bytes {
        Ok(receipt)
    } else {
        Err(ReceiptFault::NotReceipt)
    }
}

/// The receipt that a JSON value has. `None` if a field lacks or is not of its kind. Fails with
/// `NoMemory`.
fn receipt_of(alloc: Global, value: &Value) -> Result<Option<Receipt>, NoMemory>
    ensures { (receipt : receipts.Receipt) → IsWhole receipt
        → view value.now ≡ receipt_json receipt
        → IfOk result (λ found. IsSomeAnd found (λ found. IsSame found receipt)) }
{
    let Some(entry) = count_at(value, "entry") else {
        return Ok(None);
    };
    let Some(head) = head_at(value, "head") else {
        return Ok(None);
    };
    let Some(line) = text_at(value, "line") else {
        return Ok(None);
    };
    let Some(path) = path_at(alloc, value)? else {
        return Ok(None);
    };
    let Some(size) = count_at(value, "size") else {
        return Ok(None);
    };
    let line = String::from_str(alloc, line)?;
    Ok(Some(Receipt {
        entry,
        line,
        size,
        head,
        path,
    }))
}
