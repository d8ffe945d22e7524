//! Writes receipts as JSON.
ghost use Rattle.std.specs.Prelude.{◌≡◌, IfOk, string_bytes};
ghost use Rattle.register_store.specs.MessageTokens.{Appends};
ghost use Rattle.seal_core.specs.ReceiptTexts.{hash_tokens, head_tokens, last_tokens};
ghost use Rattle.seal_core.specs.ReceiptTexts.{receipt_text, receipt_tokens};

use crate::receipt::Receipt;
use codes_core::NoMemory;
use json::Writer;
use std::alloc::Global;

/// The bytes that are reserved for a text. Those of a small record fit.
const ROOM: usize = 1024;

/// Returns a receipt as one JSON object on one line, without a line feed. Its keys are in
/// alphabetical order: `entry`, `head`, `line`, `path`, `size`. A hash is 64 hexadecimal digits in
/// lower case. Fails with `NoMemory`.
pub fn receipt_text(alloc: Global, receipt: &Receipt) -> Result<String, NoMemory>
    ensures { IfOk result (λ text. string_bytes text ≡ receipt_text receipt.now) }
{
    let mut out = Writer::new(Vec::with_capacity(alloc, ROOM)?);
    write_receipt(alloc, &mut out, receipt)?;
    Ok(String::from_utf8(out.into_inner()).unwrap())
}

/// Writes the tokens of a receipt. Fails with `NoMemory`.
fn write_receipt(alloc: Global, out: &mut Writer, receipt: &Receipt) -> Result<(), NoMemory>
    ensures { Appends result out.old out.new (receipt_tokens receipt.now) }
{
    write_head(alloc, out, receipt)?;
    write_hashes(alloc, out, &receipt.path)?;
    write_last(out, receipt)
}

/// Writes the tokens before the path. Fails with `NoMemory`.
fn write_head(alloc: Global, out: &mut Writer, receipt: &Receipt) -> Result<(), NoMemory>
    ensures { Appends result out.old out.new (head_tokens receipt.now) }
{
    let head = hex::encode(alloc, receipt.head)?;
    out.begin_object()?;
    out.key("entry")?;
    out.u64(u64::from(receipt.entry))?;
    out.key("head")?;
    out.string(head.as_str())?;
    out.key("line")?;
    out.string(receipt.line.as_str())?;
    out.key("path")?;
    Ok(out.begin_array()?)
}

/// Writes hashes as strings. Fails with `NoMemory`.
fn write_hashes(alloc: Global, out: &mut Writer, hashes: &[[u8; 32]]) -> Result<(), NoMemory>
    ensures { Appends result out.old out.new (hash_tokens hashes.now) }
{
    for hash in hashes {
        let digits = hex::encode(alloc, *hash)?;
        out.string(digits.as_str())?;
    }
    Ok(())
}

/// Writes the tokens after the path. Fails with `NoMemory`.
fn write_last(out: &mut Writer, receipt: &Receipt) -> Result<(), NoMemory>
    ensures { Appends result out.old out.new (last_tokens receipt.now) }
{
    out.end_array()?;
    out.key("size")?;
    out.u64(u64::from(receipt.size))?;
    Ok(out.end_object()?)
}
