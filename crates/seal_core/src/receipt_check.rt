//! Checks the receipt in a file.
ghost use Rattle.std.specs.Prelude.{◌≡◌, ◌++◌, IfErr, IfOk, OnOk, string_bytes};
ghost use Rattle.seal_core.specs.ReceiptChecks.{ChecksReceipt, IsNoReceipt, receipt_check_text};
ghost use Rattle.seal_core.specs.ReceiptChecks.{seal_of_receipt, shown};

use crate::lines::trimmed;
use crate::seal_check::seal_row;
use crate::{Receipt, ReceiptFault, Seal, check_receipt, read_receipt, seal_text};
use codes_core::{NoMemory, add_on_one_line};
use std::alloc::Global;

/// The checked receipt of a file.
#[derive(Drop)]
pub struct CheckedReceipt {
    /// `12 holds`, then the receipt's seal and its entry, each on a line; or `12 broken`.
    pub text: String,
    /// Whether the receipt holds.
    pub holds: bool,
}

/// Checks the receipt in a file. Blanks, carriage returns and line feeds around it don't count.
///
/// Faults: `NotReceipt` if the rest is not the text of a receipt. `NoMemory` can come instead of
/// any result.
pub fn check_receipt_file(alloc: Global, bytes: &[u8]) -> Result<CheckedReceipt, ReceiptFault>
    ensures checked { IfOk result (λ checked.
        ChecksReceipt bytes.now (string_bytes checked.text) checked.holds) }
    ensures fault { IfErr result (IsNoReceipt bytes.now) }
{
    let receipt = read_receipt(alloc, trimmed(bytes))?;
    let holds = check_receipt(&receipt);
    let text = check_text(alloc, &receipt, holds)?;
    Ok(CheckedReceipt { text, holds })
}

/// The lines that report a check of a receipt. Fails with `NoMemory`.
fn check_text(alloc: Global, receipt: &Receipt, holds: bool) -> Result<String, NoMemory>
    ensures { IfOk result (λ text. string_bytes text ≡ receipt_check_text receipt.now holds) }
{
    let mut text = seal_row(alloc, receipt.entry, holds)?;
    if holds {
        add_shown(alloc, &mut text, receipt)?;
    }
    Ok(text)
}

/// Appends the lines with the receipt's seal and its entry. Fails with `NoMemory`.
fn add_shown(alloc: Global, text: &mut String, receipt: &Receipt) -> Result<(), NoMemory>
    ensures { OnOk result (string_bytes text.new ≡ string_bytes text.old ++ shown receipt.now) }
{
    let seal = seal_text(alloc, &seal_of(receipt))?;
    text.push_str("seal ")?;
    text.push_str(&seal)?;
    text.push_str("\nentry ")?;
    add_on_one_line(text, &receipt.line)?;
    text.push_str("\n")?;
    Ok(())
}

/// The seal that a receipt belongs to.
fn seal_of(receipt: &Receipt) -> Seal
    ensures { result ≡ seal_of_receipt receipt.now }
{
    Seal {
        entries: receipt.size,
        head: receipt.head,
    }
}
