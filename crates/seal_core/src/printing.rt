//! Prints seals and receipts.
ghost use Rattle.std.specs.Prelude.{◌≡◌, ◌<◌, ◌++◌, ◌↔◌, IfOk, codes, length, string_bytes};
ghost use Rattle.seal_core.specs.Receipts.{IsSealed};
ghost use Rattle.seal_core.specs.Seals.{sealed_count};
ghost use Rattle.seal_core.specs.Printing.{IsReceiptLine, seal_line};

use crate::{SealFault, make_receipt, make_seal, receipt_text, seal_text};
use codes_core::NoMemory;
use posting_core::{EntryNo, Ledger};
use std::alloc::Global;
use std::thread::Threads;

/// Returns the line of the seal of the first `upto` entries, or of all entries, with its line feed.
///
/// Faults: `NotPosted` if fewer entries are posted, otherwise `NoMemory`.
pub fn seal_line(
    rt: &(impl Threads + Sync),
    alloc: Global,
    ledger: &Ledger,
    upto: Option<EntryNo>,
) -> Result<String, SealFault>
    ensures line { IfOk result (λ text. string_bytes text ≡ seal_line ledger.now upto) }
    ensures not_posted { (result ≡ Err SealFault.NotPosted)
        ↔ (length ledger.now.posted < sealed_count ledger.now upto) }
{
    let seal = make_seal(rt, alloc, ledger, upto)?;
    Ok(ended(seal_text(alloc, &seal)?)?)
}

/// Returns the line of the receipt of an entry under the seal of the first `upto` entries, or of
/// all entries, with its line feed.
///
/// Faults: `NotPosted` if fewer than `upto` entries are posted, or if there is no entry `entry`
/// among them; otherwise `NoMemory`.
pub fn receipt_line(
    alloc: Global,
    ledger: &Ledger,
    entry: EntryNo,
    upto: Option<EntryNo>,
) -> Result<String, SealFault>
    ensures line { IfOk result (λ text. IsReceiptLine ledger.now entry upto (string_bytes text)) }
    ensures not_posted { (result ≡ Err SealFault.NotPosted)
        ↔ ¬ IsSealed ledger.now entry (sealed_count ledger.now upto) }
{
    let receipt = make_receipt(alloc, ledger, entry, upto)?;
    Ok(ended(receipt_text(alloc, &receipt)?)?)
}

/// The text with a line feed at its end. Fails with `NoMemory`.
fn ended(mut text: String) -> Result<String, NoMemory>
    ensures { IfOk result (λ line. string_bytes line ≡ string_bytes text ++ codes "\n") }
{
    text.push_str("\n")?;
    Ok(text)
}
