//! The seal of a record.
ghost use Rattle.std.specs.Prelude.{◌≡◌, IfOk, string_bytes};
ghost use Rattle.page_core.specs.Numbers.{seal_row, whole_seal};
ghost use Rattle.page_core.specs.Pieces.{page_text};
ghost use Rattle.seal_core.specs.Seals.{seal_text};

use crate::escapes::escaped;
use codes_core::NoMemory;
use posting_core::Ledger;
use seal_core::{make_seal, seal_text};
use std::alloc::Global;
use std::thread::Threads;

/// The seal of all entries, as `pairsalder seal` prints it.
pub(crate) fn seal_row(
    rt: &(impl Threads + Sync),
    alloc: Global,
    ledger: &Ledger,
) -> Result<String, NoMemory>
    ensures { IfOk result (λ row. string_bytes row ≡ page_text (seal_row ledger.now)) }
{
    let text = whole_seal(rt, alloc, ledger)?;
    let seal = escaped(alloc, text.as_str())?;
    Ok(format!(in alloc; "<div><dt>Seal</dt><dd class=\"seal\">{seal}</dd></div>\n")?)
}

/// The text of the seal of all entries.
fn whole_seal(
    rt: &(impl Threads + Sync),
    alloc: Global,
    ledger: &Ledger,
) -> Result<String, NoMemory>
    ensures { IfOk result (λ text. string_bytes text ≡ seal_text (whole_seal ledger.now)) }
{
    // A record has all its entries, so only memory can be lacking.
    let Ok(seal) = make_seal(rt, alloc, ledger, None) else {
        return Err(NoMemory);
    };
    seal_text(alloc, &seal)
}
