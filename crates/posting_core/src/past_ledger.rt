//! A ledger posted again, up to an earlier entry.

ghost use Rattle.std.specs.Prelude.{◌≡◌, ◌∷◌, ◌<◌, ◌+◌, IfOk, OnOk, length};
ghost use Rattle.posting_core.specs.Lawful.{Follows};
ghost use Rattle.posting_core.specs.Past.{upto};

use crate::{Entry, Ledger, PostedEntry};
use codes_core::NoMemory;
use std::alloc::Global;

/// Returns the ledger as it was after its first `count` entries. If it has no more than these, the
/// result is equal to the ledger. Fails with `NoMemory`.
pub fn past(alloc: Global, ledger: &Ledger, count: usize) -> Result<Ledger, NoMemory>
    ensures { IfOk result (λ past. past ≡ upto ledger.now count) }
{
    let setup = ledger.setup().copy()?;
    let mut past = Ledger::new(alloc, setup, ledger.depth())?;
    let few = count.min(ledger.posted().len());
    'entries: for i in 0..few {
        post_next(alloc, ledger, &mut past, i)?;
    }
    Ok(past)
}

/// Posts entry `i` of the ledger, from 0, to `past`, which must have the entries before it. Fails
/// with `NoMemory`.
pub fn post_next(
    alloc: Global,
    ledger: &Ledger,
    past: &mut Ledger,
    i: usize,
) -> Result<(), NoMemory>
    requires within { i < length ledger.now.posted }
    requires before { past.old ≡ upto ledger.now i }
    ensures { OnOk result (past.new ≡ upto ledger.now (i + 1)) }
{
    ledger.is_lawful();
    let entries = ledger.posted();
    post_again(alloc, past, &entries[i])
}

/// Posts an entry once more. It may follow the entries of the ledger.
fn post_again(alloc: Global, ledger: &mut Ledger, posted: &PostedEntry) -> Result<(), NoMemory>
    requires { Follows ledger.old.museum ledger.old.depth ledger.old.posted posted.now }
    ensures { OnOk result
        (ledger.new ≡ record ledger.old { posted = posted.now ∷ ledger.old.posted }) }
{
    let message = posted.message().to_message(alloc)?;
    let changes = ledger.plan(alloc, &message)?;
    let entry = Entry {
        station: posted.station(),
        n: posted.n(),
        message,
        verdict: posted.verdict(),
    };
    ledger.apply(alloc, &entry, &changes)
}
