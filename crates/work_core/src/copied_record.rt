//! Checks that a store has the record of a ledger.
ghost use Rattle.std.specs.Prelude.{◌≡◌, ℕ, true, IfOk};
ghost use Rattle.register_store.specs.Holdings.{Has};
ghost use Rattle.register_store.specs.StoredRows.{IsStoreOf};

use codes_core::NoMemory;
use hub_core::{Hub, OpenFault};
use nest_core::Setup;
use posting_core::{Ledger, PostedEntry};
use register_store::{Register, StoreFault, message_text};
use std::alloc::Global;

/// Opens a hub over the register with this setup, which judges all its entries again, and compares
/// the entries with the ledger's. The setup is the ledger's. Returns the register, and whether the
/// entries are the same. Faults: those of opening a hub; NoMemory.
pub fn opens_to<R: Register>(
    alloc: Global,
    setup: Setup,
    register: R,
    ledger: &Ledger,
) -> Result<(R, bool), OpenFault<R>>
    requires { setup ≡ ledger.now.museum }
    // If it returns true, the store has the rows of the ledger's entries, and can have no others.
    // The clause leaves the depth limit open.
    ensures same { IfOk result (λ r. r.1 ≡ true → (depth : ℕ)
        × Has (R.holding r.0) (IsStoreOf ledger.now.museum depth ledger.now.posted)) }
{
    let hub = Hub::open(alloc, setup, register)?;
    let same = are_same(alloc, hub.posted(), ledger.posted());
    let register = hub.close();
    match same {
        Ok(same) => Ok((register, same)),
        Err(_) => Err(OpenFault {
            fault: StoreFault::NoMemory,
            register,
        }),
    }
}

/// Whether the entries are the same, in the same order.
#[tactic(auto, using(std::proofs::lemmas::List::take_more_same, std::proofs::lemmas::List::take_all))]
fn are_same(alloc: Global, ones: &[PostedEntry], others: &[PostedEntry]) -> Result<bool, NoMemory>
    ensures { IfOk result (λ same. same ≡ true → ones.now ≡ others.now) }
{
    if ones.len() != others.len() {
        return Ok(false);
    }
    'entries: for at in 0..ones.len() {
        if !is_same(alloc, &ones[at], &others[at])? {
            return Ok(false);
        }
    }
    Ok(true)
}

/// Whether two entries have the same station, number and verdict, and the same text of the message.
fn is_same(alloc: Global, one: &PostedEntry, other: &PostedEntry) -> Result<bool, NoMemory>
    ensures { IfOk result (λ same. same ≡ true → one.now ≡ other.now) }
{
    if one.station() != other.station()
        || one.n() != other.n()
        || one.verdict() != other.verdict()
    {
        return Ok(false);
    }
    let one = message_text(alloc, &one.message().to_message(alloc)?)?;
    let other = message_text(alloc, &other.message().to_message(alloc)?)?;
    Ok(one.as_str() == other.as_str())
}
