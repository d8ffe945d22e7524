//! The messages that are known under a station's numbers.
ghost use Rattle.std.specs.Prelude.{◌≡◌, ℕ, IfOk, OnOk, nat_eq};
ghost use Rattle.std.specs.HashMap.{get};
ghost use Rattle.line_files.specs.Known.{HasMessages, recorded, with_entry, with_message};

use codes_core::NoMemory;
use nest_core::StationNo;
use posting_core::{Ledger, Message, PostedEntry};
use std::alloc::Global;
use std::collections::HashMap;

/// The posted messages of a station, by number. Fails with `NoMemory`.
pub(crate) fn recorded_messages(
    alloc: Global,
    ledger: &Ledger,
    station: StationNo,
) -> Result<HashMap<u32, Message>, NoMemory>
    ensures { IfOk result (λ known. HasMessages known station (recorded ledger.now.posted)) }
{
    let mut known = HashMap::new(alloc);
    let entries = ledger.posted();
    for entry in entries {
        add_entry(alloc, &mut known, station, entry)?;
    }
    Ok(known)
}

/// Adds the message of an entry, if it is of this station. Fails with `NoMemory`.
fn add_entry(
    alloc: Global,
    known: &mut HashMap<u32, Message>,
    station: StationNo,
    entry: &PostedEntry,
) -> Result<(), NoMemory>
    ensures { OnOk result ((q : ℕ) → get nat_eq known.new q
        ≡ with_entry station (get nat_eq known.old) entry.now q) }
{
    if entry.station() == station {
        let message = entry.message().to_message(alloc)?;
        add_message(known, entry.n(), message)?;
    }
    Ok(())
}

/// Adds a message, unless one is known under its number. Fails with `NoMemory`.
pub(crate) fn add_message(
    known: &mut HashMap<u32, Message>,
    n: u32,
    message: Message,
) -> Result<(), NoMemory>
    ensures { OnOk result ((q : ℕ) → get nat_eq known.new q
        ≡ with_message (get nat_eq known.old) n message q) }
{
    if known.contains_key(&n) {
        return Ok(());
    }
    match known.insert(n, message) {
        Ok(_) => Ok(()),
        Err(_) => Err(NoMemory),
    }
}
