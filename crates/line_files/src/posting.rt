//! Posts the messages of a trial.
ghost use Rattle.std.specs.Prelude.{◌≡◌, ◌<◌, Ok, OnErr, OnOk, length};
ghost use Rattle.posting_core.specs.Lawful.{Follows};
ghost use Rattle.line_files.specs.Trials.{after_message, entry_under, with_message};

use crate::next_number;
use codes_core::NoMemory;
use nest_core::StationNo;
use posting_core::{Entry, Ledger, Message};
use std::alloc::Global;

/// Posts a message of a station under its next number, with the verdict that it gets. Without a
/// next number, nothing is posted. The station must be in the setup. Fails with `NoMemory`, and
/// then the ledger is unchanged.
pub(crate) fn post(
    alloc: Global,
    ledger: &mut Ledger,
    station: StationNo,
    message: &Message,
) -> Result<(), NoMemory>
    requires { station < length ledger.old.museum.stations }
    ensures ok { OnOk result (ledger.new ≡ after_message ledger.old station message.now) }
    ensures err { OnErr result (ledger.new ≡ ledger.old) }
{
    match next_number(ledger, station) {
        Ok(n) => post_under(alloc, ledger, station, n as u32, message),
        Err(_) => Ok(()),
    }
}

/// Posts a message of a station under this number. The entry must be one that may follow.
fn post_under(
    alloc: Global,
    ledger: &mut Ledger,
    station: StationNo,
    n: u32,
    message: &Message,
) -> Result<(), NoMemory>
    requires { Follows ledger.old.museum ledger.old.depth ledger.old.posted
        (entry_under ledger.old station message.now n) }
    ensures ok { OnOk result (ledger.new ≡ with_message ledger.old station message.now (Ok n)) }
    ensures err { OnErr result (ledger.new ≡ ledger.old) }
{
    let changes = ledger.plan(alloc, message)?;
    let entry = Entry {
        station,
        n,
        message: message.copy(alloc)?,
        verdict: changes.verdict,
    };
    ledger.apply(alloc, &entry, &changes)
}
