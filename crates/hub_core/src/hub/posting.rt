//! Posts the messages that are due.
ghost use Rattle.std.specs.Prelude.{◌≡◌, ◌<◌, ◌≤◌, ◌⊎◌, false, true, length, OnOk, OnErr, IfErr};
ghost use Rattle.posting_core.specs.Messages.{is_sign_off};
ghost use Rattle.posting_core.specs.Book.{changes_of};
ghost use Rattle.posting_core.specs.Lawful.{Follows, IsLawful};
ghost use Rattle.register_store.specs.Registers.{is_failure};
ghost use Rattle.station_core.specs.Series.{series_at};
ghost use Rattle.station_core.specs.Runs.{arrived};
ghost use Rattle.hub_core.specs.Points.{arrival_of, entry_of};
ghost use Rattle.hub_core.specs.Faults.{hub_fault, CountsStore};
ghost use Rattle.hub_core.specs.StandsFor.{InStep};
ghost use Rattle.hub_core.specs.Posting.{Posts, LeavesUnposted, PostsDue, StopsDue};

use crate::HubFault;
use nest_core::StationNo;
use posting_core::{Changes, Entry, Ledger, Message};
use register_store::{Register, StoreFault};
use station_core::Sequences;
use std::alloc::Global;

/// Posts a station's due messages, one after another, up to a sign-off.
#[inline(always)]
pub(crate) fn post_due<R: Register>(
    alloc: Global,
    sequences: &mut Sequences<Message>,
    ledger: &mut Ledger,
    register: &mut R,
    station: StationNo,
) -> Result<(), HubFault>
    requires known { station < length sequences.old }
    requires unsigned { (series_at sequences.old station).signed ≡ false }
    requires in_step { InStep sequences.old ledger.old.museum ledger.old.posted }
    requires bound { R.is_bound register.old ≡ true }
    ensures museum { ledger.new.museum ≡ ledger.old.museum }
    ensures depth { ledger.new.depth ≡ ledger.old.depth }
    ensures longer { length ledger.old.posted ≤ length ledger.new.posted }
    ensures stations { length sequences.new ≡ length sequences.old }
    ensures posted { OnOk result
        (PostsDue (R.holding register.old)
        (R.holding register.new) station sequences.old sequences.new ledger.old ledger.new) }
    ensures stopped { OnErr result
        (StopsDue (R.holding register.old)
        (R.holding register.new) station sequences.old ledger.old ledger.new) }
    ensures bound { R.is_bound register.new ≡ true }
    ensures count { CountsStore (R.refusals register.old) (R.refusals register.new) result }
    ensures fault { IfErr result (λ fault. (fault ≡ HubFault.NoMemory) ⊎ (fault ≡ HubFault.Store)) }
{
    while let Some((n, message)) = sequences.next_due(station) {
        let signs_off = is_sign_off(&message);
        post_next(alloc, ledger, register, station, n, message)?;
        if signs_off {
            sequences.sign_off(station);
            return Ok(());
        }
    }
    Ok(())
}

/// Posts a station's next message, with its verdict.
#[inline(always)]
fn post_next<R: Register>(
    alloc: Global,
    ledger: &mut Ledger,
    register: &mut R,
    station: StationNo,
    n: u32,
    message: Message,
) -> Result<(), HubFault>
    requires follows { Follows ledger.old.museum ledger.old.depth ledger.old.posted
        (entry_of ledger.old.museum ledger.old.depth ledger.old.posted
        (arrived station n message)) }
    requires bound { R.is_bound register.old ≡ true }
    ensures posted { OnOk result
        (Posts (R.holding register.old) (R.holding register.new) ledger.old ledger.new
        (arrived station n message)) }
    ensures left { OnErr result
        (LeavesUnposted (R.holding register.old) (R.holding register.new) ledger.old ledger.new
        (arrived station n message)) }
    ensures bound { R.is_bound register.new ≡ true }
    ensures count { CountsStore (R.refusals register.old) (R.refusals register.new) result }
    ensures fault { IfErr result (λ fault. (fault ≡ HubFault.NoMemory) ⊎ (fault ≡ HubFault.Store)) }
{
    ledger.is_lawful();
    let changes = ledger.plan(alloc, &message)?;
    let verdict = changes.verdict;
    let entry = Entry {
        station,
        n,
        message,
        verdict,
    };
    post_entry(alloc, ledger, register, &entry, &changes)
}

/// Posts an entry with its changes, first in the register and then in the ledger. If the register
/// fails, the ledger stays as it was.
#[inline(always)]
fn post_entry<R: Register>(
    alloc: Global,
    ledger: &mut Ledger,
    register: &mut R,
    entry: &Entry,
    changes: &Changes,
) -> Result<(), HubFault>
    requires lawful { IsLawful ledger.old.museum ledger.old.depth ledger.old.posted }
    requires follows { Follows ledger.old.museum ledger.old.depth ledger.old.posted entry.now }
    requires planned { changes.now ≡ changes_of ledger.old entry.now.message }
    requires bound { R.is_bound register.old ≡ true }
    ensures posted { OnOk result
        (Posts (R.holding register.old) (R.holding register.new) ledger.old ledger.new
        (arrival_of entry.now)) }
    ensures left { OnErr result
        (LeavesUnposted (R.holding register.old) (R.holding register.new) ledger.old ledger.new
        (arrival_of entry.now)) }
    ensures bound { R.is_bound register.new ≡ true }
    ensures count { CountsStore (R.refusals register.old) (R.refusals register.new) result }
    ensures fault { IfErr result (λ fault. (fault ≡ HubFault.NoMemory) ⊎ (fault ≡ HubFault.Store)) }
{
    if let Err(fault) = register.post(alloc, entry, changes) {
        return Err(hub_fault(fault));
    }
    ledger.apply(alloc, entry, changes)?;
    Ok(())
}

/// Converts a register's fault. Only NoMemory and Store come from posting.
fn hub_fault(fault: StoreFault) -> HubFault
    requires { is_failure fault ≡ true }
    ensures { result ≡ hub_fault fault }
{
    match fault {
        StoreFault::NoMemory => HubFault::NoMemory,
        _ => HubFault::Store,
    }
}

/// Whether the message is a sign-off.
pub(crate) fn is_sign_off(message: &Message) -> bool
    ensures { result ≡ is_sign_off message.now }
{
    matches!(message, Message::SignOff { .. })
}
