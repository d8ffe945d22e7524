//! Entries, as a register in memory keeps them.
ghost use Rattle.std.specs.Prelude.{◌≡◌, ◌≢◌, IfOk, IfErr};
ghost use Rattle.register_store.specs.StoredRows.{IsPostingRow};
ghost use Rattle.register_store.specs.Registers.{IsOfStation, IsWrongRow};
ghost use Rattle.register_store.specs.Plain.{kept_row};

use crate::StoreFault;
use crate::spelled::message_is_spelled;
use codes_core::NoMemory;
use nest_core::StationNo;
use posting_core::{Entry, EntryNo, KeptMessage, LAST_NUMBER, Verdict};
use std::alloc::Global;

/// A posted entry with its number. Its row has the message's one text, which isn't made to keep the
/// entry.
#[derive(Drop)]
pub struct KeptEntry {
    /// The entry's number, from 1.
    pub id: EntryNo,
    /// The number of the station.
    pub station: StationNo,
    /// The number that the station gave its message.
    pub n: u32,
    /// The verdict. Fields are laid out in their order: here, before the message, it makes the
    /// entry take 56 bytes instead of 64.
    pub verdict: Verdict,
    /// The message.
    pub message: KeptMessage,
}

impl KeptEntry {
    /// Keeps a copy of the entry under this number, from 1. Fails with `NoMemory`.
    pub(crate) fn new(alloc: Global, number: EntryNo, entry: &Entry) -> Result<KeptEntry, NoMemory>
        ensures { IfOk result (λ kept. IsPostingRow number entry.now (kept_row kept)) }
    {
        let message = KeptMessage::new(alloc, &entry.message)?;
        message_is_spelled(&entry.message);
        Ok(KeptEntry {
            id: number,
            station: entry.station,
            n: entry.n,
            verdict: entry.verdict,
            message,
        })
    }

    /// Returns a copy of the entry, which should have this number, from 1, and a station below
    /// `stations`. Fails with `Damaged(number)` if it isn't a valid entry with that number, or with
    /// `NoMemory`.
    pub(crate) fn listed(
        &self,
        alloc: Global,
        number: u64,
        stations: u32,
    ) -> Result<Entry, StoreFault>
        ensures kept { IfOk result (λ entry. IsPostingRow number entry (kept_row self.now)) }
        ensures stationed { IfOk result (IsOfStation stations) }
        ensures damaged { IfErr result
            (λ fault. fault ≢ StoreFault.NoMemory → fault ≡ StoreFault.Damaged number) }
        ensures wrong { IfErr result
            (λ fault. fault ≢ StoreFault.NoMemory
            → IsWrongRow stations number (kept_row self.now)) }
    {
        let is_numbered = u64::from(self.id) == number;
        if !is_numbered || self.station >= stations || self.n == 0 || self.n > LAST_NUMBER {
            return Err(StoreFault::Damaged(number));
        }
        let message = self.message.to_message(alloc)?;
        message_is_spelled(&message);
        Ok(Entry {
            station: self.station,
            n: self.n,
            message,
            verdict: self.verdict,
        })
    }
}
