//! Posted entries, as a ledger keeps them.
ghost use Rattle.std.specs.Prelude.{◌≡◌, IfOk};

use crate::{Entry, KeptMessage, Verdict};
use codes_core::NoMemory;
use nest_core::StationNo;
use std::alloc::Global;
use std::marker::Model;

/// A posted entry as it is kept: in 56 bytes, instead of an entry's 104. Contracts see it as the
/// entry.
#[derive(Drop)]
pub struct PostedEntry {
    station: StationNo,
    n: u32,
    verdict: Verdict,
    message: KeptMessage,
}

impl Model for PostedEntry {
    ghost use Rattle.posting_core.specs.declared.entry.Entry.{Entry};

    ghost Value = { Entry };

    ghost view = { λ e.
        record { station = e.station; n = e.n; message = e.message; verdict = e.verdict } };
}

impl PostedEntry {
    /// Keeps a copy of the entry. Fails with `NoMemory`.
    pub(crate) fn new(alloc: Global, entry: &Entry) -> Result<PostedEntry, NoMemory>
        ensures { IfOk result (λ posted. posted ≡ entry.now) }
    {
        let message = KeptMessage::new(alloc, &entry.message)?;
        Ok(PostedEntry {
            station: entry.station,
            n: entry.n,
            verdict: entry.verdict,
            message,
        })
    }

    /// The number of the station.
    pub fn station(&self) -> StationNo
        ensures { result ≡ self.now.station }
    {
        self.station
    }

    /// The number that the station gave the message.
    pub fn n(&self) -> u32
        ensures { result ≡ self.now.n }
    {
        self.n
    }

    /// The verdict.
    pub fn verdict(&self) -> Verdict
        ensures { result ≡ self.now.verdict }
    {
        self.verdict
    }

    /// The message.
    pub fn message(&self) -> &KeptMessage
        ensures { result.now ≡ self.now.message }
    {
        &self.message
    }
}
