//! The rows of posted entries.
ghost use Rattle.std.specs.Prelude.{◌≡◌, ◌≢◌, IfOk, IfErr, IfSome, IfNone, MatchOption, OnErr, Ok};
ghost use Rattle.std.specs.Prelude.{Err};
ghost use Rattle.std.specs.Result.{IsErrAnd};
ghost use Rattle.std.specs.Bool.{Decides};
ghost use Rattle.posting_core.specs.declared.message.Message.{Message};
ghost use Rattle.register_store.specs.Kinds.{of_bytes};
ghost use Rattle.register_store.specs.MessageText.{IsTextOf};
ghost use Rattle.register_store.specs.StoredRows.{IsPostingRow};
ghost use Rattle.register_store.specs.Plain.{posting_row};
ghost use Rattle.register_store.specs.Registers.{IsOfStation, IsWrongRow};

use crate::{ReadFault, StoreFault, message_text, read_message};
use codes_core::NoMemory;
use posting_core::{Entry, EntryNo, LAST_NUMBER, Message, Verdict};
use std::alloc::Global;

/// A row of the table of postings whose numbers are in the range of an entry's: the message is
/// text, and the verdict is a number.
#[derive(Drop)]
pub struct KeptPosting {
    /// The entry's number, from 1.
    pub id: u64,
    /// The number of the station, from 0.
    pub station: u32,
    /// The number that the station gave its message.
    pub n: u32,
    /// The text of the message.
    pub body: String,
    /// The number of the verdict.
    pub verdict: u32,
}

/// The row of an entry under this number, from 1. Fails with `NoMemory`.
pub fn row_of(alloc: Global, number: EntryNo, entry: &Entry) -> Result<KeptPosting, NoMemory>
    ensures { IfOk result (λ row. IsPostingRow number entry.now (posting_row row)) }
{
    Ok(KeptPosting {
        id: u64::from(number),
        station: entry.station,
        n: entry.n,
        body: message_text(alloc, &entry.message)?,
        verdict: entry.verdict.number(),
    })
}

/// Returns the entry of a row, which should have this number, from 1, and a station below
/// `stations`. Fails with `Damaged(number)` if the row isn't that of a valid entry with that
/// number, or with `NoMemory`.
pub fn entry_of(
    alloc: Global,
    row: &KeptPosting,
    number: u64,
    stations: u32,
) -> Result<Entry, StoreFault>
    ensures kept { IfOk result (λ entry. IsPostingRow number entry (posting_row row.now)) }
    ensures stationed { IfOk result (IsOfStation stations) }
    ensures damaged { IfErr result
        (λ fault. fault ≢ StoreFault.NoMemory → fault ≡ StoreFault.Damaged number) }
    ensures wrong { IfErr result
        (λ fault. fault ≢ StoreFault.NoMemory → IsWrongRow stations number (posting_row row.now)) }
{
    if row.id != number || row.station >= stations || row.n == 0 || row.n > LAST_NUMBER {
        return Err(StoreFault::Damaged(number));
    }
    let Some(verdict) = Verdict::numbered(row.verdict) else {
        return Err(StoreFault::Damaged(number));
    };
    let Some(message) = message_in(alloc, &row.body)? else {
        return Err(StoreFault::Damaged(number));
    };
    Ok(Entry {
        station: row.station,
        n: row.n,
        message,
        verdict,
    })
}

/// The message whose one text this is, or `None` if there is none. Fails with `NoMemory`.
fn message_in(alloc: Global, body: &str) -> Result<Option<Message>, NoMemory>
    ensures reads { IfOk result
        (λ found. IfSome found (λ message. of_bytes body.now ≡ Ok message)) }
    ensures text { IfOk result (λ found. IfSome found (λ message. IsTextOf message body.now)) }
    ensures none { IfOk result
        (λ found. IfNone found
        ((message : Message) → IsTextOf message body.now → of_bytes body.now ≡ Ok message → ⊥)) }
{
    let Some(message) = if_read(read_message(alloc, body.as_bytes()))? else {
        return Ok(None);
    };
    let text = message_text(alloc, &message)?;
    if is_same(&text, body) {
        Ok(Some(message))
    } else {
        Ok(None)
    }
}

/// The message that was read, or `None` if the text was rejected. Fails with `NoMemory`, but only
/// if reading did.
fn if_read(read: Result<Message, ReadFault>) -> Result<Option<Message>, NoMemory>
    ensures found { IfOk result (λ found. MatchOption found
        (IsErrAnd read (λ fault. fault ≢ ReadFault.NoMemory)) (λ message. read ≡ Ok message)) }
    ensures gives_up { OnErr result (read ≡ Err ReadFault.NoMemory) }
{
    match read {
        Ok(message) => Ok(Some(message)),
        Err(ReadFault::NoMemory) => Err(NoMemory),
        Err(_) => Ok(None),
    }
}

/// Whether two texts have the same bytes.
pub(crate) fn is_same(a: &str, b: &str) -> bool
    ensures { Decides result (a.now ≡ b.now) }
{
    a == b
}
