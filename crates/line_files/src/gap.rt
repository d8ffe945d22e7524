//! The line that fills a station's next number.
ghost use Rattle.std.specs.Prelude.{◌≡◌, ◌≢◌, ◌<◌, ◌++◌, ◌∷◌, [], Ok, Err, IfOk, MatchResult};
ghost use Rattle.std.specs.Prelude.{IsTrue, length, string_bytes};
ghost use Rattle.nest_core.specs.StationName.{is_station_name};
ghost use Rattle.register_store.specs.SentLines.{sent_line};
ghost use Rattle.line_files.specs.Gaps.{gap_message, gap_in, next_number};

use crate::GapFault;
use codes_core::{LoanCode, Name, NoMemory};
use nest_core::StationNo;
use posting_core::{LAST_NUMBER, Ledger, Message, Verdict};
use register_store::sent_line;
use std::alloc::Global;

/// Returns the line that fills the next number of a station, with its line feed: an authorisation
/// of loan LO0000.1 by this person. The hub posts the message as UnknownLoan, and it changes
/// nothing but the station's number. The station must be in the setup.
///
/// Faults, in this order: SignedOff, Full, KnownLoan. NoMemory can come instead of any result.
pub fn gap_line(
    alloc: Global,
    ledger: &Ledger,
    station: StationNo,
    by: &Name,
) -> Result<String, GapFault>
    requires { station < length ledger.now.museum.stations }
    ensures exact { MatchResult result
        (λ line. gap_in ledger.now station by.now ≡ Ok (string_bytes line))
        (λ fault. fault ≢ GapFault.NoMemory → gap_in ledger.now station by.now ≡ Err fault) }
{
    let setup = ledger.setup();
    setup.is_museum();
    let n = next_number(ledger, station)?;
    let message = gap_message(alloc, by)?;
    match ledger.judge(alloc, &message)? {
        Verdict::UnknownLoan => { Ok(ended_line(alloc, setup.station_name(station), n, &message)?) }
        _ => Err(GapFault::KnownLoan),
    }
}

/// Returns the number that a station has to send next. The station must be in the setup. Faults:
/// SignedOff, Full.
pub fn next_number(ledger: &Ledger, station: StationNo) -> Result<u64, GapFault>
    requires { station < length ledger.now.museum.stations }
    ensures { result ≡ next_number ledger.now station }
{
    if ledger.has_signed_off(station) {
        return Err(GapFault::SignedOff);
    }
    let number = ledger.number_of(station);
    if number >= LAST_NUMBER {
        return Err(GapFault::Full);
    }
    Ok(u64::from(number) + 1)
}

/// The message of the line.
fn gap_message(alloc: Global, by: &Name) -> Result<Message, NoMemory>
    ensures { IfOk result (λ message. message ≡ gap_message by.now) }
{
    let loan = LoanCode::parse(b"LO0000.1").unwrap();
    let name = by.copy(alloc)?;
    Ok(Message::Authorise { name, loan })
}

/// The line of a message, with its line feed.
fn ended_line(alloc: Global, station: &str, n: u64, message: &Message) -> Result<String, NoMemory>
    requires { IsTrue (is_station_name station.now) }
    ensures { IfOk result
        (λ line. string_bytes line ≡ sent_line station.now n message.now ++ 10 ∷ []) }
{
    let mut line = sent_line(alloc, station, n, message)?;
    line.push_str("\n")?;
    Ok(line)
}
