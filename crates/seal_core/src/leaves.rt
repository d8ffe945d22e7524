//! The leaves of a record's tree.
ghost use Rattle.std.specs.Prelude.{◌≡◌, ◌<◌, IfOk, Some, length, reverse};
ghost use Rattle.std.specs.Prelude.{slice_get, string_bytes};
ghost use Rattle.reports.specs.Cells.{joined_words};
ghost use Rattle.reports.specs.Stations.{entry_row};
ghost use Rattle.reports.specs.Texts.{station_text};
ghost use Rattle.seal_core.specs.Leaves.{entry_leaf};

use codes_core::NoMemory;
use nest_core::{Setup, StationNo};
use posting_core::{Ledger, PostedEntry};
use register_store::message_text;
use std::alloc::Global;

/// Returns the leaf of the entry at this index, from 0: its line as the report of posted entries
/// prints it, without the line feed. Fails with `NoMemory`.
pub(crate) fn entry_leaf(alloc: Global, ledger: &Ledger, at: usize) -> Result<String, NoMemory>
    requires { at < length ledger.now.posted }
    ensures { IfOk result (λ leaf. string_bytes leaf ≡ entry_leaf ledger.now at) }
{
    let _ = ledger.entry_count();
    entry_line(alloc, ledger.setup(), at as u64 + 1, entry_at(ledger, at))
}

/// The entry at this index, from 0.
fn entry_at(ledger: &Ledger, at: usize) -> &PostedEntry
    requires { at < length ledger.now.posted }
    ensures { slice_get (reverse ledger.entry.now.posted) at ≡ Some result.now }
{
    &ledger.posted()[at]
}

/// The line of an entry with this number, without the line feed. Fails with `NoMemory`.
fn entry_line(
    alloc: Global,
    setup: &Setup,
    number: u64,
    entry: &PostedEntry,
) -> Result<String, NoMemory>
    ensures { IfOk result
        (λ line. string_bytes line ≡ joined_words (entry_row setup.now number entry.now)) }
{
    let message = entry.message().to_message(alloc)?;
    let text = message_text(alloc, &message)?;
    let station = station_name(setup, entry.station());
    let n = entry.n();
    let verdict = entry.verdict().name();
    Ok(format!(in alloc; "{number} {station} {n} {verdict} {text}")?)
}

/// The name of a station. Empty if the setup doesn't have the station.
fn station_name(setup: &Setup, station: StationNo) -> &str
    ensures { result.now ≡ station_text setup.entry.now station }
{
    if station < setup.stations() {
        setup.station_name(station)
    } else {
        ""
    }
}
