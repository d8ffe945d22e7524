//! Compares a station's file of lines with the record.
ghost use Rattle.std.specs.Prelude.{◌≡◌, ◌<◌, ◌≤◌, IfOk, length, map};
ghost use Rattle.line_files.specs.Standings.{compared, standings};

use crate::Compared;
use crate::finding::{Found, findings};
use crate::known::recorded_messages;
use crate::lines::lines_of;
use crate::progress::Progress;
use codes_core::NoMemory;
use nest_core::StationNo;
use posting_core::{LAST_NUMBER, Ledger};
use std::alloc::Global;

/// Returns how each line of a station's file stands to the record. An empty line is left out, as in
/// a replay. The bytes are those of the file, and the station must be in the setup. Nothing is
/// posted. Fails with `NoMemory`.
pub fn compare_lines(
    alloc: Global,
    ledger: &Ledger,
    station: StationNo,
    bytes: &[u8],
) -> Result<Vec<Compared>, NoMemory>
    requires { station < length ledger.now.museum.stations }
    ensures { IfOk result (λ them. them.items ≡ standings ledger.now station bytes.now) }
{
    let mut known = recorded_messages(alloc, ledger, station)?;
    let lines = lines_of(alloc, bytes)?;
    let found = findings(alloc, ledger.setup(), station, &lines, &mut known)?;
    ledger.is_lawful();
    let _few = ledger.number_of(station);
    let progress = Progress::of(&known, &found);
    compared(alloc, progress, &found)
}

/// The lines with their standings. Fails with `NoMemory`.
fn compared(alloc: Global, progress: Progress, found: &[Found]) -> Result<Vec<Compared>, NoMemory>
    requires last { progress.last ≤ LAST_NUMBER }
    requires resumes { progress.last < progress.resumes }
    ensures { IfOk result (λ them. them.items ≡ map (compared progress) found.now) }
{
    let mut them = Vec::new(alloc);
    for one in found {
        let standing = progress.standing_of(alloc, &one.finding)?;
        them.push(Compared {
            row: one.row,
            standing,
        })?;
    }
    Ok(them)
}
