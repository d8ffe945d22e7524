//! Tries the messages of a table.
ghost use Rattle.std.specs.Prelude.{◌≡◌, ◌<◌, ◌↔◌, ℕ, [], IfOk, IsTrue, OnErr, OnOk, length};
ghost use Rattle.std.specs.Prelude.{string_bytes, take};
ghost use Rattle.line_files.specs.Notes.{note_lines, notes};
ghost use Rattle.line_files.specs.Trials.{after_lines};

use crate::notes::push_note;
use crate::posting::post;
use codes_core::NoMemory;
use nest_core::StationNo;
use posting_core::Ledger;
use std::alloc::Global;
use table_core::TableLine;

/// What a trial of a table's messages finds.
#[derive(Drop)]
pub struct Trial {
    /// A line for each row whose message isn't Applied, in the order of the rows.
    pub text: String,
    /// Whether there is no line.
    pub all_applied: bool,
}

/// Posts the messages of a table's rows to the ledger, in order, and returns a line for each that
/// isn't Applied: the prefix, then the row with its verdict and the cause, or why it can't be sent.
///
/// Each message is sent from this station under the station's next number, and is judged over the
/// record after the rows before it. A row without a next number is passed over. The station must be
/// in the setup.
///
/// Fails with `NoMemory`, and then the ledger has the messages of some first rows.
pub fn try_lines(
    alloc: Global,
    ledger: &mut Ledger,
    station: StationNo,
    prefix: &str,
    lines: &[TableLine],
) -> Result<Trial, NoMemory>
    requires { station < length ledger.old.museum.stations }
    ensures posted { OnOk result (ledger.new ≡ after_lines ledger.old station lines.now) }
    ensures text { IfOk result (λ trial. string_bytes trial.text
        ≡ note_lines prefix.now (notes ledger.old station lines.now)) }
    ensures applied { IfOk result (λ trial. IsTrue trial.all_applied
        ↔ (notes ledger.old station lines.now ≡ [])) }
    ensures stopped { OnErr result
        ((k : ℕ) × (ledger.new ≡ after_lines ledger.old station (take k lines.now))) }
{
    let mut text = String::new(alloc);
    for line in lines {
        push_note(alloc, &mut text, prefix, ledger, station, line)?;
        post(alloc, ledger, station, &line.message)?;
    }
    let all_applied = text.as_str().is_empty();
    Ok(Trial { text, all_applied })
}
