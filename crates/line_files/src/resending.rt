//! Prints how a station's file of lines stands to the record.
ghost use Rattle.std.specs.Prelude.{◌≡◌, ◌<◌, IfOk, flat_map, length, string_bytes};
ghost use Rattle.std.specs.List.{list_all, list_any};
ghost use Rattle.line_files.specs.Texts.{are_fine, is_fine, range_text, resend_text, row_text};
ghost use Rattle.line_files.specs.Texts.{is_other_station, resend_help, resend_help_on};
ghost use Rattle.line_files.specs.Texts.{standing_text};

use crate::{Compared, LineFault, Standing, compare_lines};
use codes_core::NoMemory;
use nest_core::StationNo;
use posting_core::Ledger;
use register_store::message_text;
use std::alloc::Global;

/// The printed comparison of a station's file with the record.
#[derive(Drop)]
pub struct Resent {
    /// A line for each line of the file that is not empty.
    pub text: String,
    /// Whether each line of the file is the same or next.
    pub is_fine: bool,
    /// A `help:` line if a line is another station's; otherwise empty.
    pub help: &'static str,
}

/// Returns the printed comparison of a station's file with the record. The bytes are those of the
/// file, and the station must be in the setup. Nothing is posted. Fails with `NoMemory`.
pub fn resend_text(
    alloc: Global,
    ledger: &Ledger,
    station: StationNo,
    bytes: &[u8],
) -> Result<Resent, NoMemory>
    requires { station < length ledger.now.museum.stations }
    ensures text { IfOk result
        (λ resent. string_bytes resent.text ≡ resend_text ledger.now station bytes.now) }
    ensures fine { IfOk result
        (λ resent. resent.is_fine ≡ are_fine ledger.now station bytes.now) }
    ensures help { IfOk result
        (λ resent. resent.help.now ≡ resend_help ledger.now station bytes.now) }
{
    let rows = compare_lines(alloc, ledger, station, bytes)?;
    let text = rows_text(alloc, &rows)?;
    let is_fine = are_fine(&rows);
    let help = help_on(&rows);
    Ok(Resent {
        text,
        is_fine,
        help,
    })
}

fn rows_text(alloc: Global, rows: &[Compared]) -> Result<String, NoMemory>
    ensures { IfOk result (λ text. string_bytes text ≡ flat_map row_text rows.now) }
{
    let mut text = String::new(alloc);
    for row in rows {
        let line = row_text(alloc, row)?;
        text.push_str(line.as_str())?;
    }
    Ok(text)
}

fn row_text(alloc: Global, row: &Compared) -> Result<String, NoMemory>
    ensures { IfOk result (λ text. string_bytes text ≡ row_text row.now) }
{
    let number = row.row;
    let words = standing_text(alloc, &row.standing)?;
    Ok(format!(in alloc; "{number} {words}\n")?)
}

fn standing_text(alloc: Global, standing: &Standing) -> Result<String, NoMemory>
    ensures { IfOk result (λ text. string_bytes text ≡ standing_text standing.now) }
{
    match standing {
        Standing::Same => Ok(String::from_str(alloc, "same")?),
        Standing::Other(known) => {
            let known = message_text(alloc, known)?;
            Ok(["other ", known.as_str()].concat(alloc)?)
        }
        Standing::Next => Ok(String::from_str(alloc, "next")?),
        Standing::Waits { from, to } => {
            let range = range_text(alloc, *from, *to)?;
            Ok(["waits for ", range.as_str()].concat(alloc)?)
        }
        Standing::Bad(fault) => {
            let words = fault.text(alloc)?;
            Ok(["bad ", words.as_str()].concat(alloc)?)
        }
    }
}

fn range_text(alloc: Global, from: u32, to: u32) -> Result<String, NoMemory>
    ensures { IfOk result (λ text. string_bytes text ≡ range_text from to) }
{
    if from == to {
        return Ok(format!(in alloc; "{from}")?);
    }
    Ok(format!(in alloc; "{from} to {to}")?)
}

/// The `help:` line for these lines of a file.
fn help_on(rows: &[Compared]) -> &'static str
    ensures { result.now ≡ resend_help_on rows.now }
{
    if has_other_station(rows) {
        return "help: a line is of another station: --station is the one that sent the file\n";
    }
    ""
}

fn has_other_station(rows: &[Compared]) -> bool
    ensures { result ≡ list_any (λ c. is_other_station c.standing) rows.now }
{
    rows.iter().any(|row| is_other_station(&row.standing))
}

fn is_other_station(standing: &Standing) -> bool
    ensures { result ≡ is_other_station standing.now }
{
    matches!(standing, Standing::Bad(LineFault::OtherStation))
}

fn are_fine(rows: &[Compared]) -> bool
    ensures { result ≡ list_all (λ c. is_fine c.standing) rows.now }
{
    rows.iter().all(|row| is_fine(&row.standing))
}

fn is_fine(standing: &Standing) -> bool
    ensures { result ≡ is_fine standing.now }
{
    matches!(standing, Standing::Same | Standing::Next)
}
