//! The JSON lines of messages.
ghost use Rattle.std.specs.Prelude.{◌≡◌, ◌++◌, IfOk, IsTrue, OnOk, string_bytes};
ghost use Rattle.nest_core.specs.StationName.{is_station_name};
ghost use Rattle.table_core.specs.LineTexts.{EachReadsAs, ReadsAsItself, lines_text, sent_text};

use crate::TableLine;
use codes_core::NoMemory;
use register_store::sent_line;
use std::alloc::Global;

/// Returns the lines that a station sends for the messages, in their order, each with its line
/// feed. A replay reads each line as its message. The station's name must be a valid one, as every
/// name in a setup is. Fails with `NoMemory`.
pub fn lines_text(alloc: Global, station: &str, lines: &[TableLine]) -> Result<String, NoMemory>
    requires { IsTrue (is_station_name station.now) }
    ensures text { IfOk result (λ text. string_bytes text ≡ lines_text station.now lines.now) }
    ensures read_back { IfOk result (λ _. EachReadsAs station.now lines.now) }
{
    let mut text = String::new(alloc);
    for line in lines {
        add_line(alloc, &mut text, station, line)?;
    }
    Ok(text)
}

/// Appends the line of a message. Fails with `NoMemory`.
fn add_line(
    alloc: Global,
    text: &mut String,
    station: &str,
    line: &TableLine,
) -> Result<(), NoMemory>
    requires { IsTrue (is_station_name station.now) }
    ensures text { OnOk result
        (string_bytes text.new ≡ string_bytes text.old ++ sent_text station.now line.now) }
    ensures read_back { OnOk result (ReadsAsItself station.now line.now) }
{
    let sent = sent_line(alloc, station, u64::from(line.number), &line.message)?;
    text.push_str(sent.as_str())?;
    text.push_str("\n")?;
    Ok(())
}
