//! Prints the messages of a table as lines.
ghost use Rattle.std.specs.Prelude.{ℕ, ◌≡◌, ◌<◌, IfOk, List, OnOk, Some, length, string_bytes};
ghost use Rattle.std.specs.Prelude.{◌++◌, unwrap_or};
ghost use Rattle.command_words.specs.Words.{text_of};
ghost use Rattle.hub_program.specs.Places.{kept_in};
ghost use Rattle.hub_program.specs.Printing.{PrintsLines, PrintsTried, options_of, text_or};
ghost use Rattle.nest_core.specs.Museum.{station_name_of};
ghost use Rattle.table_core.specs.FaultTexts.{faults_text};
ghost use Rattle.table_core.specs.HelpLines.{help_text};
ghost use Rattle.table_core.specs.LineTexts.{lines_text};
ghost use Rattle.table_core.specs.SheetLines.{IsLines};
ghost use Rattle.table_core.specs.declared.printed.sheet_lines.SheetLines.{SheetLines};

use crate::advice::on_sheet;
use crate::desk_files::read_labels;
use crate::ending::Ending;
use crate::fault::{CommandFault, SheetFile};
use crate::files::{read_named, read_setup};
use crate::judging::record_under;
use crate::lines::write_line;
use crate::numbers::{first_if, first_of};
use crate::station::station_of;
use codes_core::NoMemory;
use command_words::TableWords;
use line_files::try_lines;
use nest_core::{Setup, StationNo};
use posting_core::Ledger;
use sqlite::Start;
use std::alloc::Global;
use std::io::{BufRead, Write};
use table_core::{
    CellText, DateOrder, Labels, LinesFault, SheetLines, TableLine, TableOptions, faults_text,
    help_text, lines_text, notes_text, read_lines,
};

/// Prints a line for each row of a table, and adds the notes. With a store it also judges each
/// message as if it were posted now, and adds a note for each that would not be applied.
///
/// Faults, in this order: Words, if `--dates` is neither `dmy` nor `mdy`; Number, for `--first`;
/// those of the setup's file, and of the setup; those of the labels' file, and of the labels; those
/// of the table's file; those of opening the store, of checking its record, and of closing it;
/// Station, if the setup does not list the station; those of the first number; Faults, for all
/// faults of the table, and, if `strict`, for all messages that would not be applied; WriteFailed.
/// NoMemory can come instead of any of them.
pub fn print_lines<'a, S: Start, R: BufRead, W: Write>(
    rt: &HostRuntime,
    wanted: &TableWords<'a>,
    start: S,
    input: &mut R,
    output: &mut W,
    notes: &mut String,
) -> Result<Ending<'a>, CommandFault>
    ensures { IfOk result (λ ending. kept_in ending ≡ text_of wanted.now.store) }
{
    let alloc = rt.alloc();
    let dates = dates_of(alloc, wanted.dates)?;
    let first = first_if(alloc, wanted.first)?;
    let setup = read_setup(rt, alloc, wanted.setup)?;
    let table = match files_of(rt, &setup, wanted, input) {
        Ok((labels, bytes)) => GivenTable {
            labels,
            bytes,
            dates,
            first,
        },
        Err(fault) => {
            drop(setup);
            return Err(fault);
        }
    };
    match wanted.store {
        None => {
            print_unjudged(alloc, &setup, wanted, &table, output, notes)?;
            Ok(Ending::Done(None))
        }
        Some(path) => {
            let (mut ledger, closed) = record_under(rt, setup, path, start)?;
            print_judged(alloc, &mut ledger, wanted, &table, output, notes)?;
            Ok(Ending::Done(Some(closed)))
        }
    }
}

/// A table, and how its rows are read.
#[derive(Drop)]
struct GivenTable {
    labels: Labels,
    bytes: Vec<u8>,
    dates: DateOrder,
    first: Option<u32>,
}

/// The labels, and the bytes of the table.
fn files_of<R: BufRead>(
    rt: &HostRuntime,
    setup: &Setup,
    wanted: &TableWords<'_>,
    input: &mut R,
) -> Result<(Labels, Vec<u8>), CommandFault> {
    let labels = read_labels(rt, setup, wanted.labels)?;
    match read_named(rt, wanted.table, input) {
        Ok(bytes) => Ok((labels, bytes)),
        Err(fault) => {
            drop(labels);
            Err(fault)
        }
    }
}

/// The order of day and month. Fault: Words, if it is neither `dmy` nor `mdy`.
fn dates_of(alloc: Global, dates: Option<&str>) -> Result<DateOrder, CommandFault> {
    match dates {
        None => Ok(DateOrder::YearFirst),
        Some("dmy") => Ok(DateOrder::DayFirst),
        Some("mdy") => Ok(DateOrder::MonthFirst),
        Some(_) => {
            let advice = format!(in alloc; "--dates is dmy for 31/12/2024, or mdy for 12/31/2024");
            Err(CommandFault::Words(advice.ok()))
        }
    }
}

/// Prints the lines without a record: the first has the number 1, unless one is given.
fn print_unjudged<W: Write>(
    alloc: Global,
    setup: &Setup,
    wanted: &TableWords<'_>,
    table: &GivenTable,
    output: &mut W,
    notes: &mut String,
) -> Result<(), CommandFault>
    ensures { OnOk result ((lines : SheetLines)
        × PrintsLines setup.now wanted.now table.now (unwrap_or table.now.first 1) lines
        (W.contents output.old) (W.contents output.new)) }
{
    let station = station_of(alloc, setup, wanted.station)?;
    let lines = messages_of(alloc, wanted, table, table.first.unwrap_or(1))?;
    let text = sent_text(alloc, setup, station, &lines.table.lines)?;
    write_line(output, &text)?;
    notes.push_str(&notes_text(alloc, &lines)?)?;
    Ok(())
}

/// Prints the lines, and adds what a trial on the record finds: the first has the station's next
/// number, unless one is given. If `strict`, a message that would not be applied is a fault.
fn print_judged<W: Write>(
    alloc: Global,
    ledger: &mut Ledger,
    wanted: &TableWords<'_>,
    table: &GivenTable,
    output: &mut W,
    notes: &mut String,
) -> Result<(), CommandFault>
    ensures { OnOk result (PrintsTried ledger.old wanted.now table.now
        (W.contents output.old) (W.contents output.new)) }
{
    let station = station_of(alloc, ledger.setup(), wanted.station)?;
    let first = first_of(alloc, ledger, station, wanted.station, table.first)?;
    let lines = messages_of(alloc, wanted, table, first)?;
    let text = sent_text(alloc, ledger.setup(), station, &lines.table.lines)?;
    let prefix = if wanted.strict {
        "fault table "
    } else {
        "note: "
    };
    let trial = try_lines(alloc, ledger, station, prefix, &lines.table.lines)?;
    if wanted.strict && !trial.all_applied {
        return Err(CommandFault::Faults(trial.text));
    }
    write_line(output, &text)?;
    notes.push_str(&notes_text(alloc, &lines)?)?;
    notes.push_str(&trial.text)?;
    Ok(())
}

/// The lines of messages that this station sends.
fn sent_text(
    alloc: Global,
    setup: &Setup,
    station: StationNo,
    lines: &[TableLine],
) -> Result<String, CommandFault>
    requires { station < length setup.now.stations }
    ensures { IfOk result (λ text. (name : List ℕ)
        × ((station_name_of setup.now station ≡ Some name)
        × (string_bytes text ≡ lines_text name lines.now))) }
{
    setup.is_museum();
    Ok(lines_text(alloc, setup.station_name(station), lines)?)
}

/// The messages of the table, the first with this number. Fault: Faults, with all faults of the
/// table.
fn messages_of(
    alloc: Global,
    wanted: &TableWords<'_>,
    table: &GivenTable,
    first: u32,
) -> Result<SheetLines, CommandFault>
    ensures { IfOk result (IsLines (options_of wanted.now table.now first) table.now.labels
        table.now.bytes.items) }
{
    let options = options_of(alloc, wanted, table, first)?;
    match read_lines(alloc, &options, &table.labels, &table.bytes) {
        Ok(lines) => Ok(lines),
        Err(LinesFault::NoMemory) => Err(CommandFault::NoMemory),
        Err(LinesFault::Sheet(fault)) => {
            let advice = on_sheet(alloc, wanted.table, fault);
            Err(CommandFault::Sheet(SheetFile::Lines, fault, advice))
        }
        Err(fault) => Err(CommandFault::Faults(faults_and_help(alloc, &fault)?)),
    }
}

/// How the rows of the table are read.
fn options_of(
    alloc: Global,
    wanted: &TableWords<'_>,
    table: &GivenTable,
    first: u32,
) -> Result<TableOptions, CommandFault>
    ensures { IfOk result (λ options. options ≡ options_of wanted.now table.now first) }
{
    Ok(TableOptions {
        kind: text_if(alloc, wanted.kind)?,
        day: text_if(alloc, wanted.day)?,
        place: text_if(alloc, wanted.place)?,
        loan: text_if(alloc, wanted.loan)?,
        by: text_if(alloc, wanted.by)?,
        dates: table.dates,
        first,
    })
}

/// The lines of all faults of a table, and a `help:` line if there is help on a cell.
fn faults_and_help(alloc: Global, fault: &LinesFault) -> Result<String, NoMemory>
    ensures { IfOk result
        (λ text. string_bytes text ≡ faults_text fault.now ++ help_text fault.now) }
{
    let mut text = faults_text(alloc, fault)?;
    text.push_str(help_text(fault))?;
    Ok(text)
}

/// The text for empty cells: none if the words have none.
fn text_if(alloc: Global, text: Option<&str>) -> Result<CellText, CommandFault>
    ensures { IfOk result (λ cell. cell ≡ text_or text.entry) }
{
    Ok(CellText::new(alloc, text.unwrap_or(""))?)
}
