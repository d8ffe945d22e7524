//! The script of a record.
ghost use Rattle.std.specs.Prelude.{◌≡◌, ◌∷◌, ◌++◌, [], IfOk, OnOk, map, string_bytes};
ghost use Rattle.export_core.specs.Script.{entries_text, loans_text, record_row, script_text};
ghost use Rattle.export_core.specs.Script.{setup_text};
ghost use Rattle.export_core.specs.Statements.{inserts};

use crate::entries::entry_rows;
use crate::loan_objects::{add_lent, object_rows};
use crate::loans::loan_rows;
use crate::places::place_rows;
use crate::schema::{TABLES, VIEWS};
use crate::statements::{add_inserts, row};
use crate::things::thing_rows;
use codes_core::{Day, NoMemory};
use posting_core::Ledger;
use reports::sections::{Value, day_if};
use std::alloc::Global;

/// Returns the script of a record: the statements of SQL that make its flat database. The view
/// `overdue` has the loans that are overdue on the day `on`; without a day, it has none.
///
/// Fails with `NoMemory`. Besides the script it takes memory for the rows of one table at a time,
/// for those of all entries, and for a second ledger.
pub fn script(alloc: Global, ledger: &Ledger, on: Option<Day>) -> Result<String, NoMemory>
    ensures { IfOk result (λ script. string_bytes script ≡ script_text ledger.now on) }
{
    let mut script = String::from_str(alloc, TABLES)?;
    add_setup(alloc, ledger, on, &mut script)?;
    add_loans(alloc, ledger, &mut script)?;
    add_entries(alloc, ledger, &mut script)?;
    script.push_str(VIEWS)?;
    Ok(script)
}

/// Adds the rows of the record, the places and the things.
fn add_setup(
    alloc: Global,
    ledger: &Ledger,
    on: Option<Day>,
    script: &mut String,
) -> Result<(), NoMemory>
    ensures { OnOk result
        (string_bytes script.new ≡ string_bytes script.old ++ setup_text ledger.now on) }
{
    add_table(alloc, "record", record_rows(alloc, ledger, on)?, script)?;
    add_table(alloc, "place", place_rows(alloc, ledger.setup())?, script)?;
    add_table(alloc, "thing", thing_rows(alloc, ledger)?, script)?;
    Ok(())
}

/// The row of the record: how many entries it has, and the day.
fn record_rows(alloc: Global, ledger: &Ledger, on: Option<Day>) -> Result<Vec<String>, NoMemory>
    ensures { IfOk result
        (λ rows. map string_bytes rows.items ≡ record_row ledger.now on ∷ []) }
{
    let count = Value::Number(u64::from(ledger.entry_count()));
    let row = row(alloc, &[count, day_if(on)])?;
    Ok(vec![in alloc; row]?)
}

/// Adds the rows of the loans and of their objects, and the loans of the things.
fn add_loans(alloc: Global, ledger: &Ledger, script: &mut String) -> Result<(), NoMemory>
    ensures { OnOk result
        (string_bytes script.new ≡ string_bytes script.old ++ loans_text ledger.now) }
{
    add_table(alloc, "loan", loan_rows(alloc, ledger)?, script)?;
    add_table(alloc, "loan_object", object_rows(alloc, ledger)?, script)?;
    add_lent(alloc, ledger, script)?;
    Ok(())
}

/// Adds the rows of the entries, and the entries of the objects of loans.
fn add_entries(alloc: Global, ledger: &Ledger, script: &mut String) -> Result<(), NoMemory>
    ensures { OnOk result
        (string_bytes script.new ≡ string_bytes script.old ++ entries_text ledger.now) }
{
    let rows = entry_rows(alloc, ledger)?;
    add_inserts(alloc, "message", rows.messages.as_slice(), script)?;
    add_inserts(alloc, "movement", rows.movements.as_slice(), script)?;
    script.push_str(rows.lines.as_str())?;
    Ok(())
}

/// Adds the statements that insert these rows into a table.
fn add_table(
    alloc: Global,
    table: &str,
    rows: Vec<String>,
    script: &mut String,
) -> Result<(), NoMemory>
    ensures { OnOk result (string_bytes script.new
        ≡ string_bytes script.old ++ inserts table.now (map string_bytes rows.items)) }
{
    add_inserts(alloc, table, rows.as_slice(), script)
}
