//! The museum in numbers, with its seal.
ghost use Rattle.std.specs.Prelude.{◌≡◌, IfOk, string_bytes};
ghost use Rattle.page_core.specs.Pieces.{page_text};
ghost use Rattle.page_core.specs.Numbers.{day_row, entries_row, numbers_row, setup_row};

use crate::counts::{objects_of, open_loans};
use crate::values::escaped_day;
use codes_core::{Day, NoMemory};
use nest_core::Setup;
use posting_core::Ledger;
use reports::sections::Rows;
use std::alloc::Global;

/// Two rows: the numbers of a record, and its seal.
#[derive(Drop)]
pub(crate) struct Numbers<'a> {
    pub ledger: &'a Ledger,
    /// The day on which loans are overdue, if one is given.
    pub on: Option<Day>,
    /// The row of the seal.
    pub seal: &'a str,
}

impl<'a> Rows for Numbers<'a> {
    ghost use Rattle.std.specs.Prelude.{◌∷◌, []};
    ghost use Rattle.page_core.specs.Pieces.{page_text};
    ghost use Rattle.page_core.specs.Numbers.{numbers_row};

    ghost texts = { λ s. page_text (numbers_row s.ledger.now s.on) ∷ s.seal.now ∷ [] };

    fn len(&self) -> usize {
        2
    }

    fn row(&self, alloc: Global, i: usize) -> Result<String, NoMemory> {
        if i == 0 {
            numbers_row(alloc, self.ledger, self.on)
        } else {
            Ok(String::from_str(alloc, self.seal)?)
        }
    }
}

/// The numbers of the setup and of the entries, and the day.
fn numbers_row(alloc: Global, ledger: &Ledger, on: Option<Day>) -> Result<String, NoMemory>
    ensures { IfOk result (λ row. string_bytes row ≡ page_text (numbers_row ledger.now on)) }
{
    let setup = setup_row(alloc, ledger.setup())?;
    let entries = entries_row(alloc, ledger)?;
    let day = day_row(alloc, on)?;
    Ok([setup.as_str(), entries.as_str(), day.as_str()].concat(alloc)?)
}

fn setup_row(alloc: Global, setup: &Setup) -> Result<String, NoMemory>
    ensures { IfOk result (λ row. string_bytes row ≡ page_text (setup_row setup.now)) }
{
    let places = setup.places();
    let objects = objects_of(setup);
    let containers = setup.things() - objects;
    Ok(format!(in alloc;
        "<div><dt>Places</dt><dd>{places}</dd></div>\n\
<div><dt>Containers</dt><dd>{containers}</dd></div>\n\
<div><dt>Objects</dt><dd>{objects}</dd></div>\n"
    )?)
}

fn entries_row(alloc: Global, ledger: &Ledger) -> Result<String, NoMemory>
    ensures { IfOk result (λ row. string_bytes row ≡ page_text (entries_row ledger.now)) }
{
    let loans = ledger.loan_count();
    let open = open_loans(ledger);
    let last = ledger.entry_count();
    Ok(format!(in alloc;
        "<div><dt>Loans</dt><dd>{loans}</dd></div>\n\
<div><dt>Open loans</dt><dd>{open}</dd></div>\n\
<div><dt>Last entry</dt><dd>{last}</dd></div>\n"
    )?)
}

/// The day on which loans are overdue, if one is given.
fn day_row(alloc: Global, on: Option<Day>) -> Result<String, NoMemory>
    ensures { IfOk result (λ row. string_bytes row ≡ page_text (day_row on)) }
{
    let Some(day) = on else {
        return Ok(String::new(alloc));
    };
    let day = escaped_day(alloc, day)?;
    Ok(format!(in alloc; "<div><dt>Overdue on</dt><dd>{day}</dd></div>\n")?)
}
