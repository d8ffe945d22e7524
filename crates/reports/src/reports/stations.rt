//! The stations, each with the number that it has to send next.
ghost use Rattle.std.specs.Prelude.{◌≡◌, ◌<◌, IfOk, length, map};
ghost use Rattle.reports.specs.Cells.{cell_of};
ghost use Rattle.reports.specs.Stations.{next_number, standing_row, station_row};

use crate::Form;
use crate::field::Field;
use crate::optional_fields::number_if;
use crate::rows::Rows;
use codes_core::NoMemory;
use nest_core::StationNo;
use posting_core::{LAST_NUMBER, Ledger};
use std::alloc::Global;

/// The stations, in the setup's order.
#[derive(Drop)]
pub(crate) struct Stations<'a> {
    pub ledger: &'a Ledger,
}

impl<'a> Rows for Stations<'a> {
    ghost use Rattle.reports.specs.Stations.{station_rows};

    ghost rows = { λ s form. station_rows s.ledger.now form };

    fn len(&self, _form: Form) -> usize {
        self.ledger.setup().stations() as usize
    }

    fn row(&self, alloc: Global, form: Form, i: usize) -> Result<Vec<Field<'_>>, NoMemory> {
        self.ledger.setup().is_museum();
        station_row(alloc, self.ledger, form, i as StationNo)
    }
}

fn station_row<'a>(
    alloc: Global,
    ledger: &'a Ledger,
    form: Form,
    station: StationNo,
) -> Result<Vec<Field<'a>>, NoMemory>
    requires { station < length ledger.now.museum.stations }
    ensures { IfOk result
        (λ row. map cell_of row.items ≡ station_row ledger.entry.now form station) }
{
    let name = ledger.setup().station_name(station);
    let next = next_number(ledger, station);
    standing_row(alloc, form, name, next, ledger.has_signed_off(station))
}

/// The number that a station has to send next, if there is one.
fn next_number(ledger: &Ledger, station: StationNo) -> Option<u64>
    requires { station < length ledger.now.museum.stations }
    ensures { result ≡ next_number ledger.now station }
{
    let number = ledger.number_of(station);
    if ledger.has_signed_off(station) || number >= LAST_NUMBER {
        None
    } else {
        Some(u64::from(number) + 1)
    }
}

fn standing_row<'a>(
    alloc: Global,
    form: Form,
    name: &'a str,
    next: Option<u64>,
    signed_off: bool,
) -> Result<Vec<Field<'a>>, NoMemory>
    ensures { IfOk result (λ row. map cell_of row.items
        ≡ standing_row form name.entry.now next signed_off) }
{
    let name = Field::Word(name);
    Ok(match (form, next) {
        (Form::Plain, Some(next)) => vec![in alloc;
            name,
            Field::Word("next"),
            Field::Number(next),
        ]?,
        (Form::Plain, None) if signed_off => {
            vec![in alloc; name, Field::Word("signed"), Field::Word("off")]?
        }
        (Form::Plain, None) => vec![in alloc; name, Field::Word("full")]?,
        (Form::Csv | Form::Json | Form::Table, next) => {
            vec![in alloc; name, number_if(next), Field::Flag(signed_off)]?
        }
    })
}
