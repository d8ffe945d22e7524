//! The table of the stations.
ghost use Rattle.std.specs.Prelude.{◌≡◌, ◌<◌, IfOk, length, string_bytes};
ghost use Rattle.reports.specs.Stations.{has_signed_off, next_number};
ghost use Rattle.page_core.specs.Stations.{next_cell, station_row_text};
ghost use Rattle.reports.specs.Values.{value_of};

use crate::values::values_row;
use codes_core::NoMemory;
use nest_core::StationNo;
use posting_core::{LAST_NUMBER, Ledger};
use reports::sections::{Rows, Value};
use std::alloc::Global;

/// The stations, in the setup's order.
#[derive(Drop)]
pub(crate) struct Stations<'a> {
    pub ledger: &'a Ledger,
}

impl<'a> Rows for Stations<'a> {
    ghost use Rattle.std.specs.Prelude.{length, map};
    ghost use Rattle.std.specs.List.{range_with_len};
    ghost use Rattle.page_core.specs.Stations.{station_row_text};

    ghost texts = { λ s. map (station_row_text s.ledger.now)
        (range_with_len 0 (length s.ledger.now.museum.stations)) };

    fn len(&self) -> usize {
        self.ledger.setup().stations() as usize
    }

    fn row(&self, alloc: Global, i: usize) -> Result<String, NoMemory> {
        self.ledger.setup().is_museum();
        station_row(alloc, self.ledger, i as StationNo)
    }
}

/// The row of a station.
fn station_row(alloc: Global, ledger: &Ledger, station: StationNo) -> Result<String, NoMemory>
    requires { station < length ledger.now.museum.stations }
    ensures { IfOk result (λ row. string_bytes row ≡ station_row_text ledger.now station) }
{
    let name = ledger.setup().station_name(station);
    values_row(alloc, &[Value::Word(name), next_value(ledger, station)])
}

/// The number that a station has to send next, or why there is none.
fn next_value<'a>(ledger: &Ledger, station: StationNo) -> Value<'a>
    requires { station < length ledger.now.museum.stations }
    ensures { value_of result
        ≡ next_cell (next_number ledger.now station) (has_signed_off ledger.now station) }
{
    if ledger.has_signed_off(station) {
        return Value::Word("signed off");
    }
    let number = ledger.number_of(station);
    if number >= LAST_NUMBER {
        return Value::Word("full");
    }
    Value::Number(u64::from(number) + 1)
}
