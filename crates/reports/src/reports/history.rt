//! The places where a thing has been.
ghost use Rattle.std.specs.Prelude.{◌≡◌, ◌<◌, All, IfOk, length, map};
ghost use Rattle.reports.specs.Things.{history_rows, spot_row};
ghost use Rattle.reports.specs.Cells.{cell_of};

use crate::Form;
use crate::field::Field;
use crate::rows::Rows;
use codes_core::{NoMemory, ThingCode};
use nest_core::Setup;
use posting_core::{Ledger, Spot};
use std::alloc::Global;

/// The spots of a thing, oldest first.
#[derive(Drop)]
pub(crate) struct History<'a> {
    setup: &'a Setup,
    spots: Vec<Spot>,
    ghost within: { All (λ s. s.place < length setup.now.places) spots.items },
}

impl<'a> Rows for History<'a> {
    ghost use Rattle.std.specs.Prelude.{map};
    ghost use Rattle.reports.specs.Things.{spot_row};

    ghost rows = { λ s form. map (spot_row s.setup.now) s.spots.items };

    fn len(&self, _form: Form) -> usize {
        self.spots.len()
    }

    fn row(&self, alloc: Global, _form: Form, i: usize) -> Result<Vec<Field<'_>>, NoMemory> {
        spot_row(alloc, self.setup, self.spots[i])
    }
}

impl<'a> History<'a> {
    /// Finds the spots of the thing with this code. There are none if the setup doesn't have it.
    pub(crate) fn find(
        alloc: Global,
        ledger: &'a Ledger,
        code: &ThingCode,
    ) -> Result<History<'a>, NoMemory>
        ensures { IfOk result (λ history. map (spot_row history.setup.now) history.spots.items
            ≡ history_rows ledger.entry.now code.now) }
    {
        let setup = ledger.setup();
        let spots = match setup.thing(code) {
            None => Vec::new(alloc),
            Some(thing) => ledger.spots(thing).to_vec(alloc)?,
        };
        Ok(History { setup, spots })
    }
}

pub(crate) fn spot_row<'a>(
    alloc: Global,
    setup: &Setup,
    spot: Spot,
) -> Result<Vec<Field<'a>>, NoMemory>
    requires { spot.place < length setup.now.places }
    ensures { IfOk result (λ row. map cell_of row.items ≡ spot_row setup.now spot) }
{
    Ok(vec![in alloc;
        Field::Number(u64::from(spot.entry)),
        Field::Day(spot.day),
        Field::Place(setup.place_code(spot.place)),
    ]?)
}
