//! The things at a place.
ghost use Rattle.std.specs.Prelude.{◌≡◌, ◌<◌, All, IfOk, length, map};
ghost use Rattle.reports.specs.Things.{at_row, at_rows};
ghost use Rattle.reports.specs.Cells.{cell_of};

use crate::Form;
use crate::field::Field;
use crate::optional_fields::{place_code_if, place_if};
use crate::rows::Rows;
use codes_core::{NoMemory, PlaceCode};
use nest_core::ThingNo;
use posting_core::Ledger;
use std::alloc::Global;

/// The things at a place, ascending.
#[derive(Drop)]
pub(crate) struct At<'a> {
    ledger: &'a Ledger,
    things: Vec<ThingNo>,
    ghost within: { All (λ x. x < length ledger.now.museum.things) things.items },
}

impl<'a> Rows for At<'a> {
    ghost use Rattle.std.specs.Prelude.{map};
    ghost use Rattle.reports.specs.Things.{at_row};

    ghost rows = { λ s form. map (at_row s.ledger.now) s.things.items };

    fn len(&self, _form: Form) -> usize {
        self.things.len()
    }

    fn row(&self, alloc: Global, _form: Form, i: usize) -> Result<Vec<Field<'_>>, NoMemory> {
        at_row(alloc, self.ledger, self.things[i])
    }
}

impl<'a> At<'a> {
    /// Finds the things at the place with this code, or at a place inside it.
    pub(crate) fn find(
        alloc: Global,
        ledger: &'a Ledger,
        place: &PlaceCode,
    ) -> Result<At<'a>, NoMemory>
        ensures { IfOk result (λ found. map (at_row found.ledger.now) found.things.items
            ≡ at_rows ledger.entry.now place.now) }
    {
        let things = count_core::in_place(alloc, ledger, place)?;
        Ok(At { ledger, things })
    }
}

fn at_row<'a>(alloc: Global, ledger: &Ledger, thing: ThingNo) -> Result<Vec<Field<'a>>, NoMemory>
    requires { thing < length ledger.now.museum.things }
    ensures { IfOk result (λ row. map cell_of row.items ≡ at_row ledger.now thing) }
{
    let setup = ledger.setup();
    let place = place_code_if(setup, ledger.place_of(thing));
    Ok(vec![in alloc; Field::Thing(setup.thing_code(thing)), place_if(place)]?)
}
