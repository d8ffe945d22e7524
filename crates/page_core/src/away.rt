//! The table of the objects that are away from their normal locations.
ghost use Rattle.std.specs.Prelude.{◌≡◌, All, IfOk, map, string_bytes};
ghost use Rattle.std.proofs.Props.{props};
ghost use Rattle.count_core.specs.Reports.{IsAwayIn, away};
ghost use Rattle.page_core.specs.Away.{away_text};

use crate::values::values_row;
use codes_core::NoMemory;
use count_core::AwayObject;
use nest_core::Setup;
use posting_core::Ledger;
use reports::sections::{Rows, Value, place_if};
use std::alloc::Global;

/// The objects, ascending.
#[derive(Drop)]
pub(crate) struct Away<'a> {
    setup: &'a Setup,
    objects: Vec<AwayObject>,
    ghost within: { All (IsAwayIn setup.now) objects.items } by { Prim.hlevel props },
}

impl<'a> Rows for Away<'a> {
    ghost use Rattle.std.specs.Prelude.{map};
    ghost use Rattle.page_core.specs.Away.{away_text};

    ghost texts = { λ s. map (away_text s.setup.now) s.objects.items };

    fn len(&self) -> usize {
        self.objects.len()
    }

    fn row(&self, alloc: Global, i: usize) -> Result<String, NoMemory> {
        away_row(alloc, self.setup, self.objects[i])
    }
}

impl<'a> Away<'a> {
    /// Finds the objects that are away. Fails with `NoMemory`.
    pub(crate) fn find(alloc: Global, ledger: &'a Ledger) -> Result<Away<'a>, NoMemory>
        ensures { IfOk result (λ found. map (away_text found.setup.now) found.objects.items
            ≡ map (away_text ledger.entry.now.museum) (away ledger.entry.now)) }
    {
        let objects = count_core::away(alloc, ledger)?;
        Ok(Away {
            setup: ledger.setup(),
            objects,
        })
    }
}

/// The row of an object.
fn away_row(alloc: Global, setup: &Setup, away: AwayObject) -> Result<String, NoMemory>
    requires { IsAwayIn setup.now away }
    ensures { IfOk result (λ row. string_bytes row ≡ away_text setup.now away) }
{
    let object = Value::Thing(setup.thing_code(away.object));
    let place = place_if(setup, away.place);
    let normal = place_if(setup, setup.normal(away.object));
    values_row(alloc, &[object, place, normal])
}
