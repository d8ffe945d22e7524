//! The things in a container.
ghost use Rattle.std.specs.Prelude.{◌≡◌, ◌<◌, ◌==◌, All, IfOk, filter, length, map, not};
ghost use Rattle.reports.specs.Things.{content_row, things_in, unknown_container};
ghost use Rattle.reports.specs.Cells.{cell_of};

use crate::Form;
use crate::field::Field;
use crate::reports::whereabouts::containers_of;
use crate::rows::Rows;
use codes_core::{NoMemory, ThingCode};
use nest_core::ThingNo;
use posting_core::Ledger;
use std::alloc::Global;

/// The things in a container of the setup, ascending.
#[derive(Drop)]
pub(crate) struct Contents<'a> {
    ledger: &'a Ledger,
    things: Vec<ThingNo>,
    ghost within: { All (λ x. x < length ledger.now.museum.things) things.items },
}

impl<'a> Rows for Contents<'a> {
    ghost use Rattle.std.specs.Prelude.{map};
    ghost use Rattle.reports.specs.Things.{content_row};

    ghost rows = { λ s form. map (content_row s.ledger.now) s.things.items };

    fn len(&self, _form: Form) -> usize {
        self.things.len()
    }

    fn row(&self, alloc: Global, _form: Form, i: usize) -> Result<Vec<Field<'_>>, NoMemory> {
        content_row(alloc, self.ledger, self.things[i])
    }
}

impl<'a> Contents<'a> {
    /// Finds the things in the container, which must be in the setup.
    pub(crate) fn find(
        alloc: Global,
        ledger: &'a Ledger,
        container: ThingNo,
    ) -> Result<Contents<'a>, NoMemory>
        requires { container < length ledger.now.museum.things }
        ensures { IfOk result (λ found. map (content_row found.ledger.now) found.things.items
            ≡ map (content_row ledger.entry.now) (things_in ledger.entry.now container)) }
    {
        let things = things_in(alloc, ledger, container)?;
        Ok(Contents { ledger, things })
    }
}

/// The things in the container, at any depth.
fn things_in(alloc: Global, ledger: &Ledger, container: ThingNo) -> Result<Vec<ThingNo>, NoMemory>
    requires { container < length ledger.now.museum.things }
    ensures things { IfOk result (λ things. things.items ≡ things_in ledger.now container) }
    ensures within { IfOk result
        (λ things. All (λ x. x < length ledger.now.museum.things) things.items) }
{
    let carried = ledger.carried(alloc, container)?;
    without(alloc, carried.as_slice(), container)
}

/// All of these things except one.
fn without(alloc: Global, things: &[ThingNo], one: ThingNo) -> Result<Vec<ThingNo>, NoMemory>
    ensures { IfOk result (λ others. others.items ≡ filter (λ x. not (x == one)) things.now) }
{
    let mut others = Vec::new(alloc);
    for i in 0..things.len() {
        if things[i] != one {
            others.push(things[i])?;
        }
    }
    Ok(others)
}

fn content_row<'a>(
    alloc: Global,
    ledger: &Ledger,
    thing: ThingNo,
) -> Result<Vec<Field<'a>>, NoMemory>
    requires { thing < length ledger.now.museum.things }
    ensures { IfOk result (λ row. map cell_of row.items ≡ content_row ledger.now thing) }
{
    let containers = containers_of(alloc, ledger, thing)?;
    Ok(vec![in alloc;
        Field::Thing(ledger.setup().thing_code(thing)),
        Field::Word("in"),
        Field::Things(containers),
    ]?)
}

/// The one row for a container that the setup doesn't have.
#[derive(Drop)]
pub(crate) struct NoContainer {
    pub code: ThingCode,
}

impl Rows for NoContainer {
    ghost use Rattle.std.specs.Prelude.{◌∷◌, []};
    ghost use Rattle.reports.specs.Things.{unknown_container};

    ghost rows = { λ s form. unknown_container s.code ∷ [] };

    fn len(&self, _form: Form) -> usize {
        1
    }

    fn row(&self, alloc: Global, _form: Form, _i: usize) -> Result<Vec<Field<'_>>, NoMemory> {
        Ok(vec![in alloc;
            Field::Thing(self.code),
            Field::Word("unknown"),
            Field::Things(Vec::new(alloc)),
        ]?)
    }
}
