//! The place of a thing, and the containers that it is in.
ghost use Rattle.std.specs.Prelude.{◌≡◌, ◌<◌, All, IfOk, length, map};
ghost use Rattle.reports.specs.Things.{container_texts, place_row, placed_row, where_row};
ghost use Rattle.posting_core.specs.Book.{place_in};
ghost use Rattle.reports.specs.Texts.{thing_text};
ghost use Rattle.reports.specs.Cells.{cell_of};

use crate::Form;
use crate::field::Field;
use crate::optional_fields::{in_if, place_if};
use crate::rows::Rows;
use codes_core::{NoMemory, PlaceCode, ThingCode};
use nest_core::{Setup, ThingNo};
use posting_core::Ledger;
use std::alloc::Global;

/// The one row for the thing with this code.
#[derive(Drop)]
pub(crate) struct Whereabouts<'a> {
    pub ledger: &'a Ledger,
    pub code: ThingCode,
}

impl<'a> Rows for Whereabouts<'a> {
    ghost use Rattle.std.specs.Prelude.{◌∷◌, []};
    ghost use Rattle.reports.specs.Things.{where_row};

    ghost rows = { λ s form. where_row s.ledger.now form s.code ∷ [] };

    fn len(&self, _form: Form) -> usize {
        1
    }

    fn row(&self, alloc: Global, form: Form, _i: usize) -> Result<Vec<Field<'_>>, NoMemory> {
        where_row(alloc, self.ledger, form, self.code)
    }
}

pub(crate) fn where_row<'a>(
    alloc: Global,
    ledger: &Ledger,
    form: Form,
    code: ThingCode,
) -> Result<Vec<Field<'a>>, NoMemory>
    ensures { IfOk result (λ row. map cell_of row.items ≡ where_row ledger.now form code) }
{
    match ledger.setup().thing(&code) {
        None => place_row(alloc, form, code, "unknown", None, Vec::new(alloc)),
        Some(thing) => placed_row(alloc, ledger, form, code, thing),
    }
}

fn placed_row<'a>(
    alloc: Global,
    ledger: &Ledger,
    form: Form,
    code: ThingCode,
    thing: ThingNo,
) -> Result<Vec<Field<'a>>, NoMemory>
    requires { thing < length ledger.now.museum.things }
    ensures { IfOk result (λ row. map cell_of row.items
        ≡ placed_row ledger.now form code thing (place_in ledger.now thing)) }
{
    match ledger.place_of(thing) {
        None => place_row(alloc, form, code, "unplaced", None, Vec::new(alloc)),
        Some(place) => {
            let containers = containers_of(alloc, ledger, thing)?;
            let place = ledger.setup().place_code(place);
            place_row(alloc, form, code, "at", Some(place), containers)
        }
    }
}

/// The codes of the containers that a thing is in, innermost first.
pub(crate) fn containers_of(
    alloc: Global,
    ledger: &Ledger,
    thing: ThingNo,
) -> Result<Vec<ThingCode>, NoMemory>
    requires { thing < length ledger.now.museum.things }
    ensures { IfOk result (λ codes. codes.items ≡ container_texts ledger.now thing) }
{
    let chain = ledger.chain(alloc, thing)?;
    thing_codes(alloc, ledger.setup(), chain.as_slice())
}

/// The codes of things, in their order.
pub(crate) fn thing_codes(
    alloc: Global,
    setup: &Setup,
    things: &[ThingNo],
) -> Result<Vec<ThingCode>, NoMemory>
    requires { All (λ t. t < length setup.now.things) things.now }
    ensures { IfOk result (λ codes. codes.items ≡ map (thing_text setup.now) things.now) }
{
    let mut codes = Vec::new(alloc);
    for i in 0..things.len() {
        codes.push(setup.thing_code(things[i]))?;
    }
    Ok(codes)
}

fn place_row<'a>(
    alloc: Global,
    form: Form,
    code: ThingCode,
    state: &'a str,
    place: Option<PlaceCode>,
    containers: Vec<ThingCode>,
) -> Result<Vec<Field<'a>>, NoMemory>
    ensures { IfOk result (λ row. map cell_of row.items
        ≡ place_row form code state.entry.now place containers.items) }
{
    let inside = in_if(containers.as_slice());
    Ok(match form {
        Form::Plain => vec![in alloc;
            Field::Thing(code),
            Field::Word(state),
            place_if(place),
            inside,
            Field::Things(containers),
        ]?,
        Form::Csv | Form::Json | Form::Table => vec![in alloc;
            Field::Thing(code),
            Field::Word(state),
            place_if(place),
            Field::Things(containers),
        ]?,
    })
}
