//! The museum's own objects that aren't at their normal locations.
ghost use Rattle.std.specs.Prelude.{◌≡◌, All, IfOk, map};
ghost use Rattle.std.proofs.Props.{props};
ghost use Rattle.count_core.specs.Reports.{IsAwayIn};
ghost use Rattle.reports.specs.Things.{away_row, away_rows};
ghost use Rattle.reports.specs.Cells.{cell_of};
ghost use Rattle.reports.specs.declared.form.Form.{Form};

use crate::Form;
use crate::field::Field;
use crate::optional_fields::{place_code_if, place_if, place_or_dash};
use crate::rows::Rows;
use codes_core::NoMemory;
use count_core::AwayObject;
use nest_core::Setup;
use posting_core::Ledger;
use std::alloc::Global;

/// The objects, ascending.
#[derive(Drop)]
pub(crate) struct Away<'a> {
    setup: &'a Setup,
    objects: Vec<AwayObject>,
    ghost within: { All (IsAwayIn setup.now) objects.items } by { Prim.hlevel props },
}

impl<'a> Rows for Away<'a> {
    ghost use Rattle.std.specs.Prelude.{map};
    ghost use Rattle.reports.specs.Things.{away_row};

    ghost rows = { λ s form. map (away_row s.setup.now form) s.objects.items };

    fn len(&self, _form: Form) -> usize {
        self.objects.len()
    }

    fn row(&self, alloc: Global, form: Form, i: usize) -> Result<Vec<Field<'_>>, NoMemory> {
        away_row(alloc, self.setup, form, self.objects[i])
    }
}

impl<'a> Away<'a> {
    /// Finds the objects that are away.
    pub(crate) fn find(alloc: Global, ledger: &'a Ledger) -> Result<Away<'a>, NoMemory>
        ensures { IfOk result (λ found. (form : Form)
            → map (away_row found.setup.now form) found.objects.items
            ≡ away_rows ledger.entry.now form) }
    {
        let objects = count_core::away(alloc, ledger)?;
        Ok(Away {
            setup: ledger.setup(),
            objects,
        })
    }
}

fn away_row<'a>(
    alloc: Global,
    setup: &Setup,
    form: Form,
    away: AwayObject,
) -> Result<Vec<Field<'a>>, NoMemory>
    requires { IsAwayIn setup.now away }
    ensures { IfOk result (λ row. map cell_of row.items ≡ away_row setup.now form away) }
{
    let object = Field::Thing(setup.thing_code(away.object));
    let place = place_code_if(setup, away.place);
    let normal = place_code_if(setup, setup.normal(away.object));
    Ok(match form {
        Form::Plain => vec![in alloc;
            object,
            place_or_dash(place),
            Field::Word("normal"),
            place_or_dash(normal),
        ]?,
        Form::Csv | Form::Json | Form::Table => {
            vec![in alloc; object, place_if(place), place_if(normal)]?
        }
    })
}
