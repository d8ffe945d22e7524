//! Puts into the nest, without counting steps.
ghost use Rattle.std.specs.Prelude.{◌≡◌, ◌<◌, ◌∷◌, List, OnOk, OnErr, IfSome};
ghost use Rattle.nest_core.specs.Nest.{StandsFor, MayGo, target_kept};
ghost use Rattle.nest_core.specs.Puts.{with_put, carried_by};
ghost use Rattle.nest_core.specs.declared.put.Put.{Put};

use codes_core::NoMemory;
use nest_core::{Nest, Put, Steps, ThingNo};
use std::marker::Brand;
use std::sync::ledger::{Blank, Ledger};

/// Puts a thing, with a step counter of its own.
fn put_over<L: Ledger>(
    blank: Blank,
    nest: &mut Nest,
    put: Put,
    carried: &[ThingNo],
) -> Result<(), NoMemory>
    requires name { blank.name ≡ L.name }
    requires parts { blank.parts ≡ L.parts }
    requires some { 0 < blank.parts }
    requires known { put.thing < nest.old.things }
    requires may { MayGo nest.old put.thing put.to }
    requires carried { carried.now
        ≡ carried_by (target_kept nest.old.targets) nest.old.things put.thing }
    ensures stands { OnOk result
        ((Q : List Put) → StandsFor nest.old Q → StandsFor nest.new (put ∷ Q)) }
    ensures sized { OnOk result
        ((nest.new.things ≡ nest.old.things) × (nest.new.places ≡ nest.old.places)
        × (nest.new.depth ≡ nest.old.depth)) }
    ensures unchanged { OnErr result (nest.new ≡ nest.old) }
{
    let mut steps = Steps::<L>::new(blank);
    nest.put_with(put.thing, put.to, carried, &mut steps)
}

/// Carries out a put, if there is one. `carried` has the things that its thing carries. Fails with
/// `NoMemory`, and then the nest is unchanged.
pub(crate) fn place(nest: &mut Nest, put: Option<Put>, carried: &[ThingNo]) -> Result<(), NoMemory>
    requires may { IfSome put (λ p. (p.thing < nest.old.things) × MayGo nest.old p.thing p.to) }
    requires carried { IfSome put (λ p. carried.now
        ≡ carried_by (target_kept nest.old.targets) nest.old.things p.thing) }
    ensures stands { OnOk result
        ((Q : List Put) → StandsFor nest.old Q → StandsFor nest.new (with_put put Q)) }
    ensures sized { OnOk result
        ((nest.new.things ≡ nest.old.things) × (nest.new.places ≡ nest.old.places)
        × (nest.new.depth ≡ nest.old.depth)) }
    ensures unchanged { OnErr result (nest.new ≡ nest.old) }
{
    if let Some(put) = put {
        put_over::<Brand>(Blank::new(1), nest, put, carried)?;
    }
    Ok(())
}
