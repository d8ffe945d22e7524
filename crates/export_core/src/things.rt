//! The rows of the table `thing`.
ghost use Rattle.std.specs.Prelude.{◌≡◌, ◌<◌, IfOk, length, map, string_bytes};
ghost use Rattle.std.specs.List.{range_with_len};
ghost use Rattle.export_core.specs.Setups.{above, kind_word, since, thing_row};

use crate::statements::row;
use codes_core::{Day, NoMemory, ThingKind};
use nest_core::{Setup, ThingNo};
use posting_core::Ledger;
use reports::sections::{Value, codes_text, day_if, place_if, word_if};
use std::alloc::Global;

/// Returns the rows of the things, in the setup's order. Fails with `NoMemory`.
pub(crate) fn thing_rows(alloc: Global, ledger: &Ledger) -> Result<Vec<String>, NoMemory>
    ensures { IfOk result (λ rows. map string_bytes rows.items
        ≡ map (thing_row ledger.now) (range_with_len 0 (length ledger.now.museum.things))) }
{
    let mut rows = Vec::new(alloc);
    for thing in 0..ledger.setup().things() {
        rows.push(thing_row(alloc, ledger, thing)?)?;
    }
    Ok(rows)
}

/// The row of a thing.
fn thing_row(alloc: Global, ledger: &Ledger, thing: ThingNo) -> Result<String, NoMemory>
    requires { thing < length ledger.now.museum.things }
    ensures { IfOk result (λ row. string_bytes row ≡ thing_row ledger.now thing) }
{
    let containers = containers(alloc, ledger, thing)?;
    row_with(alloc, ledger, thing, containers.as_str())
}

/// The row of a thing that is in these containers.
fn row_with(
    alloc: Global,
    ledger: &Ledger,
    thing: ThingNo,
    containers: &str,
) -> Result<String, NoMemory>
    requires within { thing < length ledger.now.museum.things }
    requires inside { containers.now ≡ above ledger.now thing }
    ensures { IfOk result (λ row. string_bytes row ≡ thing_row ledger.now thing) }
{
    let setup = ledger.setup();
    let values = [
        Value::Thing(setup.thing_code(thing)),
        Value::Word(kind_word(setup.kind(thing))),
        place_if(setup, setup.normal(thing)),
        place_if(setup, ledger.place_of(thing)),
        word_if(containers),
        Value::Nothing,
        day_if(since(ledger, thing)),
    ];
    row(alloc, &values)
}

/// The word of the setup file for a kind of thing.
fn kind_word(kind: ThingKind) -> &'static str
    ensures { result.now ≡ kind_word kind }
{
    match kind {
        ThingKind::Own => "own",
        ThingKind::Borrowed => "lent",
        ThingKind::Container => "box",
    }
}

/// The day from which a thing is at its location, if it was placed.
fn since(ledger: &Ledger, thing: ThingNo) -> Option<Day>
    requires { thing < length ledger.now.museum.things }
    ensures { result ≡ since ledger.now thing }
{
    let spot = ledger.spots(thing).next_back()?;
    Some(spot.day)
}

/// The codes of the containers that a thing is in, innermost first, with spaces between them.
fn containers(alloc: Global, ledger: &Ledger, thing: ThingNo) -> Result<String, NoMemory>
    requires { thing < length ledger.now.museum.things }
    ensures { IfOk result (λ text. string_bytes text ≡ above ledger.now thing) }
{
    let chain = ledger.chain(alloc, thing)?;
    codes_text(alloc, ledger.setup(), chain.as_slice())
}
