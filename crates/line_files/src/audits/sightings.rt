//! The things that a count list found elsewhere.
ghost use Rattle.std.specs.Prelude.{◌≡◌, IfOk};
ghost use Rattle.line_files.specs.Sightings.{seen_in, sighting_of};

use codes_core::{NoMemory, PlaceCode, ThingCode};
use count_core::{CountAnswer, CountRow};
use std::alloc::Global;

/// A thing that was seen at another place than the record has, and the place where it was seen.
#[derive(Clone, Copy)]
pub(crate) struct Sighting {
    pub thing: ThingCode,
    pub place: PlaceCode,
}

/// The things that were found elsewhere, in the order of the rows. Fails with `NoMemory`.
pub(crate) fn seen_elsewhere(
    alloc: Global,
    rows: &[CountRow],
    answers: &[CountAnswer],
) -> Result<Vec<Sighting>, NoMemory>
    ensures { IfOk result (λ seen. seen.items ≡ seen_in rows.now answers.now) }
{
    let seen = rows
        .iter()
        .zip(answers)
        .filter_map(|(row, answer)| sighting_of(row, *answer))
        .collect(alloc)?;
    Ok(seen)
}

/// The sighting of a row with this answer, if its thing was found elsewhere.
fn sighting_of(row: &CountRow, answer: CountAnswer) -> Option<Sighting>
    ensures { result ≡ sighting_of row.now answer }
{
    match answer {
        CountAnswer::Elsewhere(_) => {
            let thing = row.object?;
            Some(Sighting {
                thing,
                place: row.place,
            })
        }
        _ => None,
    }
}
