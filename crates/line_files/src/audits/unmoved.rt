//! The rows of a count list that neither agree with the record nor move a thing.
ghost use Rattle.std.specs.Prelude.{◌≡◌, IfOk};
ghost use Rattle.line_files.specs.Sightings.{unmoved_in, unmoved_of};

use codes_core::NoMemory;
use count_core::{CountAnswer, CountRow};
use std::alloc::Global;

/// A row with its answer, which says why no line comes of it.
#[derive(Clone, Copy)]
pub(crate) struct Unmoved {
    pub row: CountRow,
    pub answer: CountAnswer,
}

/// The rows that name a place or a thing that is unknown, a thing a second time, or a thing that
/// was never placed, in the order of the list. Fails with `NoMemory`.
pub(crate) fn unmoved_rows(
    alloc: Global,
    rows: &[CountRow],
    answers: &[CountAnswer],
) -> Result<Vec<Unmoved>, NoMemory>
    ensures { IfOk result (λ unmoved. unmoved.items ≡ unmoved_in rows.now answers.now) }
{
    let unmoved = rows
        .iter()
        .zip(answers)
        .filter_map(|(row, answer)| unmoved_of(row, *answer))
        .collect(alloc)?;
    Ok(unmoved)
}

fn unmoved_of(row: &CountRow, answer: CountAnswer) -> Option<Unmoved>
    ensures { result ≡ unmoved_of row.now answer }
{
    match answer {
        CountAnswer::UnknownPlace
        | CountAnswer::UnknownObject
        | CountAnswer::Again
        | CountAnswer::Unplaced => Some(Unmoved { row: *row, answer }),
        CountAnswer::Counted | CountAnswer::Found | CountAnswer::Elsewhere(_) => None,
    }
}
