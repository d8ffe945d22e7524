//! The rows of a setup, as lines of a text.
ghost use Rattle.std.specs.Prelude.{◌≡◌, ◌+◌, ◌<◌, ◌≤◌, ◌++◌, ◌∷◌, [], IfOk, OnOk, Some, drop};
ghost use Rattle.std.specs.Prelude.{length, slice_get, string_bytes, take};
ghost use Rattle.nest_core.specs.Museum.{row_count};
ghost use Rattle.nest_core.specs.SetupTexts.{setup_rows};
ghost use Rattle.reports.specs.Lines.{lines};
ghost use Rattle.reports.specs.SetupFiles.{file_rows, place_rows, station_rows, thing_rows};

use codes_core::NoMemory;
use nest_core::{Setup, ThingNo};
use std::alloc::Global;

/// Adds a line with the mark and the row.
pub(crate) fn push_line(text: &mut String, mark: &str, row: &str) -> Result<(), NoMemory>
    ensures { OnOk result
        (string_bytes text.new ≡ string_bytes text.old ++ lines mark.now (row.now ∷ [])) }
{
    text.push_str(mark)?;
    text.push_str(row)?;
    text.push_str("\n")?;
    Ok(())
}

/// Adds a line for each row of a setup from the one at index `from`, before the one at index `to`.
fn push_rows(
    alloc: Global,
    text: &mut String,
    mark: &str,
    setup: &Setup,
    from: u32,
    to: u32,
) -> Result<(), NoMemory>
    requires ordered { from ≤ to }
    requires within { to ≤ row_count setup.now }
    ensures { OnOk result (string_bytes text.new
        ≡ string_bytes text.old ++ lines mark.now (drop from (take to (setup_rows setup.now)))) }
{
    for i in from..to {
        let row = setup.row_text(alloc, i + 1)?;
        push_line(text, mark, row.as_str())?;
    }
    Ok(())
}

/// Adds a line for each station, place and thing.
pub(crate) fn push_file(alloc: Global, text: &mut String, setup: &Setup) -> Result<(), NoMemory>
    ensures { OnOk result
        (string_bytes text.new ≡ string_bytes text.old ++ lines [] (file_rows setup.now)) }
{
    let items = setup.stations() + setup.places() + setup.things();
    push_rows(alloc, text, "", setup, 0, items)
}

/// Adds a line for each station from number `from` on.
pub(crate) fn push_stations(
    alloc: Global,
    text: &mut String,
    mark: &str,
    setup: &Setup,
    from: u32,
) -> Result<(), NoMemory>
    requires { from ≤ length setup.now.stations }
    ensures { OnOk result (string_bytes text.new
        ≡ string_bytes text.old ++ lines mark.now (drop from (station_rows setup.now))) }
{
    push_rows(alloc, text, mark, setup, from, setup.stations())
}

/// Adds a line for each place from number `from` on.
pub(crate) fn push_places(
    alloc: Global,
    text: &mut String,
    mark: &str,
    setup: &Setup,
    from: u32,
) -> Result<(), NoMemory>
    requires { from ≤ length setup.now.places }
    ensures { OnOk result (string_bytes text.new
        ≡ string_bytes text.old ++ lines mark.now (drop from (place_rows setup.now))) }
{
    let before = setup.stations();
    let after = before + setup.places();
    push_rows(alloc, text, mark, setup, before + from, after)
}

/// Adds a line for each thing from number `from` on.
pub(crate) fn push_things(
    alloc: Global,
    text: &mut String,
    mark: &str,
    setup: &Setup,
    from: u32,
) -> Result<(), NoMemory>
    requires { from ≤ length setup.now.things }
    ensures { OnOk result (string_bytes text.new
        ≡ string_bytes text.old ++ lines mark.now (drop from (thing_rows setup.now))) }
{
    let before = setup.stations() + setup.places();
    let after = before + setup.things();
    push_rows(alloc, text, mark, setup, before + from, after)
}

/// The row of a thing.
pub(crate) fn thing_row(alloc: Global, setup: &Setup, thing: ThingNo) -> Result<String, NoMemory>
    requires { thing < length setup.now.things }
    ensures { IfOk result
        (λ text. slice_get (thing_rows setup.now) thing ≡ Some (string_bytes text)) }
{
    setup.is_museum();
    setup.row_text(alloc, setup.stations() + setup.places() + thing + 1)
}
