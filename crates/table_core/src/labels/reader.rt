//! Reads the rows of a labels file.
ghost use Rattle.std.specs.Prelude.{◌≡◌, ◌≢◌, ◌++◌, ◌||◌, [], None, Some, is_some, map};
ghost use Rattle.std.specs.Prelude.{string_bytes, OnOk, IfErr, MatchResult};
ghost use Rattle.std.specs.Option.{option_to_list};
ghost use Rattle.nest_core.specs.Museum.{find_place, find_thing};
ghost use Rattle.table_core.specs.LabelRows.{first_fault, is_listed, label_fault, label_in};
ghost use Rattle.table_core.specs.LabelRows.{labels_in, labels_of, row_fault, texts_of};

use crate::labels::row::{Columns, columns_of, field};
use crate::{LabelFault, Labels};
use codes_core::{PlaceCode, ThingCode};
use nest_core::Setup;
use std::alloc::Global;

impl Labels {
    /// Returns the labels that the rows list. The first row is the heading, which has `label` and
    /// `code` in any order and any case, and may have further columns. Blanks at the ends of a
    /// field don't count, and a row with neither a label nor a code is skipped.
    ///
    /// Fails with the first of `Heading` and, for the first row with a fault, `Fields`, `Repeated`
    /// and `IsCode`. `NoMemory` can come instead of any.
    pub fn of_rows(alloc: Global, setup: &Setup, rows: &[Vec<String>]) -> Result<Labels, LabelFault>
        ensures exact { MatchResult result
            (λ labels. (label_fault setup.now (texts_of rows.now) ≡ None)
            × (labels ≡ labels_of (texts_of rows.now)))
            (λ fault. fault ≢ LabelFault.NoMemory
            → label_fault setup.now (texts_of rows.now) ≡ Some fault) }
    {
        let [heading, rest @ ..] = rows else {
            return Err(LabelFault::Heading);
        };
        let Some(columns) = columns_of(heading.as_slice()) else {
            return Err(LabelFault::Heading);
        };
        read_rows(alloc, setup, columns, rest)
    }
}

/// Returns the labels that the rows below the heading list. Fails with the fault of the first row
/// that has one, or with `NoMemory`.
fn read_rows(
    alloc: Global,
    setup: &Setup,
    columns: Columns,
    rows: &[Vec<String>],
) -> Result<Labels, LabelFault>
    ensures { MatchResult result
        (λ labels. (first_fault setup.now columns [] (texts_of rows.now) ≡ None)
        × (labels ≡ labels_in columns (texts_of rows.now)))
        (λ fault. fault ≢ LabelFault.NoMemory
        → first_fault setup.now columns [] (texts_of rows.now) ≡ Some fault) }
{
    let mut labels = Labels::none(alloc);
    for i in 0..rows.len() {
        let number = i as u64 + 2;
        add_row(
            alloc,
            &mut labels,
            setup,
            columns,
            number,
            rows[i].as_slice(),
        )?;
    }
    Ok(labels)
}

/// Adds the label of row `number`, unless the row is skipped. Faults: `Fields`, `Repeated`,
/// `IsCode`; `NoMemory`.
fn add_row(
    alloc: Global,
    labels: &mut Labels,
    setup: &Setup,
    columns: Columns,
    number: u64,
    row: &[String],
) -> Result<(), LabelFault>
    ensures ok { OnOk result
        ((row_fault setup.now labels.old number (label_in columns (map string_bytes row.now))
        ≡ None)
        × (labels.new
        ≡ labels.old ++ option_to_list (label_in columns (map string_bytes row.now)))) }
    ensures fault { IfErr result (λ fault. fault ≢ LabelFault.NoMemory
        → row_fault setup.now labels.old number (label_in columns (map string_bytes row.now))
        ≡ Some fault) }
{
    let label = field(row, columns.label);
    let code = field(row, columns.code);
    if label.is_empty() && code.is_empty() {
        return Ok(());
    }
    if label.is_empty() || code.is_empty() {
        return Err(LabelFault::Fields(number));
    }
    if labels.code_of(label).is_some() {
        return Err(LabelFault::Repeated(number));
    }
    if label != code && is_listed(setup, label) {
        return Err(LabelFault::IsCode(number));
    }
    labels.add(alloc, label, code)?;
    Ok(())
}

/// Whether a place or a thing of the setup has this code.
fn is_listed(setup: &Setup, text: &[u8]) -> bool
    ensures { result ≡ is_listed setup.now text.now }
{
    is_place(setup, text) || is_thing(setup, text)
}

fn is_place(setup: &Setup, text: &[u8]) -> bool
    ensures { result ≡ is_some (find_place setup.now text.now) }
{
    setup.is_museum();
    match PlaceCode::parse(text) {
        Ok(code) => setup.place(&code).is_some(),
        Err(_) => false,
    }
}

fn is_thing(setup: &Setup, text: &[u8]) -> bool
    ensures { result ≡ is_some (find_thing setup.now text.now) }
{
    setup.is_museum();
    match ThingCode::parse(text) {
        Ok(code) => setup.thing(&code).is_some(),
        Err(_) => false,
    }
}
