//! Grows a setup by the rows of a further file.
ghost use Rattle.std.specs.Prelude.{◌≡◌, ◌≢◌, ◌⊎◌, true, false, None, Some, Err};
ghost use Rattle.std.specs.Prelude.{OnOk, OnErr, IfOk, IfErr, List, fold};
ghost use Rattle.csv.specs.Reading.{has_failed};
ghost use Rattle.csv.specs.Records.{fields_of};
ghost use Rattle.nest_core.specs.Museum.{Museum};
ghost use Rattle.nest_core.specs.RowReading.{ReadsRows};
ghost use Rattle.nest_core.specs.SetupRows.{Fields, field_count, is_repeated, is_right, rows_of};
ghost use Rattle.nest_core.specs.SetupGrowing.{Extends, all_taken, file_faults, taking_fault};
ghost use Rattle.nest_core.specs.SetupGrowing.{untaken, with_file, with_further, with_taken};

use crate::grow_fault::GrowFault;
use crate::setup::Setup;
use crate::setup_fault::SetupFault;
use crate::setup_row::SetupRow;
use crate::taking::Taking;
use codes_core::NoMemory;
use csv::{ByteRecord, Reader, ReaderBuilder};
use std::alloc::Global;

/// A setup that took in the rows of a further file, and the faults of the rows that it could not
/// take.
#[derive(Drop)]
pub struct FurtherSetup {
    pub setup: Setup,
    pub faults: Vec<GrowFault>,
}

impl Setup {
    /// Returns this setup with the items that the bytes list, in rows as those of [`Setup::read`],
    /// and the faults of the bytes. An item that is listed keeps its number, an own object gets the
    /// normal location of its row, and new items go last, in the order of their rows.
    ///
    /// A row with a fault isn't taken. Each has one fault, the first of `BadKind`, `BadFields`,
    /// `BadCode`, `Repeated`, `OtherSide`, `UnknownNormal` and `TooMany` that applies. The faults
    /// are in the order of the rows. `Repeated` is a row with an item of an earlier row that was
    /// taken; an item that only this setup lists isn't repeated. Bytes that aren't UTF-8 have the
    /// fault `NotCsv` alone, and no row. Fails with `NoMemory`.
    pub fn with_file(&self, alloc: Global, bytes: &[u8]) -> Result<FurtherSetup, NoMemory>
        ensures exact { IfOk result (λ further.
            (further.setup ≡ with_file self.now bytes.now)
            × (further.faults.items ≡ file_faults self.now bytes.now)) }
        ensures extends { IfOk result (λ further. Extends self.now further.setup) }
    {
        let setup = self.copy()?;
        let Ok(_) = str::from_utf8(bytes) else {
            let faults = vec![in alloc; GrowFault::Setup(SetupFault::NotCsv)]?;
            return Ok(FurtherSetup { setup, faults });
        };
        let (setup, faults) = take_file(alloc, setup, bytes)?.into_parts();
        Ok(FurtherSetup { setup, faults })
    }

    /// Takes in the item that row `number` lists. Fails with the first of `OtherSide`,
    /// `UnknownNormal`, `TooMany` and, for a new item, `NoMemory` that applies, and then nothing
    /// changes.
    pub(crate) fn take(&mut self, number: u64, item: SetupRow) -> Result<(), GrowFault>
        requires { is_right item ≡ true }
        ensures ok { OnOk result
            ((taking_fault self.old number item ≡ None) × (self.new ≡ with_taken self.old item)) }
        ensures fault { IfErr result
            (λ fault. fault ≢ GrowFault.Setup SetupFault.NoMemory
            → taking_fault self.old number item ≡ Some fault) }
        ensures gives_up { result ≡ Err (GrowFault.Setup SetupFault.NoMemory)
            → (is_repeated self.old item ≡ false) × (taking_fault self.old number item ≡ None) }
        ensures unchanged { OnErr result (self.new ≡ self.old) }
    {
        match item {
            SetupRow::Station(name) => match self.station(name.as_str()) {
                Some(_) => Ok(()),
                None => self.take_new(number, SetupRow::Station(name)),
            },
            SetupRow::Place(code, inside) => match self.place(&code) {
                Some(place) => {
                    if self.is_inside(place) == inside {
                        Ok(())
                    } else {
                        Err(GrowFault::OtherSide(number))
                    }
                }
                None => self.take_new(number, SetupRow::Place(code, inside)),
            },
            SetupRow::Thing(code, normal) => match self.thing(&code) {
                Some(_) => self.rehome(number, code, normal),
                None => self.take_new(number, SetupRow::Thing(code, normal)),
            },
        }
    }

    /// Takes in an item that isn't listed yet. Fails like `take`.
    fn take_new(&mut self, number: u64, item: SetupRow) -> Result<(), GrowFault>
        requires right { is_right item ≡ true }
        requires new { is_repeated self.old item ≡ false }
        ensures ok { OnOk result
            ((taking_fault self.old number item ≡ None) × (self.new ≡ with_taken self.old item)) }
        ensures fault { IfErr result
            (λ fault. fault ≢ GrowFault.Setup SetupFault.NoMemory
            → taking_fault self.old number item ≡ Some fault) }
        ensures gives_up { result ≡ Err (GrowFault.Setup SetupFault.NoMemory)
            → taking_fault self.old number item ≡ None }
        ensures unchanged { OnErr result (self.new ≡ self.old) }
    {
        match self.add(number, item) {
            Ok(()) => Ok(()),
            Err(fault) => Err(GrowFault::Setup(fault)),
        }
    }
}

/// A law: a setup that takes in further items lists what it listed with the same numbers.
pub fn taking_keeps_numbers()
    ensures { (S : Museum) (rows : List Fields)
        → Extends S (fold with_further (untaken S) rows).setup }
{}

/// Takes the rows of a file into a setup. Fails with `NoMemory`.
fn take_file(alloc: Global, setup: Setup, bytes: &[u8]) -> Result<Taking, NoMemory>
    ensures { IfOk result (λ taking. taking ≡ all_taken setup bytes.now) }
{
    let mut taking = Taking::new(alloc, setup);
    let mut reader = ReaderBuilder::new()
        .has_headers(false)
        .flexible(true)
        .from_reader(alloc, bytes);
    let mut row = ByteRecord::new(alloc);
    take_rows(&mut taking, &mut reader, &mut row, bytes)?;
    Ok(taking)
}

/// Takes the rows, and reads each into `row`. Fails with `NoMemory` if the reader ran out of
/// memory, or if a row with fields, or its fault, couldn't be added.
fn take_rows(
    taking: &mut Taking,
    reader: &mut Reader<&[u8]>,
    row: &mut ByteRecord,
    bytes: &[u8],
) -> Result<(), NoMemory>
    requires first { taking.old.row ≡ 0 }
    requires reads { ReadsRows reader.old bytes.now }
    ensures exact { OnOk result (taking.new ≡ fold with_further taking.old (rows_of bytes.now)) }
    ensures gives_up { OnErr result
        ((has_failed reader.new ≡ true) ⊎ (field_count (fields_of row.new) ≢ 0)) }
{
    // Each row has at least one byte, so there are no more rows than bytes.
    for before in 0..bytes.len() as u64 {
        match reader.read_byte_record(row) {
            Ok(true) => taking.take_row(row)?,
            Ok(false) => return Ok(()),
            Err(_) => return Err(NoMemory),
        }
    }
    Ok(())
}
