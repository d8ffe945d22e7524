//! Takes the rows of a further file into a setup, one by one.
ghost use Rattle.std.specs.Prelude.{◌≡◌, ◌≢◌, ◌+◌, ◌<◌, ◌^◌, true, Some, OnOk, OnErr};
ghost use Rattle.csv.specs.Records.{fields_of};
ghost use Rattle.nest_core.specs.SetupRows.{field_count, is_right};
ghost use Rattle.nest_core.specs.SetupGrowing.{faulted, item_fault, taken_unless, untaken};
ghost use Rattle.nest_core.specs.SetupGrowing.{with_further};

use crate::grow_fault::GrowFault;
use crate::listed_items::ListedItems;
use crate::setup::Setup;
use crate::setup_fault::SetupFault;
use crate::setup_row::SetupRow;
use codes_core::NoMemory;
use csv::ByteRecord;
use std::alloc::Global;
use std::marker::Model;

/// How far a setup has come in a further file: the setup with the rows that were taken, the items
/// that these list, the faults of the other rows, and the number of the newest row.
pub(crate) struct Taking {
    setup: Setup,
    above: ListedItems,
    faults: Vec<GrowFault>,
    row: u64,
}

impl Model for Taking {
    ghost use Rattle.nest_core.specs.SetupGrowing.{Taking};

    ghost Value = { Taking };

    ghost view = { λ t.
        record { setup = t.setup; above = t.above; faults = t.faults.items; row = t.row } };
}

/// Manual `Drop`: a derived one is inlined at every return and slows the proof.
impl Drop for Taking {
    fn drop(self) {
        let Taking {
            setup,
            above,
            faults,
            row: _,
        } = self;
        drop(setup);
        drop(above);
        drop(faults);
    }
}

impl Taking {
    /// Before the first row of a file.
    pub fn new(alloc: Global, setup: Setup) -> Taking
        ensures { result ≡ untaken setup }
    {
        Taking {
            setup,
            above: ListedItems::new(alloc),
            faults: Vec::new(alloc),
            row: 0,
        }
    }

    /// The setup, and the faults.
    pub fn into_parts(self) -> (Setup, Vec<GrowFault>)
        ensures setup { result.0 ≡ self.setup }
        ensures faults { result.1.items ≡ self.faults }
    {
        let Taking {
            setup,
            above,
            faults,
            row: _,
        } = self;
        drop(above);
        (setup, faults)
    }

    /// Takes the next row, or adds its first fault to the faults. Fails with `NoMemory`, and only
    /// if the row has fields.
    pub fn take_row(&mut self, row: &ByteRecord) -> Result<(), NoMemory>
        requires { self.old.row + 1 < 2 ^ 64 }
        ensures exact { OnOk result (self.new ≡ with_further self.old (fields_of row.now)) }
        ensures gives_up { OnErr result (field_count (fields_of row.now) ≢ 0) }
    {
        self.row += 1;
        match SetupRow::read(self.row, row) {
            Ok(Some(item)) => self.take_item(item),
            Ok(None) => Ok(()),
            Err(fault) => self.add_fault(GrowFault::Setup(fault)),
        }
    }

    /// Takes the item that the newest row lists, or adds its first fault to the faults. Fails with
    /// `NoMemory`.
    fn take_item(&mut self, item: SetupRow) -> Result<(), NoMemory>
        requires { is_right item ≡ true }
        ensures { OnOk result
            (self.new ≡ taken_unless self.old (Some item) (item_fault self.old item)) }
    {
        if self.above.contains(&item) {
            return self.add_fault(GrowFault::Setup(SetupFault::Repeated(self.row)));
        }
        match self.setup.take(self.row, item) {
            Ok(()) => self.above.add(item),
            Err(GrowFault::Setup(SetupFault::NoMemory)) => Err(NoMemory),
            Err(fault) => self.add_fault(fault),
        }
    }

    /// Adds a fault of the newest row to the faults. Fails with `NoMemory`.
    fn add_fault(&mut self, fault: GrowFault) -> Result<(), NoMemory>
        ensures { OnOk result (self.new ≡ faulted self.old fault) }
    {
        self.faults.push(fault)?;
        Ok(())
    }
}
