//! All faults of a setup file.
ghost use Rattle.std.specs.Prelude.{◌≡◌, IfOk, OnOk};
ghost use Rattle.nest_core.specs.Museum.{no_museum};
ghost use Rattle.nest_core.specs.SetupGrowing.{with_file};
ghost use Rattle.count_core.specs.SetupChecks.{or_no_station, setup_faults};

use codes_core::NoMemory;
use nest_core::{FurtherSetup, GrowFault, Setup, SetupFault};
use std::alloc::Global;

/// What a check of a setup file found.
#[derive(Drop)]
pub struct SetupCheck {
    /// The setup that the rows without a fault list.
    pub setup: Setup,
    /// The faults, in the order of their rows.
    pub faults: Vec<GrowFault>,
}

/// Returns all faults of a setup file, and the setup that the rows without a fault list. The rows
/// are those of [`Setup::read`].
///
/// The faults are `NotCsv` alone if the bytes aren't UTF-8. Otherwise each row has at most one, the
/// first of `BadKind`, `BadFields`, `BadCode`, `Repeated`, `OtherSide`, `UnknownNormal` and
/// `TooMany` that applies; a row with a fault lists nothing, so a row that needs it has a fault,
/// too. If no row has a fault and none lists a station, the fault is `NoStation`. The first fault
/// is the one with which [`Setup::read`] rejects the file, and without faults the setup is the one
/// that it returns (see [`laws`](crate::check_laws)). Fails with `NoMemory`.
pub fn check_setup(alloc: Global, bytes: &[u8]) -> Result<SetupCheck, NoMemory>
    ensures setup { IfOk result (λ check. check.setup ≡ with_file no_museum bytes.now) }
    ensures faults { IfOk result (λ check. check.faults.items ≡ setup_faults bytes.now) }
{
    let FurtherSetup { setup, mut faults } = Setup::new(alloc).with_file(alloc, bytes)?;
    add_station_fault(&setup, &mut faults)?;
    Ok(SetupCheck { setup, faults })
}

/// Adds `NoStation`, if there are no faults and the setup has no station. Fails with `NoMemory`.
fn add_station_fault(setup: &Setup, faults: &mut Vec<GrowFault>) -> Result<(), NoMemory>
    ensures { OnOk result (faults.new.items ≡ or_no_station setup.now faults.old.items) }
{
    if faults.is_empty() && setup.stations() == 0 {
        faults.push(GrowFault::Setup(SetupFault::NoStation))?;
    }
    Ok(())
}
