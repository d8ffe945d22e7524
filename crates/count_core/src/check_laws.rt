//! Facts that follow from the definitions. Each is stated on a function that does nothing.
ghost use Rattle.std.specs.Prelude.{◌≡◌, ℕ, List, [], option_map};
ghost use Rattle.nest_core.specs.Museum.{no_museum};
ghost use Rattle.nest_core.specs.SetupGrowing.{with_file};
ghost use Rattle.nest_core.specs.SetupRows.{museum_of, rows_of, setup_fault};
ghost use Rattle.count_core.specs.CountRows.{count_fault};
ghost use Rattle.count_core.specs.CountChecks.{count_faults};
ghost use Rattle.count_core.specs.SetupChecks.{first_of, setup_faults};

use nest_core::GrowFault;

/// The first fault of a setup file is the one with which `Setup::read` rejects the file.
pub fn first_setup_fault()
    ensures { (bytes : List ℕ)
        → first_of (setup_faults bytes) ≡ option_map GrowFault.Setup (setup_fault bytes) }
{}

/// If a setup file has no fault, its setup is the one that `Setup::read` returns.
pub fn setup_without_faults()
    ensures { (bytes : List ℕ) → setup_faults bytes ≡ []
        → with_file no_museum bytes ≡ museum_of (rows_of bytes) }
{}

/// The first fault of a count list is the one with which `read_counts` rejects the list.
pub fn first_count_fault()
    ensures { (bytes : List ℕ) → first_of (count_faults bytes) ≡ count_fault bytes }
{}
