//! All faults of a setup file.

use crate::advice::Advice;
use crate::fault::CommandFault;
use crate::row_advice::{Beside, FileRows, on_growth};
use nest_core::{GrowFault, SetupFault};
use std::alloc::{AllocError, Global};
use std::io;
use std::io::Write;

/// A fault of a file from which a setup is read, or by which one grows.
#[derive(Drop)]
pub struct GrowthFault {
    pub fault: GrowFault,
    pub advice: Advice,
}

/// Returns the fault of a file with these faults, in the order of their rows. The path and the
/// bytes are used only for the advice.
pub fn growth_fault(
    alloc: Global,
    path: &str,
    bytes: &[u8],
    faults: &[GrowFault],
    beside: Beside,
) -> CommandFault {
    match explained(alloc, path, bytes, faults, beside) {
        Ok(faults) => CommandFault::Growth(faults),
        Err(_) => CommandFault::NoMemory,
    }
}

/// These faults of a file, each with the advice on it.
fn explained(
    alloc: Global,
    path: &str,
    bytes: &[u8],
    faults: &[GrowFault],
    beside: Beside,
) -> Result<Vec<GrowthFault>, AllocError> {
    let mut rows = FileRows::of(alloc, bytes);
    let mut explained = Vec::new(alloc);
    for fault in faults {
        let advice = on_growth(alloc, path, &mut rows, *fault, beside);
        explained.push(GrowthFault {
            fault: *fault,
            advice,
        })?;
    }
    Ok(explained)
}

/// The row that has the fault, from 1. None for a fault of the whole file.
pub fn row_of(fault: GrowFault) -> Option<u64> {
    match fault {
        GrowFault::Setup(fault) => fault.row(),
        GrowFault::OtherSide(row) => Some(row),
        GrowFault::TooManyGrowths => None,
    }
}

/// The name of the fault.
fn name_of(fault: GrowFault) -> &'static str {
    match fault {
        GrowFault::Setup(fault) => fault.name(),
        GrowFault::OtherSide(_) => "OtherSide",
        GrowFault::TooManyGrowths => "TooManyGrowths",
    }
}

/// Writes the line of the fault.
pub fn write_growth_fault<W: Write>(errors: &mut W, fault: GrowFault) -> io::Result<()> {
    write!(errors, "fault setup {}", name_of(fault))?;
    match row_of(fault) {
        Some(row) => writeln!(errors, " row {row}"),
        None => writeln!(errors),
    }
}
