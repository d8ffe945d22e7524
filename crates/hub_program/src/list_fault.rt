//! All faults of a count list.

use crate::advice::Advice;
use crate::fault::CommandFault;
use crate::row_advice::{FileRows, on_count};
use count_core::CountFault;
use std::alloc::{AllocError, Global};

/// A fault of a count list.
#[derive(Drop)]
pub struct ListFault {
    pub fault: CountFault,
    pub advice: Advice,
}

/// Returns the fault of a list with these faults, in the order of their rows. The path and the
/// bytes are used only for the advice.
pub fn list_fault(alloc: Global, path: &str, bytes: &[u8], faults: &[CountFault]) -> CommandFault {
    match explained(alloc, path, bytes, faults) {
        Ok(faults) => CommandFault::Counts(faults),
        Err(_) => CommandFault::NoMemory,
    }
}

/// These faults of a list, each with the advice on it.
fn explained(
    alloc: Global,
    path: &str,
    bytes: &[u8],
    faults: &[CountFault],
) -> Result<Vec<ListFault>, AllocError> {
    let mut rows = FileRows::of(alloc, bytes);
    let mut explained = Vec::new(alloc);
    for fault in faults {
        let advice = on_count(alloc, path, &mut rows, *fault);
        explained.push(ListFault {
            fault: *fault,
            advice,
        })?;
    }
    Ok(explained)
}
