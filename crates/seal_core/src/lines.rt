//! Cuts a file into lines without blanks at their ends.
ghost use Rattle.std.specs.Prelude.{◌≡◌, ◌==◌, IfOk, map};
ghost use Rattle.std.specs.List.{slice_split};
ghost use Rattle.seal_core.specs.FileLines.{trimmed};

use std::alloc::{AllocError, Global};

/// Returns the pieces of the bytes between line feeds. Fails if memory is refused.
pub(crate) fn pieces_of(alloc: Global, bytes: &[u8]) -> Result<Vec<&[u8]>, AllocError>
    ensures { IfOk result
        (λ them. map (λ piece. piece.now) them.items ≡ slice_split (λ b. b == 10) bytes.now) }
{
    bytes.split(|b| *b == b'\n').collect(alloc)
}

/// Returns the bytes without the blanks, carriage returns and line feeds at their ends.
pub(crate) fn trimmed(bytes: &[u8]) -> &[u8]
    ensures { result.now ≡ trimmed bytes.now }
{
    bytes.trim_ascii()
}
