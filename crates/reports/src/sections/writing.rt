//! Writes texts.
ghost use Rattle.std.specs.Prelude.{◌≡◌};
ghost use Rattle.reports.specs.Writes.{Writes};

use crate::PrintFault;
use std::io::Write;

/// Writes this text. After a fault, a prefix of it is written. Fails with `WriteFailed` if the
/// writer fails or does not accept the text.
pub fn write_text<W: Write>(out: &mut W, text: &str) -> Result<(), PrintFault>
    ensures { Writes (W.contents out.old) (W.contents out.new) result text.now }
{
    crate::writing::write_text(out, text.as_bytes())
}
