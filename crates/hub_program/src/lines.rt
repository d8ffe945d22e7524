//! Writes lines.
ghost use Rattle.std.specs.Prelude.{OnOk};
ghost use Rattle.std.specs.Io.KnownBytes.{Appends};

use crate::fault::CommandFault;
use std::io::Write;

/// Writes the text as it is. Fault: WriteFailed.
pub fn write_line<W: Write>(output: &mut W, line: &str) -> Result<(), CommandFault>
    ensures { OnOk result (Appends (W.contents output.old) (W.contents output.new) line.now) }
{
    match output.write_all(line.as_bytes()) {
        Ok(()) => Ok(()),
        Err(_) => Err(CommandFault::WriteFailed),
    }
}
