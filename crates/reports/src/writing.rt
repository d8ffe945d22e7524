//! Writes texts.
ghost use Rattle.std.specs.Prelude.{◌≡◌};
ghost use Rattle.reports.specs.Writing.{Prints};

use crate::PrintFault;
use std::io::{ErrorKind, Write};

/// Writes these bytes. After a fault, a prefix of them is written. Fails with `WriteFailed` if the
/// writer fails, accepts no byte, or does not accept them all in 4,294,967,295 writes.
pub(crate) fn write_text<W: Write>(out: &mut W, text: &[u8]) -> Result<(), PrintFault>
    ensures { Prints (W.contents out.old) (W.contents out.new) result text.now }
{
    let mut done = 0;
    for _ in 0..u32::MAX {
        if done >= text.len() {
            return Ok(());
        }
        match out.write(&text[done..]) {
            Ok(0) => return Err(PrintFault::WriteFailed),
            Ok(count) => done += count,
            Err(error) => {
                if error.kind() != ErrorKind::Interrupted {
                    return Err(PrintFault::WriteFailed);
                }
            }
        }
    }
    Err(PrintFault::WriteFailed)
}
