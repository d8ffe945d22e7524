//! Prints a setup as a setup file.
ghost use Rattle.reports.specs.SetupFiles.{setup_file};
ghost use Rattle.reports.specs.Writing.{Prints};

use crate::PrintFault;
use crate::setups::rows::push_file;
use crate::writing::write_text;
use nest_core::Setup;
use std::alloc::Global;
use std::io::Write;

/// Prints a setup as a setup file: a row for each station, place and thing, in the order of their
/// numbers. Rows that say how the setup grew are left out.
///
/// Fails with `NoMemory`, and then nothing is written, or with `WriteFailed`, after a
/// prefix of the file. It takes memory for the whole file.
pub fn print_setup<W: Write>(alloc: Global, setup: &Setup, output: &mut W) -> Result<(), PrintFault>
    ensures { Prints (W.contents output.old) (W.contents output.new) result
        (setup_file setup.now) }
{
    let mut text = String::new(alloc);
    push_file(alloc, &mut text, setup)?;
    write_text(output, text.as_bytes())
}
