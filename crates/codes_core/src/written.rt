//! Writes text so that it stays on one line.
ghost use Rattle.std.specs.Prelude.{◌≡◌, OnOk};
ghost use Rattle.std.specs.Io.KnownBytes.{Appends};
ghost use Rattle.codes_core.specs.VisibleText.{line_char, on_one_line};

use std::io;
use std::io::Write;

/// Writes the text, with control characters written like `\u{a}`. Fault: that of the writer, which
/// then may have the first part of the text.
pub fn write_on_one_line<W: Write>(output: &mut W, shown: &str) -> io::Result<()>
    ensures { OnOk result
        (Appends (W.contents output.old) (W.contents output.new) (on_one_line shown.now)) }
{
    for c in shown.chars() {
        write_char(output, c)?;
    }
    Ok(())
}

/// Writes the character as it is, or by its number if it is a control character.
fn write_char<W: Write>(output: &mut W, c: char) -> io::Result<()>
    ensures { OnOk result
        (Appends (W.contents output.old) (W.contents output.new) (line_char c)) }
{
    if c.is_control() {
        write!(output, "\\u{{{:x}}}", u32::from(c))
    } else {
        write!(output, "{c}")
    }
}
