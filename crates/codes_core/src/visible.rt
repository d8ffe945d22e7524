//! Appends text so that every character is visible, or so that it stays on one line.
ghost use Rattle.std.specs.Prelude.{◌≡◌, ◌++◌, OnOk, not, string_bytes};
ghost use Rattle.std.specs.Char.{is_control};
ghost use Rattle.std.specs.Str.{chars};
ghost use Rattle.codes_core.specs.VisibleText.{is_plain, on_one_line, quoted, shown_char};
ghost use Rattle.codes_core.specs.VisibleText.{visible};

use std::alloc::AllocError;

/// Appends the text in quotes. Printable ASCII and Latin letters are kept. Every other character is
/// written like `\u{a0}`: unusual blanks, control characters, and letters of other scripts, which
/// may look like Latin ones. Fails if memory is refused.
pub fn add_quoted(text: &mut String, shown: &str) -> Result<(), AllocError>
    ensures { OnOk result
        (string_bytes text.new ≡ string_bytes text.old ++ quoted shown.now) }
{
    text.push_str("'")?;
    add_visible(text, shown)?;
    text.push_str("'")
}

/// Appends the text with all characters visible.
fn add_visible(text: &mut String, shown: &str) -> Result<(), AllocError>
    ensures { OnOk result
        (string_bytes text.new ≡ string_bytes text.old ++ visible shown.now) }
{
    for c in shown.chars() {
        add_char(text, c, is_plain(c))?;
    }
    Ok(())
}

/// Appends the text, with control characters written like `\u{a}`. Fails if memory is refused.
pub fn add_on_one_line(text: &mut String, shown: &str) -> Result<(), AllocError>
    ensures { OnOk result
        (string_bytes text.new ≡ string_bytes text.old ++ on_one_line shown.now) }
{
    for c in shown.chars() {
        add_char(text, c, !c.is_control())?;
    }
    Ok(())
}

/// Appends the character as it is if it is plain, otherwise by its number.
fn add_char(text: &mut String, c: char, is_plain: bool) -> Result<(), AllocError>
    ensures { OnOk result
        (string_bytes text.new ≡ string_bytes text.old ++ shown_char is_plain c) }
{
    if is_plain {
        text.push(c)
    } else {
        write!(text, "\\u{{{:x}}}", u32::from(c))
    }
}

/// Whether a reader can tell the character from all others.
fn is_plain(c: char) -> bool
    ensures { result ≡ is_plain c }
{
    matches!(c, ' '..='~' | 'À'..='Ö' | 'Ø'..='ö' | 'ø'..='ɏ')
}
