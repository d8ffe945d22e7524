//! Escapes texts.
ghost use Rattle.std.specs.Prelude.{◌≡◌, ◌++◌, IfOk, OnOk, string_bytes};
ghost use Rattle.std.specs.Char.{encode_utf8};
ghost use Rattle.page_core.specs.Escapes.{escaped};

use std::alloc::{AllocError, Global};

/// Returns the text as it is written in a page of HTML: `&`, `<`, `>` and both quotes become
/// character references, and all other characters stay. Fails if memory is refused.
pub(crate) fn escaped(alloc: Global, text: &str) -> Result<String, AllocError>
    ensures { IfOk result (λ shown. string_bytes shown ≡ escaped text.now) }
{
    let mut shown = String::new(alloc);
    for c in text.chars() {
        push_char(&mut shown, c)?;
    }
    Ok(shown)
}

/// Appends a character as it is written in a page.
fn push_char(shown: &mut String, c: char) -> Result<(), AllocError>
    ensures { OnOk result
        (string_bytes shown.new ≡ string_bytes shown.old ++ escaped (encode_utf8 c)) }
{
    match c {
        '&' => shown.push_str("&amp;"),
        '<' => shown.push_str("&lt;"),
        '>' => shown.push_str("&gt;"),
        '"' => shown.push_str("&quot;"),
        '\'' => shown.push_str("&#39;"),
        _ => shown.push(c),
    }
}
