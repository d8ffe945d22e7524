//! The heading of a table, and the separator that parts it.
ghost use Rattle.std.specs.Prelude.{◌≡◌, ◌≤◌, ◌==◌, ◌&&◌, false, true, length, not, MatchOption};
ghost use Rattle.std.specs.Prelude.{if◌then◌else◌};
ghost use Rattle.std.specs.List.{prefix_len};
ghost use Rattle.table_core.specs.Sheets.{has_two, heading_of, is_in_line, is_parted_by, is_utf16};
ghost use Rattle.table_core.specs.Sheets.{separator_of};

use crate::past_mark;

/// A byte that no text has. It separates the fields of a table with one column, which are whole
/// lines.
const NO_SEPARATOR: u8 = 0xFF;

/// The first line, without a byte order mark before it.
pub(crate) fn heading(bytes: &[u8]) -> &[u8]
    ensures { result.now ≡ heading_of bytes.now }
{
    let text = past_mark(bytes);
    text.split_at(line_length(text)).0
}

/// The number of bytes before the end of the first line.
fn line_length(text: &[u8]) -> usize
    ensures value { result ≡ prefix_len is_in_line text.now }
    ensures within { result ≤ length text.now }
{
    text.iter().take_while(|b| is_in_line(**b)).count()
}

fn is_in_line(byte: u8) -> bool
    ensures { result ≡ is_in_line byte }
{
    byte != b'\n' && byte != b'\r'
}

/// Whether the bytes are UTF-16: they begin with its byte order mark, or the heading has a byte
/// that is zero.
pub(crate) fn is_utf16(bytes: &[u8]) -> bool
    ensures { result ≡ is_utf16 bytes.now }
{
    bytes.starts_with(&[0xFF, 0xFE])
        || bytes.starts_with(&[0xFE, 0xFF])
        || heading(bytes).contains(&0)
}

/// The separator of comma, semicolon and tab that parts the heading, or a byte that no text has if
/// none does. `None` if more than one does.
pub(crate) fn separator(bytes: &[u8]) -> Option<u8>
    ensures { MatchOption result (has_two bytes.now ≡ true)
        (λ s. (has_two bytes.now ≡ false) × (s ≡ separator_of bytes.now)) }
{
    let heading = heading(bytes);
    let comma = is_parted_by(b',', heading);
    let semicolon = is_parted_by(b';', heading);
    let tab = is_parted_by(b'\t', heading);
    match (comma, semicolon, tab) {
        (false, false, false) => Some(NO_SEPARATOR),
        (true, false, false) => Some(b','),
        (false, true, false) => Some(b';'),
        (false, false, true) => Some(b'\t'),
        _ => None,
    }
}

/// Whether the text has the separator outside quotes.
fn is_parted_by(separator: u8, text: &[u8]) -> bool
    ensures { result ≡ is_parted_by separator false text.now }
{
    let mut quoted = false;
    for i in 0..text.len() {
        let byte = text[i];
        if parts(separator, quoted, byte) {
            return true;
        }
        quoted = is_quoted_after(quoted, byte);
    }
    false
}

/// Whether the byte is this separator, and not in quotes.
fn parts(separator: u8, quoted: bool, byte: u8) -> bool
    ensures { result ≡ (not quoted && (byte == separator)) }
{
    !quoted && byte == separator
}

/// Whether the text after the byte is in quotes.
fn is_quoted_after(quoted: bool, byte: u8) -> bool
    ensures { result ≡ (if byte == 34 then not quoted else quoted) }
{
    if byte == b'"' { !quoted } else { quoted }
}
