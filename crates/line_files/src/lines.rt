//! Cuts bytes into lines, as a replay does.
ghost use Rattle.std.specs.Prelude.{◌≡◌, ◌+◌, IfOk, drop, map};
ghost use Rattle.hub_core.specs.Lines.{is_empty, lines};
ghost use Rattle.hub_core.specs.LineText.{is_too_long};

use codes_core::NoMemory;
use hub_core::{LONGEST_LINE, feed_at, without_return};
use std::alloc::Global;

/// The lines of the bytes. Fails with `NoMemory`.
pub(crate) fn lines_of(alloc: Global, bytes: &[u8]) -> Result<Vec<&[u8]>, NoMemory>
    ensures { IfOk result (λ them. map (λ line. line.now) them.items ≡ lines bytes.now) }
{
    let mut them = Vec::new(alloc);
    let mut rest = bytes;
    while rest.len() > 0 {
        let feed = feed_at(rest);
        them.push(without_return(&rest[..feed]))?;
        rest = after_feed(rest, feed);
    }
    Ok(them)
}

/// The bytes after the line feed at this index, or none if the bytes end before it.
fn after_feed(bytes: &[u8], feed: usize) -> &[u8]
    ensures { result.now ≡ drop (feed + 1) bytes.now }
{
    if feed < bytes.len() {
        &bytes[feed + 1..]
    } else {
        &[]
    }
}

/// Whether the line is empty. A replay skips it then.
pub(crate) fn is_blank(line: &[u8]) -> bool
    ensures { result ≡ is_empty line.now }
{
    line.is_empty()
}

/// Whether the line has more bytes than a replay reads.
pub(crate) fn is_too_long(line: &[u8]) -> bool
    ensures { result ≡ is_too_long line.now }
{
    line.len() > LONGEST_LINE
}
