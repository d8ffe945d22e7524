//! A text without the blanks at its ends.
ghost use Rattle.std.specs.Prelude.{◌≡◌, ◌≤◌, length};
ghost use Rattle.std.specs.List.{prefix_len, suffix_len};
ghost use Rattle.table_core.specs.Labels.{is_blank, without_blanks, without_front};

fn is_blank(byte: u8) -> bool
    ensures { result ≡ is_blank byte }
{
    byte == b' ' || byte == b'\t'
}

/// The number of blanks before the text.
fn blanks_before(text: &[u8]) -> usize
    ensures value { result ≡ prefix_len is_blank text.now }
    ensures within { result ≤ length text.now }
{
    text.iter().take_while(|b| is_blank(**b)).count()
}

/// The number of blanks behind the text.
fn blanks_behind(text: &[u8]) -> usize
    ensures value { result ≡ suffix_len is_blank text.now }
    ensures within { result ≤ length text.now }
{
    text.iter().rev().take_while(|b| is_blank(**b)).count()
}

/// The text without the blanks before it.
fn trim_front(text: &[u8]) -> &[u8]
    ensures { result.now ≡ without_front text.now }
{
    text.split_at(blanks_before(text)).1
}

/// The text without the blanks at its ends.
pub(crate) fn trim(text: &[u8]) -> &[u8]
    ensures { result.now ≡ without_blanks text.now }
{
    let text = trim_front(text);
    &text[..text.len() - blanks_behind(text)]
}
