//! A text and its words.
ghost use Rattle.std.specs.Prelude.{◌≡◌, ◌+◌, ◌<◌, ◌≤◌, ◌∷◌, [], MatchOption, length};
ghost use Rattle.std.specs.List.{prefix_len, suffix_len};
ghost use Rattle.desk_core.specs.LineTexts.{after_word, first_word, is_blank, is_ink, trimmed};
ghost use Rattle.desk_core.specs.LineTexts.{without_front, words};

/// Whether the byte separates words.
fn is_blank(byte: u8) -> bool
    ensures { result ≡ is_blank byte }
{
    byte == b' ' || byte == b'\t' || byte == b'\r'
}

/// The number of blanks before the text.
fn blanks_before(text: &[u8]) -> usize
    ensures value { result ≡ prefix_len is_blank text.now }
    ensures within { result ≤ length text.now }
{
    text.iter().take_while(|b| is_blank(**b)).count()
}

/// The number of blanks behind the text.
fn blanks_behind(text: &[u8]) -> usize
    ensures value { result ≡ suffix_len is_blank text.now }
    ensures within { result ≤ length text.now }
{
    text.iter().rev().take_while(|b| is_blank(**b)).count()
}

/// The text without the blanks before it.
fn trim_front(text: &[u8]) -> &[u8]
    ensures value { result.now ≡ without_front text.now }
    ensures shorter { length result.now ≤ length text.now }
{
    text.split_at(blanks_before(text)).1
}

/// The text without the blanks at its ends.
pub(crate) fn trim(text: &[u8]) -> &[u8]
    ensures { result.now ≡ trimmed text.now }
{
    let text = trim_front(text);
    &text[..text.len() - blanks_behind(text)]
}

/// The number of bytes of the first word.
fn word_length(text: &[u8]) -> usize
    ensures value { result ≡ prefix_len is_ink text.now }
    ensures within { result ≤ length text.now }
{
    text.iter().take_while(|b| !is_blank(**b)).count()
}

/// The first word of a text that begins with one. Empty otherwise.
pub(crate) fn first_word(text: &[u8]) -> &[u8]
    ensures { result.now ≡ first_word text.now }
{
    &text[..word_length(text)]
}

/// The text after its first word and the blanks behind that.
pub(crate) fn after_word(text: &[u8]) -> &[u8]
    ensures value { result.now ≡ after_word text.now }
    ensures shorter { length result.now + prefix_len is_ink text.now ≤ length text.now }
{
    trim_front(text.split_at(word_length(text)).1)
}

/// The first word of the text and the text after it. None if the text has no words.
pub(crate) fn next_word(text: &[u8]) -> Option<(&[u8], &[u8])>
    ensures { MatchOption result (words text.now ≡ [])
        (λ found. (words text.now ≡ found.0.now ∷ words found.1.now)
        × (length found.1.now < length text.now)) }
{
    let text = trim_front(text);
    if text.is_empty() {
        return None;
    }
    Some((first_word(text), after_word(text)))
}
