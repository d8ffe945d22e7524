//! Tests on decimal digits, and the number that they spell.
ghost use Rattle.std.specs.Prelude.{◌≡◌, ◌≤◌, ◌<◌, ◌^◌, length, IsTrue};
ghost use Rattle.std.specs.Char.{is_ascii_digit};
ghost use Rattle.std.specs.List.{list_all};
ghost use Rattle.codes_core.specs.Grammar.{is_digits, is_right_number, number_of};

/// Whether the text is one or more digits and nothing more.
pub(crate) fn is_digits(text: &[u8]) -> bool
    ensures { result ≡ is_digits text.now }
{
    !text.is_empty() && are_digits(text)
}

/// Whether every byte is a digit. True for the empty text.
pub(crate) fn are_digits(text: &[u8]) -> bool
    ensures { result ≡ list_all is_ascii_digit text.now }
{
    text.iter().all(|b| b.is_ascii_digit())
}

/// Whether the digits, if there is at least one, spell a number from 1 to 999,999 without a leading
/// 0.
pub(crate) fn is_right_number(digits: &[u8]) -> bool
    ensures { result ≡ is_right_number digits.now }
{
    digits.len() <= 6 && !digits.starts_with(b"0")
}

/// The number that at most four digits spell.
pub(crate) fn number_of(digits: &[u8]) -> u16
    requires digits { IsTrue (list_all is_ascii_digit digits.now) }
    requires few { length digits.now ≤ 4 }
    ensures value { result ≡ number_of digits.now }
    ensures bound { result < 10 ^ length digits.now }
{
    let mut number = 0;
    for digit in digits {
        number = 10 * number + (*digit - b'0') as u16;
    }
    number
}
