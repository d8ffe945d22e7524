//! Checks the groups of a code, the parts between its dots.
ghost use Rattle.std.specs.Prelude.{◌≡◌, ◌≤◌, ◌&&◌, not, ◌==◌, length, take_while};
ghost use Rattle.std.specs.List.{list_all};
ghost use Rattle.std.specs.Option.{option_map};
ghost use Rattle.codes_core.specs.Grammar.{is_digits, is_right_number, is_year, are_few, groups};
ghost use Rattle.codes_core.specs.Grammar.{are_groups, has_right_groups, numbers_of};

use crate::digits::{is_digits, is_right_number};

/// The number of bytes before the first dot.
fn group_length(text: &[u8]) -> usize
    ensures count { result ≡ length (take_while (λ b. not (b == 46)) text.now) }
    ensures within { result ≤ length text.now }
{
    text.iter().take_while(|b| **b != b'.').count()
}

/// Whether every group is a valid number. `None` if the text is not one to `most` groups of digits.
fn digit_groups(text: &[u8], most: u32) -> Option<bool>
    ensures { result
        ≡ numbers_of (are_few is_digits most (groups text.now))
        (list_all is_right_number (groups text.now)) }
{
    if most == 0 {
        return None;
    }
    let (first, rest) = text.split_at(group_length(text));
    if !is_digits(first) {
        return None;
    }
    let is_right = is_right_number(first);
    match rest {
        [] => Some(is_right),
        [_, after @ ..] => with_number(is_right, digit_groups(after, most - 1)),
    }
}

/// Whether a number and those after it are valid. `None` if the text after it has the wrong shape.
fn with_number(is_right: bool, others: Option<bool>) -> Option<bool>
    ensures { result ≡ option_map (λ o. is_right && o) others }
{
    match others {
        Some(are_right) => Some(is_right && are_right),
        None => None,
    }
}

fn is_year(digits: &[u8]) -> bool
    ensures { result ≡ is_year digits.now }
{
    digits.len() == 4 && is_digits(digits)
}

/// Whether every group after the first is a valid number. `None` if the text is not four digits and
/// then one to `most` groups of digits.
pub(crate) fn numbers_of(text: &[u8], most: u32) -> Option<bool>
    ensures { result
        ≡ numbers_of (are_groups most (groups text.now)) (has_right_groups (groups text.now)) }
{
    let (year, rest) = text.split_at(group_length(text));
    match rest {
        [] => None,
        [_, numbers @ ..] => {
            if !is_year(year) {
                return None;
            }
            digit_groups(numbers, most)
        }
    }
}
