//! The days of a table.
ghost use Rattle.std.specs.Prelude.{◌≡◌, ◌≤◌, take_while, length, not, ◌==◌};
ghost use Rattle.std.specs.Prelude.{None, Some, MatchOption, MatchResult, IsTrue};
ghost use Rattle.codes_core.specs.Day.{day_fault, day_number};
ghost use Rattle.table_core.specs.Days.{before, behind, is_short_number, is_year, is_marked_day};
ghost use Rattle.table_core.specs.Days.{padded, iso_of, marked_text, iso_text};

use crate::DateOrder;
use crate::digits::are_digits;
use codes_core::{CodeFault, Day};

/// Returns the day that a text spells: `YYYY-MM-DD`, or the form of the order. Fails with the first
/// of `Empty`, `BadShape` and `NoSuchDay` that applies.
pub(crate) fn day_of(order: DateOrder, text: &[u8]) -> Result<Day, CodeFault>
    ensures { MatchResult result
        (λ day. (day ≡ day_number (iso_text order text.now))
        × (day_fault (iso_text order text.now) ≡ None))
        (λ fault. day_fault (iso_text order text.now) ≡ Some fault) }
{
    match iso_text(order, text) {
        Some(iso) => Day::parse(&iso),
        None => Day::parse(text),
    }
}

/// The text as `YYYY-MM-DD`. None if it has no form of the order.
fn iso_text(order: DateOrder, text: &[u8]) -> Option<[u8; 10]>
    ensures { MatchOption result (iso_text order text.now ≡ text.now)
        (λ iso. iso ≡ iso_text order text.now) }
{
    let is_day_first = match order {
        DateOrder::YearFirst => return None,
        DateOrder::DayFirst => true,
        DateOrder::MonthFirst => false,
    };
    if is_marked_day(text, b'/') {
        return Some(marked_text(is_day_first, text, b'/'));
    }
    if is_marked_day(text, b'.') {
        return Some(marked_text(is_day_first, text, b'.'));
    }
    None
}

/// The number of bytes before the first mark.
fn front_length(text: &[u8], mark: u8) -> usize
    ensures count { result ≡ length (take_while (λ b. not (b == mark)) text.now) }
    ensures within { result ≤ length text.now }
{
    text.iter().take_while(|b| **b != mark).count()
}

/// The text before the first mark.
fn before(text: &[u8], mark: u8) -> &[u8]
    ensures { result.now ≡ before mark text.now }
{
    &text[..front_length(text, mark)]
}

/// The text after the first mark.
fn behind(text: &[u8], mark: u8) -> &[u8]
    ensures { result.now ≡ behind mark text.now }
{
    let length = front_length(text, mark);
    if length < text.len() {
        &text[length + 1..]
    } else {
        &[]
    }
}

fn is_short_number(text: &[u8]) -> bool
    ensures { result ≡ is_short_number text.now }
{
    !text.is_empty() && text.len() <= 2 && are_digits(text)
}

fn is_year(text: &[u8]) -> bool
    ensures { result ≡ is_year text.now }
{
    text.len() == 4 && are_digits(text)
}

fn is_marked_day(text: &[u8], mark: u8) -> bool
    ensures { result ≡ is_marked_day mark text.now }
{
    let rest = behind(text, mark);
    is_short_number(before(text, mark))
        && is_short_number(before(rest, mark))
        && is_year(behind(rest, mark))
}

/// The day as `YYYY-MM-DD`, with its day or its month first in the text.
fn marked_text(is_day_first: bool, text: &[u8], mark: u8) -> [u8; 10]
    requires { IsTrue (is_marked_day mark text.now) }
    ensures { result ≡ marked_text is_day_first mark text.now }
{
    let rest = behind(text, mark);
    let first = padded(before(text, mark));
    let second = padded(before(rest, mark));
    let year = behind(rest, mark);
    if is_day_first {
        iso_of(year, second, first)
    } else {
        iso_of(year, first, second)
    }
}

fn iso_of(year: &[u8], month: [u8; 2], date: [u8; 2]) -> [u8; 10]
    requires { IsTrue (is_year year.now) }
    ensures { result ≡ iso_of year.now month date }
{
    let [m1, m2] = month;
    let [d1, d2] = date;
    match year {
        [y1, y2, y3, y4] => [*y1, *y2, *y3, *y4, b'-', m1, m2, b'-', d1, d2],
        _ => unreachable!(),
    }
}

/// A number of one digit or two with two digits.
fn padded(digits: &[u8]) -> [u8; 2]
    requires { IsTrue (is_short_number digits.now) }
    ensures { result ≡ padded digits.now }
{
    match digits {
        [only] => [b'0', *only],
        [first, second] => [*first, *second],
        _ => unreachable!(),
    }
}
