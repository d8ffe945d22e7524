//! Days of the calendar: parsing, writing and day numbers.
ghost use Rattle.std.specs.Prelude.{◌≡◌, true, false, ◌++◌, ◌-ℤ◌, ◌≤◌, ◌≤ℤ◌, pos, List, ℕ, None};
ghost use Rattle.std.specs.Prelude.{Some, IfSome, IfNone, OnOk, OnErr, MatchResult, MatchOption};
ghost use Rattle.std.specs.Prelude.{string_bytes};
ghost use Rattle.jiff_core.specs.Calendar.{days_from_civil};
ghost use Rattle.codes_core.specs.Day.{is_day_shape, is_civil, day_fault, day_number, first_number};
ghost use Rattle.codes_core.specs.Day.{last_number, IsOnlySpelling, day_text, date_text};
ghost use Rattle.codes_core.specs.Day.{two_digits};

use crate::digits::{are_digits, number_of};
use crate::spelling::Spelling;
use crate::{CodeFault, NoMemory};
use jiff_core::civil::Date;
use std::alloc::Global;
use std::marker::Model;

/// The day number of 0001-01-01.
const FIRST: i64 = -719_162;

/// The day number of 9999-12-31.
const LAST: i64 = 2_932_896;

/// A day of the years 1 to 9999 in the proleptic Gregorian calendar, spelled `YYYY-MM-DD`
/// (`2024-05-01`).
///
/// Contracts see it as its day number: the days since 1970-01-01, negative before that. The default
/// is day 0.
#[derive(Clone, Copy, Debug, Default, PartialEq, Eq, PartialOrd, Ord, Hash)]
pub struct Day {
    number: i32,
}

impl Model for Day {
    ghost use Rattle.std.specs.Prelude.{ℤ, ◌≤ℤ◌};
    ghost use Rattle.codes_core.specs.Day.{first_number, last_number};

    ghost Value = { ℤ };

    ghost view = { λ d. d.number };

    ghost invariant = { λ d. (first_number ≤ℤ d.number) × (d.number ≤ℤ last_number) };

    ghost inverse = { λ n. record { number = n } };
}

impl Day {
    /// Returns the day that the bytes spell.
    ///
    /// Fails with the first of these that applies: `Empty`; `BadShape`, if the bytes are not digits
    /// in the form `YYYY-MM-DD`; `NoSuchDay`, if the calendar has no such day or the year is 0000.
    pub fn parse(bytes: &[u8]) -> Result<Day, CodeFault>
        ensures exact { MatchResult result
            (λ day. (day ≡ day_number bytes.now) × (day_fault bytes.now ≡ None))
            (λ fault. day_fault bytes.now ≡ Some fault) }
    {
        if bytes.is_empty() {
            return Err(CodeFault::Empty);
        }
        if !is_day_shape(bytes) {
            return Err(CodeFault::BadShape);
        }
        let year = number_of(&bytes[..4]);
        let month = number_of(&bytes[5..7]);
        let date = number_of(&bytes[8..]);
        match civil_day(year, month, date) {
            Some(day) => Ok(day),
            None => Err(CodeFault::NoSuchDay),
        }
    }

    /// Appends the day as `YYYY-MM-DD`, its only spelling. Fails with `NoMemory`, and then `out` is
    /// unchanged.
    pub fn write(&self, _alloc: Global, out: &mut String) -> Result<(), NoMemory>
        ensures ok { OnOk result
            ((text : List ℕ) × IsOnlySpelling text self.now
            × (string_bytes out.new ≡ string_bytes out.old ++ text)) }
        ensures text { OnOk result
            (string_bytes out.new ≡ string_bytes out.old ++ day_text self.now) }
        ensures err { OnErr result (string_bytes out.new ≡ string_bytes out.old) }
    {
        self.spelling().write(out)
    }

    fn spelling(&self) -> Spelling<10>
        ensures only { IsOnlySpelling result self.now }
        ensures text { result ≡ day_text self.now }
    {
        let date = Date::from_unix_epoch_day(self.number as i64).unwrap();
        Spelling::new(&text_of(date.year.unsigned_abs(), date.month, date.day))
    }

    /// The day number: the days since 1970-01-01.
    pub fn number(self) -> i32
        ensures number { result ≡ self }
        ensures spelled { IsOnlySpelling (day_text self) self }
    {
        self.number
    }

    /// Returns the day with this number, or `None` outside the years 1 to 9999.
    pub fn numbered(number: i64) -> Option<Day>
        ensures some { IfSome result (λ day. day ≡ number) }
        ensures none { IfNone result ((first_number ≤ℤ number) × (number ≤ℤ last_number) → ⊥) }
    {
        if number < FIRST || number > LAST {
            return None;
        }
        Some(Day {
            number: number as i32,
        })
    }

    /// Returns the days from `other` to this day, negative if this day is the earlier one.
    pub fn days_after(self, other: Day) -> i32
        ensures { result ≡ self -ℤ other }
    {
        self.number - other.number
    }
}

/// The day of this year, month and date. `None` if the calendar has no such day or the year is 0.
fn civil_day(year: u16, month: u16, date: u16) -> Option<Day>
    requires year { year ≤ 9999 }
    requires month { month ≤ 99 }
    requires date { date ≤ 99 }
    ensures { MatchOption result (is_civil year month date ≡ false)
        (λ day. (is_civil year month date ≡ true) × (day ≡ days_from_civil (pos year) month date)) }
{
    if year == 0 {
        return None;
    }
    match Date::new(year as i16, month as i8, date as i8) {
        Ok(found) => Some(Day {
            number: found.to_unix_epoch_day(),
        }),
        Err(_) => None,
    }
}

fn is_day_shape(text: &[u8]) -> bool
    ensures { result ≡ is_day_shape text.now }
{
    text.len() == 10
        && are_digits(&text[..4])
        && text[4] == b'-'
        && are_digits(&text[5..7])
        && text[7] == b'-'
        && are_digits(&text[8..])
}

/// The text `YYYY-MM-DD`.
fn text_of(year: u16, month: u8, date: u8) -> [u8; 10]
    ensures { result ≡ date_text year month date }
{
    let [y1, y2] = two_digits(year / 100);
    let [y3, y4] = two_digits(year);
    let [m1, m2] = two_digits(month as u16);
    let [d1, d2] = two_digits(date as u16);
    [y1, y2, y3, y4, b'-', m1, m2, b'-', d1, d2]
}

/// The last two digits of a number.
fn two_digits(n: u16) -> [u8; 2]
    ensures { result ≡ two_digits n }
{
    [b'0' + (n / 10 % 10) as u8, b'0' + (n % 10) as u8]
}
