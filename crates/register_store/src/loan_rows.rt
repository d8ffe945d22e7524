//! The loan lines and the last days of loans in memory.
ghost use Rattle.std.specs.Prelude.{◌≡◌, ◌≤◌, length};
ghost use Rattle.std.specs.List.Sorted.{IsPermutation};
ghost use Rattle.std.specs.Option.{option_map, option_map_or};
ghost use Rattle.indexmap.specs.IndexMap.{spare};
ghost use Rattle.register_store.specs.StoredRows.{is_same_loan, put, put_each, term_of};
ghost use Rattle.register_store.specs.Plain.{has_same_key, held_lines, term_rows};

use codes_core::{Day, LoanCode};
use indexmap::IndexMap;
use nest_core::ThingNo;
use posting_core::{Entry, LineStage, Message, NewLine, Verdict};

/// The key of a loan line: a loan and one of its objects.
#[derive(Clone, Copy, PartialEq, Eq, Hash)]
pub struct LineKey {
    /// The loan's code.
    pub loan: LoanCode,
    /// The object's number, from 0.
    pub object: ThingNo,
}

/// Sets these lines, in place of those of the same loan and object. There must be room for all.
pub(crate) fn put_lines(kept: &mut IndexMap<LineKey, LineStage>, lines: &[NewLine])
    requires { length lines.now ≤ spare kept.old }
    ensures { IsPermutation (held_lines kept.new.entries)
        (put_each has_same_key lines.now (held_lines kept.old.entries)) }
{
    for i in 0..lines.len() {
        let line = lines[i];
        let key = LineKey {
            loan: line.loan,
            object: line.object,
        };
        kept.insert(key, line.stage).unwrap();
    }
}

/// Records the last day that an entry sets for its loan, if it sets one, in place of the one
/// before. There must be room for one more.
pub(crate) fn put_term(kept: &mut IndexMap<LoanCode, Day>, entry: &Entry)
    requires { 1 ≤ spare kept.old }
    ensures { IsPermutation (term_rows kept.new.entries)
        (option_map_or (λ t. put is_same_loan t (term_rows kept.old.entries)) (term_of entry.now)
        (term_rows kept.old.entries)) }
{
    if let Some((loan, day)) = term_of(entry) {
        kept.insert(loan, day).unwrap();
    }
}

/// The loan that an entry agrees or extends, and its new last day. `None` for other entries and for
/// refused ones.
pub fn term_of(entry: &Entry) -> Option<(LoanCode, Day)>
    ensures { option_map (λ t. record { loan = t.0; day = t.1 }) result ≡ term_of entry.now }
{
    if !matches!(entry.verdict, Verdict::Applied) {
        return None;
    }
    match &entry.message {
        Message::Agree { loan, last, .. } => Some((*loan, *last)),
        Message::Extend { loan, last } => Some((*loan, *last)),
        _ => None,
    }
}
