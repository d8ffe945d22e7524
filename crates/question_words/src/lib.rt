//! Which question the words of a report ask.
//!
//! [`wanted_of`] takes the words of a report as `command_words` has them, and returns what they
//! want: the [`Question`](reports::Question) that `reports` answers, or the comparison of a count
//! list, which the caller reads. A value that is not in its form is a [`ValueFault`] with its text.
//! [`day_if`] and [`number_if`] read the same values of other options, and [`form_of`] returns the
//! form of a report. [`desk::desk_question`] reads the words of a report that is typed at a desk.
//!
//! ```text
//! posted --from 17 --refused   Question::Posted: entries 17 and later, refused ones only
//! why 17                       Question::Why: entry 17 alone
//! history C17 --long           Question::LongHistory of C17
//! overdue --on May             ValueFault::Day: BadShape, May
//! ```
#![tactic(auto)]

pub mod desk;
mod fault;
mod form;
mod values;
mod wanted;

pub use fault::{ValueFault, WantedFault};
pub use form::form_of;
pub use values::{day_if, number_if};
pub use wanted::{Wanted, wanted_of};
