//! Reads the words of a command line, returns the command that they choose, and has the texts of
//! the help.
//!
//! [`words::chosen`] returns a [`Chosen`] in a box: one of thirty-one commands with its values,
//! among them the [`Format`] of a report. `clap` does the reading; a [`WordsFault`] carries its
//! error and has the program's exit status. [`completion::complete`] adds a default setup and store
//! to the words, and [`needs::list_missing`] lists the arguments that they lack. [`desk::asked`]
//! reads the words of a report that is typed at a desk.
//!
//! [`page_of`] returns the help page of a [`Topic`]. A [`Meaning`] explains a word: what it means,
//! its usual cause, and what to do. [`list_verdicts`] returns those of the verdicts. [`DESK_HELP`] and
//! [`DESK_CARDS`] are the help and the cards of a desk. [`nearest_explained`] finds the word that
//! is nearest to a text, for a user who mistypes one.
//!
//! The contracts promise:
//!
//! - A chosen command is the one that the first word names, and each of its values is the one that
//!   `clap` has for the words.
//! - `clap` accepts the words of a chosen command, and a report has at most one of `--csv`,
//!   `--json` and `--table`.
//! - The error in Refused is of a kind that `clap` can report for the words or, if they have two of
//!   `--csv`, `--json` and `--table`, the one for options that exclude each other.
//! - Missing is returned only if nothing is rejected. NoMemory can come instead of any result.
//! - [`nearest_explained`] returns a word with its distance from the text. That it is the nearest
//!   of its table is a private clause (`nearest_in`).
//! - [`Topic::named`] returns the topic of that name, and None only if no topic has it.
//!
//! No contract covers the wording of the pages and explanations.
//!
//! ```text
//! let words = complete(alloc, given, setup, store)?;
//! match chosen(alloc, words.as_slice()) {
//!     Ok(chosen) => match &*chosen {
//!         Chosen::Report(report, Asked::Where(code)) => ..,
//!     },
//!     Err(fault) => fault.status(),
//! }
//!
//! let page = page_of(Topic::Setup);
//! let found = nearest_explained(alloc, "notlisted")?;
//! ```
#![tactic(auto)]

mod arguments;
mod columns;
mod command;
pub mod completion;
pub mod desk;
mod desk_pages;
mod desk_words;
mod faults;
mod meaning;
mod nearest;
pub mod needs;
mod options;
mod pages;
mod preparation;
mod preparation_arguments;
mod preparation_texts;
mod questions;
mod reading;
mod refusals;
mod report_reading;
mod report_texts;
mod seal_words;
mod sealing;
mod sealing_arguments;
mod sealing_texts;
mod shapes;
mod sheet_words;
mod states;
mod store_faults;
mod texts;
mod topic;
mod verdicts;
mod word_tables;
pub mod words;

pub use command::{
    Asked, AuditWords, Chosen, DeskWords, Entries, Format, GapWords, PageWords, ReceiptWords,
    ReplayWords, Report, ResendWords, SealWords, TableWords, WordsFault,
};
pub use desk_pages::{DESK_CARDS, DESK_HELP};
pub use meaning::Meaning;
pub use nearest::Nearest;
pub use pages::page_of;
pub use topic::Topic;
pub use word_tables::{list_verdicts, nearest_explained};
