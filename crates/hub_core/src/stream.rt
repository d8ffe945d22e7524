//! A stream of lines: the setup at its head, the lines answered one after another, and a run, which
//! is both.

pub(crate) mod head;
pub(crate) mod lines;
mod report;
pub(crate) mod run;
