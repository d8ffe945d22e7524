//! Tests of the other crates, through their public calls.
//!
//! The tests are in a crate of their own, because a crate with tests in it is proved twice. They
//! cover what no contract promises and no run of the program shows: that calls succeed if there is
//! memory, and that threads work side by side. This crate promises nothing itself.
//! `docs/PROMISES.md` lists what is tested here.
//!
//! ```text
//! cd crates/layer_tests
//! rt try --test      # runs the tests before any proof
//! ```
#![tactic(auto)]

#[cfg(test)]
mod tests;
