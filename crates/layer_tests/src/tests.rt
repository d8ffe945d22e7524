//! Tests of the other crates, through their public calls. `cases/` and `tests/` have the tests that
//! run through the program.
//!
//! A setup, a register, a ledger and a hub are dropped by `drop`, and no `?` is used while one of
//! them is alive. If one ended with its scope, the prover would need 2 to 17 seconds for each
//! return.

mod counts;
mod lanes;
mod merkle_heads;
mod messages;
mod plain_lines;
mod reopening;
mod serving;

/// Two stations, PACK and GAL, and two objects.
const MUSEUM: &[u8] =
    b"station,PACK\nstation,GAL\nplace,S1,inside\nplace,S2,inside\nown,2001.4.1,S1\nown,2001.4.2,S1\n";
