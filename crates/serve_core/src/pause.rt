//! Rests when a lane is full, or when all lanes are empty.

use std::sync::Wait;
use std::thread::Parker;
use std::time::Duration;

/// In this many microseconds a hub takes a few hundred items.
const REST: u64 = 250;

/// Leaves the processor to other threads until a hub may have taken a few hundred items from each
/// of this many lanes. A lane that was full isn't empty by then.
pub(crate) fn rest(rt: &impl Wait, lanes: usize) {
    let micros = REST.saturating_mul(lanes as u64);
    Parker::new().park_timeout(rt, Duration::from_micros(micros));
}
