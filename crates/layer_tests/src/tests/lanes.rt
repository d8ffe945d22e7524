//! Lanes without threads.
use super::MUSEUM;
use codes_core::ThingCode;
use hub_core::Hub;
use nest_core::Setup;
use register_store::PlainRegister;
use serve_core::{Item, Lane, Log, lanes};
use std::alloc::Global;
use std::test::Fail;

/// Sends the same question through a lane this many times. Returns how many of them came back.
fn send(lane: &mut Lane, thing: ThingCode, count: u32) -> u32 {
    let mut back = 0u32;
    for _ in 0..count {
        if lane.send(Item::Ask(thing)).is_err() {
            back = back.saturating_add(1);
        }
    }
    back
}

/// Sends one question more than a lane has room for through the first of two lanes, and two through
/// the second, and takes three turns. Returns how many questions came back, and how many each turn
/// took.
fn three_turns(alloc: Global, hub: &mut Hub<PlainRegister>) -> Result<(u32, u32, u32, u32), Fail> {
    let thing = ThingCode::parse(b"2001.4.1")?;
    let (mut lanes, mut intake) = lanes(alloc, 2)?;
    let mut back = 0;
    if lanes.len() == 2 {
        back = send(&mut lanes[0], thing, 2049);
        let _ = send(&mut lanes[1], thing, 2);
    }
    let mut log = Log::new(alloc);
    let first = intake.turn(alloc, hub, &mut log)?;
    let second = intake.turn(alloc, hub, &mut log)?;
    let third = intake.turn(alloc, hub, &mut log)?;
    Ok((back, first, second, third))
}

#[test]
fn one_item_a_turn(rt: HostRuntime) -> Result<(), Fail> {
    let setup = Setup::read(rt.alloc(), MUSEUM)?;
    let hub = Hub::open(rt.alloc(), setup, PlainRegister::new(rt.alloc())).ok();
    let mut hub = hub.ok_or("not opened")?;
    let told = three_turns(rt.alloc(), &mut hub);
    drop(hub);
    assert!(rt; told? == (1, 2, 2, 1));
    Ok(())
}
