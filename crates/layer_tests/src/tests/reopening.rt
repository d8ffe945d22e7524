//! Opens a hub again over a register in memory, which no command does.
use super::MUSEUM;
use hub_core::{Hub, replay};
use nest_core::Setup;
use register_store::PlainRegister;
use std::alloc::Global;
use std::test::Fail;

const FIRST: &[u8] =
    br#"{"station":"GAL","n":1,"message":{"kind":"move","thing":"2001.4.1","place":"S1","day":"2024-05-01"}}
{"station":"GAL","n":2,"message":{"kind":"move","thing":"2001.4.1","place":"S2","day":"2024-05-01"}}
{"station":"GAL","n":4,"message":{"kind":"move","thing":"2001.4.1","place":"S1","day":"2024-05-01"}}
"#;

/// The held message is gone then, and the posted ones are there.
const SECOND: &[u8] =
    br#"{"station":"GAL","n":2,"message":{"kind":"move","thing":"2001.4.1","place":"S2","day":"2024-05-01"}}
{"station":"GAL","n":3,"message":{"kind":"move","thing":"2001.4.1","place":"S1","day":"2024-05-01"}}
{"station":"GAL","ask":"2001.4.1"}
"#;

const REPLIES: &[u8] = b"GAL 1 posted 1 Applied\nGAL 2 posted 2 Applied\nGAL 4 held\n\
    GAL 2 refused Double\nGAL 3 posted 3 Applied\nGAL ask 2001.4.1 at S1\n";

/// Answers the lines over a hub with the museum and this register. Returns the register, and
/// whether all ended without a fault.
fn replayed(
    alloc: Global,
    register: PlainRegister,
    lines: &mut &[u8],
    output: &mut Vec<u8>,
) -> (PlainRegister, bool) {
    let Ok(setup) = Setup::read(alloc, MUSEUM) else {
        return (register, false);
    };
    match Hub::open(alloc, setup, register) {
        Ok(mut hub) => {
            let ended = replay(alloc, lines, output, &mut hub);
            (hub.close(), ended.is_ok())
        }
        Err(failed) => (failed.register, false),
    }
}

#[test]
fn opened_again(rt: HostRuntime) -> Result<(), Fail> {
    let alloc = rt.alloc();
    let mut replies = Vec::new(alloc);
    let register = PlainRegister::new(alloc);
    let (register, first) = replayed(alloc, register, &mut &FIRST[..], &mut replies);
    let (register, second) = replayed(alloc, register, &mut &SECOND[..], &mut replies);
    drop(register);
    assert!(rt; first && second && replies.as_slice() == REPLIES);
    Ok(())
}
