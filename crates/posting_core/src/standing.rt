//! How many entries each station has, and whether it has signed off.
ghost use Rattle.std.specs.Prelude.{◌≡◌, ◌<◌, IfOk, length, replicate};
ghost use Rattle.posting_core.specs.Messages.{is_sign_off};
ghost use Rattle.posting_core.specs.Standings.{no_standing, standings_with};

use crate::{Entry, Message};
use codes_core::NoMemory;
use std::alloc::Global;

/// The number of a station's entries, and whether one of them is its sign-off.
#[derive(Clone, Copy)]
pub(crate) struct Standing {
    pub count: u32,
    pub signed_off: bool,
}

/// The standings of this many stations that have no entries. Fails with `NoMemory`.
pub(crate) fn new_standings(alloc: Global, stations: u32) -> Result<Vec<Standing>, NoMemory>
    ensures { IfOk result (λ standings. standings.items ≡ replicate stations no_standing) }
{
    let none = Standing {
        count: 0,
        signed_off: false,
    };
    Ok(vec![in alloc; none; stations as usize]?)
}

/// Counts an entry for its station, whose last it now is.
pub(crate) fn count_entry(standings: &mut Vec<Standing>, entry: &Entry)
    requires { entry.now.station < length standings.old.items }
    ensures { standings.new.items ≡ standings_with standings.old.items entry.now }
{
    standings[entry.station as usize] = Standing {
        count: entry.n,
        signed_off: is_sign_off(&entry.message),
    };
}

/// Whether the message is the last of its station.
fn is_sign_off(message: &Message) -> bool
    ensures { result ≡ is_sign_off message.now }
{
    matches!(message, Message::SignOff { .. })
}
