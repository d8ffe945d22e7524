//! Passes one item to the hub.
ghost use Rattle.std.specs.Prelude.{◌≡◌, ◌++◌, ◌∷◌, [], List, true, IfOk, IsErrOf, OnOk, OnErr};
ghost use Rattle.hub_core.specs.declared.hub.answer.Arrival.{Arrival};
ghost use Rattle.posting_core.specs.declared.entry.Entry.{Entry};
ghost use Rattle.hub_core.specs.Faults.{CountsStore};
ghost use Rattle.hub_core.specs.StandsFor.{StandsFor};
ghost use Rattle.serve_core.specs.declared.item.LogLine.{LogLine};
ghost use Rattle.serve_core.specs.Logs.{item_reply, sent_item, IsPlacedReply, Meets, Serves};
ghost use Rattle.serve_core.specs.Logs.{ServesTo, IsLineOf};

use crate::{Item, LogLine, Reply};
use hub_core::{Arrival, Hub, HubFault};
use register_store::Register;
use std::alloc::Global;

/// Passes an item of a station to the hub. A faulty line isn't passed on.
fn reply_to_item<R: Register>(
    alloc: Global,
    hub: &mut Hub<R>,
    station: u32,
    item: Item,
) -> Result<Reply, HubFault>
    ensures reply { IfOk result
        (λ reply. (O : List Entry) (A : List Arrival) → StandsFor R.holding hub.old O A →
        (reply ≡ item_reply hub.old.book.museum hub.old.book.depth O A station item)
        × StandsFor R.holding hub.new O (A ++ sent_item station item)) }
    ensures level { OnOk result (hub.new.down ≡ hub.old.down) }
    ensures down { IsErrOf result HubFault.Down → hub.old.down ≡ true }
    ensures fault { OnErr result
        ((O : List Entry) (A : List Arrival) → StandsFor R.holding hub.old O A →
        Meets R.holding hub.new O A (sent_item station item)) }
    ensures store { IsErrOf result HubFault.Store → hub.new.down ≡ true }
    ensures placed { IfOk result (IsPlacedReply hub.old.book.museum) }
    ensures count { CountsStore (R.refusals hub.old.register) (R.refusals hub.new.register) result }
    ensures museum { hub.new.book.museum ≡ hub.old.book.museum }
    ensures depth { hub.new.book.depth ≡ hub.old.book.depth }
{
    match item {
        Item::Scan { n, message } => {
            let answer = hub.arrive(
                alloc,
                Arrival {
                    station,
                    n,
                    message,
                },
            )?;
            Ok(Reply::Answered(answer))
        }
        Item::Ask(code) => {
            let place = hub.ask(alloc, &code)?;
            Ok(Reply::Found(place))
        }
        Item::Bad { line: _, fault: _ } => Ok(Reply::Unread),
    }
}

/// Passes an item of a station to the hub, and adds it to the log with its reply. The item is
/// copied, and the log's room is made, before the hub is called: after that the line can always be
/// added. After a fault the log is as it was.
pub(crate) fn log_item<R: Register>(
    alloc: Global,
    hub: &mut Hub<R>,
    station: u32,
    item: Item,
    lines: &mut Vec<LogLine>,
) -> Result<(), HubFault>
    ensures line { OnOk result
        ((line : LogLine) × (lines.new.items ≡ lines.old.items ++ line ∷ [])
        × IsLineOf station item line
        × Serves R.holding hub.old hub.new (line ∷ [])) }
    ensures fault { OnErr result
        ((lines.new.items ≡ lines.old.items)
        × ServesTo R.holding hub.old hub.new [] station item) }
    ensures store { IsErrOf result HubFault.Store → hub.new.down ≡ true }
    ensures level { OnOk result (hub.new.down ≡ hub.old.down) }
    ensures down { IsErrOf result HubFault.Down → hub.old.down ≡ true }
    ensures count { CountsStore (R.refusals hub.old.register) (R.refusals hub.new.register) result }
{
    let asked = item.copy(alloc)?;
    lines.reserve(1)?;
    let reply = reply_to_item(alloc, hub, station, asked)?;
    lines
        .push(LogLine {
            station,
            item,
            reply,
        })
        .unwrap();
    Ok(())
}
