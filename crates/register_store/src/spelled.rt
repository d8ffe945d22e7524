//! The proof that the texts in a message are valid.
ghost use Rattle.std.specs.Prelude.{◌≡◌, true};
ghost use Rattle.std.specs.List.{list_all};
ghost use Rattle.register_store.specs.Spelling.{is_thing};
ghost use Rattle.register_store.specs.MessageText.{AreThings, IsSpelled};

use codes_core::ThingCode;
use posting_core::{Message, Objects};

/// For proofs: the codes, names and days in a message are valid, so that the message has a text
/// even if nobody makes it. The function calls the accessors only for their contracts.
pub(crate) fn message_is_spelled(message: &Message)
    ensures { IsSpelled message.now }
{
    match message {
        Message::Move { thing, place, day } => {
            thing.as_bytes();
            place.as_bytes();
            day.number();
        }
        Message::Pack {
            thing,
            container,
            day,
        } => {
            thing.as_bytes();
            container.as_bytes();
            day.number();
        }
        Message::Agree {
            loan,
            partner,
            objects,
            first,
            last,
        } => {
            loan.as_bytes();
            partner.as_bytes();
            objects_are_spelled(objects);
            first.number();
            last.number();
        }
        Message::Authorise { loan, name } => {
            loan.as_bytes();
            name.as_str();
        }
        Message::Exit { thing, loan, day } => {
            thing.as_bytes();
            loan.as_bytes();
            day.number();
        }
        Message::Return {
            thing,
            loan,
            place,
            day,
        } => {
            thing.as_bytes();
            loan.as_bytes();
            place.as_bytes();
            day.number();
        }
        Message::Receive {
            thing,
            loan,
            place,
            day,
        } => {
            thing.as_bytes();
            loan.as_bytes();
            place.as_bytes();
            day.number();
        }
        Message::SignOff { name } => {
            name.as_str();
        }
        Message::Extend { loan, last } => {
            loan.as_bytes();
            last.number();
        }
    }
}

fn objects_are_spelled(objects: &Objects)
    ensures { AreThings objects.now }
{
    things_are_spelled(objects.as_slice());
}

fn things_are_spelled(things: &[ThingCode])
    ensures { list_all is_thing things.now ≡ true }
{
    for thing in things {
        thing.as_bytes();
    }
}
