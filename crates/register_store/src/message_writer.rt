//! Writes messages as JSON.
ghost use Rattle.std.specs.Prelude.{◌≡◌, IfOk, Ok, string_bytes};
ghost use Rattle.register_store.specs.Kinds.{of_bytes};
ghost use Rattle.register_store.specs.MessageText.{IsTextOf, body_of};
ghost use Rattle.register_store.specs.MessageTokens.{Appends, tokens_of};

use crate::Key;
use crate::loan_writer::{
    write_agree, write_authorise, write_exit, write_extend, write_receive, write_return,
};
use crate::member::{
    close_object, open_object, write_day, write_name, write_place, write_text, write_thing,
};
use crate::spelled::message_is_spelled;
use codes_core::{Day, Name, NoMemory, PlaceCode, ThingCode};
use json::Writer;
use posting_core::Message;
use std::alloc::Global;

/// The bytes that are reserved for a text. All but the longest fit.
const ROOM: usize = 128;

/// Returns the one text of a message: compact JSON, with its keys in ascending order. Reading the
/// text returns the message. Fails with `NoMemory`.
pub fn message_text(alloc: Global, message: &Message) -> Result<String, NoMemory>
    ensures text { IfOk result (λ text. IsTextOf message.now (string_bytes text)) }
    ensures reads_back { IfOk result (λ text. of_bytes (string_bytes text) ≡ Ok message.now) }
{
    let mut out = Writer::new(Vec::with_capacity(alloc, ROOM)?);
    write_message(alloc, &mut out, message)?;
    Ok(String::from_utf8(out.into_inner()).unwrap())
}

/// Writes the text of a message, token by token. Fails with `NoMemory`, and then some of the tokens
/// may be written.
pub fn write_message(alloc: Global, out: &mut Writer, message: &Message) -> Result<(), NoMemory>
    ensures tokens { Appends result out.old out.new (tokens_of message.now) }
    // Reading the text returns the message.
    ensures reads_back { of_bytes (body_of message.now) ≡ Ok message.now }
{
    message_is_spelled(message);
    write_tokens(alloc, out, message)
}

fn write_tokens(alloc: Global, out: &mut Writer, message: &Message) -> Result<(), NoMemory>
    ensures { Appends result out.old out.new (tokens_of message.now) }
{
    match message {
        Message::Move { thing, place, day } => write_move(alloc, out, thing, place, *day),
        Message::Pack {
            thing,
            container,
            day,
        } => write_pack(alloc, out, thing, container, *day),
        Message::Agree {
            loan,
            partner,
            objects,
            first,
            last,
        } => write_agree(alloc, out, loan, partner, objects, *first, *last),
        Message::Authorise { loan, name } => write_authorise(out, loan, name),
        Message::Exit { thing, loan, day } => write_exit(alloc, out, thing, loan, *day),
        Message::Return {
            thing,
            loan,
            place,
            day,
        } => write_return(alloc, out, thing, loan, place, *day),
        Message::Receive {
            thing,
            loan,
            place,
            day,
        } => write_receive(alloc, out, thing, loan, place, *day),
        Message::Extend { loan, last } => write_extend(alloc, out, loan, *last),
        Message::SignOff { name } => write_sign_off(out, name),
    }
}

fn write_move(
    alloc: Global,
    out: &mut Writer,
    thing: &ThingCode,
    place: &PlaceCode,
    day: Day,
) -> Result<(), NoMemory>
    ensures { Appends result out.old out.new (tokens_of (Message.Move day thing.now place.now)) }
{
    open_object(out)?;
    write_day(alloc, out, Key::Day, day)?;
    write_text(out, Key::Kind, "move")?;
    write_place(out, Key::Place, place)?;
    write_thing(out, Key::Thing, thing)?;
    close_object(out)?;
    Ok(())
}

fn write_pack(
    alloc: Global,
    out: &mut Writer,
    thing: &ThingCode,
    container: &ThingCode,
    day: Day,
) -> Result<(), NoMemory>
    ensures { Appends result out.old out.new
        (tokens_of (Message.Pack day thing.now container.now)) }
{
    open_object(out)?;
    write_thing(out, Key::Container, container)?;
    write_day(alloc, out, Key::Day, day)?;
    write_text(out, Key::Kind, "pack")?;
    write_thing(out, Key::Thing, thing)?;
    close_object(out)?;
    Ok(())
}

fn write_sign_off(out: &mut Writer, name: &Name) -> Result<(), NoMemory>
    ensures { Appends result out.old out.new (tokens_of (Message.SignOff name.now)) }
{
    open_object(out)?;
    write_name(out, name)?;
    write_text(out, Key::Kind, "signoff")?;
    close_object(out)?;
    Ok(())
}
