//! Reads messages from JSON.
ghost use Rattle.std.specs.Prelude.{◌≡◌, ◌≢◌, true, Ok, Err, IsOk, IfErr, MatchResult};
ghost use Rattle.serde_json.specs.View.{view};
ghost use Rattle.register_store.specs.Kinds.{of_row, move_row, pack_row, sign_off_row};
ghost use Rattle.register_store.specs.Kinds.{takes_memory, of_json, of_bytes};

use crate::field::{day_at, name_at, place_at, thing_at, value_at};
use crate::loan_reader::loan_message_of;
use crate::{Key, ReadFault};
use borrowed_json::{Fields, Scratch, TextFault};
use posting_core::Message;
use serde_json::Value;
use std::alloc::Global;

/// Returns the message that JSON text spells. Fails with its first fault; any call may fail with
/// `NoMemory` instead.
pub fn read_message(alloc: Global, bytes: &[u8]) -> Result<Message, ReadFault>
    ensures exact { MatchResult result (λ message. of_bytes bytes.now ≡ Ok message)
        (λ fault. fault ≢ ReadFault.NoMemory → of_bytes bytes.now ≡ Err fault) }
{
    let mut scratch = Scratch::new(alloc);
    match borrowed_json::Value::from_slice(alloc, bytes, &mut scratch) {
        Ok(value) => message_in(alloc, &value),
        Err(TextFault::NotJson) => Err(ReadFault::NotJson),
        Err(TextFault::NoMemory) => Err(ReadFault::NoMemory),
    }
}

/// Returns the message that a JSON value spells. Fails with its first fault, or with `NoMemory`,
/// but only if the value is of a kind that keeps a name or a list of objects.
pub fn message_of(alloc: Global, value: &Value) -> Result<Message, ReadFault>
    ensures exact { MatchResult result (λ message. of_json (view value.now) ≡ Ok message)
        (λ fault. fault ≢ ReadFault.NoMemory → of_json (view value.now) ≡ Err fault) }
    ensures gives_up { result ≡ Err ReadFault.NoMemory → takes_memory (view value.now) ≡ true }
{
    message_in(alloc, value)
}

/// The same for any JSON value, whether it owns its text or borrows it.
#[tactic(auto, using(crate::proofs::Objects::of_object, crate::proofs::Objects::no_object))]
#[inline(always)]
pub fn message_in<V: Fields>(alloc: Global, value: &V) -> Result<Message, ReadFault>
    ensures exact { MatchResult result (λ message. of_json (V.seen value.now) ≡ Ok message)
        (λ fault. fault ≢ ReadFault.NoMemory → of_json (V.seen value.now) ≡ Err fault) }
    ensures gives_up { result ≡ Err ReadFault.NoMemory → takes_memory (V.seen value.now) ≡ true }
{
    if !value.has_members() {
        return Err(ReadFault::NotJson);
    }
    let Some(kind) = value_at(value, Key::Kind)?.text() else {
        return Err(ReadFault::BadKind);
    };
    match kind {
        "move" => move_of(value),
        "pack" => pack_of(value),
        "signoff" => sign_off_of(alloc, value),
        _ => loan_message_of(alloc, kind, value),
    }
}

fn move_of<V: Fields>(object: &V) -> Result<Message, ReadFault>
    ensures exact { MatchResult result
        (λ message. of_row (V.seen object.now) move_row ≡ Ok message)
        (λ fault. of_row (V.seen object.now) move_row ≡ Err fault) }
    ensures told { IfErr result (λ fault. fault ≢ ReadFault.NoMemory) }
{
    let thing = thing_at(object, Key::Thing)?;
    let place = place_at(object, Key::Place)?;
    let day = day_at(object, Key::Day)?;
    Ok(Message::Move { thing, place, day })
}

fn pack_of<V: Fields>(object: &V) -> Result<Message, ReadFault>
    ensures exact { MatchResult result
        (λ message. of_row (V.seen object.now) pack_row ≡ Ok message)
        (λ fault. of_row (V.seen object.now) pack_row ≡ Err fault) }
    ensures told { IfErr result (λ fault. fault ≢ ReadFault.NoMemory) }
{
    let thing = thing_at(object, Key::Thing)?;
    let container = thing_at(object, Key::Container)?;
    let day = day_at(object, Key::Day)?;
    Ok(Message::Pack {
        thing,
        container,
        day,
    })
}

fn sign_off_of<V: Fields>(alloc: Global, object: &V) -> Result<Message, ReadFault>
    ensures exact { MatchResult result
        (λ message. of_row (V.seen object.now) sign_off_row ≡ Ok message)
        (λ fault. fault ≢ ReadFault.NoMemory
        → of_row (V.seen object.now) sign_off_row ≡ Err fault) }
    ensures gives_up { result ≡ Err ReadFault.NoMemory
        → IsOk (of_row (V.seen object.now) sign_off_row) }
{
    let name = name_at(alloc, object, Key::By)?;
    Ok(Message::SignOff { name })
}
