//! Reads messages about loans from JSON.
ghost use Rattle.std.specs.Prelude.{◌≡◌, ◌≢◌, true, is_some, Ok, Err, IsOk, IfErr, MatchResult};
ghost use Rattle.register_store.specs.Kinds.{kind_named, loan_kinds, kinds_that_grow, of_named};
ghost use Rattle.register_store.specs.Kinds.{of_row, agree_row, authorise_row, exit_row};
ghost use Rattle.register_store.specs.Kinds.{return_row, receive_row, extend_row};

use crate::field::{day_at, loan_at, name_at, place_at, thing_at};
use crate::object_list::objects_at;
use crate::{Key, ReadFault};
use borrowed_json::Fields;
use posting_core::Message;
use std::alloc::Global;

/// Returns the message about a loan that an object of this kind spells. Fails with `BadKind` if no
/// message about a loan has this kind, otherwise with the first fault of its keys. Fails with
/// `NoMemory`, but only for a kind that keeps a name or a list of objects.
pub(crate) fn loan_message_of<V: Fields>(
    alloc: Global,
    kind: &str,
    object: &V,
) -> Result<Message, ReadFault>
    ensures exact { MatchResult result
        (λ message. of_named (V.seen object.now) (kind_named loan_kinds kind.now) ≡ Ok message)
        (λ fault. fault ≢ ReadFault.NoMemory
        → of_named (V.seen object.now) (kind_named loan_kinds kind.now) ≡ Err fault) }
    ensures gives_up { result ≡ Err ReadFault.NoMemory
        → is_some (kind_named kinds_that_grow kind.now) ≡ true }
{
    match kind {
        "agree" => agree_of(alloc, object),
        "authorise" => authorise_of(alloc, object),
        "exit" => exit_of(object),
        "return" => return_of(object),
        "receive" => receive_of(object),
        "extend" => extend_of(object),
        _ => Err(ReadFault::BadKind),
    }
}

fn agree_of<V: Fields>(alloc: Global, object: &V) -> Result<Message, ReadFault>
    ensures exact { MatchResult result
        (λ message. of_row (V.seen object.now) agree_row ≡ Ok message)
        (λ fault. fault ≢ ReadFault.NoMemory → of_row (V.seen object.now) agree_row ≡ Err fault) }
{
    let loan = loan_at(object, Key::Loan)?;
    let partner = place_at(object, Key::Partner)?;
    let objects = objects_at(alloc, object, Key::Objects)?;
    let first = day_at(object, Key::First)?;
    let last = day_at(object, Key::Last)?;
    Ok(Message::Agree {
        loan,
        partner,
        objects,
        first,
        last,
    })
}

fn authorise_of<V: Fields>(alloc: Global, object: &V) -> Result<Message, ReadFault>
    ensures exact { MatchResult result
        (λ message. of_row (V.seen object.now) authorise_row ≡ Ok message)
        (λ fault. fault ≢ ReadFault.NoMemory
        → of_row (V.seen object.now) authorise_row ≡ Err fault) }
    ensures gives_up { result ≡ Err ReadFault.NoMemory
        → IsOk (of_row (V.seen object.now) authorise_row) }
{
    let loan = loan_at(object, Key::Loan)?;
    let name = name_at(alloc, object, Key::By)?;
    Ok(Message::Authorise { loan, name })
}

fn exit_of<V: Fields>(object: &V) -> Result<Message, ReadFault>
    ensures exact { MatchResult result
        (λ message. of_row (V.seen object.now) exit_row ≡ Ok message)
        (λ fault. of_row (V.seen object.now) exit_row ≡ Err fault) }
    ensures told { IfErr result (λ fault. fault ≢ ReadFault.NoMemory) }
{
    let thing = thing_at(object, Key::Thing)?;
    let loan = loan_at(object, Key::Loan)?;
    let day = day_at(object, Key::Day)?;
    Ok(Message::Exit { thing, loan, day })
}

fn return_of<V: Fields>(object: &V) -> Result<Message, ReadFault>
    ensures exact { MatchResult result
        (λ message. of_row (V.seen object.now) return_row ≡ Ok message)
        (λ fault. of_row (V.seen object.now) return_row ≡ Err fault) }
    ensures told { IfErr result (λ fault. fault ≢ ReadFault.NoMemory) }
{
    let thing = thing_at(object, Key::Thing)?;
    let loan = loan_at(object, Key::Loan)?;
    let place = place_at(object, Key::Place)?;
    let day = day_at(object, Key::Day)?;
    Ok(Message::Return {
        thing,
        loan,
        place,
        day,
    })
}

fn receive_of<V: Fields>(object: &V) -> Result<Message, ReadFault>
    ensures exact { MatchResult result
        (λ message. of_row (V.seen object.now) receive_row ≡ Ok message)
        (λ fault. of_row (V.seen object.now) receive_row ≡ Err fault) }
    ensures told { IfErr result (λ fault. fault ≢ ReadFault.NoMemory) }
{
    let thing = thing_at(object, Key::Thing)?;
    let loan = loan_at(object, Key::Loan)?;
    let place = place_at(object, Key::Place)?;
    let day = day_at(object, Key::Day)?;
    Ok(Message::Receive {
        thing,
        loan,
        place,
        day,
    })
}

fn extend_of<V: Fields>(object: &V) -> Result<Message, ReadFault>
    ensures exact { MatchResult result
        (λ message. of_row (V.seen object.now) extend_row ≡ Ok message)
        (λ fault. of_row (V.seen object.now) extend_row ≡ Err fault) }
    ensures told { IfErr result (λ fault. fault ≢ ReadFault.NoMemory) }
{
    let loan = loan_at(object, Key::Loan)?;
    let last = day_at(object, Key::Last)?;
    Ok(Message::Extend { loan, last })
}
