//! Reads the values at the keys of a JSON object.
ghost use Rattle.std.specs.Prelude.{◌≡◌, ◌≢◌, None, Some, IfErr, MatchResult, option_and_then};
ghost use Rattle.std.specs.Prelude.{List, ℕ, Bool};
ghost use Rattle.serde_json.specs.Find.{get, as_str};
ghost use Rattle.register_store.specs.Spelling.{key_name, is_thing, is_place, is_loan, is_day};
ghost use Rattle.register_store.specs.Spelling.{is_name};
ghost use Rattle.register_store.specs.Kinds.{◌spells◌, text_at, day_at as day_said, fault_at};

use crate::{Key, ReadFault};
use borrowed_json::Fields;
use codes_core::{Day, LoanCode, Name, NameFault, PlaceCode, ThingCode};
use std::alloc::Global;

/// The value at a key. Fails with `Missing`.
pub fn value_at<'a, V: Fields>(object: &'a V, key: Key) -> Result<&'a V, ReadFault>
    ensures exact { MatchResult result
        (λ value. get (key_name key) (V.seen object.now) ≡ Some (V.seen value.now))
        (λ fault. (get (key_name key) (V.seen object.now) ≡ None)
        × (fault ≡ ReadFault.Missing key)) }
{
    object.at(key.name()).ok_or(ReadFault::Missing(key))
}

/// The string at a key. Fails with `Missing`, or with `BadField` for any other value.
pub fn string_at<'a, V: Fields>(object: &'a V, key: Key) -> Result<&'a str, ReadFault>
    // The fault is the same, whatever strings are valid at the key.
    ensures exact { MatchResult result
        (λ text. option_and_then as_str (get (key_name key) (V.seen object.now)) ≡ Some text.now)
        (λ fault. (test : List ℕ → Bool)
        → fault_at (V.seen object.now) (key spells test) ≡ Some fault) }
    ensures told { IfErr result (λ fault. fault ≢ ReadFault.NoMemory) }
{
    value_at(object, key)?
        .text()
        .ok_or(ReadFault::BadField(key))
}

/// The thing's code at a key. Fails with `Missing` or `BadField`.
pub fn thing_at<V: Fields>(object: &V, key: Key) -> Result<ThingCode, ReadFault>
    ensures exact { MatchResult result
        (λ code. (fault_at (V.seen object.now) (key spells is_thing) ≡ None)
        × (code ≡ text_at (V.seen object.now) key))
        (λ fault. fault_at (V.seen object.now) (key spells is_thing) ≡ Some fault) }
    ensures told { IfErr result (λ fault. fault ≢ ReadFault.NoMemory) }
{
    let text = string_at(object, key)?;
    ThingCode::parse(text.as_bytes())
        .ok()
        .ok_or(ReadFault::BadField(key))
}

/// The place's code at a key. Fails with `Missing` or `BadField`.
pub(crate) fn place_at<V: Fields>(object: &V, key: Key) -> Result<PlaceCode, ReadFault>
    ensures exact { MatchResult result
        (λ code. (fault_at (V.seen object.now) (key spells is_place) ≡ None)
        × (code ≡ text_at (V.seen object.now) key))
        (λ fault. fault_at (V.seen object.now) (key spells is_place) ≡ Some fault) }
    ensures told { IfErr result (λ fault. fault ≢ ReadFault.NoMemory) }
{
    let text = string_at(object, key)?;
    PlaceCode::parse(text.as_bytes())
        .ok()
        .ok_or(ReadFault::BadField(key))
}

/// The loan's code at a key. Fails with `Missing` or `BadField`.
pub(crate) fn loan_at<V: Fields>(object: &V, key: Key) -> Result<LoanCode, ReadFault>
    ensures exact { MatchResult result
        (λ code. (fault_at (V.seen object.now) (key spells is_loan) ≡ None)
        × (code ≡ text_at (V.seen object.now) key))
        (λ fault. fault_at (V.seen object.now) (key spells is_loan) ≡ Some fault) }
    ensures told { IfErr result (λ fault. fault ≢ ReadFault.NoMemory) }
{
    let text = string_at(object, key)?;
    LoanCode::parse(text.as_bytes())
        .ok()
        .ok_or(ReadFault::BadField(key))
}

/// The day at a key. Fails with `Missing` or `BadField`.
pub(crate) fn day_at<V: Fields>(object: &V, key: Key) -> Result<Day, ReadFault>
    ensures exact { MatchResult result
        (λ day. (fault_at (V.seen object.now) (key spells is_day) ≡ None)
        × (day ≡ day_said (V.seen object.now) key))
        (λ fault. fault_at (V.seen object.now) (key spells is_day) ≡ Some fault) }
    ensures told { IfErr result (λ fault. fault ≢ ReadFault.NoMemory) }
{
    let text = string_at(object, key)?;
    Day::parse(text.as_bytes())
        .ok()
        .ok_or(ReadFault::BadField(key))
}

/// The name at a key. Fails with `Missing` or `BadField`, or, if the value is a name, `NoMemory`.
pub(crate) fn name_at<V: Fields>(alloc: Global, object: &V, key: Key) -> Result<Name, ReadFault>
    ensures exact { MatchResult result
        (λ name. (fault_at (V.seen object.now) (key spells is_name) ≡ None)
        × (name ≡ text_at (V.seen object.now) key))
        (λ fault. fault ≢ ReadFault.NoMemory
        → fault_at (V.seen object.now) (key spells is_name) ≡ Some fault) }
    ensures gives_up { result ≡ Err ReadFault.NoMemory
        → fault_at (V.seen object.now) (key spells is_name) ≡ None }
{
    let text = string_at(object, key)?;
    match Name::new(alloc, text.as_bytes()) {
        Ok(name) => Ok(name),
        Err(NameFault::NoMemory) => Err(ReadFault::NoMemory),
        Err(_) => Err(ReadFault::BadField(key)),
    }
}
