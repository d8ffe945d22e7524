//! Writes the members of a JSON object.
ghost use Rattle.std.specs.Prelude.{[], ◌∷◌};
ghost use Rattle.json.specs.Token.{Token};
ghost use Rattle.codes_core.specs.Day.{day_text};
ghost use Rattle.register_store.specs.declared.key.Key.{Key};
ghost use Rattle.register_store.specs.MessageTokens.{Appends, list_tokens, string_tokens};
ghost use Rattle.register_store.specs.MessageTokens.{text_tokens};

use crate::Key;
use codes_core::{Day, LoanCode, Name, NoMemory, PlaceCode, ThingCode};
use json::Writer;
use posting_core::Objects;
use std::alloc::Global;

/// Writes the start of an object. Fails with `NoMemory`.
pub(crate) fn open_object(out: &mut Writer) -> Result<(), NoMemory>
    ensures { Appends result out.old out.new (Token.begin_object ∷ []) }
{
    Ok(out.begin_object()?)
}

/// Writes the end of an object. Fails with `NoMemory`.
pub(crate) fn close_object(out: &mut Writer) -> Result<(), NoMemory>
    ensures { Appends result out.old out.new (Token.end_object ∷ []) }
{
    Ok(out.end_object()?)
}

/// Writes a key and a string. Fails with `NoMemory`.
pub(crate) fn write_text(out: &mut Writer, key: Key, text: &str) -> Result<(), NoMemory>
    ensures { Appends result out.old out.new (text_tokens key text.now) }
{
    out.key(key.name())?;
    Ok(out.string(text)?)
}

/// Writes a key and the code of a thing. Fails with `NoMemory`.
pub(crate) fn write_thing(out: &mut Writer, key: Key, thing: &ThingCode) -> Result<(), NoMemory>
    ensures { Appends result out.old out.new (text_tokens key thing.now) }
{
    write_text(out, key, thing.as_str())
}

/// Writes a key and the code of a place. Fails with `NoMemory`.
pub(crate) fn write_place(out: &mut Writer, key: Key, place: &PlaceCode) -> Result<(), NoMemory>
    ensures { Appends result out.old out.new (text_tokens key place.now) }
{
    write_text(out, key, place.as_str())
}

/// Writes the code of a loan. Fails with `NoMemory`.
pub(crate) fn write_loan(out: &mut Writer, loan: &LoanCode) -> Result<(), NoMemory>
    ensures { Appends result out.old out.new (text_tokens Key.Loan loan.now) }
{
    write_text(out, Key::Loan, loan.as_str())
}

/// Writes a name. Fails with `NoMemory`.
pub(crate) fn write_name(out: &mut Writer, name: &Name) -> Result<(), NoMemory>
    ensures { Appends result out.old out.new (text_tokens Key.By name.now) }
{
    write_text(out, Key::By, name.as_str())
}

/// Writes a key and a day, as the only text that spells it. Fails with `NoMemory`.
pub(crate) fn write_day(alloc: Global, out: &mut Writer, key: Key, day: Day) -> Result<(), NoMemory>
    ensures { Appends result out.old out.new (text_tokens key (day_text day)) }
{
    let mut text = String::new(alloc);
    day.write(alloc, &mut text)?;
    write_text(out, key, text.as_str())
}

/// Writes the objects of a loan, as an array of their codes. Fails with `NoMemory`.
pub(crate) fn write_objects(out: &mut Writer, objects: &Objects) -> Result<(), NoMemory>
    ensures { Appends result out.old out.new (list_tokens Key.Objects objects.now) }
{
    write_things(out, Key::Objects, objects.as_slice())
}

/// Writes a key and an array of things' codes. Fails with `NoMemory`.
fn write_things(out: &mut Writer, key: Key, things: &[ThingCode]) -> Result<(), NoMemory>
    ensures { Appends result out.old out.new (list_tokens key things.now) }
{
    out.key(key.name())?;
    out.begin_array()?;
    write_codes(out, things)?;
    Ok(out.end_array()?)
}

/// Writes things' codes as strings. Fails with `NoMemory`.
fn write_codes(out: &mut Writer, things: &[ThingCode]) -> Result<(), NoMemory>
    ensures { Appends result out.old out.new (string_tokens things.now) }
{
    for thing in things {
        out.string(thing.as_str())?;
    }
    Ok(())
}
