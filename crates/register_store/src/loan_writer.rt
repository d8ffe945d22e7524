//! Writes messages about loans as JSON.
ghost use Rattle.register_store.specs.MessageTokens.{Appends, tokens_of};

use crate::Key;
use crate::member::{
    close_object, open_object, write_day, write_loan, write_name, write_objects, write_place,
    write_text, write_thing,
};
use codes_core::{Day, LoanCode, Name, NoMemory, PlaceCode, ThingCode};
use json::Writer;
use posting_core::{Message, Objects};
use std::alloc::Global;

pub(crate) fn write_agree(
    alloc: Global,
    out: &mut Writer,
    loan: &LoanCode,
    partner: &PlaceCode,
    objects: &Objects,
    first: Day,
    last: Day,
) -> Result<(), NoMemory>
    ensures { Appends result out.old out.new
        (tokens_of (Message.Agree first last loan.now partner.now objects.now)) }
{
    open_object(out)?;
    write_day(alloc, out, Key::First, first)?;
    write_text(out, Key::Kind, "agree")?;
    write_day(alloc, out, Key::Last, last)?;
    write_loan(out, loan)?;
    write_objects(out, objects)?;
    write_place(out, Key::Partner, partner)?;
    close_object(out)?;
    Ok(())
}

pub(crate) fn write_authorise(
    out: &mut Writer,
    loan: &LoanCode,
    name: &Name,
) -> Result<(), NoMemory>
    ensures { Appends result out.old out.new (tokens_of (Message.Authorise name.now loan.now)) }
{
    open_object(out)?;
    write_name(out, name)?;
    write_text(out, Key::Kind, "authorise")?;
    write_loan(out, loan)?;
    close_object(out)?;
    Ok(())
}

pub(crate) fn write_exit(
    alloc: Global,
    out: &mut Writer,
    thing: &ThingCode,
    loan: &LoanCode,
    day: Day,
) -> Result<(), NoMemory>
    ensures { Appends result out.old out.new (tokens_of (Message.Exit day thing.now loan.now)) }
{
    open_object(out)?;
    write_day(alloc, out, Key::Day, day)?;
    write_text(out, Key::Kind, "exit")?;
    write_loan(out, loan)?;
    write_thing(out, Key::Thing, thing)?;
    close_object(out)?;
    Ok(())
}

pub(crate) fn write_return(
    alloc: Global,
    out: &mut Writer,
    thing: &ThingCode,
    loan: &LoanCode,
    place: &PlaceCode,
    day: Day,
) -> Result<(), NoMemory>
    ensures { Appends result out.old out.new
        (tokens_of (Message.Return day thing.now loan.now place.now)) }
{
    open_object(out)?;
    write_day(alloc, out, Key::Day, day)?;
    write_text(out, Key::Kind, "return")?;
    write_loan(out, loan)?;
    write_place(out, Key::Place, place)?;
    write_thing(out, Key::Thing, thing)?;
    close_object(out)?;
    Ok(())
}

pub(crate) fn write_receive(
    alloc: Global,
    out: &mut Writer,
    thing: &ThingCode,
    loan: &LoanCode,
    place: &PlaceCode,
    day: Day,
) -> Result<(), NoMemory>
    ensures { Appends result out.old out.new
        (tokens_of (Message.Receive day thing.now loan.now place.now)) }
{
    open_object(out)?;
    write_day(alloc, out, Key::Day, day)?;
    write_text(out, Key::Kind, "receive")?;
    write_loan(out, loan)?;
    write_place(out, Key::Place, place)?;
    write_thing(out, Key::Thing, thing)?;
    close_object(out)?;
    Ok(())
}

pub(crate) fn write_extend(
    alloc: Global,
    out: &mut Writer,
    loan: &LoanCode,
    last: Day,
) -> Result<(), NoMemory>
    ensures { Appends result out.old out.new (tokens_of (Message.Extend last loan.now)) }
{
    open_object(out)?;
    write_text(out, Key::Kind, "extend")?;
    write_day(alloc, out, Key::Last, last)?;
    write_loan(out, loan)?;
    close_object(out)?;
    Ok(())
}
