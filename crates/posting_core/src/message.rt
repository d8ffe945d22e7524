//! The messages that stations send.
ghost use Rattle.std.specs.Prelude.{◌≡◌, IfOk};

use crate::Objects;
use codes_core::{Day, LoanCode, Name, NoMemory, PlaceCode, ThingCode};
use std::alloc::Global;

/// A message of a station. In each kind the days or the name come first, so that the codes after
/// them are copied in whole words.
pub enum Message {
    /// The thing was put directly at the place, on this day.
    Move {
        day: Day,
        thing: ThingCode,
        place: PlaceCode,
    },
    /// The thing was put directly into the container, on this day.
    Pack {
        day: Day,
        thing: ThingCode,
        container: ThingCode,
    },
    /// The loan was agreed with the partner at this place, for these objects, from the first day to
    /// the last.
    Agree {
        first: Day,
        last: Day,
        loan: LoanCode,
        partner: PlaceCode,
        objects: Objects,
    },
    /// The loan was authorised by the person with this name.
    Authorise {
        name: Name,
        loan: LoanCode,
    },
    /// Object exit: the thing left under the loan, to the partner's place, on this day.
    Exit {
        day: Day,
        thing: ThingCode,
        loan: LoanCode,
    },
    /// The thing came back under the loan out, to the place, on this day.
    Return {
        day: Day,
        thing: ThingCode,
        loan: LoanCode,
        place: PlaceCode,
    },
    /// The thing arrived under the loan in, at the place, on this day.
    Receive {
        day: Day,
        thing: ThingCode,
        loan: LoanCode,
        place: PlaceCode,
    },
    /// The station's last message, signed by the person with this name.
    SignOff {
        name: Name,
    },
    /// The loan was extended to this last day.
    Extend {
        last: Day,
        loan: LoanCode,
    },
}

/// Manual `Drop`: a derived one is inlined at every return and slows the proof.
impl Drop for Message {
    fn drop(self) {
        match self {
            Message::Agree {
                first: _,
                last: _,
                loan: _,
                partner: _,
                objects,
            } => drop(objects),
            Message::Authorise { name, loan: _ } => drop(name),
            Message::SignOff { name } => drop(name),
            Message::Move {
                day: _,
                thing: _,
                place: _,
            } => {}
            Message::Pack {
                day: _,
                thing: _,
                container: _,
            } => {}
            Message::Exit {
                day: _,
                thing: _,
                loan: _,
            } => {}
            Message::Return {
                day: _,
                thing: _,
                loan: _,
                place: _,
            } => {}
            Message::Receive {
                day: _,
                thing: _,
                loan: _,
                place: _,
            } => {}
            Message::Extend { last: _, loan: _ } => {}
        }
    }
}

impl Message {
    /// Returns a copy of the message. Fails with `NoMemory`.
    pub fn copy(&self, alloc: Global) -> Result<Message, NoMemory>
        ensures { IfOk result (λ copy. copy ≡ self.now) }
    {
        match self {
            Message::Move { day, thing, place } => Ok(Message::Move {
                day: *day,
                thing: *thing,
                place: *place,
            }),
            Message::Pack {
                day,
                thing,
                container,
            } => Ok(Message::Pack {
                day: *day,
                thing: *thing,
                container: *container,
            }),
            Message::Agree {
                first,
                last,
                loan,
                partner,
                objects,
            } => Ok(Message::Agree {
                first: *first,
                last: *last,
                loan: *loan,
                partner: *partner,
                objects: objects.copy(alloc)?,
            }),
            Message::Authorise { name, loan } => Ok(Message::Authorise {
                name: name.copy(alloc)?,
                loan: *loan,
            }),
            Message::Exit { day, thing, loan } => Ok(Message::Exit {
                day: *day,
                thing: *thing,
                loan: *loan,
            }),
            Message::Return {
                day,
                thing,
                loan,
                place,
            } => Ok(Message::Return {
                day: *day,
                thing: *thing,
                loan: *loan,
                place: *place,
            }),
            Message::Receive {
                day,
                thing,
                loan,
                place,
            } => Ok(Message::Receive {
                day: *day,
                thing: *thing,
                loan: *loan,
                place: *place,
            }),
            Message::SignOff { name } => Ok(Message::SignOff {
                name: name.copy(alloc)?,
            }),
            Message::Extend { last, loan } => Ok(Message::Extend {
                last: *last,
                loan: *loan,
            }),
        }
    }
}
