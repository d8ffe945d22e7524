//! Messages, as a ledger keeps them.
ghost use Rattle.std.specs.Prelude.{◌≡◌, ◌<◌, true, is_some, None, IfOk, IfSome, MatchOption};
ghost use Rattle.posting_core.specs.KeptForms.{said, HasCodes};
ghost use Rattle.codes_core.specs.Thing.{thing_fault};
ghost use Rattle.codes_core.specs.Loan.{loan_fault};
ghost use Rattle.codes_core.specs.Place.{place_fault};
ghost use Rattle.posting_core.specs.Messages.{day_of};

use crate::Message;
use codes_core::{Day, LoanCode, NoMemory, PlaceCode, Spelling, ThingCode};
use std::alloc::Global;
use std::marker::Model;

/// A message as it is kept: in 40 bytes, instead of a message's 88. Contracts see it as the
/// message.
///
/// A code's type has room for the longest code, and most codes are much shorter. A message that
/// puts a thing is kept with less room for its codes, if they fit. Any other message is kept whole,
/// in memory of its own.
pub struct KeptMessage {
    form: Form,
}

/// The form of a kept message, of 40 bytes. With three codes there is less room for each. The day
/// comes first, so that the bytes after it are copied in whole words.
#[derive(Drop)]
pub(crate) enum Form {
    Move {
        day: Day,
        thing: Spelling<15>,
        place: Spelling<15>,
    },
    Pack {
        day: Day,
        thing: Spelling<15>,
        container: Spelling<15>,
    },
    Exit {
        day: Day,
        thing: Spelling<15>,
        loan: LoanCode,
    },
    Return {
        day: Day,
        thing: Spelling<11>,
        loan: Spelling<10>,
        place: Spelling<8>,
    },
    Receive {
        day: Day,
        thing: Spelling<11>,
        loan: Spelling<10>,
        place: Spelling<8>,
    },
    Whole(Box<Message>),
}

impl Model for KeptMessage {
    ghost use Rattle.posting_core.specs.declared.message.Message.{Message};
    ghost use Rattle.posting_core.specs.KeptForms.{said, HasCodes};

    ghost Value = { Message };

    ghost view = { λ m. said m.form };

    ghost invariant = { λ m. HasCodes m.form };
}

/// Manual `Drop`: a derived one is inlined at every return and slows the proof.
impl Drop for KeptMessage {
    fn drop(self) {
        let KeptMessage { form } = self;
        drop(form);
    }
}

impl KeptMessage {
    /// Keeps a copy of the message. Fails with `NoMemory`.
    pub fn new(alloc: Global, message: &Message) -> Result<KeptMessage, NoMemory>
        ensures { IfOk result (λ kept. kept ≡ message.now) }
    {
        let form = match in_short(message) {
            Some(form) => form,
            None => Form::Whole(Box::new(alloc, message.copy(alloc)?)?),
        };
        Ok(KeptMessage { form })
    }

    /// The message, if it is kept whole. Every message that puts nothing is.
    pub fn as_message(&self) -> Option<&Message>
        ensures { MatchOption result (is_some (day_of self.now) ≡ true)
            (λ message. message.now ≡ self.now) }
    {
        match &self.form {
            Form::Whole(message) => Some(message),
            _ => None,
        }
    }

    /// Returns a copy of the message. Fails with `NoMemory`.
    pub fn to_message(&self, alloc: Global) -> Result<Message, NoMemory>
        ensures { IfOk result (λ message. message ≡ self.now) }
    {
        match &self.form {
            Form::Move { day, thing, place } => Ok(Message::Move {
                day: *day,
                thing: thing_of(thing),
                place: place_of(place),
            }),
            Form::Pack {
                day,
                thing,
                container,
            } => Ok(Message::Pack {
                day: *day,
                thing: thing_of(thing),
                container: thing_of(container),
            }),
            Form::Exit { day, thing, loan } => Ok(Message::Exit {
                day: *day,
                thing: thing_of(thing),
                loan: *loan,
            }),
            Form::Return {
                day,
                thing,
                loan,
                place,
            } => Ok(Message::Return {
                day: *day,
                thing: thing_of(thing),
                loan: loan_of(loan),
                place: place_of(place),
            }),
            Form::Receive {
                day,
                thing,
                loan,
                place,
            } => Ok(Message::Receive {
                day: *day,
                thing: thing_of(thing),
                loan: loan_of(loan),
                place: place_of(place),
            }),
            Form::Whole(message) => message.copy(alloc),
        }
    }
}

/// The short form of a message that puts a thing, if its codes fit.
fn in_short(message: &Message) -> Option<Form>
    ensures { IfSome result (λ form. HasCodes form × (said form ≡ message.now)) }
{
    match message {
        Message::Move { day, thing, place } => Some(Form::Move {
            day: *day,
            thing: thing.shortened()?,
            place: place.shortened()?,
        }),
        Message::Pack {
            day,
            thing,
            container,
        } => Some(Form::Pack {
            day: *day,
            thing: thing.shortened()?,
            container: container.shortened()?,
        }),
        Message::Exit { day, thing, loan } => Some(Form::Exit {
            day: *day,
            thing: thing.shortened()?,
            loan: *loan,
        }),
        _ => incoming_in_short(message),
    }
}

/// The short form of a return or a receipt, if its codes fit.
fn incoming_in_short(message: &Message) -> Option<Form>
    ensures { IfSome result (λ form. HasCodes form × (said form ≡ message.now)) }
{
    match message {
        Message::Return {
            day,
            thing,
            loan,
            place,
        } => Some(Form::Return {
            day: *day,
            thing: thing.shortened()?,
            loan: loan.shortened()?,
            place: place.shortened()?,
        }),
        Message::Receive {
            day,
            thing,
            loan,
            place,
        } => Some(Form::Receive {
            day: *day,
            thing: thing.shortened()?,
            loan: loan.shortened()?,
            place: place.shortened()?,
        }),
        _ => None,
    }
}

/// The thing's code with this spelling.
fn thing_of<const N: usize>(spelling: &Spelling<N>) -> ThingCode
    requires { thing_fault spelling.now ≡ None }
    ensures { result ≡ spelling.now }
{
    ThingCode::parse(spelling.as_bytes()).unwrap()
}

/// The loan's code with this spelling.
fn loan_of<const N: usize>(spelling: &Spelling<N>) -> LoanCode
    requires { loan_fault spelling.now ≡ None }
    ensures { result ≡ spelling.now }
{
    LoanCode::parse(spelling.as_bytes()).unwrap()
}

/// The place's code with this spelling.
fn place_of<const N: usize>(spelling: &Spelling<N>) -> PlaceCode
    requires { place_fault spelling.now ≡ None }
    ensures { result ≡ spelling.now }
{
    PlaceCode::parse(spelling.as_bytes()).unwrap()
}
