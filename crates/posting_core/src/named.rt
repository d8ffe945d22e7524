//! The name of a message's kind, and what the message names by code.
ghost use Rattle.std.specs.Prelude.{◌≡◌};
ghost use Rattle.posting_core.specs.Named.{container_named, kind_name, loan_named, place_named};
ghost use Rattle.posting_core.specs.Named.{thing_named, things_named};

use crate::Message;
use codes_core::{LoanCode, PlaceCode, ThingCode};
use std::slice;

/// The thing that the message puts, or the objects that its loan lists.
pub fn things_named(message: &Message) -> &[ThingCode]
    ensures { result.now ≡ things_named message.now }
{
    match message {
        Message::Move { thing, .. }
        | Message::Pack { thing, .. }
        | Message::Exit { thing, .. }
        | Message::Return { thing, .. }
        | Message::Receive { thing, .. } => slice::from_ref(thing),
        Message::Agree { objects, .. } => objects.as_slice(),
        Message::Authorise { .. } | Message::SignOff { .. } | Message::Extend { .. } => &[],
    }
}

/// The thing that the message puts, if its kind puts one.
pub fn thing_named(message: &Message) -> Option<ThingCode>
    ensures { result ≡ thing_named message.now }
{
    match message {
        Message::Move { thing, .. }
        | Message::Pack { thing, .. }
        | Message::Exit { thing, .. }
        | Message::Return { thing, .. }
        | Message::Receive { thing, .. } => Some(*thing),
        _ => None,
    }
}

/// The container that the message puts its thing into, if it is a pack.
pub fn container_named(message: &Message) -> Option<ThingCode>
    ensures { result ≡ container_named message.now }
{
    match message {
        Message::Pack { container, .. } => Some(*container),
        _ => None,
    }
}

/// The place that the message puts its thing at, or the place of the loan's partner.
pub fn place_named(message: &Message) -> Option<PlaceCode>
    ensures { result ≡ place_named message.now }
{
    match message {
        Message::Move { place, .. }
        | Message::Return { place, .. }
        | Message::Receive { place, .. } => Some(*place),
        Message::Agree { partner, .. } => Some(*partner),
        _ => None,
    }
}

/// The loan, if its kind has one.
pub fn loan_named(message: &Message) -> Option<LoanCode>
    ensures { result ≡ loan_named message.now }
{
    match message {
        Message::Agree { loan, .. }
        | Message::Authorise { loan, .. }
        | Message::Exit { loan, .. }
        | Message::Return { loan, .. }
        | Message::Receive { loan, .. }
        | Message::Extend { loan, .. } => Some(*loan),
        _ => None,
    }
}

/// The name of the message's kind, as in its text.
pub fn kind_name(message: &Message) -> &'static str
    ensures { result.now ≡ kind_name message.now }
{
    match message {
        Message::Move { .. } => "move",
        Message::Pack { .. } => "pack",
        Message::Agree { .. } => "agree",
        Message::Authorise { .. } => "authorise",
        Message::Exit { .. } => "exit",
        Message::Return { .. } => "return",
        Message::Receive { .. } => "receive",
        Message::SignOff { .. } => "signoff",
        Message::Extend { .. } => "extend",
    }
}
