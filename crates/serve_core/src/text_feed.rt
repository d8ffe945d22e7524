//! A feed of the lines of a text.
ghost use Rattle.std.specs.Prelude.{◌≡◌, ◌≤◌, ◌<◌, ◌+◌, ◌∷◌, [], length, drop, min, IfOk, IfNone};
ghost use Rattle.std.specs.Prelude.{IfSome, OnErr};
ghost use Rattle.hub_core.specs.Lines.{without_return, lines};
ghost use Rattle.serve_core.specs.declared.item.Item.{Item};
ghost use Rattle.serve_core.specs.Feeds.{request_item, line_items, text_items, items_left};
ghost use Rattle.serve_core.specs.Feeds.{IsPlaceIn};

use crate::{Feed, Item, LineFault};
use borrowed_json::TokenScratch;
use codes_core::NoMemory;
use hub_core::{LONGEST_LINE, Request, feed_at, read_request_with, without_return};
use register_store::ReadFault;
use std::alloc::Global;
use std::marker::Model;

/// The position of a line in a text, in bytes, and the line's number, counted from 1.
#[derive(Clone, Copy)]
struct Place {
    at: usize,
    number: u64,
}

/// A feed of a text, with an item for each line that isn't empty. Contracts see it as the items
/// that are left.
#[derive(Drop)]
pub struct TextFeed {
    bytes: Vec<u8>,
    place: Place,
    // Used for one line after another.
    scratch: TokenScratch,
}

impl Model for TextFeed {
    ghost use Rattle.std.specs.Prelude.{List};
    ghost use Rattle.serve_core.specs.declared.item.Item.{Item};
    ghost use Rattle.serve_core.specs.Feeds.{items_left, IsPlaceIn};

    ghost Value = { List Item };

    ghost view = { λ f. items_left f.bytes.items f.place };

    ghost invariant = { λ f. IsPlaceIn f.bytes.items f.place };
}

impl TextFeed {
    /// A feed of these bytes. A line ends at a line feed or at the end of the bytes, and one
    /// carriage return at its end is dropped. Lines are numbered from 1. They are read as in a
    /// replay, except that their station is ignored. A faulty line is a Bad item.
    pub fn new(bytes: Vec<u8>) -> TextFeed
        ensures { result ≡ text_items bytes.items }
    {
        let scratch = TokenScratch::new(*bytes.allocator());
        TextFeed {
            bytes,
            place: Place { at: 0, number: 1 },
            scratch,
        }
    }
}

impl Feed for TextFeed {
    ghost items = { λ f. f };

    fn next(&mut self, alloc: Global) -> Result<Option<Item>, NoMemory> {
        next_item(
            alloc,
            &mut self.scratch,
            self.bytes.as_slice(),
            &mut self.place,
        )
    }
}

/// Returns the item of the next line that isn't empty, or None if only empty lines are left. Moves
/// the place past that line. Fault: NoMemory, after which the same items are left.
fn next_item(
    alloc: Global,
    scratch: &mut TokenScratch,
    bytes: &[u8],
    place: &mut Place,
) -> Result<Option<Item>, NoMemory>
    requires { IsPlaceIn bytes.now place.old }
    ensures none { IfOk result
        (λ next. IfNone next
        ((items_left bytes.now place.old ≡ []) × (items_left bytes.now place.new ≡ []))) }
    ensures some { IfOk result
        (λ next. IfSome next
        (λ x. items_left bytes.now place.old ≡ x ∷ items_left bytes.now place.new)) }
    ensures kept { OnErr result (items_left bytes.now place.new ≡ items_left bytes.now place.old) }
    ensures place { IsPlaceIn bytes.now place.new }
{
    while place.at < bytes.len() {
        let line = line_at(bytes, place.at);
        let item = item_of(alloc, scratch, place.number, without_return(line))?;
        place.at = bytes.len().min(place.at + line.len() + 1);
        place.number += 1;
        if item.is_some() {
            return Ok(item);
        }
    }
    Ok(None)
}

/// The bytes from a position on, up to a line feed or the end.
fn line_at(bytes: &[u8], at: usize) -> &[u8]
    requires { at < length bytes.now }
    ensures there { at + length result.now ≤ length bytes.now }
    // It is the first of the lines that begin there, apart from its carriage return.
    ensures first { lines (drop at bytes.now)
        ≡ without_return result.now
        ∷ lines (drop (min (length bytes.now) (at + length result.now + 1)) bytes.now) }
{
    let rest = &bytes[at..];
    &rest[..feed_at(rest)]
}

/// The item of line `number`. An empty line has none.
fn item_of(
    alloc: Global,
    scratch: &mut TokenScratch,
    number: u64,
    line: &[u8],
) -> Result<Option<Item>, NoMemory>
    ensures none { IfOk result (λ item. IfNone item (line_items number line.now ≡ [])) }
    ensures some { IfOk result (λ item. IfSome item (λ x. line_items number line.now ≡ x ∷ [])) }
{
    if line.is_empty() {
        return Ok(None);
    }
    if line.len() > LONGEST_LINE {
        return Ok(Some(bad(number, LineFault::TooLong)));
    }
    match read_request_with(alloc, scratch, line) {
        Ok(request) => Ok(Some(request_item(request))),
        Err(ReadFault::NoMemory) => Err(NoMemory),
        Err(fault) => Ok(Some(bad(number, LineFault::Read(fault)))),
    }
}

/// The item of a request.
fn request_item(request: Request) -> Item
    ensures { result ≡ request_item request }
{
    match request {
        Request::Scan { n, message } => Item::Scan { n, message },
        Request::Ask { code } => Item::Ask(code),
    }
}

/// The item of a faulty line.
fn bad(line: u64, fault: LineFault) -> Item
    ensures { result ≡ Item.Bad line fault }
{
    Item::Bad { line, fault }
}
