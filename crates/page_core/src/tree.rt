//! The rows of the tree.
ghost use Rattle.std.specs.Prelude.{◌≡◌, ◌<◌, All, IfOk, length, map, string_bytes};
ghost use Rattle.std.specs.List.{range_with_len};
ghost use Rattle.std.proofs.Props.{props};
ghost use Rattle.nest_core.specs.Museum.{is_container};
ghost use Rattle.page_core.specs.Pieces.{page_text};
ghost use Rattle.page_core.specs.Tree.{lines_at, tree_lines};
ghost use Rattle.page_core.specs.TreeRows.{IsLineIn, container_row, line_text, node_end};
ghost use Rattle.page_core.specs.TreeRows.{object_end, object_row, objects_at, place_row};

use crate::counts::{objects_at_places, objects_in};
use crate::escapes::escaped;
use crate::lines::{Line, tree_lines, unplaced_lines};
use codes_core::{NoMemory, ThingKind};
use nest_core::{PlaceNo, Setup, ThingNo};
use posting_core::Ledger;
use reports::sections::Rows;
use std::alloc::Global;

/// The lines of the tree.
#[derive(Drop)]
pub(crate) struct Tree<'a> {
    ledger: &'a Ledger,
    lines: Vec<Line>,
    /// The number of objects at each place.
    counts: Vec<u64>,
    ghost within: { All (IsLineIn ledger.now.museum) lines.items } by { Prim.hlevel props },
    ghost counted: { counts.items
        ≡ map (objects_at ledger.now) (range_with_len 0 (length ledger.now.museum.places)) },
}

impl<'a> Rows for Tree<'a> {
    ghost use Rattle.std.specs.Prelude.{map};
    ghost use Rattle.page_core.specs.TreeRows.{line_text};

    ghost texts = { λ s. map (line_text s.ledger.now) s.lines.items };

    fn len(&self) -> usize {
        self.lines.len()
    }

    fn row(&self, alloc: Global, i: usize) -> Result<String, NoMemory> {
        line_row(alloc, self.ledger, self.counts.as_slice(), self.lines[i])
    }
}

impl<'a> Tree<'a> {
    /// Finds the lines. Fails with `NoMemory`.
    pub(crate) fn find(alloc: Global, ledger: &'a Ledger) -> Result<Tree<'a>, NoMemory>
        ensures { IfOk result (λ found. map (line_text found.ledger.now) found.lines.items
            ≡ map (line_text ledger.entry.now) (tree_lines ledger.entry.now)) }
    {
        let lines = tree_lines(alloc, ledger)?;
        let counts = objects_at_places(alloc, ledger)?;
        Ok(Tree {
            ledger,
            lines,
            counts,
        })
    }

    /// Finds the lines of the things that were never placed. Fails with `NoMemory`.
    pub(crate) fn find_unplaced(alloc: Global, ledger: &'a Ledger) -> Result<Tree<'a>, NoMemory>
        ensures { IfOk result (λ found. map (line_text found.ledger.now) found.lines.items
            ≡ map (line_text ledger.entry.now) (lines_at ledger.entry.now None)) }
    {
        let lines = unplaced_lines(alloc, ledger)?;
        let counts = objects_at_places(alloc, ledger)?;
        Ok(Tree {
            ledger,
            lines,
            counts,
        })
    }
}

/// The row of a line.
fn line_row(alloc: Global, ledger: &Ledger, counts: &[u64], line: Line) -> Result<String, NoMemory>
    requires within { IsLineIn ledger.now.museum line }
    requires counts { counts.now
        ≡ map (objects_at ledger.now) (range_with_len 0 (length ledger.now.museum.places)) }
    ensures { IfOk result (λ row. string_bytes row ≡ line_text ledger.now line) }
{
    match line {
        Line::PlaceBegin(place) => place_row(alloc, ledger, counts, place),
        Line::PlaceEnd => node_end(alloc),
        Line::ThingBegin(thing) if is_container(ledger.setup(), thing) => {
            container_row(alloc, ledger, thing)
        }
        Line::ThingBegin(thing) => object_row(alloc, ledger, thing),
        Line::ThingEnd(thing) if is_container(ledger.setup(), thing) => node_end(alloc),
        Line::ThingEnd(_) => object_end(alloc),
    }
}

fn is_container(setup: &Setup, thing: ThingNo) -> bool
    requires { thing < length setup.now.things }
    ensures { result ≡ is_container setup.now thing }
{
    matches!(setup.kind(thing), ThingKind::Container)
}

/// The row before everything at a place.
fn place_row(
    alloc: Global,
    ledger: &Ledger,
    counts: &[u64],
    place: PlaceNo,
) -> Result<String, NoMemory>
    requires place { place < length ledger.now.museum.places }
    requires counts { counts.now
        ≡ map (objects_at ledger.now) (range_with_len 0 (length ledger.now.museum.places)) }
    ensures { IfOk result (λ row. string_bytes row ≡ page_text (place_row ledger.now place)) }
{
    let code = ledger.setup().place_code(place);
    let code = escaped(alloc, code.as_str())?;
    let count = counts[place as usize];
    Ok(format!(in alloc; "<li><details><summary>{code} <small>{count}</small></summary><ul>\n")?)
}

/// The row before everything in a container.
fn container_row(alloc: Global, ledger: &Ledger, container: ThingNo) -> Result<String, NoMemory>
    requires { container < length ledger.now.museum.things }
    ensures { IfOk result
        (λ row. string_bytes row ≡ page_text (container_row ledger.now container)) }
{
    let code = ledger.setup().thing_code(container);
    let code = escaped(alloc, code.as_str())?;
    let count = objects_in(alloc, ledger, container)?;
    Ok(format!(in alloc; "<li><details><summary>{code} <small>{count}</small></summary><ul>\n")?)
}

/// The row of an object.
fn object_row(alloc: Global, ledger: &Ledger, object: ThingNo) -> Result<String, NoMemory>
    requires { object < length ledger.now.museum.things }
    ensures { IfOk result (λ row. string_bytes row ≡ page_text (object_row ledger.now object)) }
{
    let code = ledger.setup().thing_code(object);
    let code = escaped(alloc, code.as_str())?;
    Ok(format!(in alloc; "<li>{code}")?)
}

/// The row after everything at a place or in a container.
fn node_end(alloc: Global) -> Result<String, NoMemory>
    ensures { IfOk result (λ row. string_bytes row ≡ page_text node_end) }
{
    Ok(String::from_str(alloc, "</ul></details></li>\n")?)
}

fn object_end(alloc: Global) -> Result<String, NoMemory>
    ensures { IfOk result (λ row. string_bytes row ≡ page_text object_end) }
{
    Ok(String::from_str(alloc, "</li>\n")?)
}
