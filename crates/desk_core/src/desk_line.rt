//! A line at a desk.
ghost use Rattle.std.specs.Prelude.{◌≡◌, IfOk, OnErr, false, true};
ghost use Rattle.std.specs.Option.{option_map_or};
ghost use Rattle.desk_core.specs.Desks.{desk_after};
ghost use Rattle.desk_core.specs.DeskStep.{desk_step, may_fail, said, text_said};
ghost use Rattle.desk_core.specs.LineTexts.{first_word};
ghost use Rattle.desk_core.specs.Verbs.{find_verb, takes_memory};

use crate::command::read_command;
use crate::desk::Desk;
use crate::said::Said;
use crate::scan::read_code;
use crate::text::{after_word, first_word, trim};
use crate::verb::find_verb;
use codes_core::NoMemory;
use nest_core::Setup;
use std::alloc::Global;

/// Takes a line, and returns what it says and the desk afterwards. Only a new target or a new day
/// changes the desk. Fails with `NoMemory`, but only for a line that has a name, the objects of a
/// loan, or the words of a report.
pub fn step(alloc: Global, setup: &Setup, desk: &mut Desk, line: &[u8]) -> Result<Said, NoMemory>
    ensures said { IfOk result (λ said.
        (desk.new ≡ (desk_step setup.now desk.old line.now).0)
        × (said ≡ (desk_step setup.now desk.old line.now).1)) }
    ensures err { OnErr result (may_fail line.now ≡ true) }
    ensures unchanged { OnErr result (desk.new ≡ desk.old) }
{
    let said = read_line(alloc, setup, desk, line)?;
    *desk = desk_after(*desk, &said);
    Ok(said)
}

/// The desk after a line that says this.
fn desk_after(desk: Desk, said: &Said) -> Desk
    ensures { result ≡ desk_after desk said.now }
{
    match said {
        Said::Target(target) => Desk {
            target: *target,
            day: desk.day,
        },
        Said::Day(day) => Desk {
            target: desk.target,
            day: Some(*day),
        },
        _ => desk,
    }
}

/// What the line says.
fn read_line(alloc: Global, setup: &Setup, desk: &Desk, line: &[u8]) -> Result<Said, NoMemory>
    ensures ok { IfOk result (λ told. told ≡ said setup.now desk.now line.now) }
    ensures err { OnErr result (may_fail line.now ≡ true) }
{
    let text = trim(line);
    if text.starts_with(b"{") {
        return Ok(Said::Line);
    }
    if first_word(text) == b"!".as_slice() {
        read_text(alloc, setup, true, desk, after_word(text))
    } else {
        read_text(alloc, setup, false, desk, text)
    }
}

/// What the text of a line says, without the mark `!` of a forced one.
#[tactic(auto, unfolding(crate::specs::DeskStep::text_said))]
fn read_text(
    alloc: Global,
    setup: &Setup,
    forced: bool,
    desk: &Desk,
    text: &[u8],
) -> Result<Said, NoMemory>
    ensures ok { IfOk result (λ said. said ≡ text_said setup.now forced desk.now text.now) }
    ensures err { OnErr result
        (option_map_or takes_memory (find_verb (first_word text.now)) false ≡ true) }
{
    if text.is_empty() || text.starts_with(b"#") {
        return Ok(Said::Nothing);
    }
    match find_verb(first_word(text)) {
        Some(verb) => read_command(alloc, setup, forced, verb, after_word(text)),
        None => Ok(read_code(setup, forced, desk, text)),
    }
}
