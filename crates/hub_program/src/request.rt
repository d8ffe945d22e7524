//! Reads the files that the words of a report name, and turns faulty values into the program's
//! faults.
ghost use Rattle.std.specs.Prelude.{◌≡◌, IfOk, option_map};
ghost use Rattle.codes_core.specs.Day.{day_number};
ghost use Rattle.question_words.specs.Values.{number_in};

use crate::advice::on_value;
use crate::fault::CommandFault;
use crate::files::{read_list, read_setup};
use codes_core::{Day, NoMemory};
use command_words::Asked;
use desk_core::Questions;
use nest_core::Setup;
use question_words::desk::desk_question;
use question_words::{ValueFault, Wanted, WantedFault, wanted_of};
use reports::Question;
use std::alloc::Global;

/// Reads the setup, and returns it with the question that the words ask. Faults, in this order:
/// Day, Code or Number, if the value is not in its form; those of the setup's file, and of the
/// setup; those of the count list.
pub fn read_question(
    rt: &HostRuntime,
    setup: &str,
    asked: Asked<'_>,
) -> Result<(Setup, Question), CommandFault> {
    match wanted_of(rt.alloc(), asked) {
        Ok(Wanted::Answer(question)) => with_setup(rt, setup, question),
        Ok(Wanted::Count { list, sealed }) => read_count(rt, setup, list, sealed),
        Err(WantedFault::Value(fault)) => Err(on_fault(rt.alloc(), fault)),
        Err(WantedFault::NoMemory) => Err(CommandFault::NoMemory),
    }
}

/// The reports at a desk: those of the command line, but for `count`.
pub struct DeskQuestions;

impl Questions for DeskQuestions {
    ghost use Rattle.question_words.specs.Desk.{DeskAsks};

    ghost asks = { DeskAsks };

    fn question(&self, alloc: Global, words: &[String]) -> Result<Option<Question>, NoMemory> {
        desk_question(alloc, words)
    }
}

/// Reads the setup, and returns it with the question.
fn with_setup(
    rt: &HostRuntime,
    setup: &str,
    question: Question,
) -> Result<(Setup, Question), CommandFault> {
    match read_setup(rt, rt.alloc(), setup) {
        Ok(setup) => Ok((setup, question)),
        Err(fault) => {
            drop(question);
            Err(fault)
        }
    }
}

/// Reads the setup and the count list.
fn read_count(
    rt: &HostRuntime,
    setup: &str,
    list: &str,
    sealed: bool,
) -> Result<(Setup, Question), CommandFault> {
    let setup = read_setup(rt, rt.alloc(), setup)?;
    match read_list(rt, rt.alloc(), list) {
        Ok(rows) => Ok((setup, Question::Count { rows, sealed })),
        Err(fault) => {
            drop(setup);
            Err(fault)
        }
    }
}

/// Returns the day, if there is one. Fault: Day, if the text is no day.
pub fn day_if(alloc: Global, text: Option<&str>) -> Result<Option<Day>, CommandFault>
    ensures { IfOk result (λ day. day ≡ option_map (λ t. day_number t.now) text.entry) }
{
    match question_words::day_if(text) {
        Ok(day) => Ok(day),
        Err(fault) => Err(on_fault(alloc, fault)),
    }
}

/// Returns the day of this text. Fault: Day, if it is no day.
pub fn day_of(alloc: Global, text: &str) -> Result<Day, CommandFault>
    ensures { IfOk result (λ day. day ≡ day_number text.now) }
{
    match Day::parse(text.as_bytes()) {
        Ok(day) => Ok(day),
        Err(fault) => Err(on_fault(alloc, ValueFault::Day(fault, text))),
    }
}

/// Returns the number of an entry, if there is one. Fault: Number, if the text is no number.
pub fn number_if(alloc: Global, text: Option<&str>) -> Result<Option<u64>, CommandFault>
    ensures { IfOk result (λ number. number ≡ option_map (λ t. number_in t.now) text.entry) }
{
    match question_words::number_if(text) {
        Ok(number) => Ok(number),
        Err(fault) => Err(on_fault(alloc, fault)),
    }
}

/// The program's fault for a value that is not in its form, with the advice on the value.
fn on_fault(alloc: Global, fault: ValueFault<'_>) -> CommandFault {
    match fault {
        ValueFault::Day(fault, text) => {
            CommandFault::Day(fault, on_value(alloc, text, "a day such as 2024-06-01"))
        }
        ValueFault::Thing(fault, text) => {
            let wanted = "the code of a thing, such as 2001.4.1 or C17";
            CommandFault::Code(fault, on_value(alloc, text, wanted))
        }
        ValueFault::Loan(fault, text) => {
            let wanted = "the code of a loan, such as LO2024.1";
            CommandFault::Code(fault, on_value(alloc, text, wanted))
        }
        ValueFault::Place(fault, text) => {
            let wanted = "the code of a place, such as S1 or S1-A";
            CommandFault::Code(fault, on_value(alloc, text, wanted))
        }
        ValueFault::Number(text) => {
            CommandFault::Number(on_value(alloc, text, "the number of an entry, such as 17"))
        }
    }
}
