//! Prints a report.
ghost use Rattle.posting_core.specs.Past.{as_of};
ghost use Rattle.std.specs.Prelude.{◌≡◌, OnOk, IfErr};
ghost use Rattle.std.specs.Io.KnownBytes.{Appends};
ghost use Rattle.reports.specs.Reports.{report_text};
ghost use Rattle.work_core.specs.Stops.{StopsReport};

use crate::WorkFault;
use crate::notes::add_unanswered;
use hub_core::Hub;
use register_store::Register;
use reports::{Form, Question, print_as_of};
use std::alloc::Global;
use std::io::Write;
use std::thread::Threads;

/// Prints the answer to the question, from the record as it is or as it was after an entry. Nothing
/// else is written to the output. Returns the hub's register, and the fault if there is one.
pub(crate) fn printed<T: Threads + Sync, S: Register, W: Write>(
    threads: &T,
    alloc: Global,
    hub: Hub<S>,
    question: &Question,
    form: Form,
    upto: Option<u64>,
    output: &mut W,
    notes: &mut String,
) -> (S, Result<(), WorkFault>)
    ensures written { OnOk result.1 (Appends (W.contents output.old) (W.contents output.new)
        (report_text form (as_of upto hub.book) question.now)) }
    ensures stops { IfErr result.1 (StopsReport (W.contents output.old) (W.contents output.new)
        (report_text form (as_of upto hub.book) question.now)) }
    ensures same { result.0 ≡ hub.register }
{
    let ended = answer(threads, alloc, &hub, question, form, upto, output, notes);
    (hub.close(), ended)
}

/// Prints the answer to the question, and adds the notes.
fn answer<T: Threads + Sync, S: Register, W: Write>(
    threads: &T,
    alloc: Global,
    hub: &Hub<S>,
    question: &Question,
    form: Form,
    upto: Option<u64>,
    output: &mut W,
    notes: &mut String,
) -> Result<(), WorkFault>
    ensures written { OnOk result (Appends (W.contents output.old) (W.contents output.new)
        (report_text form (as_of upto hub.now.book) question.now)) }
    ensures stops { IfErr result (StopsReport (W.contents output.old) (W.contents output.new)
        (report_text form (as_of upto hub.now.book) question.now)) }
{
    if let Err(_) = add_unanswered(notes, hub.ledger(), question, upto) {
        return Err(WorkFault::NoMemory);
    }
    match print_as_of(threads, alloc, hub.ledger(), upto, question, form, output) {
        Ok(()) => Ok(()),
        Err(fault) => Err(WorkFault::from(fault)),
    }
}
