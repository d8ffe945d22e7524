//! Prints and checks the seals and receipts of a record.
ghost use Rattle.std.specs.Prelude.{◌≡◌, IfOk, None, OnOk, Some, option_map, string_bytes};
ghost use Rattle.hub_program.specs.Places.{kept_in};
ghost use Rattle.hub_program.specs.Sealing.{PrintsChecks, PrintsReceipt, PrintsReceiptCheck};
ghost use Rattle.question_words.specs.Values.{number_in};
ghost use Rattle.seal_core.specs.Printing.{seal_line};
ghost use Rattle.std.specs.Io.KnownBytes.{Appends};

use crate::advice::{on_check_alone, on_unposted, on_value};
use crate::ending::Ending;
use crate::fault::CommandFault;
use crate::files::read_named;
use crate::judging::read_record;
use crate::lines::write_line;
use crate::store::ClosedStore;
use codes_core::add_on_one_line;
use command_words::{ReceiptWords, SealWords};
use posting_core::{EntryNo, Ledger};
use seal_core::{
    ReceiptFault, SealFault, check_receipt_file, check_seals, receipt_line, seal_line,
};
use sqlite::Start;
use std::alloc::Global;
use std::io::{BufRead, Write};
use std::thread::Threads;
use table_core::past_mark;

/// Prints the seal of the record, or checks the seals in a file. The exit status is 0 only if the
/// file has a seal, and each line that is not empty is a seal that holds.
///
/// Faults, in this order: Words, if both `--upto` and a file are given; Number, if the value of
/// `--upto` is no number; those of the file of seals; those of the setup's file, and of the setup;
/// those of opening the store, of checking its record, and of closing it; Number, if the record has
/// fewer entries; WriteFailed. NoMemory can come instead of any of them.
pub fn seal_record<'a, T: Threads + Sync, S: Start, R: BufRead, W: Write>(
    rt: &HostRuntime,
    threads: &T,
    wanted: &SealWords<'a>,
    start: S,
    input: &mut R,
    output: &mut W,
    notes: &mut String,
) -> Result<Ending<'a>, CommandFault>
    ensures { IfOk result (λ ending. kept_in ending ≡ Some wanted.now.store.now) }
{
    if let Some(file) = wanted.check {
        return compare_seals(rt, threads, wanted, file, start, input, output, notes);
    }
    let upto = entry_if(rt.alloc(), wanted.upto)?;
    let (ledger, closed) = read_record(rt, wanted.setup, wanted.store, start)?;
    print_seal(threads, rt.alloc(), &ledger, upto, output)?;
    Ok(Ending::Done(Some(closed)))
}

/// Prints whether the seals in a file hold.
fn compare_seals<'a, T: Threads + Sync, S: Start, R: BufRead, W: Write>(
    rt: &HostRuntime,
    threads: &T,
    wanted: &SealWords<'a>,
    file: &str,
    start: S,
    input: &mut R,
    output: &mut W,
    notes: &mut String,
) -> Result<Ending<'a>, CommandFault>
    ensures { IfOk result (λ ending. kept_in ending ≡ Some wanted.now.store.now) }
{
    if wanted.upto.is_some() {
        return Err(CommandFault::Words(on_check_alone(rt.alloc(), "--upto")));
    }
    let bytes = read_named(rt, file, input)?;
    let (ledger, closed) = read_record(rt, wanted.setup, wanted.store, start)?;
    if print_checks(
        threads,
        rt.alloc(),
        &ledger,
        past_mark(&bytes),
        output,
        notes,
    )? {
        return Ok(Ending::Done(Some(closed)));
    }
    Ok(Ending::NotApplied(Some(closed)))
}

/// Prints the receipt of an entry.
///
/// Faults, in this order: Number, if `entry` or the value of `--upto` is no number; those of the
/// setup's file, and of the setup; those of opening the store, of checking its record, and of
/// closing it; Number, if there is no such entry; WriteFailed. NoMemory can come instead of any of
/// them.
pub fn give_receipt<'a, S: Start, W: Write>(
    rt: &HostRuntime,
    wanted: &ReceiptWords<'a>,
    start: S,
    output: &mut W,
) -> Result<ClosedStore<'a>, CommandFault>
    ensures { IfOk result (λ closed. closed.path ≡ wanted.now.store) }
{
    let entry = entry_of(rt.alloc(), wanted.entry)?;
    let upto = entry_if(rt.alloc(), wanted.upto)?;
    let (ledger, closed) = read_record(rt, wanted.setup, wanted.store, start)?;
    print_receipt(rt.alloc(), &ledger, entry, upto, output)?;
    Ok(closed)
}

/// Checks the receipt in a file, without a record. The exit status is 0 only if it holds. `others`
/// is whether an entry or `--upto` is given, too.
///
/// Faults, in this order: Words, if there are others; those of the file; Faults, if it has no
/// receipt; WriteFailed. NoMemory can come instead of any of them.
pub fn check_given<'a, R: BufRead, W: Write>(
    rt: &HostRuntime,
    file: &str,
    others: bool,
    input: &mut R,
    output: &mut W,
    notes: &mut String,
) -> Result<Ending<'a>, CommandFault>
    ensures { IfOk result (λ ending. kept_in ending ≡ None) }
{
    if others {
        let advice = on_check_alone(rt.alloc(), "--upto and ENTRY");
        return Err(CommandFault::Words(advice));
    }
    let bytes = read_named(rt, file, input)?;
    if print_receipt_check(rt.alloc(), file, past_mark(&bytes), output, notes)? {
        return Ok(Ending::Done(None));
    }
    Ok(Ending::NotApplied(None))
}

/// Prints the seal. Faults, in this order: Number, if the record has fewer entries; WriteFailed;
/// NoMemory.
fn print_seal<T: Threads + Sync, W: Write>(
    threads: &T,
    alloc: Global,
    ledger: &Ledger,
    upto: Option<EntryNo>,
    output: &mut W,
) -> Result<(), CommandFault>
    ensures { OnOk result (Appends (W.contents output.old) (W.contents output.new)
        (seal_line ledger.now upto)) }
{
    match seal_line(threads, alloc, ledger, upto) {
        Ok(line) => write_line(output, &line),
        Err(fault) => Err(fault_of_sealing(alloc, ledger, upto, fault)),
    }
}

/// Prints whether the seals in a file hold, and adds help to the notes. Returns whether the file
/// has a seal, and each line that is not empty is a seal that holds. Faults: WriteFailed; NoMemory.
fn print_checks<T: Threads + Sync, W: Write>(
    threads: &T,
    alloc: Global,
    ledger: &Ledger,
    bytes: &[u8],
    output: &mut W,
    notes: &mut String,
) -> Result<bool, CommandFault>
    ensures { IfOk result (PrintsChecks ledger.now bytes.now
        (W.contents output.old) (W.contents output.new)
        (string_bytes notes.old) (string_bytes notes.new)) }
{
    let checked = check_seals(threads, alloc, ledger, bytes)?;
    write_line(output, &checked.text)?;
    notes.push_str(checked.help)?;
    Ok(checked.is_fine)
}

/// Prints the receipt. Faults, in this order: Number, if there is no such entry; WriteFailed;
/// NoMemory.
fn print_receipt<W: Write>(
    alloc: Global,
    ledger: &Ledger,
    entry: EntryNo,
    upto: Option<EntryNo>,
    output: &mut W,
) -> Result<(), CommandFault>
    ensures { OnOk result (PrintsReceipt ledger.now entry upto
        (W.contents output.old) (W.contents output.new)) }
{
    match receipt_line(alloc, ledger, entry, upto) {
        Ok(line) => write_line(output, &line),
        Err(fault) => Err(fault_of_sealing(alloc, ledger, upto, fault)),
    }
}

/// Prints whether the receipt in a file holds, and adds a note. Faults: Faults, if the file has no
/// receipt; WriteFailed; NoMemory. The path is used only for the advice.
fn print_receipt_check<W: Write>(
    alloc: Global,
    path: &str,
    bytes: &[u8],
    output: &mut W,
    notes: &mut String,
) -> Result<bool, CommandFault>
    ensures { IfOk result (PrintsReceiptCheck bytes.now
        (W.contents output.old) (W.contents output.new)) }
{
    match check_receipt_file(alloc, bytes) {
        Ok(checked) => {
            write_line(output, &checked.text)?;
            notes.push_str(note_on(checked.holds))?;
            Ok(checked.holds)
        }
        Err(ReceiptFault::NoMemory) => Err(CommandFault::NoMemory),
        Err(ReceiptFault::NotReceipt) => Err(CommandFault::Faults(no_receipt(alloc, path)?)),
    }
}

/// The note after the check of a receipt.
fn note_on(holds: bool) -> &'static str {
    if holds {
        "note: compare the seal's number and hash with a seal that you have from another source\n"
    } else {
        "help: the receipt was changed: ask the museum for it again\n"
    }
}

/// The fault of a seal or a receipt that can't be made.
fn fault_of_sealing(
    alloc: Global,
    ledger: &Ledger,
    upto: Option<EntryNo>,
    fault: SealFault,
) -> CommandFault {
    match fault {
        SealFault::NoMemory => CommandFault::NoMemory,
        SealFault::NotPosted => {
            CommandFault::Number(on_unposted(alloc, ledger.entry_count(), upto))
        }
    }
}

/// The number of an entry, if there is one. Fault: Number, if the text is no number.
fn entry_if(alloc: Global, text: Option<&str>) -> Result<Option<EntryNo>, CommandFault>
    ensures { IfOk result (λ entry. entry ≡ option_map (λ t. number_in t.now) text.entry) }
{
    match text {
        Some(text) => Ok(Some(entry_of(alloc, text)?)),
        None => Ok(None),
    }
}

/// The number of an entry. Fault: Number, if the text is no number.
fn entry_of(alloc: Global, text: &str) -> Result<EntryNo, CommandFault>
    ensures { IfOk result (λ entry. entry ≡ number_in text.now) }
{
    match text.parse() {
        Ok(entry) => Ok(entry),
        Err(_) => {
            let advice = on_value(alloc, text, "the number of an entry, such as 17");
            Err(CommandFault::Number(advice))
        }
    }
}

/// The lines of the fault of a file without a receipt.
fn no_receipt(alloc: Global, path: &str) -> Result<String, CommandFault> {
    let mut text = String::from_str(alloc, "fault receipt NotReceipt\nhelp: ")?;
    add_on_one_line(&mut text, path)?;
    text.push_str(" is not a line of 'pairsalder receipt', or it was changed\n")?;
    Ok(text)
}
