//! Sends a message of the desk's own station, and answers it.
ghost use Rattle.std.specs.Prelude.{◌≡◌, ◌<◌, ◌++◌, ◌∷◌, ◌&&◌, [], false, length, not, IfOk, OnOk};
ghost use Rattle.std.specs.Prelude.{string_bytes};
ghost use Rattle.hub_core.specs.LineText.{answer_text, station_text};
ghost use Rattle.desk_core.specs.Answers.{after_colon, answer_detail, detail_words, is_done};
ghost use Rattle.desk_core.specs.Answers.{message_answer, without_feed};
ghost use Rattle.desk_core.specs.Logs.{log_of};
ghost use Rattle.desk_core.specs.Sent.{own_arrival};
ghost use Rattle.desk_core.specs.Sessions.{TakesAndLogs};
ghost use Rattle.desk_core.specs.Texts.{line_end};

use crate::Bench;
use crate::line_fault::LineFault;
use crate::posting::post;
use crate::texts::{add, line_end};
use codes_core::{NoMemory, ThingCode};
use hub_core::{Answer, Hub, add_answer};
use nest_core::StationNo;
use posting_core::{Ledger, Message, Verdict, thing_named};
use register_store::Register;
use reports::{cause_text, where_text};
use std::alloc::Global;
use std::io::Write;

/// Sends the message under the station's next number, and appends the answer. The message is logged
/// before it is posted.
pub(crate) fn send<S: Register, L: Write>(
    alloc: Global,
    bench: &Bench<'_>,
    message: Message,
    hub: &mut Hub<S>,
    log: &mut Option<L>,
    text: &mut Vec<u8>,
) -> Result<(), LineFault>
    requires up { hub.old.down ≡ false }
    requires known { bench.now.station < length hub.old.book.museum.stations }
    ensures { TakesAndLogs S.holding hub.old hub.new
        (log_of L.contents log.old) (log_of L.contents log.new) bench.now.station
        (λ O A. text.new.items ≡ text.old.items
        ++ message_answer hub.old.book.museum hub.old.book.depth O A bench.now.station
        bench.now.has_bell message)
        (λ O A. own_arrival hub.old.book.museum hub.old.book.depth O A bench.now.station message
        ∷ []) result }
{
    let verdict = hub.ledger().judge(alloc, &message)?;
    let cause = cause_text(alloc, hub.ledger(), &message, verdict)?;
    let thing = thing_named(&message);
    let station = bench.station;
    let posted = post(alloc, station, message, hub, log)?;
    let answer = posted.1;
    add_reply(alloc, hub, station, posted.0, answer, text)?;
    add_detail(alloc, hub.ledger(), verdict, thing, cause, answer, text)?;
    add_end(bench.has_bell, answer, verdict, text)?;
    Ok(())
}

/// Appends the reply of a replay to number `n` of the station, without its line feed.
fn add_reply<S: Register>(
    alloc: Global,
    hub: &Hub<S>,
    station: StationNo,
    n: u64,
    answer: Answer,
    text: &mut Vec<u8>,
) -> Result<(), NoMemory>
    requires { station < length hub.now.book.museum.stations }
    ensures { OnOk result (text.new.items ≡ text.old.items ++ without_feed
        (answer_text (station_text hub.now.book.museum station) n hub.now.book.posted answer)) }
{
    let mut reply = String::new(alloc);
    add_answer(
        &mut reply,
        hub.ledger().setup(),
        station,
        n,
        answer,
        hub.posted(),
    )?;
    text.extend_from_slice(without_feed(reply.as_bytes()))?;
    Ok(())
}

/// The line without its line feed.
fn without_feed(line: &[u8]) -> &[u8]
    ensures { result.now ≡ without_feed line.now }
{
    line.strip_suffix(b"\n").unwrap_or(line)
}

/// Appends the end of an answer. The bell rings unless the message is posted and applied.
fn add_end(
    has_bell: bool,
    answer: Answer,
    verdict: Verdict,
    text: &mut Vec<u8>,
) -> Result<(), NoMemory>
    ensures { OnOk result (text.new.items ≡ text.old.items
        ++ line_end (has_bell && not (is_done answer verdict))) }
{
    let rings = has_bell && !is_done(answer, verdict);
    add(text, &[line_end(rings)])
}

/// Whether the message is posted and applied.
fn is_done(answer: Answer, verdict: Verdict) -> bool
    ensures { result ≡ is_done answer verdict }
{
    matches!(answer, Answer::Posted { .. }) && matches!(verdict, Verdict::Applied)
}

/// What an answer adds to the reply: where the thing is now, or why the message was refused.
fn detail(
    alloc: Global,
    ledger: &Ledger,
    verdict: Verdict,
    thing: Option<ThingCode>,
    cause: String,
) -> Result<String, NoMemory>
    ensures { IfOk result (λ text. string_bytes text
        ≡ detail_words ledger.now verdict thing (string_bytes cause)) }
{
    if !matches!(verdict, Verdict::Applied) {
        return Ok(cause);
    }
    match thing {
        Some(code) => where_text(alloc, ledger, code),
        None => Ok(String::new(alloc)),
    }
}

/// Appends what the answer adds to the reply. A message that isn't posted has its reply alone.
fn add_detail(
    alloc: Global,
    ledger: &Ledger,
    verdict: Verdict,
    thing: Option<ThingCode>,
    cause: String,
    answer: Answer,
    text: &mut Vec<u8>,
) -> Result<(), NoMemory>
    ensures { OnOk result (text.new.items ≡ text.old.items
        ++ answer_detail answer (detail_words ledger.now verdict thing (string_bytes cause))) }
{
    match answer {
        Answer::Posted { .. } => {
            let words = detail(alloc, ledger, verdict, thing, cause)?;
            add_after_colon(words.as_str(), text)
        }
        _ => Ok(()),
    }
}

/// Appends the words after a colon, if there are any.
fn add_after_colon(words: &str, text: &mut Vec<u8>) -> Result<(), NoMemory>
    ensures { OnOk result (text.new.items ≡ text.old.items ++ after_colon words.now) }
{
    if words.is_empty() {
        return Ok(());
    }
    add(text, &[": ", words])
}
