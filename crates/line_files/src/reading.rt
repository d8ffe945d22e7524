//! What a line is to a station.
ghost use Rattle.std.specs.Prelude.{◌≡◌, IfOk};
ghost use Rattle.line_files.specs.Readings.{is_number, numbered, reading, requested, sent_by};

use crate::LineFault;
use crate::lines::is_too_long;
use borrowed_json::Scratch;
use codes_core::NoMemory;
use hub_core::{Line, Request, read_line_with};
use nest_core::{Setup, StationNo};
use posting_core::{LAST_NUMBER, Message};
use register_store::ReadFault;
use std::alloc::Global;

/// What a line is to a station: a message of it with its number, or a line that no record takes.
#[derive(Drop)]
pub(crate) enum Reading {
    Numbered { n: u32, message: Message },
    Bad(LineFault),
}

/// Reads a line that is not empty. Fails with `NoMemory`.
pub(crate) fn read_as(
    alloc: Global,
    scratch: &mut Scratch,
    setup: &Setup,
    station: StationNo,
    line: &[u8],
) -> Result<Reading, NoMemory>
    ensures { IfOk result (λ read. read ≡ reading setup.now station line.now) }
{
    if is_too_long(line) {
        return Ok(Reading::Bad(LineFault::TooLong));
    }
    match read_line_with(alloc, scratch, setup, line) {
        Ok(line) => Ok(sent_by(station, line)),
        Err(ReadFault::NoMemory) => Err(NoMemory),
        Err(fault) => Ok(Reading::Bad(LineFault::Unread(fault))),
    }
}

fn sent_by(station: StationNo, line: Line) -> Reading
    ensures { result ≡ sent_by station line.station line.request }
{
    match line.station {
        None => Reading::Bad(LineFault::UnknownStation),
        Some(other) => {
            if other == station {
                requested(line.request)
            } else {
                Reading::Bad(LineFault::OtherStation)
            }
        }
    }
}

fn requested(request: Request) -> Reading
    ensures { result ≡ requested request }
{
    match request {
        Request::Scan { n, message } => numbered(n, message),
        Request::Ask { .. } => Reading::Bad(LineFault::Question),
    }
}

fn numbered(n: u64, message: Message) -> Reading
    ensures { result ≡ numbered n message }
{
    if is_number(n) {
        Reading::Numbered {
            n: n as u32,
            message,
        }
    } else {
        Reading::Bad(LineFault::BadNumber)
    }
}

/// Whether a message may have this number.
pub(crate) fn is_number(n: u64) -> bool
    ensures { result ≡ is_number n }
{
    n > 0 && n <= u64::from(LAST_NUMBER)
}
