//! The numbers of a station's messages.
ghost use Rattle.std.specs.Prelude.{◌<◌, length, IfOk};
ghost use Rattle.hub_program.specs.Printing.{IsFirst};

use crate::advice::{on_gap, on_station, on_value};
use crate::fault::CommandFault;
use line_files::{GapFault, next_number};
use nest_core::StationNo;
use posting_core::{LAST_NUMBER, Ledger};
use station_core::Refusal;
use std::alloc::Global;

/// Returns the number after `--first`, if there is one. Fault: Number, if the text is no number
/// that a message can have.
pub fn first_if(alloc: Global, text: Option<&str>) -> Result<Option<u32>, CommandFault> {
    let Some(text) = text else {
        return Ok(None);
    };
    match text.parse() {
        Ok(number) if number > 0 && number <= LAST_NUMBER => Ok(Some(number)),
        _ => {
            let advice = on_value(alloc, text, "a number from 1 to 999999");
            Err(CommandFault::Number(advice))
        }
    }
}

/// Returns the number of the first message of a file: the given one, or the next that the station
/// has to send. Faults, only if none is given: Station, if the station has signed off; Gap, if it
/// has no number left. `name` is used only for the advice.
pub fn first_of(
    alloc: Global,
    ledger: &Ledger,
    station: StationNo,
    name: &str,
    given: Option<u32>,
) -> Result<u32, CommandFault>
    requires { station < length ledger.now.museum.stations }
    ensures { IfOk result (IsFirst ledger.now station given) }
{
    if let Some(number) = given {
        return Ok(number);
    }
    match next_number(ledger, station) {
        Ok(number) => match u32::try_from(number) {
            Ok(number) => Ok(number),
            Err(_) => Err(fault_of_gap(alloc, name, GapFault::Full)),
        },
        Err(fault) => Err(fault_of_gap(alloc, name, fault)),
    }
}

/// Returns the fault of a station that has no number to fill.
pub fn fault_of_gap(alloc: Global, name: &str, fault: GapFault) -> CommandFault {
    match fault {
        GapFault::NoMemory => CommandFault::NoMemory,
        GapFault::SignedOff => {
            let refusal = Refusal::SignedOff;
            CommandFault::Station(refusal, on_station(alloc, name, refusal))
        }
        fault => CommandFault::Gap(fault, on_gap(alloc, name, fault)),
    }
}
