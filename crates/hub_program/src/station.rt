//! The station and the person that the words of a command name.
ghost use Rattle.std.specs.Prelude.{◌≡◌, ◌<◌, length, IfOk, MatchResult, None, Some};
ghost use Rattle.nest_core.specs.Museum.{find_station};

use crate::advice::{on_station, on_value};
use crate::fault::CommandFault;
use codes_core::{Name, NameFault};
use nest_core::{Setup, StationNo};
use station_core::Refusal;
use std::alloc::Global;

/// Returns the station of this name. Fault: Station, if the setup does not list it.
pub fn station_of(alloc: Global, setup: &Setup, name: &str) -> Result<StationNo, CommandFault>
    ensures found { MatchResult result
        (λ station. find_station setup.now name.now ≡ Some station)
        (λ _. find_station setup.now name.now ≡ None) }
    ensures within { IfOk result (λ station. station < length setup.now.stations) }
{
    match setup.station(name) {
        Some(station) => Ok(station),
        None => {
            let refusal = Refusal::UnknownStation;
            Err(CommandFault::Station(refusal, on_station(alloc, name, refusal)))
        }
    }
}

/// Returns the name of a person. Faults: Words, if the text is no name; NoMemory.
pub fn person_of(alloc: Global, text: &str) -> Result<Name, CommandFault>
    ensures { IfOk result (λ name. name ≡ text.now) }
{
    match Name::new(alloc, text.as_bytes()) {
        Ok(name) => Ok(name),
        Err(NameFault::NoMemory) => Err(CommandFault::NoMemory),
        Err(_) => Err(CommandFault::Words(on_value(alloc, text, "a name of 1 to 60 bytes"))),
    }
}
