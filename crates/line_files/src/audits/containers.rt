//! The containers that things lie in directly.
ghost use Rattle.std.specs.Prelude.{◌≡◌, ◌<◌, IfOk, IfSome, length, slice_get};
ghost use Rattle.line_files.specs.Sightings.{container_of, container_holding};

use codes_core::{NoMemory, ThingCode};
use nest_core::ThingNo;
use posting_core::Ledger;
use std::alloc::Global;

/// The container that the thing lies in directly. Fails with `NoMemory`.
pub(crate) fn container_of(
    alloc: Global,
    ledger: &Ledger,
    thing: ThingNo,
) -> Result<Option<ThingNo>, NoMemory>
    requires { thing < length ledger.now.museum.things }
    ensures container { IfOk result (λ found. found ≡ container_of ledger.now thing) }
    ensures within { IfOk result
        (λ found. IfSome found (λ c. c < length ledger.now.museum.things)) }
{
    let chain = ledger.chain(alloc, thing)?;
    Ok(first_of(chain.as_slice()))
}

fn first_of(things: &[ThingNo]) -> Option<ThingNo>
    ensures { result ≡ slice_get things.now 0 }
{
    match things {
        [] => None,
        [first, ..] => Some(*first),
    }
}

/// The container that the thing with this code lies in directly. Fails with `NoMemory`.
pub(crate) fn container_holding(
    alloc: Global,
    ledger: &Ledger,
    code: &ThingCode,
) -> Result<Option<ThingNo>, NoMemory>
    ensures container { IfOk result (λ found. found ≡ container_holding ledger.now code.now) }
    ensures within { IfOk result
        (λ found. IfSome found (λ c. c < length ledger.now.museum.things)) }
{
    match ledger.setup().thing(code) {
        Some(thing) => container_of(alloc, ledger, thing),
        None => Ok(None),
    }
}
