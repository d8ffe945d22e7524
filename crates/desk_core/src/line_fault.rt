//! The faults of a line at a desk.

use codes_core::NoMemory;
use hub_core::HubFault;

/// Why a line isn't taken.
#[derive(Clone, Copy)]
pub(crate) enum LineFault {
    /// Memory ran out, or the hub's store failed.
    Hub(HubFault),
    /// The log failed.
    Log,
}

impl From<HubFault> for LineFault {
    ghost use Rattle.std.specs.Prelude.{◌≡◌};
    ghost use Rattle.desk_core.specs.declared.line_fault.LineFault.TheVariants.{Hub};

    ghost from_gives = { λ fault e. e ≡ Hub fault };

    fn from(fault: HubFault) -> LineFault {
        LineFault::Hub(fault)
    }
}

impl From<NoMemory> for LineFault {
    ghost use Rattle.std.specs.Prelude.{◌≡◌};
    ghost use Rattle.hub_core.specs.declared.hub.answer.HubFault.TheVariants as hub;
    ghost use Rattle.desk_core.specs.declared.line_fault.LineFault.TheVariants.{Hub};

    ghost from_gives = { λ fault e. e ≡ Hub hub.NoMemory };

    fn from(_fault: NoMemory) -> LineFault {
        LineFault::Hub(HubFault::NoMemory)
    }
}
