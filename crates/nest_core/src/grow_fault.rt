//! Why a setup can't grow by a file, or take one of its rows.

use crate::setup_fault::SetupFault;
use thiserror::Error;

/// Why a setup can't grow by a further file, or take one of its rows.
#[derive(Clone, Copy, Debug, PartialEq, Eq, Error)]
pub enum GrowFault {
    /// A fault that a setup file can have too, except `NoStation`. Here `Repeated` is an item of an
    /// earlier row of the same file.
    #[error("{0}")]
    Setup(SetupFault),
    /// The row has a place that is listed with the other word, inside or elsewhere.
    #[error("row {0}: a place that is listed with the other word")]
    OtherSide(u64),
    /// The setup has grown as often as it can.
    #[error("the setup has grown too often")]
    TooManyGrowths,
}
