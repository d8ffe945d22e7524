//! The rows of a count list.
use codes_core::{PlaceCode, ThingCode};

/// A row of a count list: a place that was looked at, and the thing that was seen there, if the row
/// names one.
#[derive(Clone, Copy, Debug)]
pub struct CountRow {
    pub place: PlaceCode,
    pub object: Option<ThingCode>,
}
