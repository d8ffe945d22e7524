//! The answers to a count list, and the rows of reports.
use nest_core::{PlaceNo, ThingNo};

/// The answer to a row of a count list: the first of these that applies.
#[derive(Clone, Copy, Debug, PartialEq)]
pub enum CountAnswer {
    /// The setup doesn't have the place.
    UnknownPlace,
    /// The row names no object: its place was looked at.
    Counted,
    /// The setup doesn't have the thing.
    UnknownObject,
    /// An earlier row names the same thing.
    Again,
    /// The thing was never placed.
    Unplaced,
    /// The thing's place is the row's place, or lies in it.
    Found,
    /// The thing is at this place, which isn't the row's and doesn't lie in it.
    Elsewhere(PlaceNo),
}

/// An object in a place of a count list that no row of the list names.
#[derive(Clone, Copy, Debug, PartialEq)]
pub struct MissingObject {
    pub place: PlaceNo,
    pub object: ThingNo,
}

/// The result of checking a count list: the answer to each row, in order; and for each place of the
/// list, in the order of first mention, the objects in it that no row names, in ascending order.
#[derive(Debug, Drop)]
pub struct CountReport {
    pub answers: Vec<CountAnswer>,
    pub missing: Vec<MissingObject>,
}

/// An own object that isn't at its normal place, with its current place. None if it was never
/// placed.
#[derive(Clone, Copy, Debug, PartialEq)]
pub struct AwayObject {
    pub object: ThingNo,
    pub place: Option<PlaceNo>,
}
