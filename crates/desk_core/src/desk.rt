//! What a desk keeps from one line to the next.
ghost use Rattle.std.specs.Prelude.{◌≡◌, None};

use codes_core::{Day, LoanCode, PlaceCode, ThingCode};

/// Where the things that are scanned next go.
#[derive(Clone, Copy)]
pub enum Target {
    /// They are moved to the place.
    Place(PlaceCode),
    /// They are packed into the container.
    Container(ThingCode),
    /// They leave under the loan.
    Out(LoanCode),
    /// They come back under the loan, to the place.
    Back(LoanCode, PlaceCode),
    /// They are received under the loan, at the place.
    In(LoanCode, PlaceCode),
}

/// What a desk keeps: where things go, and on which day.
#[derive(Clone, Copy)]
pub struct Desk {
    pub target: Option<Target>,
    pub day: Option<Day>,
}

impl Desk {
    /// A desk without a target.
    pub fn new(day: Option<Day>) -> Desk
        ensures target { result.target ≡ None }
        ensures day { result.day ≡ day }
    {
        Desk { target: None, day }
    }
}
