//! The stages of a loan line, and the states of a loan.
ghost use Rattle.std.specs.Prelude.{◌≡◌, ◌≢◌, IfSome, IfNone};
ghost use Rattle.posting_core.specs.StageNumbers.{stage_number};

/// How far an object has come under a loan that lists it: the stage of its loan line.
#[derive(Clone, Copy, Debug, PartialEq, Eq, PartialOrd, Ord)]
pub enum LineStage {
    /// It is still expected: it has not crossed yet.
    Awaiting,
    /// It is away, under a loan out.
    Away,
    /// It came back, under a loan out.
    Back,
    /// It is here, under a loan in.
    Here,
    /// It was given back, under a loan in.
    GivenBack,
}

impl LineStage {
    ghost use Rattle.posting_core.specs.declared.stage.LineStage.{LineStage};

    /// The number by which a store keeps the stage. `Awaiting` is 0.
    pub fn number(self) -> u32
        ensures { result ≡ stage_number self }
    {
        match self {
            LineStage::Awaiting => 0,
            LineStage::Away => 1,
            LineStage::Back => 2,
            LineStage::Here => 3,
            LineStage::GivenBack => 4,
        }
    }

    /// The stage with this number, or `None` above 4.
    pub fn numbered(number: u32) -> Option<LineStage>
        ensures some { IfSome result (λ stage. stage_number stage ≡ number) }
        ensures none { IfNone result ((stage : LineStage) → stage_number stage ≢ number) }
    {
        match number {
            0 => Some(LineStage::Awaiting),
            1 => Some(LineStage::Away),
            2 => Some(LineStage::Back),
            3 => Some(LineStage::Here),
            4 => Some(LineStage::GivenBack),
            _ => None,
        }
    }
}

/// How far a loan has come.
#[derive(Clone, Copy, Debug, PartialEq, Eq)]
pub enum LoanState {
    /// It is not authorised yet.
    Draft,
    /// It is authorised, and nothing has crossed under it.
    Authorised,
    /// Some object has crossed, and not all are back or given back.
    Running,
    /// It is authorised, and every object is back or given back.
    Closed,
}
