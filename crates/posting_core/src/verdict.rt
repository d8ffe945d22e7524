//! The verdicts of messages.
ghost use Rattle.std.specs.Prelude.{◌≡◌, ◌≢◌, IfSome, IfNone};
ghost use Rattle.posting_core.specs.VerdictNames.{verdict_number, verdict_name};

/// The result of judging a message: `Applied`, or the reason why it is refused. If several reasons
/// apply, the verdict is the first in this order. Not every kind of message has every reason.
#[derive(Clone, Copy, Debug, PartialEq, Eq)]
pub enum Verdict {
    /// No rule is broken: the message takes effect.
    Applied,
    /// The setup didn't list the thing, or one of the loan's objects, when the message was posted.
    UnknownThing,
    /// The setup didn't list the place, or the partner's place, when the message was posted.
    UnknownPlace,
    /// The place is a partner's, not the museum's.
    ElsewherePlace,
    /// The setup didn't list the container when the message was posted, or the code isn't a
    /// container's.
    UnknownContainer,
    /// The loan isn't agreed.
    UnknownLoan,
    /// The loan is already agreed.
    LoanKnown,
    /// The partner's place belongs to the museum.
    InsidePartner,
    /// The agreement lists no objects.
    NoObjects,
    /// A container is listed or received, or exits under a loan in.
    NotObject,
    /// An object is listed twice.
    Repeated,
    /// A loan out lists a borrowed object, or a loan in an own one.
    WrongOwner,
    /// The last day is before the first day.
    BadTerm,
    /// The loan is already authorised.
    AlreadyAuthorised,
    /// The loan isn't authorised.
    NotAuthorised,
    /// It is a return under a loan in, or a receipt under a loan out.
    WrongDirection,
    /// The thing is elsewhere, or it is borrowed and has no place yet. For an exit: the thing isn't
    /// inside.
    NotHere,
    /// The container isn't inside.
    ContainerNotHere,
    /// The container is the thing, or is in it.
    Cycle,
    /// Some thing would have more containers above it than the depth limit.
    TooDeep,
    /// The thing isn't at the place of the loan's partner.
    NotWithPartner,
    /// The thing is inside.
    AlreadyHere,
    /// The loan doesn't list an object that crosses.
    NotListed,
    /// The loan line of an object that crosses isn't at the stage that the crossing needs.
    WrongStage,
    /// The day is after the loan's last day. A return, and an exit under a loan in, may be late.
    TermOver,
    /// The new last day isn't after the present one.
    NotLater,
}

impl Verdict {
    ghost use Rattle.posting_core.specs.declared.verdict.Verdict.{Verdict};

    /// The number by which a store keeps the verdict. `Applied` is 0.
    pub fn number(self) -> u32
        ensures { result ≡ verdict_number self }
    {
        match self {
            Verdict::Applied => 0,
            Verdict::UnknownThing => 1,
            Verdict::UnknownPlace => 2,
            Verdict::ElsewherePlace => 3,
            Verdict::UnknownContainer => 4,
            Verdict::UnknownLoan => 5,
            Verdict::LoanKnown => 6,
            Verdict::InsidePartner => 7,
            Verdict::NoObjects => 8,
            Verdict::NotObject => 9,
            Verdict::Repeated => 10,
            Verdict::WrongOwner => 11,
            Verdict::BadTerm => 12,
            Verdict::AlreadyAuthorised => 13,
            Verdict::NotAuthorised => 14,
            Verdict::WrongDirection => 15,
            Verdict::NotHere => 16,
            Verdict::ContainerNotHere => 17,
            Verdict::Cycle => 18,
            Verdict::TooDeep => 19,
            Verdict::NotWithPartner => 20,
            Verdict::AlreadyHere => 21,
            Verdict::NotListed => 22,
            Verdict::WrongStage => 23,
            Verdict::TermOver => 24,
            Verdict::NotLater => 25,
        }
    }

    /// The verdict with this number, or `None` above 25.
    pub fn numbered(number: u32) -> Option<Verdict>
        ensures some { IfSome result (λ verdict. verdict_number verdict ≡ number) }
        ensures none { IfNone result ((verdict : Verdict) → verdict_number verdict ≢ number) }
    {
        match number {
            0 => Some(Verdict::Applied),
            1 => Some(Verdict::UnknownThing),
            2 => Some(Verdict::UnknownPlace),
            3 => Some(Verdict::ElsewherePlace),
            4 => Some(Verdict::UnknownContainer),
            5 => Some(Verdict::UnknownLoan),
            6 => Some(Verdict::LoanKnown),
            7 => Some(Verdict::InsidePartner),
            8 => Some(Verdict::NoObjects),
            9 => Some(Verdict::NotObject),
            10 => Some(Verdict::Repeated),
            11 => Some(Verdict::WrongOwner),
            12 => Some(Verdict::BadTerm),
            13 => Some(Verdict::AlreadyAuthorised),
            14 => Some(Verdict::NotAuthorised),
            15 => Some(Verdict::WrongDirection),
            16 => Some(Verdict::NotHere),
            17 => Some(Verdict::ContainerNotHere),
            18 => Some(Verdict::Cycle),
            19 => Some(Verdict::TooDeep),
            20 => Some(Verdict::NotWithPartner),
            21 => Some(Verdict::AlreadyHere),
            22 => Some(Verdict::NotListed),
            23 => Some(Verdict::WrongStage),
            24 => Some(Verdict::TermOver),
            25 => Some(Verdict::NotLater),
            _ => None,
        }
    }

    /// The name of the verdict.
    pub fn name(self) -> &'static str
        ensures { result.now ≡ verdict_name self }
    {
        match self {
            Verdict::Applied => "Applied",
            Verdict::UnknownThing => "UnknownThing",
            Verdict::UnknownPlace => "UnknownPlace",
            Verdict::ElsewherePlace => "ElsewherePlace",
            Verdict::UnknownContainer => "UnknownContainer",
            Verdict::UnknownLoan => "UnknownLoan",
            Verdict::LoanKnown => "LoanKnown",
            Verdict::InsidePartner => "InsidePartner",
            Verdict::NoObjects => "NoObjects",
            Verdict::NotObject => "NotObject",
            Verdict::Repeated => "Repeated",
            Verdict::WrongOwner => "WrongOwner",
            Verdict::BadTerm => "BadTerm",
            Verdict::AlreadyAuthorised => "AlreadyAuthorised",
            Verdict::NotAuthorised => "NotAuthorised",
            Verdict::WrongDirection => "WrongDirection",
            Verdict::NotHere => "NotHere",
            Verdict::ContainerNotHere => "ContainerNotHere",
            Verdict::Cycle => "Cycle",
            Verdict::TooDeep => "TooDeep",
            Verdict::NotWithPartner => "NotWithPartner",
            Verdict::AlreadyHere => "AlreadyHere",
            Verdict::NotListed => "NotListed",
            Verdict::WrongStage => "WrongStage",
            Verdict::TermOver => "TermOver",
            Verdict::NotLater => "NotLater",
        }
    }
}
