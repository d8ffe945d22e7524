//! The questions that a report answers.
ghost use Rattle.std.specs.Prelude.{◌≡◌, map};
ghost use Rattle.reports.specs.Names.{names};

use codes_core::{Day, LoanCode, PlaceCode, ThingCode};
use count_core::CountRow;

/// A question about a record.
#[derive(Drop)]
pub enum Question {
    /// How does a count list compare with the record?
    Count {
        rows: Vec<CountRow>,
        /// A container that was seen where the record has it vouches for the objects in it.
        sealed: bool,
    },
    /// Which loans are overdue on a day?
    Overdue(Day),
    /// Which of the museum's own objects aren't at their normal locations?
    Away,
    /// Where has a thing been?
    History(ThingCode),
    /// Where has a thing been, in which containers, and by which messages?
    LongHistory(ThingCode),
    /// Which number does each station have to send next?
    Stations,
    /// Where is a thing, and in which containers?
    Where(ThingCode),
    /// What is in a container?
    Contents(ThingCode),
    /// What are a loan's terms and state, and the stages of its objects?
    Loan(LoanCode),
    /// What is at a place?
    At(PlaceCode),
    /// Which entries were posted?
    Posted(EntryFilter),
    /// Which loans are agreed, how far have they come, and how many days are left?
    Loans(LoanFilter),
    /// Which objects are due by a day, to come back or to go back?
    Dues(Day),
    /// Why did these entries get their verdicts?
    Why(EntryFilter),
}

/// Which entries a list has. An entry has to meet all that is asked.
#[derive(Drop)]
pub struct EntryFilter {
    /// The number of the first entry. There is no entry 0.
    pub from: u64,
    /// The number of the last entry.
    pub to: Option<u64>,
    /// Only messages of the station of this name.
    pub station: Option<String>,
    /// Only messages that name this thing: as what they put, as the container, or as an object of a
    /// loan.
    pub thing: Option<ThingCode>,
    /// Only messages that name this loan.
    pub loan: Option<LoanCode>,
    /// Only messages with a verdict other than Applied.
    pub refused: bool,
}

/// Which loans a list has, and the day on which it counts the days that are left.
#[derive(Clone, Copy)]
pub struct LoanFilter {
    /// The day on which the days that are left are counted.
    pub on: Option<Day>,
    /// Only loans that end on this day or before it.
    pub by: Option<Day>,
    /// Only loans that aren't closed.
    pub open: bool,
}

/// Returns the names of the report's columns, in their order.
pub fn names_of(question: &Question) -> &'static [&'static str]
    ensures { map (λ name. name.now) result.now ≡ names question.now }
{
    match question {
        Question::Count { .. } => &["row", "place", "thing", "answer", "on_record"],
        Question::Overdue(_) => &["loan", "last"],
        Question::Away => &["object", "place", "normal"],
        Question::History(_) => &["entry", "day", "place"],
        Question::LongHistory(_) => &[
            "entry",
            "day",
            "place",
            "containers",
            "loan",
            "station",
            "n",
            "kind",
        ],
        Question::Stations => &["station", "next", "signed_off"],
        Question::Where(_) => &["thing", "state", "place", "containers"],
        Question::Contents(_) => &["thing", "state", "containers"],
        Question::Loan(_) => &[
            "loan", "state", "partner", "first", "last", "object", "stage",
        ],
        Question::At(_) => &["thing", "place"],
        Question::Posted(_) => &["entry", "station", "n", "verdict", "message"],
        Question::Loans(_) => &[
            "loan",
            "state",
            "partner",
            "first",
            "last",
            "objects",
            "awaiting",
            "out",
            "back",
            "on",
            "days_left",
            "authorised_by",
        ],
        Question::Dues(_) => &["loan", "object", "last", "stage", "partner"],
        Question::Why(_) => &[
            "entry", "station", "n", "kind", "verdict", "culprit", "cause",
        ],
    }
}
