//! The words that a line can begin with.
ghost use Rattle.std.specs.Prelude.{◌≡◌};
ghost use Rattle.desk_core.specs.Verbs.{find_verb, verb_word};

/// The word that a line begins with.
#[derive(Clone, Copy)]
pub(crate) enum Verb {
    To,
    Into,
    Out,
    Back,
    In,
    Clear,
    Day,
    Agree,
    Authorise,
    Extend,
    SignOff,
    Help,
    Ask,
    Where,
    History,
    Contents,
    At,
    Loan,
    Loans,
    Overdue,
    Dues,
    Away,
    Stations,
    Posted,
    Why,
}

/// All verbs.
const VERBS: [Verb; 25] = [
    Verb::To,
    Verb::Into,
    Verb::Out,
    Verb::Back,
    Verb::In,
    Verb::Clear,
    Verb::Day,
    Verb::Agree,
    Verb::Authorise,
    Verb::Extend,
    Verb::SignOff,
    Verb::Help,
    Verb::Ask,
    Verb::Where,
    Verb::History,
    Verb::Contents,
    Verb::At,
    Verb::Loan,
    Verb::Loans,
    Verb::Overdue,
    Verb::Dues,
    Verb::Away,
    Verb::Stations,
    Verb::Posted,
    Verb::Why,
];

/// The word of the verb.
pub(crate) fn word_of(verb: Verb) -> &'static str
    ensures { result.now ≡ verb_word verb }
{
    match verb {
        Verb::To => "to",
        Verb::Into => "into",
        Verb::Out => "out",
        Verb::Back => "back",
        Verb::In => "in",
        Verb::Clear => ".",
        Verb::Day => "day",
        Verb::Agree => "agree",
        Verb::Authorise => "authorise",
        Verb::Extend => "extend",
        Verb::SignOff => "signoff",
        Verb::Help => "help",
        Verb::Ask => "?",
        Verb::Where => "where",
        Verb::History => "history",
        Verb::Contents => "contents",
        Verb::At => "at",
        Verb::Loan => "loan",
        Verb::Loans => "loans",
        Verb::Overdue => "overdue",
        Verb::Dues => "dues",
        Verb::Away => "away",
        Verb::Stations => "stations",
        Verb::Posted => "posted",
        Verb::Why => "why",
    }
}

/// The verb of the word, if it is one's.
#[tactic(auto, unfolding(crate::specs::Verbs::find_verb))]
pub(crate) fn find_verb(word: &[u8]) -> Option<Verb>
    ensures { result ≡ find_verb word.now }
{
    VERBS
        .iter()
        .copied()
        .find(|verb| word_of(*verb).as_bytes() == word)
}
