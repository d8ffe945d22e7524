//! Explains the columns of the reports.

use crate::Meaning;

/// The columns, those of entries first and those of loans last. Columns that are words of other
/// tables, such as `row`, `station`, `day`, `awaiting`, `out` and `back`, are explained there.
pub(crate) const COLUMNS: &[Meaning] = &[
    Meaning {
        word: "entry",
        means: "a message on record; its number counts from 1",
        cause: "a column of history, posted and why, and a word after 'grown'.",
        action: "'pairsalder why 17' explains the verdict on entry 17.",
    },
    Meaning {
        word: "n",
        means: "the number that the station gave its message",
        cause: "a column of posted and why, and of history --long.",
        action: "a station numbers its messages 1, 2, 3 and so on.",
    },
    Meaning {
        word: "kind",
        means: "the kind of the message, such as move, pack or exit",
        cause: "a column of why, and of history --long.",
        action: "'pairsalder help lines' lists the kinds.",
    },
    Meaning {
        word: "message",
        means: "the message as it is on record, in JSON",
        cause: "a column of posted.",
        action: "'pairsalder help lines' shows the messages.",
    },
    Meaning {
        word: "verdict",
        means: "that the message was applied, or the rule that it broke",
        cause: "a column of posted and why.",
        action: "explain the verdict itself. 'pairsalder help verdicts' lists them.",
    },
    Meaning {
        word: "culprit",
        means: "the object, place or loan that broke the rule",
        cause: "a column of why. It is empty if the message was applied.",
        action: "read the cause in the next column.",
    },
    Meaning {
        word: "cause",
        means: "why the message was not applied, or where it put its thing",
        cause: "a column of why.",
        action: "correct the message, and send it under the station's next number.",
    },
    Meaning {
        word: "object",
        means: "the number of the museum's own or a borrowed object",
        cause: "a column of away, dues and loan.",
        action: "'pairsalder where 2001.4.1' prints where an object is.",
    },
    Meaning {
        word: "thing",
        means: "the number of an object, or the code of a container",
        cause: "a column of at, contents, count and where.",
        action: "'pairsalder where C17' prints where a thing is.",
    },
    Meaning {
        word: "place",
        means: "the current location of a thing; in count, the place in the row",
        cause: "a column of at, away, count, history and where.",
        action: "'pairsalder at S1' lists the things at a place.",
    },
    Meaning {
        word: "containers",
        means: "the containers that the thing is in, innermost first",
        cause: "a column of contents and where, and of history --long.",
        action: "'pairsalder contents C17' lists the things in a container.",
    },
    Meaning {
        word: "answer",
        means: "how a row of the list compares with the record",
        cause: "a column of count.",
        action: "explain the answer itself, for example Elsewhere.",
    },
    Meaning {
        word: "on_record",
        means: "the place where the record has the object",
        cause: "a column of count, for the answers Elsewhere and Missing.",
        action: "look for the object at both places, then send a move for it.",
    },
    Meaning {
        word: "signed_off",
        means: "whether the station has signed off",
        cause: "a column of stations.",
        action: "use another station: this one can send no more messages.",
    },
    Meaning {
        word: "loan",
        means: "the number of a loan: LO for a loan out, LI for a loan in",
        cause: "a column of dues, history --long, loan, loans and overdue.",
        action: "'pairsalder loan LO2024.1' lists the objects of a loan.",
    },
    Meaning {
        word: "state",
        means: "how far a loan is, or whether the record has the thing",
        cause: "a column of loan and loans, and of contents and where.",
        action: "explain the state itself, for example Running or unplaced.",
    },
    Meaning {
        word: "stage",
        means: "how far an object is under its loan",
        cause: "a column of dues and loan.",
        action: "explain the stage itself, for example Awaiting or Away.",
    },
    Meaning {
        word: "partner",
        means: "the place of the museum or person that borrows or lends",
        cause: "a column of dues, loan and loans.",
        action: "the setup lists it as a place with the word elsewhere.",
    },
    Meaning {
        word: "first",
        means: "the first day of the loan",
        cause: "a column of loan and loans.",
        action: "before this day no object crosses under the loan.",
    },
    Meaning {
        word: "last",
        means: "the last day of the loan, as the newest extension has it",
        cause: "a column of dues, loan, loans and overdue.",
        action: "to change it, send an extend message with a later day.",
    },
    Meaning {
        word: "objects",
        means: "how many objects the loan lists",
        cause: "a column of loans.",
        action: "'pairsalder loan LO2024.1' lists them.",
    },
    Meaning {
        word: "on",
        means: "the day of the option --on",
        cause: "a column of loans.",
        action: "days_left counts from this day.",
    },
    Meaning {
        word: "days_left",
        means: "the days until the loan's last day, below 0 once it has passed",
        cause: "a column of loans, with --on. A closed loan has none.",
        action: "to prolong a loan, send an extend message.",
    },
    Meaning {
        word: "authorised_by",
        means: "who authorised the loan",
        cause: "a column of loans. It is empty before the authorisation.",
        action: "a loan needs an authorise message before its objects cross.",
    },
];
