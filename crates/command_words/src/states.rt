//! Explains the words of answers and reports.

use crate::Meaning;

/// The words of where a thing is, and of what a station sends next.
pub(crate) const ANSWERS: &[Meaning] = &[
    Meaning {
        word: "at",
        means: "the place of the thing",
        cause: "the last applied message that moved the thing, or its container.",
        action: "nothing.",
    },
    Meaning {
        word: "in",
        means: "the containers that the thing is in, innermost first",
        cause: "it was packed, and so was each container that is in another. At a desk,\n\
            the line 'in LOAN PLACE'.",
        action: "nothing; a move takes it out. At a desk, scan what arrives on loan.",
    },
    Meaning {
        word: "unplaced",
        means: "the setup lists the thing, but it was never put anywhere",
        cause: "no message has moved, packed or received it yet.",
        action: "move an own thing to its place. Receive a borrowed object under its loan.",
    },
    Meaning {
        word: "unknown",
        means: "the setup does not list the thing, or the loan is not agreed",
        cause: "a mistyped code, or a thing that is not in the setup yet.",
        action: "correct the code, or add the thing with 'pairsalder grow'.",
    },
    Meaning {
        word: "ask",
        means: "the answer to a question",
        cause: "a line with the key ask. A question uses no number.",
        action: "nothing.",
    },
    Meaning {
        word: "normal",
        means: "the object's normal location, from the setup",
        cause: "the object is at another place, or at none (-).",
        action: "bring it back, if it is not on loan.",
    },
    Meaning {
        word: "next",
        means: "the number that the station has to send next",
        cause: "all numbers below it are on record.",
        action: "number the station's next message with it.",
    },
    Meaning {
        word: "full",
        means: "the station has used number 999999, its last",
        cause: "it has sent as many messages as a station can.",
        action: "send from another station. 'pairsalder grow' adds one.",
    },
    Meaning {
        word: "signed off",
        means: "the station has sent its last message",
        cause: "a signoff, which is final. It is not for the end of a shift.",
        action: "send from another station of the setup.",
    },
];

/// The states of a loan, and the stages of its objects.
pub(crate) const STAGES: &[Meaning] = &[
    Meaning {
        word: "Draft",
        means: "the loan is agreed, but not authorised",
        cause: "its agree was applied.",
        action: "send the authorise. Until then no object can leave or arrive.",
    },
    Meaning {
        word: "Authorised",
        means: "the loan may begin; no object has left or arrived yet",
        cause: "its authorise was applied.",
        action: "send an exit (loan out) or a receive (loan in) for each crate or object.",
    },
    Meaning {
        word: "Running",
        means: "an object has left or arrived, and not all are back yet",
        cause: "an exit or a receive was applied.",
        action: "watch the last day with 'pairsalder overdue'.",
    },
    Meaning {
        word: "Closed",
        means: "all objects are back, or given back",
        cause: "the last return, or the last exit under a loan in, was applied.",
        action: "nothing.",
    },
    Meaning {
        word: "Awaiting",
        means: "the object has not left or arrived under this loan yet",
        cause: "the loan is agreed, and the object is on its list.",
        action: "send its exit (loan out) or its receive (loan in).",
    },
    Meaning {
        word: "Away",
        means: "the object is out with the partner",
        cause: "its exit under a loan out was applied.",
        action: "when it is back, send its return.",
    },
    Meaning {
        word: "Back",
        means: "the object has come back under this loan; at a desk: things come back",
        cause: "its return was applied; at a desk, the line 'back LOAN PLACE'.",
        action: "nothing; at a desk, scan what came back. For a second journey agree\n\
            another loan.",
    },
    Meaning {
        word: "Here",
        means: "the borrowed object is in the museum",
        cause: "its receive was applied.",
        action: "when it goes home, send its exit under the same loan.",
    },
    Meaning {
        word: "GivenBack",
        means: "the borrowed object has gone back to its lender",
        cause: "its exit under a loan in was applied.",
        action: "nothing. For a second visit agree another loan.",
    },
];

/// The words that `count` prints, except UnknownPlace, Unplaced and Missing, which are in other
/// tables.
pub(crate) const COUNT_ANSWERS: &[Meaning] = &[
    Meaning {
        word: "row",
        means: "the answer to the row of this number in the count list",
        cause: "each row gets one answer, in order. Empty rows get no answer.",
        action: "nothing.",
    },
    Meaning {
        word: "Found",
        means: "the record has the thing at this place, or at one in it",
        cause: "it is where it should be.",
        action: "nothing.",
    },
    Meaning {
        word: "Elsewhere",
        means: "the record has the thing at another place, which follows",
        cause: "it was moved without a message, or the row names a wrong place.",
        action: "look again, then put the thing back, or send a move to where it was seen.",
    },
    Meaning {
        word: "Again",
        means: "an earlier row names the same thing",
        cause: "it was written down twice, or one of the two codes is mistyped.",
        action: "see which of the two rows is right.",
    },
    Meaning {
        word: "Counted",
        means: "the place was looked at",
        cause: "the row names a place alone.",
        action: "nothing. Objects that should be there and that no row names are missing.",
    },
    Meaning {
        word: "UnknownObject",
        means: "the setup does not list the thing",
        cause: "a mistyped code on the list, or a thing that is not in the setup.",
        action: "correct the code, or add the thing with 'pairsalder grow'; then count again.",
    },
];
