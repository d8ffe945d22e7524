//! Explains the verdicts of posted messages.

use crate::Meaning;

/// The verdicts, in the order of their numbers. A message changes the record only if its verdict is
/// the first one, Applied.
pub const VERDICTS: &[Meaning] = &[
    Meaning {
        word: "Applied",
        means: "the message is on record and took effect",
        cause: "it broke no rule.",
        action: "nothing.",
    },
    Meaning {
        word: "UnknownThing",
        means: "the setup does not list the thing, or one of the objects",
        cause: "a mistyped number, or a thing that was not in the setup yet.",
        action: "correct the number, or add the thing with 'pairsalder grow'; then send the\n\
            message again, under the station's next number.",
    },
    Meaning {
        word: "UnknownPlace",
        means: "the setup does not list the place, or the partner's",
        cause: "a mistyped code, or a place that was not in the setup yet.",
        action: "correct the code, or add the place with 'pairsalder grow'; then send the\n\
            message again, under the station's next number, or count again.",
    },
    Meaning {
        word: "ElsewherePlace",
        means: "the place is a partner's",
        cause: "a move, a return or a receive names a partner's place.",
        action: "name a place of the museum's own, under the station's next number. To send\n\
            a thing to a partner, agree a loan and send an exit.",
    },
    Meaning {
        word: "UnknownContainer",
        means: "the setup does not list the container, or it is an object",
        cause: "a mistyped code, an object's number, or a crate not in the setup yet.",
        action: "correct the code, or add the container with 'pairsalder grow'; then send the\n\
            pack again, under the station's next number.",
    },
    Meaning {
        word: "UnknownLoan",
        means: "the loan is not agreed",
        cause: "a mistyped loan number, or its agree was never sent or not applied.",
        action: "send the agree, then this message again, each under the next number.",
    },
    Meaning {
        word: "LoanKnown",
        means: "the loan is already agreed",
        cause: "the agree was sent twice, or two loans have the same number.",
        action: "if it was sent twice, nothing. Give a new loan a number of its own.",
    },
    Meaning {
        word: "InsidePartner",
        means: "the loan's partner is a place of the museum's own",
        cause: "the agree names a place that the setup lists as inside.",
        action: "name a place that the setup lists as elsewhere.",
    },
    Meaning {
        word: "NoObjects",
        means: "the agreement lists no objects",
        cause: "the list of objects in the agree is empty.",
        action: "list the objects, and send the agree under the station's next number.",
    },
    Meaning {
        word: "NotObject",
        means: "a container is named where only an object can be",
        cause: "an agree or a receive names a crate, or a crate exits under a loan in.",
        action: "name the objects one by one, under the station's next number.",
    },
    Meaning {
        word: "Repeated",
        means: "the same thing, place, station or label is listed twice",
        cause: "an agree lists an object twice, or a setup or labels have a row twice.",
        action: "list it once.",
    },
    Meaning {
        word: "WrongOwner",
        means: "an object's owner does not fit the loan's direction",
        cause: "a loan out (LO) lists a borrowed object, or a loan in (LI) an own one.",
        action: "correct the list or the loan number; send the agree under the next number.",
    },
    Meaning {
        word: "BadTerm",
        means: "the loan's last day is before its first",
        cause: "the two days are swapped, or one is mistyped.",
        action: "correct the days, and send the agree under the station's next number.",
    },
    Meaning {
        word: "AlreadyAuthorised",
        means: "the loan is already authorised",
        cause: "the authorise was sent twice.",
        action: "nothing.",
    },
    Meaning {
        word: "NotAuthorised",
        means: "the loan is not authorised",
        cause: "its authorise was never sent, or not applied.",
        action: "send the authorise, then this message again, each under the next number.",
    },
    Meaning {
        word: "WrongDirection",
        means: "the message does not fit the loan's direction",
        cause: "a return under a loan in, or a receive under a loan out.",
        action: "under a loan out (LO) send exit, then return; under a loan in (LI)\n\
            receive, then exit.",
    },
    Meaning {
        word: "NotHere",
        means: "the thing is not in the museum",
        cause: "it is at a partner's place, or it has no place yet.",
        action: "'pairsalder where' prints where it is. Return it or receive it first; move\n\
            an own thing that has no place yet to one.",
    },
    Meaning {
        word: "ContainerNotHere",
        means: "the container is not in the museum",
        cause: "it is at a partner's place, or it has no place yet.",
        action: "return it, or move it to its first place; then send the pack again, under\n\
            the station's next number.",
    },
    Meaning {
        word: "Cycle",
        means: "the container is the thing itself, or is in it",
        cause: "the two codes are swapped, or the container was packed into the thing.",
        action: "correct the codes, or move the container out of the thing first.",
    },
    Meaning {
        word: "TooDeep",
        means: "a thing would be in more than 12 containers at once",
        cause: "crates in crates, down to the thing or to what is in it.",
        action: "use fewer crates in one another. The limit is 8 in a record migrated from\n\
            version 1.",
    },
    Meaning {
        word: "NotWithPartner",
        means: "the thing is not at the place of the loan's partner",
        cause: "it never left, it is back already, or it left under another loan.",
        action: "'pairsalder where' prints where it is, 'pairsalder loan' the loan's stages.",
    },
    Meaning {
        word: "AlreadyHere",
        means: "the thing is in the museum already",
        cause: "it was received before, or never left.",
        action: "nothing; to put it somewhere else, send a move.",
    },
    Meaning {
        word: "NotListed",
        means: "an object that would leave or arrive is not on the loan",
        cause: "it is in the crate, or it is the thing itself, but not in the agree.",
        action: "compare 'pairsalder contents' with 'pairsalder loan'. Move the object out\n\
            of the crate, or agree a loan for it.",
    },
    Meaning {
        word: "WrongStage",
        means: "an object has already left or arrived, or cannot yet",
        cause: "it left or came back under this loan before, or it has not come yet.",
        action: "'pairsalder loan' prints each object's stage. Each object leaves and returns\n\
            once per loan: for a second journey agree another loan.",
    },
    Meaning {
        word: "TermOver",
        means: "the day is after the loan's last day",
        cause: "an exit under a loan out, or a receive, that comes too late.",
        action: "send an extend, then this message again, each under the next number.",
    },
    Meaning {
        word: "NotLater",
        means: "the new last day is not after the loan's last day",
        cause: "an extend names an earlier day, or the same one.",
        action: "name a later day. A loan cannot be shortened.",
    },
];
