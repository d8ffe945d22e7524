//! Explains the refusals, and the replies `held`, `refused` and `posted`.

use crate::Meaning;

/// The refusals, in the order in which they are checked, and then the words of replies.
pub(crate) const REFUSALS: &[Meaning] = &[
    Meaning {
        word: "UnknownStation",
        means: "the setup does not list the station",
        cause: "a mistyped name. Capitals and dashes count.",
        action: "correct the name, or add the station with 'pairsalder grow'; then send the\n\
            line again.",
    },
    Meaning {
        word: "BadNumber",
        means: "a number is out of range, or is not written as it must be",
        cause: "a station's n of 0 or above 999999, a code such as C01 or 2001.04, or a\n\
            seal whose number is above 4294967295 or has a sign or a leading 0.",
        action: "write 1 to 999999, without a leading 0. For a seal, copy the line again.",
    },
    Meaning {
        word: "Double",
        means: "the station has used this number before",
        cause: "the line was sent twice, or a scanner began again at 1.",
        action: "if the line was sent twice, nothing. A new message is NOT on record: send it\n\
            under the number that 'pairsalder stations' prints.",
    },
    Meaning {
        word: "SignedOff",
        means: "the station has signed off for good",
        cause: "a signoff, perhaps at the end of a shift. It is a station's last message.",
        action: "send the message from another station of the setup, under that station's\n\
            next number. A shift ends without a message.",
    },
    Meaning {
        word: "TooEarly",
        means: "the number is more than 256 above the last one on record",
        cause: "earlier numbers are missing, or the number is mistyped.",
        action: "send the number that 'pairsalder stations' prints, then this line again. If\n\
            it is lost, 'pairsalder gap' prints a line that fills it.",
    },
    Meaning {
        word: "held",
        means: "the message waits for an earlier number of its station",
        cause: "an earlier line is missing, or could not be read.",
        action: "send the number that 'pairsalder stations' prints, then this line again. If\n\
            it is lost, 'pairsalder gap' prints a line that fills it.",
    },
    Meaning {
        word: "refused",
        means: "the message is not on record, for the reason that follows",
        cause: "its station or its number.",
        action: "explain the word that follows.",
    },
    Meaning {
        word: "posted",
        means: "the message is on record, as the entry of this number",
        cause: "it was its station's next message. The word that follows is its verdict.",
        action: "if the verdict is not Applied, explain that word.",
    },
];
