//! Explains the words of the answers at a desk.

use crate::Meaning;

/// The words that only `pairsalder desk` prints, and `out`, which is a column, too. `in`, `back`
/// and `day` are in other tables.
pub(crate) const DESK_WORDS: &[Meaning] = &[
    Meaning {
        word: "to",
        means: "the things that are scanned next go to this place",
        cause: "the line 'to PLACE' at a desk, or a place's code alone.",
        action: "scan what goes there.",
    },
    Meaning {
        word: "into",
        means: "the things that are scanned next go into this container",
        cause: "the line 'into CONTAINER' at a desk. Its current place follows.",
        action: "scan what goes into it. To move the container, type to and a place first.",
    },
    Meaning {
        word: "out",
        means: "at a desk: things leave under this loan; in loans: objects still out",
        cause: "the line 'out LOAN' at a desk; a column of loans.",
        action: "scan what leaves. 'pairsalder dues' lists what is still out.",
    },
    Meaning {
        word: "not sent",
        means: "the line sent no message, and used no number",
        cause: "a code not in the setup, or with other capitals; or JSON of this station.",
        action: "correct the code, and scan it again. If the code is right, type '! ' before\n\
            it: the message is then sent as it is.",
    },
    Meaning {
        word: "no target",
        means: "the desk does not know where things go; nothing was sent",
        cause: "no place, container or loan was set yet, or the line '.' ended it.",
        action: "scan a place or a container, and then the thing again.",
    },
    Meaning {
        word: "no day",
        means: "the desk has no day for its messages; nothing was sent",
        cause: "the desk was started without --day, and no line 'day' was typed.",
        action: "type a line such as 'day 2024-05-01', and then the last line again.",
    },
    Meaning {
        word: "nothing",
        means: "the report at a desk has no row",
        cause: "no object, loan or entry is one that it would list.",
        action: "nothing, or check the code that you typed.",
    },
    Meaning {
        word: "not understood",
        means: "the line is none that a desk takes; nothing was sent",
        cause: "a mistyped word, a code in the wrong form, or too many words.",
        action: "type 'help', and correct the line.",
    },
];
