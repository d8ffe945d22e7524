//! Explains the words of the commands that read a spreadsheet, check a file, or compare a station's
//! lines.

use crate::Meaning;

/// The words that only `lines`, `check`, `gap` and `resend` print. `bad`, `next`, `note` and `full`
/// are in other tables.
pub(crate) const SHEET_WORDS: &[Meaning] = &[
    Meaning {
        word: "table",
        means: "the spreadsheet has the fault that follows",
        cause: "its text, its heading, or the cell that the line shows.",
        action: "correct the cell, or explain the word that follows. The heading is row 1.",
    },
    Meaning {
        word: "lines",
        means: "the file of lines has the fault that follows",
        cause: "the numbered line of 'pairsalder check --lines'.",
        action: "explain the word that follows. The help: line shows the line.",
    },
    Meaning {
        word: "OtherStation",
        means: "the line is a message of another station",
        cause: "the file is another station's, or has the lines of several stations.",
        action: "name the station of the file, or compare each station's lines alone.",
    },
    Meaning {
        word: "Utf16",
        means: "the spreadsheet is text in UTF-16, not in UTF-8",
        cause: "it was saved as Unicode text.",
        action: "save it again, as CSV in UTF-8.",
    },
    Meaning {
        word: "NotUtf8",
        means: "the spreadsheet is not text in UTF-8",
        cause: "it was saved in another encoding, or not as CSV.",
        action: "save it again, as CSV in UTF-8.",
    },
    Meaning {
        word: "TwoSeparators",
        means: "the heading has two of comma, semicolon and tab",
        cause: "a column's name has a comma in it, and semicolons part the columns.",
        action: "part the columns in one way, or put quotes round that name.",
    },
    Meaning {
        word: "NoHeading",
        means: "the spreadsheet has no row",
        cause: "an empty file.",
        action: "begin it with a row that names the columns, such as kind,thing,place.",
    },
    Meaning {
        word: "NearHeading",
        means: "the name of a column is nearly one that 'lines' reads",
        cause: "a typing error, such as plase for place.",
        action: "correct the name. A column that is not to be used needs another name.",
    },
    Meaning {
        word: "TwiceHeading",
        means: "two columns have the same name",
        cause: "a column was copied, or the names differ only in capitals.",
        action: "delete one of the two columns, or rename it.",
    },
    Meaning {
        word: "KnownLoan",
        means: "the loan LO0000.1 is agreed, so 'gap' can't use its number",
        cause: "a real loan was given this number.",
        action: "fill the number with a move of a thing that is not in the setup:\n\
            'pairsalder help lines' shows it.",
    },
    Meaning {
        word: "same",
        means: "the record has the line's message under its number",
        cause: "the line arrived.",
        action: "nothing.",
    },
    Meaning {
        word: "other",
        means: "the record has another message under the line's number",
        cause: "the station used the number twice, or the line was changed later.",
        action: "compare the two. To send the line's message, give it the station's next\n\
            number.",
    },
    Meaning {
        word: "waits",
        means: "the line waits for the numbers that follow",
        cause: "messages with these numbers are not on record.",
        action: "send their lines first. For a lost message, 'pairsalder gap' prints a line.",
    },
    Meaning {
        word: "ok",
        means: "the file has no fault",
        cause: "'pairsalder check' has read all of it.",
        action: "nothing.",
    },
];
