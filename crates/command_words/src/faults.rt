//! Explains the faults of input and arguments, and the reasons why a command stops.

use crate::Meaning;

/// The faults of a line, of a row of a setup or a count list, of a code, and of a day.
pub(crate) const INPUT_FAULTS: &[Meaning] = &[
    Meaning {
        word: "bad",
        means: "the line cannot be read, for the reason that follows",
        cause: "a typing error in the line. Its number has not been used.",
        action: "correct the line, and send it again.",
    },
    Meaning {
        word: "TooLong",
        means: "the line has more than 16384 bytes",
        cause: "line breaks are missing, or the file is not JSON lines.",
        action: "write one message to a line.",
    },
    Meaning {
        word: "NotJson",
        means: "the line is not a JSON object in UTF-8",
        cause: "a quote, a comma or a brace is missing, or the line is other text.",
        action: "correct the line, and send it again. Its number has not been used.",
    },
    Meaning {
        word: "Missing",
        means: "the line lacks this key; in a count: no row names the object",
        cause: "the key is left out or mistyped; in a count, nobody saw the object.",
        action: "add the key, and send the line again. For an object, 'pairsalder history'\n\
            lists where it has been.",
    },
    Meaning {
        word: "BadField",
        means: "the value of this key has the wrong form",
        cause: "a day like 1.6.2024, a small letter in a code, or quotes round a number.",
        action: "correct the value, and send the line again. 'pairsalder help lines' has an\n\
            example of each message.",
    },
    Meaning {
        word: "BadKind",
        means: "the word is not a kind of message, or of row in a setup",
        cause: "a mistyped word, a capital letter, or semicolons between the fields.",
        action: "use a word of 'pairsalder help lines', or of 'pairsalder help setup'.",
    },
    Meaning {
        word: "NotCsv",
        means: "the file is not text in UTF-8",
        cause: "a spreadsheet saved it in another encoding.",
        action: "save it again, as CSV in UTF-8.",
    },
    Meaning {
        word: "BadFields",
        means: "the row has too few or too many fields, or a wrong word",
        cause: "a missing or extra comma, or a place is neither inside nor elsewhere.",
        action: "correct the row. 'pairsalder help setup' and 'help counts' show each kind.",
    },
    Meaning {
        word: "BadCode",
        means: "a code in the row has the wrong form",
        cause: "a space, a small letter (c17) or a leading 0 (C01).",
        action: "correct the row. The help: line shows the code.",
    },
    Meaning {
        word: "Heading",
        means: "the first row of the labels is not a heading",
        cause: "the row label,code is missing, or has semicolons.",
        action: "begin the file with the row label,code. It may have other columns, too.",
    },
    Meaning {
        word: "Fields",
        means: "the row has a label without a code, or a code without a label",
        cause: "an empty cell in the table of labels.",
        action: "fill in the cell, or delete the row.",
    },
    Meaning {
        word: "IsCode",
        means: "the label is the code of another thing or place",
        cause: "the row lists a code of the setup as a label.",
        action: "delete the row. A code needs no label.",
    },
    Meaning {
        word: "UnknownNormal",
        means: "no earlier row lists the object's normal location",
        cause: "the row of the place comes later, or one of the two codes is mistyped.",
        action: "put the row of the place before the row of the object.",
    },
    Meaning {
        word: "TooMany",
        means: "the row exceeds the limit",
        cause: "over 64 stations, 10000 places, 100000 things, or 100000 rows in a count.",
        action: "split the list. A museum over the limits needs two records.",
    },
    Meaning {
        word: "OtherSide",
        means: "the record has this place with the other word, inside or elsewhere",
        cause: "the wrong word in the row, or a code that another place has already.",
        action: "correct the word. A new place needs a code of its own.",
    },
    Meaning {
        word: "TooManyGrowths",
        means: "the record's setup has grown 10000 times, the limit",
        cause: "a program calls 'pairsalder grow' for every single row.",
        action: "begin a new record. Add many rows at a time.",
    },
    Meaning {
        word: "NoStation",
        means: "the setup lists no station",
        cause: "the file is empty, or has no row like station,GAL.",
        action: "add a row for each station.",
    },
    Meaning {
        word: "Empty",
        means: "the code, the day or the first line of the spreadsheet is empty",
        cause: "an option without a value, for example --on=, or an empty line.",
        action: "write the code or the day, or the names of the columns.",
    },
    Meaning {
        word: "BadShape",
        means: "the code or the day has the wrong form",
        cause: "a small letter, a space, or a code of another kind.",
        action: "write it like 2001.4.1, L1999.7, C17, LO2024.1, S1-A or 2024-06-01.",
    },
    Meaning {
        word: "NoSuchDay",
        means: "the day does not exist, or it is before year 1",
        cause: "a typing error, for example 2023-02-29.",
        action: "correct the day.",
    },
];

/// The reasons why a command stops: the words after `fault`.
pub(crate) const RUN_FAULTS: &[Meaning] = &[
    Meaning {
        word: "fault",
        means: "the command stopped, for the reason that follows",
        cause: "a file, the store, the computer, or the command's arguments.",
        action: "read the help: line, or explain the word that follows.",
    },
    Meaning {
        word: "memory",
        means: "the computer has no memory left for the program",
        cause: "other programs, or a memory limit set for this one.",
        action: "close other programs, and run the command again. Posted messages are on\n\
            record.",
    },
    Meaning {
        word: "read",
        means: "standard input cannot be read",
        cause: "it is a folder, or a disk or a network failed.",
        action: "resend the lines that have no answer. Posted messages are on record.",
    },
    Meaning {
        word: "write",
        means: "standard output cannot be written",
        cause: "a full disk, or the program that takes the output has ended.",
        action: "resend the last lines. Messages already on record are refused as Double.",
    },
    Meaning {
        word: "file",
        means: "a named file cannot be read, or a new file cannot be written",
        cause: "a mistyped path, missing permission, a full disk, or the new file exists.",
        action: "do what the help: line says. It names the file.",
    },
    Meaning {
        word: "head",
        means: "the setup before the lines has more than 8388608 bytes",
        cause: "the empty line between the setup and the lines is missing.",
        action: "put an empty line after the setup, or name its file with --setup.",
    },
    Meaning {
        word: "setup",
        means: "the setup has the fault that follows",
        cause: "the numbered row. Skipped rows count.",
        action: "explain the word that follows. The help: line shows the row.",
    },
    Meaning {
        word: "counts",
        means: "the count list has the fault that follows",
        cause: "the numbered row. Skipped rows count.",
        action: "explain the word that follows. The help: line shows the row.",
    },
    Meaning {
        word: "labels",
        means: "the table of labels has the fault that follows",
        cause: "the numbered row. The heading is row 1.",
        action: "explain the word that follows. The help: line shows the row.",
    },
    Meaning {
        word: "log",
        means: "the log of a desk cannot be opened or written",
        cause: "a full disk, a missing folder, or no permission.",
        action: "do what the help: line says. The message of the last line was not posted.",
    },
    Meaning {
        word: "day",
        means: "as a fault: this is not a valid day; at a desk: the day from now on",
        cause: "a typing error, or another date format; at a desk, a line 'day'.",
        action: "write the day like 2024-06-01.",
    },
    Meaning {
        word: "code",
        means: "the argument is not a valid code, for the reason that follows",
        cause: "a typing error, or a code of another kind.",
        action: "write it like 2001.4.1 or C17, for a loan LO2024.1, for a place S1-A.",
    },
    Meaning {
        word: "number",
        means: "the argument is not the number of an entry",
        cause: "a typing error, or a seal of more entries than the record has.",
        action: "write the number of an entry, for example --from 100 or why 17.",
    },
    Meaning {
        word: "name",
        means: "explain does not know this word",
        cause: "a typing error, or the word is not of a reply, a report or a fault.",
        action: "copy the word from the reply. The help: line suggests a similar one.",
    },
    Meaning {
        word: "feeds",
        means: "there are more or fewer files than stations",
        cause: "the file of a station is missing, or is named twice.",
        action: "name one file for each station, in the order of the setup.",
    },
    Meaning {
        word: "station",
        means: "the desk that sent the message; as a fault: it can send none",
        cause: "a column of posted, stations, why and history --long; as a fault, a name\n\
            that the setup does not list, or a station that has signed off.",
        action: "'pairsalder stations' lists all stations with their next numbers.",
    },
    Meaning {
        word: "unfinished",
        means: "the station's lines did not finish",
        cause: "an error in the program, or in the computer. It should never happen.",
        action: "resend the lines that have no answer. Posted messages are on record.",
    },
    Meaning {
        word: "words",
        means: "there is no command, or an argument is missing",
        cause: "--setup or --store is missing, or the code, the day or the list.",
        action: "'pairsalder help' and the command show what it needs.",
    },
];
