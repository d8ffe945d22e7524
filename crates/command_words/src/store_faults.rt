//! Explains the faults of a store, and the lines that commands print about a store.

use crate::Meaning;

/// The faults of a store, and the words `copied`, `exported`, `migrated`, `grown`, `grew` and
/// `note`.
pub(crate) const STORE_FAULTS: &[Meaning] = &[
    Meaning {
        word: "Store",
        means: "the store cannot be used",
        cause: "a mistyped path, no record yet, no write permission, another program that\n\
            has it open, a full disk, an unknown table, or the database file is missing.",
        action: "do what the help: line says. It names the cause.",
    },
    Meaning {
        word: "OtherSetup",
        means: "the store has another setup",
        cause: "the file was changed, is of another record, or lacks what was added.",
        action: "use the file that 'pairsalder setup --store FILE' prints, with your store as\n\
            FILE. To add to the setup, use 'pairsalder grow'.",
    },
    Meaning {
        word: "OtherVersion",
        means: "the store has a different version",
        cause: "an older or a newer program began it, or it has no record yet.",
        action: "'pairsalder migrate' takes a store of version 1 to version 2. For a newer\n\
            store, install the newer program.",
    },
    Meaning {
        word: "Damaged",
        means: "the store was changed or damaged at this entry",
        cause: "a failing disk, or another program wrote to it. 0 means no single entry.",
        action: "keep the file, and restore the last copy: see 'pairsalder help files'.",
    },
    Meaning {
        word: "copied",
        means: "the copy is complete, with this many entries",
        cause: "the copy was read back, and every entry was compared.",
        action: "nothing.",
    },
    Meaning {
        word: "exported",
        means: "the flat database is complete, with this many entries",
        cause: "the file got its name after the last row was written.",
        action: "nothing. Open the file with a program that reads SQLite.",
    },
    Meaning {
        word: "migrated",
        means: "the store has version 2",
        cause: "it was migrated now, or already had it.",
        action: "nothing.",
    },
    Meaning {
        word: "grown",
        means: "the record's setup has grown, after the entry of this number",
        cause: "'pairsalder grow' found new rows, or new normal locations.",
        action: "print the whole list with 'pairsalder setup', and use it from now on.",
    },
    Meaning {
        word: "grew",
        means: "a row of the store's table setup: how the setup grew",
        cause: "'pairsalder grow'. The row has the entries, places and things until then.",
        action: "nothing. A setup file has no row of this kind.",
    },
    Meaning {
        word: "note",
        means: "this is worth knowing, and is no fault",
        cause: "a new store, messages held at the end, or a column that is not used.",
        action: "if the store should not be new, check its path. Send held messages again.",
    },
];
