//! Explains the words of seals and receipts.

use crate::Meaning;

/// The words that `pairsalder seal` and `pairsalder receipt` print. `line` and `entry` are in other
/// tables.
pub(crate) const SEAL_WORDS: &[Meaning] = &[
    Meaning {
        word: "holds",
        means: "the sealed entries are as they were, or the receipt is right",
        cause: "no entry under the seal was changed, removed or added.",
        action: "nothing. For a receipt, compare its seal with one from another source.",
    },
    Meaning {
        word: "broken",
        means: "an entry under the seal was changed, or the receipt is wrong",
        cause: "the store was changed or cut off, or the seal is of another record.",
        action: "compare the line with the seal that was kept. Check the seals of earlier\n\
            days, and the copies of the record, to find when it was changed.",
    },
    Meaning {
        word: "seal",
        means: "the seal that a receipt belongs to: entries, and their SHA-256",
        cause: "the receipt holds.",
        action: "compare it with a seal of as many entries from another source.",
    },
    Meaning {
        word: "receipt",
        means: "the file of a receipt could not be used, for the reason that follows",
        cause: "it is another file, or it was changed.",
        action: "give the line that 'pairsalder receipt' printed.",
    },
    Meaning {
        word: "NotReceipt",
        means: "the file is not the text of a receipt",
        cause: "it is another file, or it was changed, for example by a mail program.",
        action: "ask the museum for the receipt again, as a file.",
    },
    Meaning {
        word: "NoMark",
        means: "the line is no seal: it does not end with sha256: and 64 digits",
        cause: "a part of the line is lost, or the file has other lines.",
        action: "copy the whole line of 'pairsalder seal', and nothing else.",
    },
    Meaning {
        word: "BadDigits",
        means: "the 64 digits of a seal are not all of 0-9 and a-f",
        cause: "a typing error, or capital letters.",
        action: "copy the line again. The letters are small ones.",
    },
];
