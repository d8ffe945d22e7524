//! The texts of `--help` for the commands that seal a record.

use crate::texts::Help;

pub(crate) const SEAL: Help = Help {
    about: "Prints a seal of the record, or checks seals that were kept",
    usage: "pairsalder seal --setup PATH --store PATH [--upto N]\n       pairsalder seal --setup PATH --store PATH --check FILE",
    more: "\
For evidence that the past was not changed. Print a seal now and then, and keep
it where nobody can change it: on paper, in an email, with another museum.

A seal is one line, the number of entries and a SHA-256. It covers each entry's
line as 'pairsalder posted' prints it. More entries can be posted later: the
seal still holds. If one of the sealed entries is changed, removed or added, the
seal is broken.

With --check, FILE has seals, one on each line. Prints for each seal whether it
holds.

Example:
  pairsalder seal --setup museum.csv --store museum.db
prints
  80000 sha256:1029ab..
and later, with that line in seals.txt,
  pairsalder seal --setup museum.csv --store museum.db --check seals.txt
prints
  80000 holds
or, if an entry was changed,
  80000 broken

Exit status: 0 the seal was printed, or all seals hold; 1 a fault, a seal is
broken, a line is not a seal, or FILE has no seal; 2 a usage error, or the
record has fewer than N entries.",
};

pub(crate) const RECEIPT: Help = Help {
    about: "Prints evidence that an entry is in the record, or checks it",
    usage: "pairsalder receipt --setup PATH --store PATH [--upto N] ENTRY\n       pairsalder receipt --check FILE",
    more: "\
For somebody outside the museum, such as a lender who wants evidence that the
exit of their object is on record. The receipt shows this one entry.

Prints the entry's receipt, one line of JSON. With --check, checks the receipt
in FILE without a setup or a store. Prints whether it holds, and if it does, the
seal that it belongs to and the entry. Compare that seal with one from another
source: with --upto N, a receipt belongs to the seal of the first N entries.

Example:
  pairsalder receipt --setup museum.csv --store museum.db 12 > receipt.json
and at the lender's
  pairsalder receipt --check receipt.json
prints
  12 holds
  seal 80000 sha256:1029ab..
  entry 12 GAL 4 Applied {\"day\":\"2024-06-01\",\"kind\":\"exit\",..}

Exit status: 0 the receipt was printed, or holds; 1 a fault, or the receipt is
broken; 2 a usage error, or ENTRY is not one of the first N entries.",
};
