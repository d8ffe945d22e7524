//! The texts of `--help` for the commands that prepare lines or check files.

use crate::texts::Help;

pub(crate) const LINES: Help = Help {
    about: "Prints the rows of a spreadsheet as lines for 'replay'",
    usage: "pairsalder lines --setup PATH [--store PATH] --station NAME [--first N]\n       [--kind KIND] [--day DAY] [--place PLACE] [--loan LOAN] [--by NAME]\n       [--dates ORDER] [--labels FILE] [--strict] TABLE",
    more: "\
For moves and loans that are in a spreadsheet already. Posts nothing: read the
lines, then send them with 'replay'.

TABLE is CSV with commas, semicolons or tabs. Its first row names the columns,
in any order: kind, thing, container, place, day, loan, partner, objects, first,
last, by and n. Other columns are not used. --kind, --day, --place, --loan and
--by are used for a column that is missing and for a cell that is empty. The
column n has the numbers of the lines. Without it, they are numbered from
--first, or from the station's next number in the store, or from 1.

A day is 2024-05-01. With --dates dmy, 1/5/2024 and 01.05.2024 are read, too;
with --dates mdy, 5/1/2024. With --labels, a cell that is a label of FILE stands
for its code.

If a cell is wrong, prints a fault for each such cell, and no line. With --store
or PAIRSALDER_STORE, prints a note for each row that would not be applied now;
with --strict such a row is a fault.

Example, with a table of two rows, kind,thing,place,day and
move,2001.4.1,S1-A,2024-06-01:
  pairsalder lines --setup museum.csv --station GAL moves.csv
prints
  {\"station\":\"GAL\",\"n\":1,\"message\":{\"day\":\"2024-06-01\",\"kind\":\"move\",\
\"place\":\"S1-A\",\"thing\":\"2001.4.1\"}}
and, if a no-break space is behind the thing,
  fault table row 2 thing '2001.4.1\\u{a0}': a no-break space behind it

Exit status: 0 all rows were printed; 1 a fault, and no line was printed; 2 a
usage error, or the setup has no station NAME.",
};

pub(crate) const CHECK: Help = Help {
    about: "Prints every fault of a setup, a count list or a file of lines",
    usage: "pairsalder check [--setup FILE] [--counts FILE] [--lines FILE]",
    more: "\
For a file before it is used. Name at least one file; PAIRSALDER_SETUP is not
used.

Prints each fault with its row, and a help: line that shows the row. If there is
none, prints how much the file has.

Example:
  pairsalder check --setup museum.csv
prints
  ok: 2 stations, 40 places, 12 boxes, 80,000 objects
or, if row 3 has a fault,
  fault setup BadCode row 3

Exit status: 0 no fault; 1 a fault; 2 a usage error, or no file is named.",
};

pub(crate) const GAP: Help = Help {
    about: "Prints a line that fills a station's next number, if its message is lost",
    usage: "pairsalder gap --setup PATH --store PATH --station NAME --by NAME",
    more: "\
For a message that is lost: its number blocks the station. Posts nothing: read
the line, then send it with 'replay'.

Prints one line under the station's next number: an authorisation of the loan
LO0000.1 by NAME. The loan is not agreed, so the message is recorded as
UnknownLoan and changes nothing. The messages held after it can then be sent.

Example:
  pairsalder gap --setup museum.csv --store museum.db --station GAL --by Ann
prints
  {\"station\":\"GAL\",\"n\":7,\"message\":{\"by\":\"Ann\",\"kind\":\"authorise\",\
\"loan\":\"LO0000.1\"}}

Exit status: 0 the line was printed; 1 a fault; 2 a usage error, or the setup
has no station NAME.",
};

pub(crate) const RESEND: Help = Help {
    about: "Compares a station's own file of lines with the record",
    usage: "pairsalder resend --setup PATH --store PATH --station NAME FILE",
    more: "\
For a station that does not know which of its lines arrived. Posts nothing.

Prints a row for each line of FILE: the line's number, and one of these words.

  same               the record has the message under this number
  other {..}         the record has this other message under the number
  next               it is the station's next number: send the line
  waits for 8 to 11  these numbers come first, and are not on record
  bad CAUSE          the line can't be read

Example:
  pairsalder resend --setup museum.csv --store museum.db --station GAL gal.jsonl
prints, if the file has the numbers 7, 8 and 10 and the record has 7,
  1 same
  2 next
  3 waits for 9

Exit status: 0 the file can be sent; 1 a fault, or a line is other or bad, or
waits for a number that is not in the file; 2 a usage error, or the setup has no
station NAME.",
};

pub(crate) const AUDIT: Help = Help {
    about: "Prints a line that moves each thing of a count to where it was seen",
    usage: "pairsalder audit --setup PATH --store PATH --station NAME --day DAY\n       [--first N] [--sealed] LIST",
    more: "\
For the work after a count: the moves that bring the record up to date. Posts
nothing: look at each thing again, then send the lines with 'replay'.

LIST is a count list, as for 'pairsalder count'. Prints a move for each thing
that the list has at another place than the record. The lines are numbered from
--first, or from the station's next number. A thing that the record has in a
container is not moved; a note names it. Each missing object is a note, too,
with its place and its container on record. With --sealed, what is in a
container that was seen isn't missing.

Example:
  pairsalder audit --setup museum.csv --store museum.db --station GAL --day 2024-06-01 shelves.csv
prints
  {\"station\":\"GAL\",\"n\":7,\"message\":{\"day\":\"2024-06-01\",\"kind\":\"move\",\
\"place\":\"S1\",\"thing\":\"2001.4.3\"}}

Exit status: 0 the list was compared; 1 a fault; 2 a usage error, DAY is not a
day, or the setup has no station NAME.",
};
