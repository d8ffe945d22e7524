//! The texts of `--help` of the reports.

use crate::texts::Help;

pub(crate) const COUNT: Help = Help {
    about: "Compares a count list with the record, and lists what is missing",
    usage: "pairsalder count --setup PATH --store PATH LIST\n       [--sealed] [--upto N] [--csv | --json | --table]",
    more: "\
For an inventory: someone wrote down what is on the shelves.

LIST is a file with a row 'PLACE,THING' for each thing that was seen, and a row
'PLACE' for a place that was looked at. Prints an answer for each row, the first
that applies: UnknownPlace, Counted, UnknownObject, Again, Unplaced, Found, or
Elsewhere with the place on record. Then prints a line 'missing' for each object
that should be at a listed place but has no row. With --sealed, an object in a
container isn't missing if the container was seen where the record has it, so a
sealed crate needn't be opened. With --csv, --json or --table the fields are
row, place, thing, answer and on_record; a missing object has no row.

Example:
  pairsalder count --setup museum.csv --store museum.db shelves.csv

Exit status: 0 the list was compared, whatever the result; 1 a fault; 2 a usage
error.",
};

pub(crate) const OVERDUE: Help = Help {
    about: "Lists the loans that are past their last day, with objects not yet returned",
    usage: "pairsalder overdue --setup PATH --store PATH --on DAY\n       [--upto N] [--csv | --json | --table]",
    more: "\
For loan control: the loans whose objects a partner should have returned, or the
museum should have given back. 'pairsalder dues' lists the objects.

Prints a line for each loan, its code and its last day, in the order of the
agreements. With --csv, --json or --table the fields are loan and last.

Example:
  pairsalder overdue --setup museum.csv --store museum.db --on 2024-06-01

Exit status: 0 done, even if no loan is overdue; 1 a fault; 2 a usage error, or
DAY is not a valid day.",
};

pub(crate) const AWAY: Help = Help {
    about: "Lists the own objects that aren't at their normal locations",
    usage: "pairsalder away --setup PATH --store PATH\n       [--upto N] [--csv | --json | --table]",
    more: "\
For a check of the stores: objects that are somewhere else, on loan, or have no
place yet.

Prints a line for each object: its code, its place, and its normal location. '-'
means no place. With --csv, --json or --table the fields are object, place and
normal.

Example:
  pairsalder away --setup museum.csv --store museum.db

Exit status: 0 done, even if no object is away; 1 a fault; 2 a usage error.",
};

pub(crate) const HISTORY: Help = Help {
    about: "Lists every place where a thing has been, oldest first",
    usage: "pairsalder history --setup PATH --store PATH CODE\n       [--long] [--upto N] [--csv | --json | --table]",
    more: "\
For an audit: how an object or container got where it is, including moves inside
a crate.

Prints a line for each time that its place changed: the number of the entry on
record, the day, and the place. Prints nothing if the setup doesn't list the
thing. With --long, each line also has the containers that the thing was in
right after the entry, innermost first, the loan that the message names, and the
message's station, number and kind. The message may name the crate that the
thing was in. With --csv, --json or --table the fields are entry, day and place,
and with --long also containers, loan, station, n and kind.

Example:
  pairsalder history --setup museum.csv --store museum.db 2001.4.1

Exit status: 0 done, even if the thing has had no place; 1 a fault; 2 a usage
error, or CODE is not a thing's code.",
};

pub(crate) const STATIONS: Help = Help {
    about: "Lists the number that each station has to send next",
    usage: "pairsalder stations --setup PATH --store PATH\n       [--upto N] [--csv | --json | --table]",
    more: "\
For the morning after an import: which station's messages are still missing.

Prints a line for each station: its name, and the number of the message that it
has to send next. After a signoff it prints 'signed off' instead, and after the
last number, 999999, 'full'. With --csv, --json or --table the fields are
station, next and signed_off. A station that is signed off or full has no next
number.

Example:
  pairsalder stations --setup museum.csv --store museum.db

Exit status: 0 done; 1 a fault; 2 a usage error.",
};

pub(crate) const WHERE: Help = Help {
    about: "Prints where a thing is",
    usage: "pairsalder where --setup PATH --store PATH CODE\n       [--upto N] [--csv | --json | --table]",
    more: "\
For fetching an object: its place, and the boxes and crates around it.

Prints the place of the object or the container, and the containers around it,
innermost first. With --csv, --json or --table the fields are thing, state,
place and containers. The state is at, unplaced or unknown.

Example:
  pairsalder where --setup museum.csv --store museum.db 2001.4.1

Exit status: 0 done; 1 a fault; 2 a usage error, or CODE is not a thing's code.",
};

pub(crate) const CONTENTS: Help = Help {
    about: "Lists what is in a container",
    usage: "pairsalder contents --setup PATH --store PATH CODE\n       [--upto N] [--csv | --json | --table]",
    more: "\
For a packing list: everything in a box or crate, including the boxes inside it.

Prints a line for each thing in the container, through all levels: its code, and
the containers around it, innermost first. With --csv, --json or --table the
fields are thing, state and containers. The state is in, or unknown for a
container that the setup doesn't list.

Example:
  pairsalder contents --setup museum.csv --store museum.db C1

Exit status: 0 done, even if the container is empty; 1 a fault; 2 a usage error,
or CODE is not a thing's code.",
};

pub(crate) const LOAN: Help = Help {
    about: "Prints a loan: its partner, its dates, and each object's stage",
    usage: "pairsalder loan --setup PATH --store PATH CODE\n       [--upto N] [--csv | --json | --table]",
    more: "\
For a call from the partner: the loan's dates, and which objects are still
expected, out, here or back.

Prints the partner's place, the first and the last day, the loan's state, and a
line for each object with its stage. With --csv, --json or --table there is a
row for each object. The fields are loan, state, partner, first, last, object
and stage.

Example:
  pairsalder loan --setup museum.csv --store museum.db LO2024.1

Exit status: 0 done; 1 a fault; 2 a usage error, or CODE is not a loan's code.",
};

pub(crate) const AT: Help = Help {
    about: "Lists everything at a place",
    usage: "pairsalder at --setup PATH --store PATH PLACE\n       [--upto N] [--csv | --json | --table]",
    more: "\
For checking a shelf, a room or a partner: what should be there.

Prints a line for each thing at the place or at a place in it, including things
in containers there. With --csv, --json or --table the fields are thing and
place.

Example:
  pairsalder at --setup museum.csv --store museum.db S1

Exit status: 0 done, even if nothing is there; 1 a fault; 2 a usage error, or
PLACE is not a place's code.",
};

pub(crate) const POSTED: Help = Help {
    about: "Lists the entries of the record",
    usage: "pairsalder posted --setup PATH --store PATH [--from N] [--to N]\n       [--station NAME] [--thing CODE] [--loan CODE] [--refused]\n       [--upto N] [--csv | --json | --table]",
    more: "\
For an audit, and for other programs: every posted message with its verdict,
including those not applied.

Prints a line for each entry. --from and --to give the first and the last entry.
The other options list only the messages of a station, those that name a thing
(as what they put, as the container, or as an object of a loan), those that name
a loan, or those with a verdict other than Applied. An entry has to meet all of
them. With --csv, --json or --table the fields are entry, station, n, verdict
and message.

Examples:
  pairsalder posted --setup museum.csv --store museum.db --from 100
  pairsalder posted --setup museum.csv --store museum.db --refused --station GAL

Exit status: 0 done, even if there are no entries; 1 a fault; 2 a usage error,
N is not a number, or CODE is not a code.",
};

pub(crate) const LOANS: Help = Help {
    about: "Lists the agreed loans, how far they are, and the days left",
    usage: "pairsalder loans --setup PATH --store PATH [--on DAY] [--by DAY] [--open]\n       [--upto N] [--csv | --json | --table]",
    more: "\
For a review of the loans: which are still open, and when each one ends.

Prints a line for each loan, in the order of the agreements: its code, state,
partner, first and last day, and how many objects it has and how many are out.
With --on the days left follow, or the days over; a closed loan has none. With
--csv, --json or --table the fields are loan, state, partner, first, last,
objects, awaiting, out, back, on, days_left and authorised_by. days_left is
below 0 once the last day has passed.

Examples:
  pairsalder loans --setup museum.csv --store museum.db --open --on 2024-12-15
  pairsalder loans --setup museum.csv --store museum.db --open --by 2024-12-31

Exit status: 0 done, even if no loan is listed; 1 a fault; 2 a usage error, or
DAY is not a day.",
};

pub(crate) const DUES: Help = Help {
    about: "Lists the objects that are to come back or go back by a day",
    usage: "pairsalder dues --setup PATH --store PATH --by DAY\n       [--upto N] [--csv | --json | --table]",
    more: "\
For planning transport: what has to move before the loans end.

Prints a line for each object that is still out, or here on a loan in, under a
loan that ends on DAY or before it: the loan, the object, the loan's last day,
the object's stage and the partner. Away objects are to come back, Here objects
are to go back. With --csv, --json or --table the fields are loan, object, last,
stage and partner.

Example:
  pairsalder dues --setup museum.csv --store museum.db --by 2024-06-30

Exit status: 0 done, even if nothing is due; 1 a fault; 2 a usage error, or DAY
is not a day.",
};

pub(crate) const WHY: Help = Help {
    about: "Explains the verdict on an entry",
    usage: "pairsalder why --setup PATH --store PATH ENTRY\n       [--upto N] [--csv | --json | --table]",
    more: "\
For a message that was not applied: which object, place or loan is the cause.

Prints a line for entry ENTRY: its number, station, n and kind, what it names,
and its verdict with the cause, from the record just before the entry. Of
several objects it names the first: in the order of the loan's list, or of the
setup. An applied message is shown with the place where it put its thing. With
--csv, --json or --table the fields are entry, station, n, kind, verdict,
culprit and cause.

Example:
  pairsalder why --setup museum.csv --store museum.db 23

Exit status: 0 done, even if there is no entry ENTRY; 1 a fault; 2 a usage error,
or ENTRY is not a number.",
};
