//! The texts of `--help` and `--version`, except those of the reports.

/// The help of a command: its purpose in one line, its usage, and the rest of its page.
#[derive(Clone, Copy)]
pub(crate) struct Help {
    pub about: &'static str,
    pub usage: &'static str,
    pub more: &'static str,
}

/// The text of `--version` after the program's name.
pub(crate) const VERSION: &str = "0.1.0\n\
    Written in Rattle, Rust with contracts. The source is proved with\n\
    rattle-kit-13f logic dac8208d650f15bf.";

pub(crate) const PROGRAM: Help = Help {
    about: "Records where a museum's objects are, where they have been, and on which\n\
        loans.",
    usage: "pairsalder COMMAND [OPTIONS]\n       pairsalder help [COMMAND | setup | lines | counts | verdicts | files]\n       pairsalder < SESSION",
    more: "\
'pairsalder help COMMAND' explains a command, with an example.
'pairsalder help TOPIC' prints a page on a topic: setup, lines, counts, verdicts
or files.

Without arguments, the program reads a session from standard input: a setup, an
empty line, and then lines. It answers the lines, and keeps nothing.

If a command's --setup or --store is not given, the environment variable
PAIRSALDER_SETUP or PAIRSALDER_STORE is used. An empty variable is ignored.

Examples:
  pairsalder replay --setup museum.csv --store museum.db < monday.jsonl
  pairsalder away --setup museum.csv --store museum.db
  pairsalder help count
  pairsalder help setup

Exit status: 0 done; 1 a fault, with a line on standard error; 2 a usage error.",
};

pub(crate) const REPLAY: Help = Help {
    about: "Reads messages and questions from standard input, and answers each",
    usage: "pairsalder replay --setup PATH [--store PATH]\n       [--progress] [--strict] [--why] < LINES",
    more: "\
For the day's work: records each station's messages, once each and in order.

Reads one message or question, a JSON object, from each line. Prints the reply
to each line before it reads the next: posted with a verdict, held, refused, or
where the thing is. A line that can't be read is answered 'bad', and the next
one is read.

With --store or PAIRSALDER_STORE, the record is kept in that file, which is
created if it doesn't exist. Without a store, nothing is kept. With --progress,
standard error shows once a second and at the end how many lines were answered,
how many messages were posted, how many of these were not applied, by verdict,
and the lines per second. With --strict the replies are the same, but the exit
status is 1 if any line was bad or refused, or was posted with a verdict other
than Applied. With --why, a note explains each of these verdicts at the end.

Examples:
  pairsalder replay --setup museum.csv --store museum.db < monday.jsonl
  pairsalder replay --setup museum.csv --store museum.db --why < monday.jsonl
  pairsalder replay --setup museum.csv --progress < monday.jsonl

Exit status: 0 every line was answered, even bad ones; 1 a fault, or with
--strict a line that was bad, refused or not applied; 2 a usage error.",
};

pub(crate) const SERVE: Help = Help {
    about: "Imports one file per station, all at once, and prints the log",
    usage: "pairsalder serve --setup PATH [--store PATH] FEEDS..",
    more: "\
For an evening's import: all stations' files are read at once into one record.

FEEDS are as many files as the setup has stations, in the setup's order. Each
has the lines of its station; the station in a line is ignored. A station with
no messages needs an empty file. Prints the replies in the order in which the
messages were processed. With --store or PAIRSALDER_STORE, the record is kept in
that file. Without a store, nothing is kept.

Example:
  pairsalder serve --setup museum.csv --store museum.db packing.jsonl gallery.jsonl

Exit status: 0 all files were read; 1 a fault, after the log so far; 2 a usage
error, or there are more or fewer files than stations.",
};

pub(crate) const DESK: Help = Help {
    about: "Takes scanned or typed lines at a desk, and answers each at once",
    usage: "pairsalder desk --setup PATH --store PATH --station NAME\n       [--day DAY] [--log FILE] [--labels FILE] [--bell]\n       pairsalder desk --cards",
    more: "\
For a bench with a scanner: scan a place or a container, then the things that go
there.

Takes lines from standard input. The code of a place sets the target, and so
does that of a container while there is none. The code of each thing after it
sends a message under the station's next number: the thing is moved to the
place, or packed into the container. Prints the verdict, and where the thing is
now. A line that can't be done is answered with the reason, and sends nothing.
Type 'help' for the other lines.

--station names the desk's own station. --day is the day of its messages; a line
such as 'day 2024-05-01' sets it, too. With --log, each message that is sent is
first appended to FILE, as a line that 'replay' takes. With --labels, a scan
that is a label of FILE stands for its code; FILE is CSV, and its first row is
label,code. With --bell, the terminal rings after a line that was not done. With
--cards, prints the command words as cards to cut out and scan.

Examples:
  pairsalder desk --setup museum.csv --store museum.db --station GAL
  pairsalder desk --setup museum.csv --store museum.db --station GAL --log gal.jsonl
  pairsalder desk --cards

Exit status: 0 the input ended; 1 a fault; 2 a usage error, DAY is not a day, or
the setup has no station NAME, or it has signed off.",
};

pub(crate) const MIGRATE: Help = Help {
    about: "Migrates a store from version 1 to version 2",
    usage: "pairsalder migrate --setup PATH --store PATH",
    more: "\
Run it once after updating the program. The record doesn't change. First copy
the store and, if it exists, the file with -wal after its name.

Prints 'migrated'. A store of version 2 doesn't change.

Example:
  pairsalder migrate --setup museum.csv --store museum.db

Exit status: 0 the store has version 2; 1 a fault, and the store is unchanged;
2 a usage error.",
};

pub(crate) const COPY: Help = Help {
    about: "Copies the record to a new file, and checks the copy",
    usage: "pairsalder copy --setup PATH --store PATH --to PATH",
    more: "\
For a backup: the whole record in one file.

Opens the store, which checks the whole record. Writes the record to a new file,
reads it back and compares the two, and only then gives the file its name. Never
overwrites: fails if PATH exists, or a file PATH-wal.

Prints the number of entries: 'copied 80000 entries'.

Example:
  pairsalder copy --setup museum.csv --store museum.db --to /media/usb/museum-2024-06-01.db

Exit status: 0 the copy is complete; 1 a fault, and no file was created under
that name; 2 a usage error.",
};

pub(crate) const PAGE: Help = Help {
    about: "Prints the record as a web page, in one file",
    usage: "pairsalder page --setup PATH --store PATH [--on DAY] [--upto N]",
    more: "\
For anyone who wants to look at the record and doesn't have the program. The
page is one file of HTML. Any browser shows it, also offline, and prints it.

The page begins with the museum in numbers and the record's seal. Then comes
each place with the containers and the objects at it. Click a place or a
container to open it. Click a thing to see each of its locations with the day,
the containers, and the station and the number of the message. Or type part of a
code into the search box. Then come the loans, with their objects and a time
line; with --on, those that are overdue on DAY are marked. With --upto, the page
shows the record as it was after entry N.

Example:
  pairsalder page --setup museum.csv --store museum.db > museum.html

Exit status: 0 the page was printed; 1 a fault; 2 a usage error, or DAY is not a
day.",
};

pub(crate) const EXPORT: Help = Help {
    about: "Writes the record to a flat SQLite database, for other programs",
    usage: "pairsalder export --setup PATH --store PATH --to PATH",
    more: "\
For a spreadsheet program, Datasette or a script: the record as tables, in one
SQLite database.

The tables are place, thing, movement, message, loan and loan_object, with
codes, names and ISO days. The views are overdue and away. The file is a copy to
read: the record doesn't change, and no command can open the file as a store.

The file gets its name only when it is complete. Never overwrites: fails if PATH
exists, or a file PATH-wal.

Prints the number of entries: 'exported 80000 entries'.

Example:
  pairsalder export --setup museum.csv --store museum.db --to flat.db

Exit status: 0 the file is complete; 1 a fault, and no file was created under
that name; 2 a usage error.",
};

pub(crate) const GROW: Help = Help {
    about: "Adds new stations, places and things to a record's setup",
    usage: "pairsalder grow --setup PATH --store PATH [--check]",
    more: "\
For new objects, shelves and desks: adds them to the setup of the record.

--setup names a setup file: your whole list, or only what is new. What the
record has keeps its number, and what is new goes last, in the order of its
rows. An own object that the record has gets the normal location of its row.
Nothing is removed, and no earlier verdict or location changes.

Prints '+' with the row of each addition, '~' with the row of each object whose
normal location changes, and then 'grown after entry 5: 1 place' or 'nothing to
add'. Then prints a line for each entry that was not applied because the setup
lacked a thing or a place that it now has: send the message again under a new
number. With --check, prints the same and changes nothing.

If rows have faults, prints all of them and adds nothing. OtherSide means that
the record has the place with the other word, inside or elsewhere. After a
growth, every other command needs the whole list: 'pairsalder setup' prints it.

Examples:
  pairsalder grow --setup museum.csv --store museum.db --check
  pairsalder grow --setup museum.csv --store museum.db

Exit status: 0 done, even if there is nothing to add; 1 a fault; 2 a usage
error.",
};

pub(crate) const SETUP: Help = Help {
    about: "Prints a record's setup, as a setup file",
    usage: "pairsalder setup --store PATH",
    more: "\
For a record that has grown, or whose setup file is lost: the other commands
take this file as --setup.

Prints a row for each station, then for each place, then for each thing, in the
order of the record. 'pairsalder help setup' explains the rows.

Example:
  pairsalder setup --store museum.db > museum.csv

Exit status: 0 done; 1 a fault; 2 a usage error.",
};

pub(crate) const EXPLAIN: Help = Help {
    about: "Explains a word of a reply, a report or a fault, and what to do about it",
    usage: "pairsalder explain NAME",
    more: "\
For anyone who reads a reply: NAME is a word of a reply, a report or a fault, or
the name of a column, for example Double, held, memory or days_left. Case is
ignored.

Prints three to five lines: what the word means, its usual cause, and what to
do. For an unknown word, a help: line suggests a similar one.

Example:
  pairsalder explain NotListed

Exit status: 0 the word was explained; 1 a fault; 2 a usage error, or an
unknown word.",
};

pub(crate) const HELP: Help = Help {
    about: "Prints the page of a topic, or the help of a command",
    usage: "pairsalder help [TOPIC | COMMAND]",
    more: "\
The topics are setup (the setup's rows, and codes), lines (the messages and
questions of stations), counts (count lists), verdicts (all of them) and files
(back up, move and restore a record). 'help COMMAND' is 'COMMAND --help', except
for setup and lines, which are topics, too. Without a name, prints an overview.

Examples:
  pairsalder help lines
  pairsalder help count

Exit status: 0 the page was printed; 2 a usage error.",
};
