//! The pages of `help TOPIC`.

use crate::Topic;

/// Returns a topic's page. For [`Topic::Verdicts`] this is only the introduction; the caller prints
/// the verdicts after it.
pub fn page_of(topic: Topic) -> &'static str {
    match topic {
        Topic::Setup => SETUP,
        Topic::Lines => LINES,
        Topic::Counts => COUNTS,
        Topic::Verdicts => VERDICTS,
        Topic::Files => FILES,
    }
}

const SETUP: &str = "\
The setup is a CSV file in UTF-8, without a header. It has one row for each
station, place and thing of the museum:

  station,GAL                a desk, a scanner or a person that sends messages
  place,S1,inside            a place of the museum's own
  place,S1-A,inside          a place that lies in S1
  place,MUSEUM-X,elsewhere   a partner's place
  box,C1                     a container: a box or a crate
  own,2001.4.1,S1-A          an own object, and its normal location
  lent,L1999.7               a borrowed object

Put a place before the objects that have it as their normal location. The limits
are 64 stations, 10000 places and 100000 things. To add rows to the setup of a
record, use 'pairsalder grow'. Every other command needs the whole setup, which
'pairsalder setup' prints.

Each code has one spelling. A number is 1 to 999999, without leading
zeros.

  station     GAL, STORE-A          1 to 16 of A-Z, a-z, 0-9 and -
  place       S1, S1-A, MUSEUM-X    1 to 4 parts of 1 to 8 of A-Z and 0-9
  container   C1, C17               C and a number
  own object  2001.4.1, 2001.4.2a   year, 1 to 3 numbers, at most one letter
  borrowed    L1999.7               L, then as an own object
  loan        LO2024.1, LI2024.1    LO out, LI in; year and number
  day         2024-05-31            year, month and day

Examples: begin a record, and see whether a row is wrong; print a record's setup
  pairsalder replay --setup museum.csv --store museum.db < /dev/null
  pairsalder setup --store museum.db > museum.csv
";

const LINES: &str = "\
Each line is one JSON object: a message or a question. A station numbers its
messages n from 1, day after day, without a gap. A question has no number.

  {\"station\":\"GAL\",\"n\":1,\"message\":{..}}
  {\"station\":\"GAL\",\"ask\":\"2001.4.1\"}

The messages, each with all its keys:

  {\"kind\":\"move\",\"thing\":\"C1\",\"place\":\"S1\",\"day\":\"2024-05-01\"}
      puts a thing at a place of the museum's own
  {\"kind\":\"pack\",\"thing\":\"2001.4.1\",\"container\":\"C1\",\"day\":\"2024-05-01\"}
      puts a thing into a container
  {\"kind\":\"agree\",\"loan\":\"LO2024.1\",\"partner\":\"MUSEUM-X\",
   \"objects\":[\"2001.4.1\"],\"first\":\"2024-05-01\",\"last\":\"2024-05-31\"}
      agrees a loan out (LO) or a loan in (LI) of all these objects
  {\"kind\":\"authorise\",\"loan\":\"LO2024.1\",\"by\":\"Ann\"}
      authorises the loan
  {\"kind\":\"exit\",\"thing\":\"C1\",\"loan\":\"LO2024.1\",\"day\":\"2024-05-02\"}
      sends an object or a crate out; under a loan in, an object home
  {\"kind\":\"extend\",\"loan\":\"LO2024.1\",\"last\":\"2024-06-30\"}
      sets a later last day
  {\"kind\":\"return\",\"thing\":\"C1\",\"loan\":\"LO2024.1\",\"place\":\"S1\",
   \"day\":\"2024-06-30\"}
      brings it back under a loan out
  {\"kind\":\"receive\",\"thing\":\"L1999.7\",\"loan\":\"LI2024.1\",\"place\":\"S1\",
   \"day\":\"2024-05-01\"}
      takes a borrowed object in, under a loan in
  {\"kind\":\"signoff\",\"by\":\"Ann\"}
      signs the station off for good. Don't send it at the end of a shift.

If a message is lost, its number blocks the station. 'pairsalder gap' prints a
line that fills the number and changes nothing. So does a message about a thing
that the setup does not list: a move, pack, exit, return or receive. It is
recorded as UnknownThing. The messages held after it can then be sent again:

  {\"kind\":\"move\",\"thing\":\"C999999\",\"place\":\"S1\",\"day\":\"2024-05-01\"}

Print the rows of a spreadsheet as lines; 'pairsalder lines --help' explains it:
  pairsalder lines --setup museum.csv --station GAL moves.csv
";

const COUNTS: &str = "\
A count list is a CSV file in UTF-8, without a header. Someone goes to the
shelves, and writes a row for each thing and each place:

  S1-A,2001.4.1     the object was seen at S1-A
  S1-A,C1           a container was seen there
  S2                the place was looked at, and is empty, or holds only
                    things in other rows

'pairsalder count' answers each row with the first of these that applies:

  UnknownPlace      the setup does not list the place
  Counted           the row names a place alone
  UnknownObject     the setup does not list the thing
  Again             an earlier row names the same thing
  Unplaced          the thing was never put anywhere
  Found             the record has it at this place, or at one that lies in it
  Elsewhere S2      the record has it at S2

Then it prints 'missing S1-A 2001.4.3' for each object that the record has at a
place of the list, and that no row names. The limit is 100000 rows.

Example:
  pairsalder count --setup museum.csv --store museum.db shelves.csv
";

const VERDICTS: &str = "\
Each message on record has a verdict. Applied: the message took effect. Any
other verdict names the first rule that the message broke; it changed nothing.
Its number is used up: send the corrected message under the station's next
number.
'pairsalder explain NotHere' adds the usual cause, and what to do about it.

";

const FILES: &str = "\
Between runs the store is one file, here museum.db, and it is the whole record.
Keep the setup with it, here museum.csv: every command needs both. If it is
lost, 'pairsalder setup --store museum.db > museum.csv' prints it again.

Back up. This checks the whole record, and writes it to one new file:

  pairsalder copy --setup museum.csv --store museum.db --to backup.db

Copy a record to another folder or computer, or move it there, between runs:

  cp museum.db museum.csv elsewhere/

Restore. Move both old files out of the way, then put a copy in their place:

  mkdir old && mv museum.db* old && cp backup.db museum.db

While a command runs, the newest entries are in museum.db-wal. If a run was
killed, this file stays. Leave the two files together and run the next command,
which takes the entries from it. If museum.db-wal is there without museum.db,
every command fails and changes nothing: put museum.db back beside it.

Only replay, serve and desk begin a record. Any other fails with 'fault store
Store' if there is none. Only one command at a time can use a store.
";
