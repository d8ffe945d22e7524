//! The help of a desk, and its cards.

/// What the line `help` prints at a desk. It fits a screen of 24 lines of 80 columns.
pub const DESK_HELP: &str = "\
Set the day and where things go. Then scan the things. An answer with 'Applied'
means that the thing went there. Any other answer has the reason why it did not.

  day 2024-05-01     the day of what follows; a restart forgets it
  to S1              from now on things go to this place; S1 alone does the same
  into C1            from now on things go into this container
  out LO2024.1       things leave under this loan
  back LO2024.1 S1   things come back under it, to this place
  in LI2024.1 S1     borrowed things arrive under this loan, at this place
  2001.4.1           an object or a container: it goes where you last said
  .                  forget where things go; a restart does so, too
  agree LO2024.1 MUSEUM-X 2024-05-01 2024-05-31 2001.4.1 2001.4.2
  authorise LO2024.1 Ann               extend LO2024.1 2024-06-30
  signoff Ann        signs the station off for good
  ? 2001.4.1         where it is
  contents C1        what is in it; other reports: at S1, why 12, loans, ...
  ! LINE             do the line even if a code is not in the setup

Pack an object into crate C1, and move it to S2. The answers are on the right:
  into C1            into C1 at S1
  2001.4.1           PACK 7 posted 12 Applied: 2001.4.1 at S1 in C1
  to S2              to S2
  C1                 PACK 8 posted 13 Applied: C1 at S2
";

/// What `pairsalder desk --cards` prints: each word that a line can begin with, to be cut out and
/// scanned.
pub const DESK_CARDS: &str = "\
Cards for 'pairsalder desk'. Cut them out, and make a barcode of each word. The
scanner must send a blank after a word with 'then', and Enter after other codes.

+--------------------------------------+--------------------------------------+
| to                                   | into                                 |
| then a place. Things go to it.       | then a container. Things go into it. |
+--------------------------------------+--------------------------------------+
| out                                  | back                                 |
| then a loan. Things leave under it.  | then loan, place. Things come back.  |
+--------------------------------------+--------------------------------------+
| in                                   | .                                    |
| then loan, place. Things arrive.     | Forget where things go.              |
+--------------------------------------+--------------------------------------+
| day                                  | ?                                    |
| then a day, such as 2024-05-01.      | then a thing. Where is it?           |
+--------------------------------------+--------------------------------------+
| agree                                | authorise                            |
| then loan, partner, 2 days, things.  | then a loan, and your name.          |
+--------------------------------------+--------------------------------------+
| extend                               | signoff                              |
| then a loan, and its new last day.   | then your name. It is final.         |
+--------------------------------------+--------------------------------------+
| where                                | history                              |
| then a thing. Where is it?           | then a thing. Where has it been?     |
+--------------------------------------+--------------------------------------+
| contents                             | at                                   |
| then a container. What is in it?     | then a place. What is there?         |
+--------------------------------------+--------------------------------------+
| loan                                 | loans                                |
| then a loan. Its dates and objects.  | All loans.                           |
+--------------------------------------+--------------------------------------+
| overdue --on                         | dues --by                            |
| then a day. Loans past their end.    | then a day. What is due by it?       |
+--------------------------------------+--------------------------------------+
| away                                 | stations                             |
| Objects not in their places.         | The next number of each station.     |
+--------------------------------------+--------------------------------------+
| posted --from                        | why                                  |
| then an entry. It and later ones.    | then an entry. Why this verdict?     |
+--------------------------------------+--------------------------------------+
| !                                    | help                                 |
| then a line. Do it in any case.      | All lines of a desk.                 |
+--------------------------------------+--------------------------------------+
";
