//! The statements that are in every script.

/// Makes the tables, and begins a transaction.
pub(crate) const TABLES: &str = "\
CREATE TABLE record (entries INTEGER, day TEXT);
CREATE TABLE place (code TEXT PRIMARY KEY, inside TEXT);
CREATE TABLE thing (code TEXT PRIMARY KEY, kind TEXT, normal TEXT, place TEXT, containers TEXT,
 loan TEXT, since TEXT);
CREATE TABLE loan (code TEXT PRIMARY KEY, partner TEXT, first TEXT, last TEXT, state TEXT);
CREATE TABLE loan_object (loan TEXT, thing TEXT, stage TEXT, out_entry INTEGER,
 back_entry INTEGER, PRIMARY KEY (loan, thing));
CREATE TABLE message (entry INTEGER PRIMARY KEY, station TEXT, n INTEGER, kind TEXT,
 verdict TEXT, cause TEXT, text TEXT);
CREATE TABLE movement (entry INTEGER, day TEXT, thing TEXT, place TEXT, container TEXT,
 station TEXT, n INTEGER, PRIMARY KEY (entry, thing));
BEGIN;
";

/// Makes the indexes and the views, and commits.
pub(crate) const VIEWS: &str = "\
CREATE INDEX thing_place ON thing (place);
CREATE INDEX movement_thing ON movement (thing, entry);
CREATE INDEX loan_object_thing ON loan_object (thing);
CREATE VIEW overdue AS SELECT code AS loan, last FROM loan, record WHERE last < day AND EXISTS
 (SELECT 1 FROM loan_object WHERE loan_object.loan = loan.code AND stage IN ('Away', 'Here'));
CREATE VIEW away AS SELECT code AS object, place, normal FROM thing
 WHERE kind = 'own' AND (place IS NULL OR place <> normal);
COMMIT;
";
