//! Compares a station's own file of lines with the record, lists the bad lines of a file, returns
//! what lines would get if they were sent, and turns a count list into lines that correct the
//! record.
//!
//! [`compare_lines`] returns the [`Standing`] of each line: whether the record has its message, has
//! another one under its number, or waits for it. [`resend_text`] prints that. [`check_lines`]
//! returns every line that no record takes, each with its [`LineFault`], and [`check_text`] prints
//! them. [`laws`] has what is true of every line.
//!
//! [`gap_line`] returns the line of a message that the hub refuses as UnknownLoan, under the number
//! that the station has to send next ([`next_number`]). [`gap_laws`] has what is true of the
//! message in every record.
//!
//! [`try_lines`] posts the messages of a table's rows to a ledger in memory, one after another, and
//! returns a [`Trial`]: a line for each row whose message isn't Applied. The caller drops the
//! ledger afterwards. [`trial_laws`] has what is true of every trial.
//!
//! [`audit`] compares a count list with the record. Its [`AuditText`] has a line for each thing
//! that the list found elsewhere, which moves the thing to the place where it was seen. A container
//! is moved like any other thing, and what is in it moves with it. A thing that lies in a container
//! on record has no line: it is a note. So is a row that names something unknown, a thing a second
//! time, or a thing that was never placed; and so is each object that the list misses. Other rows
//! agree with the record. [`audit_laws`] has the laws of every audit.
//!
//! Nothing here posts a message to the record.
//!
//! ```text
//! 1 same
//! 2 other {"by":"Ann","kind":"signoff"}
//! 3 next
//! 4 waits for 8 to 11
//! 5 bad NotJson
//!
//! note: row 4 would get NotListed: 1987.12.3 in C2 is not on LO2024.2
//! note: row 8 can't be sent: the station has signed off
//!
//! {"station":"GAL","n":6,"message":{"day":"2024-05-01","kind":"move","place":"S1-A","thing":"C2"}}
//! note: 2001.4.2 was seen at S2 but lies in C1 on record: move it yourself if it was taken out
//! missing: 2001.4.3 at S1-A on record
//! ```
#![tactic(auto)]

mod audits;
mod checking;
mod comparison;
mod finding;
mod gap;
mod gap_fault;
pub mod gap_laws;
mod known;
pub mod laws;
mod line_fault;
mod lines;
mod notes;
mod posting;
mod progress;
mod reading;
mod resending;
mod standing;
mod trial;
pub mod trial_laws;

pub use audits::{AuditFault, AuditOptions, AuditText, audit, laws as audit_laws};
pub use checking::{BadLine, CheckedLines, check_help, check_lines, check_text};
pub use comparison::compare_lines;
pub use gap::{gap_line, next_number};
pub use gap_fault::GapFault;
pub use line_fault::LineFault;
pub use resending::{Resent, resend_text};
pub use standing::{Compared, Standing};
pub use trial::{Trial, try_lines};
