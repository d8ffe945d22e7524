//! The work at a desk: takes lines as they are typed or scanned, and answers each.
//!
//! [`run_desk`] reads the lines of an input. [`step`](crate::step) finds what a line says, as a
//! [`Said`]: a message, a report that is wanted, or why the line isn't done. A [`Desk`] keeps two
//! things from one line to the next: the [`Target`], where the things that are scanned next go, and
//! the day. A message is sent to the hub under the next number of the desk's own station, and
//! answered with where its thing is now, or with why it was refused. A JSON line of another station
//! is passed on. A report is printed. A line that isn't done is answered with what to do instead. A
//! label stands for its code. A log can keep each message of the station.
//!
//! The contract of [`run_desk`] promises, for every input: the hub has taken the messages of the
//! lines, numbered without a gap from the station's next number on, and the JSON lines of other
//! stations. Exactly the answers to these lines are written, and exactly the messages of the desk's
//! station are logged. After a fault, all lines before the one that met it are answered.
//!
//! ```text
//! let mut desk = Desk::new(Some(day));
//! step(alloc, &setup, &mut desk, b"S1")?;             // Said::Target(Some(Target::Place(S1)))
//! step(alloc, &setup, &mut desk, b"2001.4.1")?;       // Said::Message(a move of 2001.4.1 to S1)
//!
//! let labels = Labels::none(alloc);
//! let bench = Bench { station, has_bell: false, help, labels: &labels };
//! let mut log = Some(file);
//! run_desk(&rt, alloc, &questions, &bench, desk, &mut hub, &mut input, &mut output, &mut log)?;
//! // S1          -> to S1
//! // 2001.4.1    -> GAL 1 posted 1 Applied: 2001.4.1 at S1
//! // 2001.99.1   -> 2001.99.1 is not in the setup: not sent
//! ```
#![tactic(auto)]

mod asking;
mod bench;
mod casing;
mod code;
mod command;
mod desk;
mod desk_fault;
mod desk_line;
pub mod laws;
mod line;
mod line_fault;
mod message;
mod passing;
mod posting;
mod said;
mod scan;
mod sending;
mod session;
mod text;
mod texts;
mod verb;
mod words;

pub use bench::{Bench, Questions};
pub use desk::{Desk, Target};
pub use desk_fault::DeskFault;
pub use desk_line::step;
pub use said::{Code, Rejection, Said};
pub use session::run_desk;
pub use words::Words;
