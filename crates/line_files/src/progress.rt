//! How far the messages of a station go.
ghost use Rattle.std.specs.Prelude.{◌≡◌, ◌<◌, ◌≤◌, ℕ, IfOk, None, nat_eq};
ghost use Rattle.std.specs.HashMap.{get};
ghost use Rattle.posting_core.specs.Messages.{is_sign_off};
ghost use Rattle.station_core.specs.Runs.{is_signed, ready};
ghost use Rattle.line_files.specs.Known.{Messages, HasMessages};
ghost use Rattle.line_files.specs.Standings.{least_above, lesser, new_standing, progress_of};
ghost use Rattle.line_files.specs.Standings.{standing_of};

use crate::finding::{Finding, Found};
use crate::{LineFault, Standing};
use codes_core::NoMemory;
use posting_core::{LAST_NUMBER, Message};
use std::alloc::Global;
use std::collections::HashMap;

/// How far the messages of a station go.
#[derive(Clone, Copy)]
pub(crate) struct Progress {
    /// The last number before the first that is missing.
    pub(crate) last: u32,
    /// Whether that is the number of the sign-off.
    pub(crate) signed: bool,
    /// The least new number above the last.
    pub(crate) resumes: u32,
}

impl Progress {
    /// How far the known messages go, with the findings of the file.
    pub(crate) fn of(known: &HashMap<u32, Message>, found: &[Found]) -> Progress
        requires { (q : ℕ) → LAST_NUMBER < q → get nat_eq known.now q ≡ None }
        ensures exact { (s : ℕ) (them : Messages) → HasMessages known.now s them
            → result ≡ progress_of s them found.now }
        ensures last { result.last ≤ LAST_NUMBER }
        ensures resumes { result.last < result.resumes }
    {
        let (last, signed) = run_of(known);
        let resumes = least_above(last, found);
        Progress {
            last,
            signed,
            resumes,
        }
    }

    /// The standing of a line with this finding. Fails with `NoMemory`.
    pub(crate) fn standing_of(self, alloc: Global, finding: &Finding) -> Result<Standing, NoMemory>
        requires last { self.last ≤ LAST_NUMBER }
        requires resumes { self.last < self.resumes }
        ensures { IfOk result (λ standing. standing ≡ standing_of self finding.now) }
    {
        match finding {
            Finding::Known(standing) => standing.copy(alloc),
            Finding::New(n) => Ok(self.new_standing(*n)),
        }
    }

    fn new_standing(self, n: u32) -> Standing
        requires last { self.last ≤ LAST_NUMBER }
        requires resumes { self.last < self.resumes }
        ensures { result ≡ new_standing self n }
    {
        if n <= self.last {
            return Standing::Next;
        }
        if self.signed {
            return Standing::Bad(LineFault::SignedOff);
        }
        Standing::Waits {
            from: self.last + 1,
            to: self.resumes - 1,
        }
    }
}

/// The last number before the first that is missing or follows a sign-off, and whether it is the
/// sign-off's.
fn run_of(known: &HashMap<u32, Message>) -> (u32, bool)
    requires { (q : ℕ) → LAST_NUMBER < q → get nat_eq known.now q ≡ None }
    ensures last { (s : ℕ) (them : Messages) → HasMessages known.now s them
        → result.0 ≡ ready is_sign_off them s }
    ensures signed { (s : ℕ) (them : Messages) → HasMessages known.now s them
        → result.1 ≡ is_signed is_sign_off them s }
    ensures within { result.0 ≤ LAST_NUMBER }
{
    for n in 0..LAST_NUMBER {
        match known.get(&(n + 1)) {
            None => return (n, false),
            Some(message) => {
                if is_sign_off(message) {
                    return (n + 1, true);
                }
            }
        }
    }
    (LAST_NUMBER, false)
}

fn is_sign_off(message: &Message) -> bool
    ensures { result ≡ is_sign_off message.now }
{
    matches!(message, Message::SignOff { .. })
}

/// The least new number above this one, or one that no message has.
fn least_above(last: u32, found: &[Found]) -> u32
    requires { last ≤ LAST_NUMBER }
    ensures least { result ≡ least_above last found.now }
    ensures above { last < result }
{
    let mut least = LAST_NUMBER + 1;
    for one in found {
        least = lesser(last, least, &one.finding);
    }
    least
}

fn lesser(last: u32, least: u32, finding: &Finding) -> u32
    ensures lesser { result ≡ lesser last least finding.now }
    ensures above { last < least → last < result }
{
    match finding {
        Finding::New(n) => {
            if *n > last {
                return least.min(*n);
            }
            least
        }
        Finding::Known(_) => least,
    }
}
