//! Prints the progress of a replay while it runs.
ghost use Rattle.std.specs.Prelude.{◌≡◌};

use hub_core::{Outcome, Tally, VERDICTS, Watch};
use posting_core::Verdict;
use station_core::Refusal;
use std::io;
use std::io::Write;
use std::time::{Clock, Duration, Instant};

/// A watch that counts the outcomes of a replay. It prints the counts at most once a second, and at
/// the end.
#[derive(Drop)]
pub struct Progress<'a, C, E> {
    clock: &'a C,
    errors: E,
    began: Option<Instant>,
    printed: Option<Instant>,
    tally: Tally,
}

/// The least time between two lines, in milliseconds.
const PAUSE: u128 = 1000;

/// The refusals that are counted by name. Messages of an unknown station have a count of their own.
const REFUSALS: [Refusal; 4] = [
    Refusal::BadNumber,
    Refusal::Double,
    Refusal::SignedOff,
    Refusal::TooEarly,
];

impl<'a, C: Clock, E: Write> Progress<'a, C, E> {
    /// Returns a progress with all counts at 0, which starts its clock now.
    pub fn new(clock: &'a C, errors: E) -> Progress<'a, C, E> {
        let now = Instant::now(clock).ok();
        Progress {
            clock,
            errors,
            began: now,
            printed: now,
            tally: Tally::new(),
        }
    }

    /// Prints a last line. Returns whether nothing went wrong, as [`Tally::is_clean`] does.
    pub fn end(&mut self) -> bool {
        let now = Instant::now(self.clock).ok();
        let _ = self.print(now);
        self.tally.is_clean()
    }

    /// Prints a line if a second has passed since the last one.
    fn print_if_due(&mut self)
        ensures { self.new.tally ≡ self.old.tally }
    {
        let Ok(now) = Instant::now(self.clock) else {
            return;
        };
        let is_due = match self.printed {
            Some(printed) => now.duration_since(printed).as_millis() >= PAUSE,
            None => true,
        };
        if is_due {
            self.printed = Some(now);
            let _ = self.print(Some(now));
        }
    }

    /// Prints `12000 lines, 11000 posted, 700 not applied (NotHere 400, TooDeep 300), 20 held, 3
    /// refused (Double 3), 5 bad, 7 questions, 24000 lines a second`.
    fn print(&mut self, now: Option<Instant>) -> io::Result<()>
        ensures { self.new.tally ≡ self.old.tally }
    {
        let (tally, errors) = (self.tally, &mut self.errors);
        write!(errors, "{} line{}", tally.lines(), plural(tally.lines()))?;
        write_verdicts(errors, &tally)?;
        write!(errors, ", {} held", tally.held())?;
        write_refusals(errors, &tally)?;
        let asked = tally.asked();
        write!(
            errors,
            ", {} bad, {asked} question{}",
            tally.bad(),
            plural(asked)
        )?;
        if let (Some(began), Some(now)) = (self.began, now) {
            let rate = a_second(tally.lines(), now.duration_since(began));
            write!(errors, ", {rate} lines a second")?;
        }
        writeln!(errors)
    }
}

/// The ending of a noun after this count: `s`, unless the count is 1.
fn plural(count: u64) -> &'static str {
    if count == 1 { "" } else { "s" }
}

/// The count for each second of this time.
fn a_second(count: u64, time: Duration) -> u64 {
    let millis = u64::try_from(time.as_millis()).unwrap_or(u64::MAX).max(1);
    count.saturating_mul(1000) / millis
}

/// Writes how many entries were posted, and how many of them were not applied, by verdict.
fn write_verdicts<E: Write>(errors: &mut E, tally: &Tally) -> io::Result<()> {
    let applied = tally.posted(Verdict::Applied);
    let mut others: u64 = 0;
    for number in 1..VERDICTS as u32 {
        if let Some(verdict) = Verdict::numbered(number) {
            others = others.saturating_add(tally.posted(verdict));
        }
    }
    let posted = applied.saturating_add(others);
    write!(errors, ", {posted} posted, {others} not applied")?;
    let mut before = " (";
    for number in 1..VERDICTS as u32 {
        if let Some(verdict) = Verdict::numbered(number) {
            before = write_count(errors, before, verdict.name(), tally.posted(verdict))?;
        }
    }
    close(errors, others)
}

/// Writes how many messages were refused, by reason.
fn write_refusals<E: Write>(errors: &mut E, tally: &Tally) -> io::Result<()> {
    let mut refused = tally.unknown_station();
    for refusal in &REFUSALS {
        refused = refused.saturating_add(tally.refused(*refusal));
    }
    write!(errors, ", {refused} refused")?;
    let mut before = write_count(errors, " (", "UnknownStation", tally.unknown_station())?;
    for refusal in &REFUSALS {
        before = write_count(errors, before, refusal.name(), tally.refused(*refusal))?;
    }
    close(errors, refused)
}

/// Writes a name with its count, unless the count is 0. Returns the text that goes before the next
/// name.
fn write_count<E: Write>(
    errors: &mut E,
    before: &'static str,
    name: &str,
    count: u64,
) -> io::Result<&'static str> {
    if count == 0 {
        return Ok(before);
    }
    write!(errors, "{before}{name} {count}")?;
    Ok(", ")
}

/// Closes the parenthesis, if one was opened.
fn close<E: Write>(errors: &mut E, count: u64) -> io::Result<()> {
    if count > 0 {
        write!(errors, ")")
    } else {
        Ok(())
    }
}

impl<C: Clock, E: Write> Watch for Progress<'_, C, E> {
    ghost use Rattle.hub_core.specs.Tallies.{HasTallied};

    ghost has_seen = { λ p outcomes. HasTallied p.tally outcomes };

    fn see(&mut self, outcome: Outcome) {
        self.tally.see(outcome);
        if matches!(outcome, Outcome::Answered) {
            self.print_if_due();
        }
    }
}
