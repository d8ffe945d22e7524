//! The series of messages of all stations.
ghost use Rattle.std.specs.Prelude.{◌≡◌, ◌+◌, ◌<◌, ◌≤◌, ◌↔◌, Bool, ℕ, List, [], ◌∷◌, ◌++◌, IfOk};
ghost use Rattle.std.specs.Prelude.{IfNone, IfSome, OnSome, All, map, length, slice_set, None};
ghost use Rattle.std.specs.Prelude.{Some};
ghost use Rattle.station_core.specs.declared.TheConstants.{LAST};
ghost use Rattle.station_core.specs.Series.{opened, refusal_of, series_at, held_at, held_count};
ghost use Rattle.station_core.specs.Series.{next_held, with_held, counted, closed};
ghost use Rattle.station_core.specs.Runs.{Arrived, arrived, refusal};
ghost use Rattle.station_core.specs.Progress.{AllStart, AllMatch, IsPosting, IsEnding, ComesDue};

use crate::series::Station;
use crate::{Refusal, Start, Taken};
use std::alloc::{AllocError, Global};
use std::marker::Model;

/// The stations of a hub, numbered from 0, each with its own series of messages. Contracts see it
/// as the list of these series.
#[derive(Drop)]
pub struct Sequences<M> {
    stations: Vec<Station<M>>,
}

impl<M> Model for Sequences<M> {
    ghost use Rattle.std.specs.Prelude.{List};
    ghost use Rattle.std.specs.Coded.{coded_list};
    ghost use Rattle.station_core.specs.Series.{Series, series_code};

    ghost Value = { List (Series M) };

    ghost coded = { coded_list (series_code M.code) };

    ghost view = { λ a. a.stations.items };
}

impl<M: Drop> Sequences<M> {
    /// Makes one station for each start, with nothing held. No start may have more than
    /// [`LAST`](crate::LAST) messages posted. Takes all the memory that the stations need; no later
    /// call takes any. Fails with `AllocError` if there isn't enough.
    pub fn new(alloc: Global, starts: &[Start]) -> Result<Self, AllocError>
        requires { All (λ s. s.posted ≤ LAST) starts.now }
        ensures opened { IfOk result (λ all. all ≡ map opened starts.now) }

        // If the starts fit a list of taken messages, the stations agree with that list.
        ensures taken { IfOk result (λ all.
            (signs : M → Bool) (taken : List (Arrived M)) →
            AllStart signs taken starts.now → AllMatch signs taken all) }
    {
        let mut stations = Vec::new(alloc);
        for start in starts {
            stations.push(Station::new(alloc, *start)?)?;
        }
        Ok(Sequences { stations })
    }

    /// The number of stations.
    pub fn len(&self) -> usize
        ensures { result ≡ length self.now }
    {
        self.stations.len()
    }

    /// Returns the first reason to refuse message `n` of station `s`, or `None` if it can be taken.
    /// Accepts any `s` and `n`.
    pub fn test(&self, s: u32, n: u64) -> Option<Refusal>
        ensures table { result ≡ refusal_of self.now s n }

        // The answer is that of looking back through the list of all messages taken.
        ensures taken { (signs : M → Bool) (taken : List (Arrived M)) →
            AllMatch signs taken self.now → result ≡ refusal signs (length self.now) taken s n }
    {
        match self.stations.get(s as usize) {
            None => Some(Refusal::UnknownStation),
            Some(station) => station.test(n),
        }
    }

    /// Takes message `n` of station `s` and holds it. [`test`](Self::test) must not refuse it.
    /// Returns `Ready` if it is the station's next message, otherwise `Held`.
    #[inline(always)]
    pub fn take(&mut self, s: u32, n: u64, message: M) -> Taken
        requires { refusal_of self.old s n ≡ None }
        ensures held { self.new
            ≡ slice_set self.old s (with_held (series_at self.old s) n message) }
        ensures ready { result ≡ Taken.Ready ↔ (n ≡ (series_at self.old s).posted + 1) }

        // The message is at the end of the list, and messages of station `s` may be due.
        ensures taken { (signs : M → Bool) (taken : List (Arrived M)) →
            AllMatch signs taken self.old →
            IsPosting signs (taken ++ arrived s n message ∷ []) s self.new }
    {
        self.stations[s as usize].take(n, message)
    }

    /// Returns the next message of station `s` and its number, if that message is held, and counts
    /// it as posted. Messages held under later numbers stay. After `None`, nothing has changed.
    /// Station `s` must exist.
    #[inline(always)]
    pub fn next_due(&mut self, s: u32) -> Option<(u32, M)>
        requires { s < length self.old }
        ensures none { IfNone result (
            (next_held (series_at self.old s) ≡ None) × (self.new ≡ self.old)) }
        ensures message { IfSome result (λ d. next_held (series_at self.old s) ≡ Some d.1) }
        ensures number { IfSome result (λ d.
            (d.0 ≡ (series_at self.old s).posted + 1) × (d.0 ≤ LAST)) }
        ensures counted { OnSome result (
            self.new ≡ slice_set self.old s (counted (series_at self.old s))) }
        ensures stays { OnSome result ((n : ℕ) → (series_at self.old s).posted + 1 < n →
            held_at (series_at self.new s) n ≡ held_at (series_at self.old s) n) }

        // It is the message taken under that number. After the last one, all ready messages are
        // posted.
        ensures due { IfSome result (λ d.
            (signs : M → Bool) (taken : List (Arrived M)) →
            IsPosting signs taken s self.old → ComesDue signs taken s d.0 d.1 self.new) }
        ensures posted { IfNone result (
            (signs : M → Bool) (taken : List (Arrived M)) →
            IsPosting signs taken s self.old → AllMatch signs taken self.new) }
    {
        self.stations[s as usize].next_due()
    }

    /// Signs station `s` off, and drops the messages that it holds. Its posted count stays. Station
    /// `s` must exist.
    pub fn sign_off(&mut self, s: u32)
        requires { s < length self.old }
        ensures closed { self.new ≡ slice_set self.old s (closed (series_at self.old s)) }

        // If its sign-off came due last, the stations agree with the list again.
        ensures taken { (signs : M → Bool) (taken : List (Arrived M)) →
            IsEnding signs taken s self.old → AllMatch signs taken self.new }
    {
        self.stations[s as usize].sign_off()
    }

    /// The number of posted messages of station `s`, which is its last posted number. Station `s`
    /// must exist.
    pub fn posted_count(&self, s: u32) -> u32
        requires { s < length self.now }
        ensures count { result ≡ (series_at self.now s).posted }
        ensures within { result ≤ LAST }
    {
        self.stations[s as usize].posted_count()
    }

    /// The number of messages that station `s` holds: taken, and waiting for a lower number.
    /// Station `s` must exist.
    pub fn held_count(&self, s: u32) -> usize
        requires { s < length self.now }
        ensures { result ≡ held_count (series_at self.now s) }
    {
        self.stations[s as usize].held_count()
    }

    /// Whether station `s` has signed off. Station `s` must exist.
    pub fn is_signed(&self, s: u32) -> bool
        requires { s < length self.now }
        ensures { result ≡ (series_at self.now s).signed }
    {
        self.stations[s as usize].is_signed()
    }
}
