//! The series of one station: a count of posted messages and a window of held ones.
ghost use Rattle.std.specs.Prelude.{◌≡◌, ◌+◌, ◌<◌, ◌≤◌, ◌↔◌, ◌∷◌, ◌++◌, ℕ, [], IfOk, IfNone};
ghost use Rattle.std.specs.Prelude.{IfSome, OnSome, drop, length, replicate, slice_set, true, Some};
ghost use Rattle.std.specs.Prelude.{None};
ghost use Rattle.circular_buffer.specs.Buffer.{buffer};
ghost use Rattle.station_core.specs.Series.{opened, refusal_at, slot_at, held_count, next_held};
ghost use Rattle.station_core.specs.Series.{with_held, counted, closed};

use crate::{LAST, Refusal, Start, Taken, WINDOW};
use circular_buffer::HeapCircularBuffer;
use std::alloc::{AllocError, Global};
use std::marker::Model;

/// One station. Its ring is always full: slot `i` is for number `posted + 1 + i`. Nothing is held
/// above `highest`, so the ring has to move only if something is held after the next message.
#[derive(Drop)]
pub struct Station<M> {
    posted: u32,
    signed: bool,
    highest: u32,
    slots: HeapCircularBuffer<Option<M>>,
}

impl<M> Model for Station<M> {
    ghost use Rattle.station_core.specs.Series.{Series, series, series_code, FitsWindow};

    ghost Value = { Series M };

    ghost coded = { series_code M.code };

    ghost view = { λ a. series a.posted a.signed a.slots.items };

    ghost invariant = { λ a. FitsWindow a.posted a.highest a.slots };
}

impl<M: Drop> Station<M> {
    /// A station at its start, with nothing held. Takes all its memory. Fails with `AllocError`.
    #[tactic(auto, using(crate::proofs::SlotLemmas::window_is))]
    pub fn new(alloc: Global, start: Start) -> Result<Self, AllocError>
        requires { start.posted ≤ LAST }
        ensures { IfOk result (λ q. q ≡ opened start) }
    {
        let mut slots = HeapCircularBuffer::with_capacity(alloc, WINDOW)?;
        fill_empty(&mut slots);
        Ok(Station {
            posted: start.posted,
            signed: start.signed,
            highest: start.posted,
            slots,
        })
    }

    /// The number of posted messages.
    pub fn posted_count(&self) -> u32
        ensures count { result ≡ self.now.posted }
        ensures within { result ≤ LAST }
    {
        self.posted
    }

    /// Whether the station's sign-off is posted.
    pub fn is_signed(&self) -> bool
        ensures { result ≡ self.now.signed }
    {
        self.signed
    }

    /// The number of held messages.
    pub fn held_count(&self) -> usize
        ensures { result ≡ held_count self.now }
    {
        self.slots.iter().filter(|slot| slot.is_some()).count()
    }

    /// Returns the first of `BadNumber`, `Double`, `SignedOff` and `TooEarly` that applies to
    /// number `n`, or `None`.
    #[tactic(auto, using(crate::proofs::SlotLemmas::window_is))]
    pub fn test(&self, n: u64) -> Option<Refusal>
        ensures { result ≡ refusal_at self.now n }
    {
        if n == 0 || n > LAST as u64 {
            return Some(Refusal::BadNumber);
        }
        let posted = self.posted as u64;
        if n <= posted || matches!(self.slots.get((n - posted - 1) as usize), Some(Some(_))) {
            return Some(Refusal::Double);
        }
        if self.signed {
            return Some(Refusal::SignedOff);
        }
        if n > posted + WINDOW as u64 {
            return Some(Refusal::TooEarly);
        }
        None
    }

    /// Holds message `n`, which [`test`](Self::test) must not refuse. Returns `Ready` if it is the
    /// next message, otherwise `Held`.
    #[inline(always)]
    pub fn take(&mut self, n: u64, message: M) -> Taken
        requires { refusal_at self.old n ≡ None }
        ensures held { self.new ≡ with_held self.old n message }
        ensures ready { result ≡ Taken.Ready ↔ (n ≡ self.old.posted + 1) }
    {
        let i = n - self.posted as u64 - 1;
        put(&mut self.slots, i as usize, message);
        self.highest = self.highest.max(n as u32);
        if i == 0 { Taken::Ready } else { Taken::Held }
    }

    /// Returns the next message and its number, if it is held, and counts it as posted. After
    /// `None`, nothing has changed.
    #[inline(always)]
    pub fn next_due(&mut self) -> Option<(u32, M)>
        ensures none { IfNone result ((next_held self.old ≡ None) × (self.new ≡ self.old)) }
        ensures message { IfSome result (λ d. next_held self.old ≡ Some d.1) }
        ensures number { IfSome result (λ d. (d.0 ≡ self.old.posted + 1) × (d.0 ≤ LAST)) }
        ensures counted { OnSome result (self.new ≡ counted self.old) }
    {
        if !matches!(self.slots.front(), Some(Some(_))) {
            return None;
        }
        let is_last = self.posted + 1 == self.highest;
        let Some(message) = take_first(&mut self.slots, is_last) else {
            unreachable!()
        };
        self.posted += 1;
        Some((self.posted, message))
    }

    /// Signs the station off, and drops the messages that it holds.
    pub fn sign_off(&mut self)
        ensures { self.new ≡ closed self.old }
    {
        self.signed = true;
        self.slots.clear();
        fill_empty(&mut self.slots);
    }
}

/// Fills an empty ring with empty slots.
fn fill_empty<M: Drop>(slots: &mut HeapCircularBuffer<Option<M>>)
    requires { slots.old.items ≡ [] }
    ensures { slots.new ≡ buffer (replicate slots.old.capacity None) slots.old.capacity }
{
    for _ in 0..slots.capacity() {
        slots.push_back(None);
    }
}

/// Takes the message out of the first slot of a full ring, and moves the other slots up. If
/// `is_last`, the others are all empty and nothing has to move.
#[inline(always)]
fn take_first<M: Drop>(slots: &mut HeapCircularBuffer<Option<M>>, is_last: bool) -> Option<M>
    requires some { 0 < length slots.old.items }
    requires full { length slots.old.items ≡ slots.old.capacity }
    requires last { is_last ≡ true → (i : ℕ) → 0 < i → slot_at slots.old.items i ≡ None }
    ensures taken { result ≡ slot_at slots.old.items 0 }
    ensures moved { slots.new ≡ buffer (drop 1 slots.old.items ++ None ∷ []) slots.old.capacity }
{
    if is_last {
        return slots.get_mut(0)?.take();
    }
    // The ring is full, so an empty slot at its end pushes the first one out.
    slots.push_back(None)?
}

/// Puts a message into slot `i` of a ring.
#[inline(always)]
fn put<M: Drop>(slots: &mut HeapCircularBuffer<Option<M>>, i: usize, message: M)
    requires { i < length slots.old.items }
    ensures { slots.new ≡ buffer (slice_set slots.old.items i (Some message)) slots.old.capacity }
{
    if let Some(slot) = slots.get_mut(i) {
        *slot = Some(message);
    }
}
