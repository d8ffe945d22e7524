//! The hub, and its calls.
ghost use Rattle.std.specs.Prelude.{◌≡◌, ◌≢◌, ◌+◌, ◌<◌, ◌↔◌, None, List, [], ◌∷◌, ◌++◌, ℕ, length};
ghost use Rattle.std.specs.Prelude.{reverse, true, false, IfOk, OnOk, OnErr, IsErrOf, IfErr};
ghost use Rattle.posting_core.specs.declared.entry.Entry.{Entry};
ghost use Rattle.hub_core.specs.declared.hub.answer.Arrival.{Arrival};
ghost use Rattle.posting_core.specs.Messages.{is_sign_off};
ghost use Rattle.posting_core.specs.Lawful.{IsLawful};
ghost use Rattle.station_core.specs.Runs.{run, ready};
ghost use Rattle.station_core.specs.Series.{held_count, series_at};
ghost use Rattle.station_core.specs.declared.Refusal.{Refusal};
ghost use Rattle.register_store.specs.Holdings.{Comes};
ghost use Rattle.hub_core.specs.Openings.{CountsFault, Opened, IsNotOpened, OpensAgain};
ghost use Rattle.hub_core.specs.Faults.{CountsStore};
ghost use Rattle.hub_core.specs.Points.{point, reply, reply_from, due_with, whereabouts};
ghost use Rattle.hub_core.specs.Points.{is_enclosed, cut, IsPlaced};

pub(crate) mod answer;
mod opening;
mod posting;
mod reposting;
mod session;

use crate::hub::opening::prepare;
use crate::hub::posting::post_due;
use crate::{Answer, Arrival, HubFault, Where};
use codes_core::{NoMemory, ThingCode};
use nest_core::{Setup, StationNo};
use posting_core::{Ledger, Message, PostedEntry};
use register_store::{Register, StoreFault};
use station_core::Sequences;
use std::alloc::Global;
use std::marker::Model;

/// The hub takes arrivals from all stations and holds back those that come early. It posts the
/// others in each station's order: each entry first in the register, then in the ledger.
pub struct Hub<R: Register> {
    sequences: Sequences<Message>,
    ledger: Ledger,
    register: R,
    down: bool,
}

impl<R: Register> Model for Hub<R> {
    ghost use Rattle.std.specs.Prelude.{◌≡◌, true, false, length};
    ghost use Rattle.posting_core.specs.Growing.{HasGrown};
    ghost use Rattle.hub_core.specs.StandsFor.{State, InStep, HasStore, HasSomeStore};

    ghost Value = { State R };

    ghost view = { λ h.
        record { sequences = h.sequences; book = h.ledger; register = h.register; down = h.down } };

    ghost invariant = { λ h. (h.down ≡ false → InStep h.sequences h.ledger.museum h.ledger.posted)
        × (R.is_bound h.register ≡ true)
        × (h.down ≡ false → HasStore (R.holding h.register) h.ledger)
        × (h.down ≡ true → HasSomeStore (R.holding h.register) h.ledger)
        × HasGrown h.ledger.museum.growths (length h.ledger.posted) };
}

/// Manual `Drop`: a derived one is inlined at every return and slows the proof.
impl<R: Register + Drop> Drop for Hub<R> {
    fn drop(self) {
        let Hub {
            sequences,
            ledger,
            register,
            down: _,
        } = self;
        drop(sequences);
        drop(ledger);
        drop(register);
    }
}

/// Why a hub could not be opened, with its register, which is handed back.
#[derive(Debug, Drop)]
pub struct OpenFault<R> {
    pub fault: StoreFault,
    pub register: R,
}

impl<R: Register> Hub<R> {
    ghost use Rattle.hub_core.specs.StandsFor.{State, StandsFor, Stopped};

    /// Opens a hub with this setup over the entries of the register. It binds the register, reads
    /// all its entries, judges them again in their order, and compares the register's rows of
    /// spots, loan lines and last days with the entries'.
    ///
    /// Faults, in this order:
    /// - those of [`Register::bind`] and then of [`Register::all`];
    /// - Damaged(0), if there are fewer entries than came before the newest growth of the setup;
    /// - Damaged(i), for the first entry, counted from 1, whose station, number or verdict isn't
    ///   the one that the rules give;
    /// - Damaged(0), if the rows aren't those of the entries.
    ///
    /// NoMemory and Store can come instead of any other result. After a fault the register's store
    /// is as it was, or bound. The setup is dropped.
    pub fn open(alloc: Global, setup: Setup, register: R) -> Result<Hub<R>, OpenFault<R>>
        // The hub stands for the list that the store had, and the store is bound now.
        ensures opened { IfOk result (λ hub. Opened R.holding setup register hub) }
        // After a fault the store is as it was, or bound.
        ensures refused { IfErr result
            (λ failed. Comes (R.holding register) (R.holding failed.register)
            (IsNotOpened setup failed.fault)) }
        ensures uncounted { IfOk result (λ hub. R.refusals hub.register ≡ R.refusals register) }
        ensures counted { IfErr result
            (λ failed. CountsFault (R.refusals register)
            (R.refusals failed.register) failed.fault) }
    {
        let mut register = register;
        match prepare(alloc, setup, &mut register) {
            Ok((sequences, ledger)) => Ok(Hub {
                sequences,
                ledger,
                register,
                down: false,
            }),
            Err(fault) => Err(OpenFault { fault, register }),
        }
    }

    /// Takes an arrival, and posts the messages that are then due. Faults: Down, exactly if the hub
    /// is down; NoMemory and Store, after which the hub is down. A message that is refused or held
    /// meets neither of these two (clause `answers`).
    #[inline(always)]
    pub fn arrive(&mut self, alloc: Global, arrival: Arrival) -> Result<Answer, HubFault>
        // For every list of arrivals that the hub stands for: the reply is that of looking back,
        // and the hub then stands for the list with this arrival added.
        ensures headline { IfOk result
            (λ answer. (O : List Entry) (A : List Arrival) → StandsFor R.holding self.old O A →
            (answer ≡ reply self.old.book.museum self.old.book.depth O A arrival)
            × StandsFor R.holding self.new O (A ++ arrival ∷ [])) }
        ensures up { OnOk result (self.new.down ≡ false) }
        ensures down { IsErrOf result HubFault.Down ↔ (self.old.down ≡ true) }
        ensures fault { OnErr result (self.new.down ≡ true) }
        ensures closed { self.old.down ≡ true → self.new ≡ self.old }
        // A fault stops the posting at one of the due messages. Those before it are posted, and the
        // store has that list, or that list with the one message.
        ensures after_fault { OnErr result
            ((O : List Entry) (A : List Arrival) → StandsFor R.holding self.old O A →
            Stopped (R.holding self.new.register) self.old.book.museum self.old.book.depth
            self.old.book.posted
            (due_with self.old.book.museum self.old.book.depth O A arrival) self.new.book.posted) }
        // A message that is refused or held meets no fault.
        ensures answers { OnErr result
            ((O : List Entry) (A : List Arrival) → StandsFor R.holding self.old O A →
            (first : ℕ) × (last : ℕ)
            × (reply self.old.book.museum self.old.book.depth O A arrival
            ≡ Answer.Posted first last)) }
        ensures refused { IfOk result
            (λ answer. (refusal : Refusal) → answer ≡ Answer.Refused refusal
            → self.new ≡ self.old) }
        ensures count { CountsStore (R.refusals self.old.register)
            (R.refusals self.new.register) result }
        ensures museum { self.new.book.museum ≡ self.old.book.museum }
        ensures depth { self.new.book.depth ≡ self.old.book.depth }
    {
        if self.down {
            return Err(HubFault::Down);
        }
        if let Some(refusal) = self.sequences.test(arrival.station, arrival.n) {
            return Ok(Answer::Refused(refusal));
        }
        let before = self.ledger.posted().len() as u64;
        let station = arrival.station;
        self.sequences.take(station, arrival.n, arrival.message);
        if let Err(fault) = post_due(
            alloc,
            &mut self.sequences,
            &mut self.ledger,
            &mut self.register,
            station,
        ) {
            self.down = true;
            return Err(fault);
        }
        Ok(answer_from(before, self.ledger.posted().len() as u64))
    }

    /// Returns where the thing with the code is. Faults: Down, exactly if the hub is down;
    /// NoMemory, only for a thing in a container.
    pub fn ask(&self, alloc: Global, code: &ThingCode) -> Result<Where, HubFault>
        ensures answer { IfOk result
            (λ place. place ≡ whereabouts self.now.book.museum self.now.book.posted code.now) }
        ensures placed { IfOk result (IsPlaced self.now.book.museum) }
        ensures down { IsErrOf result HubFault.Down ↔ (self.now.down ≡ true) }
        ensures never_store { IfErr result (λ fault. fault ≢ HubFault.Store) }
        ensures memory { IsErrOf result HubFault.NoMemory
            → is_enclosed (whereabouts self.now.book.museum self.now.book.posted code.now) ≡ true }
    {
        if self.is_down() {
            return Err(HubFault::Down);
        }
        Ok(whereabouts(alloc, &self.ledger, code)?)
    }

    /// Returns the posted entries, oldest first.
    pub fn posted(&self) -> &[PostedEntry]
        ensures list { reverse result.now ≡ self.now.book.posted }
        ensures lawful { IsLawful self.now.book.museum self.now.book.depth self.now.book.posted }
        // Whatever the hub stands for: the posted messages of each station are the longest unbroken
        // run of those it sent.
        ensures runs { (O : List Entry) (A : List Arrival) → StandsFor R.holding self.now O A
            → (s : ℕ) →
            cut s self.now.book.posted
            ≡ run is_sign_off (point self.now.book.museum self.now.book.depth O A).taken s }
    {
        self.ledger.is_lawful();
        self.ledger.posted()
    }

    /// Returns how many messages of the station are held: taken, but waiting for one with a lower
    /// number. 0 if there is no such station.
    pub fn held_count(&self, station: StationNo) -> usize
        ensures { result ≡ held_count (series_at self.now.sequences station) }
    {
        if station as usize >= self.sequences.len() {
            return 0;
        }
        self.sequences.held_count(station)
    }

    /// Returns the number that the station has to send next: one more than its last posted message.
    /// 1 if there is no such station.
    pub fn awaited(&self, station: StationNo) -> u64
        ensures count { result ≡ (series_at self.now.sequences station).posted + 1 }
        // Whatever the hub stands for: it is the first number after the unbroken run of those the
        // station sent.
        ensures next { (O : List Entry) (A : List Arrival) → StandsFor R.holding self.now O A
            → station < length self.now.book.museum.stations →
            result ≡ ready is_sign_off (point self.now.book.museum self.now.book.depth O A).taken
            station + 1 }
    {
        if station as usize >= self.sequences.len() {
            return 1;
        }
        self.sequences.posted_count(station) as u64 + 1
    }

    /// Returns the ledger.
    pub fn ledger(&self) -> &Ledger
        ensures { result.now ≡ self.now.book }
    {
        &self.ledger
    }

    /// Returns whether the hub has met a fault. Then [`Hub::arrive`] and [`Hub::ask`] return Down.
    pub fn is_down(&self) -> bool
        ensures { result ≡ self.now.down }
    {
        self.down
    }

    /// Ends the hub, and returns its ledger and its register, which is bound, as they are.
    pub fn into_parts(self) -> (Ledger, R)
        ensures ledger { result.0 ≡ self.book }
        ensures register { result.1 ≡ self.register }
        ensures bound { R.is_bound result.1 ≡ true }
    {
        let Hub {
            sequences,
            ledger,
            register,
            down: _,
        } = self;
        drop(sequences);
        (ledger, register)
    }

    /// Ends the hub, and returns its register as it is. The register can be opened again with the
    /// hub's setup, even after a fault: if its store is quiet, only NoMemory or Store can prevent
    /// that.
    pub fn close(self) -> R
        ensures same { result ≡ self.register }
        ensures opens_again { OpensAgain (R.holding result) self.book.museum }
    {
        self.ledger.is_lawful();
        let Hub {
            sequences,
            ledger,
            register,
            down: _,
        } = self;
        drop(sequences);
        drop(ledger);
        register
    }
}

/// The answer to an arrival that was taken, by the numbers of entries posted before it and now.
fn answer_from(before: u64, now: u64) -> Answer
    requires { before < u64.MAX }
    ensures { result ≡ reply_from None before now }
{
    if before == now {
        return Answer::Held;
    }
    Answer::Posted {
        first: before + 1,
        last: now,
    }
}

/// Where the thing with the code is, in this ledger.
fn whereabouts(alloc: Global, ledger: &Ledger, code: &ThingCode) -> Result<Where, NoMemory>
    ensures answer { IfOk result
        (λ place. place ≡ whereabouts ledger.now.museum ledger.now.posted code.now) }
    ensures placed { IfOk result (IsPlaced ledger.now.museum) }
    ensures memory { OnErr result
        (is_enclosed (whereabouts ledger.now.museum ledger.now.posted code.now) ≡ true) }
{
    let Some(thing) = ledger.setup().thing(code) else {
        return Ok(Where::UnknownThing);
    };
    let Some(place) = ledger.place_of(thing) else {
        return Ok(Where::Unplaced);
    };
    let chain = ledger.chain(alloc, thing)?;
    Ok(Where::At { place, chain })
}
