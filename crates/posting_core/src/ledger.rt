//! The ledger: the posted entries, and the answers from looking back through them.
ghost use Rattle.std.specs.Prelude.{◌≡◌, ◌<◌, ◌≤◌, ◌∷◌, [], length, reverse, All, IfOk, OnOk};
ghost use Rattle.std.specs.Prelude.{OnErr, IfSome, ℕ, Some, is_some, true};
ghost use Rattle.std.specs.Option.{option_map};
ghost use Rattle.nest_core.specs.Museum.{find_thing, find_place, find_thing_at, find_place_at};
ghost use Rattle.posting_core.specs.Lawful.{Follows, IsLawful, count_at, is_signed_off};
ghost use Rattle.posting_core.specs.Messages.{place_no};
ghost use Rattle.posting_core.specs.History.{put_by, carried_at, carried_with, holds_at};
ghost use Rattle.posting_core.specs.Agreements.{agreement, loan_no, loan_by};
ghost use Rattle.posting_core.specs.Agreements.{is_agreed, is_authorised, last_day};
ghost use Rattle.posting_core.specs.Loans.{line, loan_state};
ghost use Rattle.posting_core.specs.LoanRows.{line_of, state_of};
ghost use Rattle.posting_core.specs.Book.{place_in, chain_in, spots_in, verdict_in, changes_of};
ghost use Rattle.posting_core.specs.Book.{asks_lines, asks_memory};

mod crossings;
mod judged;
mod loan_answers;
mod loan_rules;
mod planning;
mod rules;

use self::judged::{Judged, unput};
use crate::kept_loan::KeptLoan;
use crate::kept_loans::KeptLoans;
use crate::placement::place;
use crate::recording::{note_agreement, record};
use crate::spot_rows::SpotRows;
use crate::standing::{Standing, count_entry, new_standings};
use crate::{
    Changes, Entry, EntryNo, LAST_NUMBER, MOST_ENTRIES, Message, PostedEntry, Spots, Verdict,
};
use codes_core::{LoanCode, NoMemory, PlaceCode, ThingCode};
use nest_core::{Nest, PlaceNo, Setup, StationNo, ThingNo, ThingNos};
use std::alloc::Global;
use std::marker::Model;

/// The entries posted over a setup. A depth limit says how many containers may be above a thing.
/// Each answer is that of looking back through the entries.
///
/// Contracts see a ledger as its `Book`: the setup, the depth limit and the entries, the newest
/// first.
pub struct Ledger {
    setup: Setup,
    posted: Vec<PostedEntry>,
    nest: Nest,
    spots: SpotRows,
    loans: KeptLoans,
    agreed: Vec<EntryNo>,
    standings: Vec<Standing>,
}

impl Model for Ledger {
    ghost use Rattle.std.specs.Prelude.{reverse};
    ghost use Rattle.posting_core.specs.Book.{Book};
    ghost use Rattle.posting_core.specs.Rows.{IsKept};

    ghost Value = { Book };

    ghost view = { λ a.
        record { museum = a.setup; depth = a.nest.depth; posted = reverse a.posted.items } };

    ghost invariant = { λ a.
        IsKept a.setup (reverse a.posted.items) a.nest a.spots.rows a.loans a.agreed.items
        a.standings.items };
}

/// Manual `Drop`: a derived one is inlined at every return and slows the proof.
impl Drop for Ledger {
    fn drop(self) {
        let Ledger {
            setup,
            posted,
            nest,
            spots,
            loans,
            agreed,
            standings,
        } = self;
        drop(setup);
        drop(posted);
        drop(nest);
        drop(spots);
        drop(loans);
        drop(agreed);
        drop(standings);
    }
}

impl Ledger {
    /// Makes a ledger with nothing posted. No thing may have more than `depth` containers above it.
    /// Fails with `NoMemory`, and then the setup is dropped.
    pub fn new(alloc: Global, setup: Setup, depth: u32) -> Result<Ledger, NoMemory>
        ensures { IfOk result
            (λ ledger. ledger ≡ record { museum = setup; depth = depth; posted = [] }) }
    {
        let nest = Nest::new(alloc, &setup, depth)?;
        let spots = SpotRows::new(alloc, setup.things())?;
        let standings = new_standings(alloc, setup.stations())?;
        Ok(Ledger {
            setup,
            posted: Vec::new(alloc),
            nest,
            spots,
            loans: KeptLoans::new(alloc),
            agreed: Vec::new(alloc),
            standings,
        })
    }

    /// The setup.
    pub fn setup(&self) -> &Setup
        ensures { result.now ≡ self.now.museum }
    {
        &self.setup
    }

    /// The depth limit: how many containers may be above a thing.
    pub fn depth(&self) -> u32
        ensures { result ≡ self.now.depth }
    {
        self.nest.depth()
    }

    /// The posted entries, oldest first: entry 1 is at index 0. Refused messages are among them.
    pub fn posted(&self) -> &[PostedEntry]
        ensures { reverse result.now ≡ self.now.posted }
    {
        &self.posted
    }

    /// The number of posted entries, at most [`MOST_ENTRIES`]. It is also the number of the last
    /// entry.
    pub fn entry_count(&self) -> EntryNo
        ensures count { result ≡ length self.now.posted }
        ensures few { result ≤ MOST_ENTRIES }
    {
        self.setup.is_museum();
        self.posted().len() as EntryNo
    }

    /// The number of a station's entries, which is also that of its last message. The station must
    /// be in the setup.
    pub fn number_of(&self, station: StationNo) -> u32
        requires { station < length self.now.museum.stations }
        ensures count { result ≡ count_at station self.now.posted }
        ensures few { result ≤ LAST_NUMBER }
    {
        self.standings[station as usize].count
    }

    /// Whether a station's sign-off is posted. The station must be in the setup.
    pub fn has_signed_off(&self, station: StationNo) -> bool
        requires { station < length self.now.museum.stations }
        ensures { result ≡ is_signed_off station self.now.posted }
    {
        self.standings[station as usize].signed_off
    }

    /// The law of every posted list, for proofs: each entry may follow those before it. The
    /// function does nothing.
    pub fn is_lawful(&self)
        ensures { IsLawful self.now.museum self.now.depth self.now.posted }
    {
        let _ = &self.posted;
    }

    /// A thing's current location, through all its containers, or `None` if it was never placed.
    /// The thing must be in the setup.
    pub fn place_of(&self, thing: ThingNo) -> Option<PlaceNo>
        requires { thing < length self.now.museum.things }
        ensures place { result ≡ place_in self.now thing }
        ensures within { IfSome result (λ p. p < length self.now.museum.places) }
    {
        self.nest.place_of(thing)
    }

    /// The containers above a thing, innermost first, no more than the depth limit. Fails with
    /// `NoMemory`, but only if there is one. The thing must be in the setup.
    pub fn chain(&self, alloc: Global, thing: ThingNo) -> Result<ThingNos, NoMemory>
        requires { thing < length self.now.museum.things }
        ensures chain { IfOk result (λ chain. chain ≡ chain_in self.now thing) }
        ensures within { IfOk result (All (λ c. c < length self.now.museum.things)) }
        ensures short { IfOk result (λ chain. length chain ≤ self.now.depth) }
        ensures err { OnErr result (0 < length (chain_in self.now thing)) }
    {
        self.nest.chain(alloc, thing)
    }

    /// A thing and everything in it, in ascending order. Fails with `NoMemory`, but only if
    /// something is in it. The thing must be in the setup.
    pub fn carried(&self, alloc: Global, thing: ThingNo) -> Result<ThingNos, NoMemory>
        requires { thing < length self.now.museum.things }
        ensures carried { IfOk result
            (λ carried. carried ≡ carried_at self.now.museum self.now.posted thing) }
        ensures within { IfOk result (All (λ y. y < length self.now.museum.things)) }
        ensures gives_up { OnErr result
            (holds_at self.now.museum self.now.posted thing ≡ true) }
    {
        self.nest.carried(alloc, thing)
    }

    /// A thing's spots, oldest first. The last is its current location; the others are its former
    /// ones. The thing must be in the setup.
    pub fn spots(&self, thing: ThingNo) -> Spots<'_>
        requires { thing < length self.now.museum.things }
        ensures spots { result ≡ spots_in self.now thing }
        ensures within { All (λ s. s.place < length self.now.museum.places) result }
        ensures few { length result ≤ MOST_ENTRIES }
    {
        self.setup.is_museum();
        self.spots.of(thing)
    }

    /// Returns the verdict that the message would get if it were posted now. Fails with `NoMemory`,
    /// but only if a thing with something in it crosses under a loan, and the verdict depends on
    /// the loan lines of the objects that cross.
    pub fn judge(&self, alloc: Global, message: &Message) -> Result<Verdict, NoMemory>
        ensures ok { IfOk result (λ verdict. verdict ≡ verdict_in self.now message.now) }
        ensures err { OnErr result (asks_lines self.now message.now ≡ true) }
    {
        Ok(self.judged(alloc, message)?.verdict)
    }

    /// Returns the changes that posting the message now would make. Fails with `NoMemory`, but only
    /// if [`judge`](Self::judge) can, or if the message is applied and either makes or changes loan
    /// lines or puts a thing that has something in it.
    pub fn plan(&self, alloc: Global, message: &Message) -> Result<Changes, NoMemory>
        ensures ok { IfOk result (λ changes. changes ≡ changes_of self.now message.now) }
        ensures err { OnErr result (asks_memory self.now message.now ≡ true) }
    {
        let Judged {
            verdict,
            put,
            carried,
            loan,
        } = self.judged(alloc, message)?;
        let entry = self.entry_count() + 1;
        let carried = self.carried_with(alloc, put, carried)?;
        let spots = self.spots_under(alloc, message, put, carried.as_slice(), entry)?;
        let lines = self.lines_under(alloc, message, verdict, carried.as_slice())?;
        Ok(Changes {
            entry,
            verdict,
            put,
            carried,
            spots,
            loan,
            lines,
        })
    }

    /// Posts an entry with its changes, which must be those that [`plan`](Self::plan) returns for
    /// the entry's message. The entry's station must be in the setup and not have signed off. Its
    /// number must be the station's next, and at most [`LAST_NUMBER`]. Its verdict must be that of
    /// [`judge`](Self::judge).
    ///
    /// Fails with `NoMemory`, and then the ledger is unchanged.
    pub fn apply(&mut self, alloc: Global, entry: &Entry, changes: &Changes) -> Result<(), NoMemory>
        requires follows { Follows self.old.museum self.old.depth self.old.posted entry.now }
        requires planned { changes.now ≡ changes_of self.old entry.now.message }
        ensures ok { OnOk result
            (self.new ≡ record self.old { posted = entry.now ∷ self.old.posted }) }
        ensures err { OnErr result (self.new ≡ self.old) }
    {
        let carried = changes.carried.as_slice();
        let spots = changes.spots.as_slice();
        let lines = changes.lines.as_slice();
        self.spots.reserve(spots.len())?;
        self.posted.reserve(1)?;
        self.agreed.reserve(1)?;
        let posted = PostedEntry::new(alloc, entry)?;
        place(&mut self.nest, changes.put, carried)?;
        record(
            alloc,
            &mut self.loans,
            &self.setup,
            entry.verdict,
            &entry.message,
            changes.loan,
            lines,
        )?;
        self.spots.push_all(spots);
        note_agreement(&mut self.agreed, entry, changes.entry);
        count_entry(&mut self.standings, entry);
        self.posted.push_reserved(posted);
        Ok(())
    }
}

impl Ledger {
    /// Judges a message as `judge` does, and also returns where the message puts its thing, the
    /// things that it carries if they were already gathered, and the number of the loan that the
    /// message continues.
    fn judged(&self, alloc: Global, message: &Message) -> Result<Judged, NoMemory>
        ensures verdict { IfOk result (λ judged. judged.verdict ≡ verdict_in self.now message.now) }
        ensures put { IfOk result (λ judged. judged.put
            ≡ put_by self.now.museum self.now.posted judged.verdict message.now) }
        ensures carried { IfOk result (λ judged. IfSome judged.carried
            (λ carried. carried ≡ carried_with self.now.museum self.now.posted judged.put)) }
        ensures loan { IfOk result
            (λ judged. judged.loan ≡ loan_by self.now.posted judged.verdict message.now) }
        ensures err { OnErr result (asks_lines self.now message.now ≡ true) }
    {
        match message {
            Message::Move { thing, place, .. } => Ok(self.judge_move(thing, place)),
            Message::Pack {
                thing,
                container,
                ..
            } => Ok(self.judge_pack(thing, container)),
            Message::Exit { day, thing, loan } => self.judge_exit(alloc, thing, loan, *day),
            Message::Return {
                thing,
                loan,
                place,
                ..
            } => self.judge_return(alloc, thing, loan, place),
            Message::Receive {
                day,
                thing,
                loan,
                place,
            } => self.judge_receive(alloc, thing, loan, place, *day),
            Message::Agree {
                first,
                last,
                loan,
                partner,
                objects,
            } => Ok(unput(self.judge_agree(loan, partner, objects.as_slice(), *first, *last))),
            Message::Authorise { loan, .. } => Ok(self.judge_authorise(loan)),
            Message::SignOff { .. } => Ok(unput(Verdict::Applied)),
            Message::Extend { last, loan } => Ok(self.judge_extend(loan, *last)),
        }
    }

    /// The number of a thing, or `None` if the setup doesn't list it yet.
    pub(crate) fn thing(&self, code: &ThingCode) -> Option<ThingNo>
        ensures found { result
            ≡ find_thing_at self.now.museum (length self.now.posted) code.now }
        ensures listed { IfSome result (λ x. find_thing self.now.museum code.now ≡ Some x) }
        ensures within { IfSome result (λ x. x < length self.now.museum.things) }
    {
        self.setup.thing_at(code, self.entry_count())
    }

    /// The number of a place, or `None` if the setup doesn't list it yet.
    pub(crate) fn place(&self, code: &PlaceCode) -> Option<PlaceNo>
        ensures found { result
            ≡ find_place_at self.now.museum (length self.now.posted) code.now }
        ensures listed { IfSome result (λ p. find_place self.now.museum code.now ≡ Some p) }
        ensures within { IfSome result (λ p. p < length self.now.museum.places) }
    {
        self.setup.place_at(code, self.entry_count())
    }

    /// An agreed loan and its number. `None` if the loan isn't agreed.
    pub(crate) fn loan(&self, loan: &LoanCode) -> Option<(usize, &KeptLoan)>
        ensures number { option_map (λ found. found.0) result ≡ loan_no self.now.posted loan.now }
        ensures agreed { is_some result ≡ is_agreed self.now.posted loan.now }
        ensures authorised { IfSome result
            (λ found. found.1.now.authorised ≡ is_authorised self.now.posted loan.now) }
        ensures last { IfSome result
            (λ found. last_day self.now.posted loan.now ≡ Some found.1.now.last) }
        ensures partner { IfSome result
            (λ found. option_map (λ t. place_no self.now.museum t.partner)
            (agreement self.now.posted loan.now) ≡ Some found.1.now.partner) }
        ensures lines { IfSome result
            (λ found. (o : ℕ) → line_of found.1.now o
            ≡ line self.now.museum self.now.posted loan.now o) }
        ensures state { IfSome result
            (λ found. loan_state self.now.museum self.now.posted loan.now
            ≡ Some (state_of found.1.now)) }
    {
        self.loans.get(loan)
    }
}
