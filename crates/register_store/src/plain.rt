//! A register in memory.
ghost use Rattle.std.specs.Prelude.{◌≡◌, ◌≢◌, ◌&&◌, ◌∷◌, ◌++◌, [], ℕ, true, false, map, reverse};
ghost use Rattle.std.specs.Prelude.{All, MatchOption, IfOk, IfErr, OnOk, OnErr, string_bytes};
ghost use Rattle.std.specs.Bool.{Decides};
ghost use Rattle.std.specs.List.Sorted.{IsPermutation, IsNonDecreasingBy};
ghost use Rattle.register_store.specs.StoredRows.{ArePostings};
ghost use Rattle.register_store.specs.Plain.{kept_row};
ghost use Rattle.register_store.specs.Registers.{IsOfStation, IsWrongAt};

use crate::kept_entry::KeptEntry;
use crate::ledger_rows::{lines_of, row_texts, spot_rows, terms_of};
use crate::loan_rows::{LineKey, put_lines, put_term};
use crate::rows::is_same;
use crate::same_rows::{has_all, has_rows};
use crate::{Register, StoreFault};
use codes_core::{Day, LoanCode, NoMemory};
use indexmap::IndexMap;
use nest_core::Setup;
use posting_core::{Changes, Entry, Ledger, LineStage, NewSpot};
use std::alloc::Global;
use std::marker::Model;

/// The depth limit of a new store: how many containers may be above a thing.
pub const NEW_DEPTH: u32 = 12;

/// A register that keeps its rows in memory, and loses them when it is dropped. It never returns
/// `Store` or `OtherVersion`.
pub struct PlainRegister {
    /// The texts of the setup's rows, once a setup is bound.
    setup: Option<Vec<String>>,
    postings: Vec<KeptEntry>,
    spots: Vec<NewSpot>,
    lines: IndexMap<LineKey, LineStage>,
    terms: IndexMap<LoanCode, Day>,
    bound: bool,
    stations: u32,
}

impl Model for PlainRegister {
    ghost use Rattle.std.specs.Prelude.{map, reverse};
    ghost use Rattle.register_store.specs.Plain.{Kept, texts_of, meta_of, kept_row, held_lines};
    ghost use Rattle.register_store.specs.Plain.{term_rows};
    ghost use Rattle.register_store.specs.StoredRows.{numbered, spot_row, line_row};

    ghost Value = { Kept };

    ghost view = { λ r. record {
      content = record {
        setup = numbered (reverse (texts_of r.setup));
        meta = meta_of r.setup;
        postings = map kept_row (reverse r.postings.items);
        spots = map spot_row (reverse r.spots.items);
        lines = map line_row (held_lines r.lines.entries);
        terms = term_rows r.terms.entries;
      };
      bound = r.bound;
      stations = r.stations;
    } };
}

/// Manual `Drop`: a derived one is inlined at every return and slows the proof.
impl Drop for PlainRegister {
    fn drop(self) {
        let PlainRegister {
            setup,
            postings,
            spots,
            lines,
            terms,
            bound: _,
            stations: _,
        } = self;
        drop(setup);
        drop(postings);
        drop(spots);
        drop(lines);
        drop(terms);
    }
}

impl PlainRegister {
    ghost use Rattle.register_store.specs.Plain.{Kept};

    /// Makes a new register with nothing in it and no setup bound. Takes no memory.
    pub fn new(alloc: Global) -> PlainRegister
        ensures { result
            ≡ record {
              content = record
                  { setup = []; meta = []; postings = []; spots = []; lines = []; terms = [] };
              bound =
                  false;
              stations = 0;
            } }
    {
        PlainRegister {
            setup: None,
            postings: Vec::new(alloc),
            spots: Vec::new(alloc),
            lines: IndexMap::new(alloc),
            terms: IndexMap::new(alloc),
            bound: false,
            stations: 0,
        }
    }
}

impl Register for PlainRegister {
    ghost use Rattle.std.specs.Prelude.{false};
    ghost use Rattle.register_store.specs.Plain.{in_memory};

    ghost holding = { in_memory };

    ghost is_bound = { λ r. r.bound };

    ghost stations = { λ r. r.stations };

    ghost refusals = { λ r. 0 };

    ghost is_stopped = { λ r. false };

    ghost can_refuse = { false };

    fn bind(&mut self, alloc: Global, setup: &Setup) -> Result<u32, StoreFault> {
        let texts = row_texts(alloc, setup)?;
        if !fits(&self.setup, &texts) {
            return Err(StoreFault::OtherSetup);
        }
        self.setup = Some(texts);
        self.bound = true;
        self.stations = setup.stations();
        Ok(NEW_DEPTH)
    }

    fn all(&mut self, alloc: Global) -> Result<Vec<Entry>, StoreFault> {
        sort_rows(&mut self.postings);
        entries_of(alloc, &self.postings, self.stations)
    }

    fn post(&mut self, alloc: Global, entry: &Entry, changes: &Changes) -> Result<(), StoreFault> {
        let kept = KeptEntry::new(alloc, changes.entry, entry)?;
        let lines = changes.lines.as_slice();
        self.lines.reserve(lines.len())?;
        self.terms.reserve(1)?;
        let spots = changes.spots.as_slice();
        add_posting(&mut self.postings, &mut self.spots, kept, spots)?;
        put_lines(&mut self.lines, lines);
        put_term(&mut self.terms, entry);
        Ok(())
    }

    fn agrees(&mut self, alloc: Global, ledger: &Ledger) -> Result<bool, StoreFault> {
        let spots = spot_rows(alloc, ledger)?;
        let lines = lines_of(alloc, ledger)?;
        let terms = terms_of(alloc, ledger)?;
        ledger.is_lawful();
        let same_spots = has_rows(&mut self.spots, &spots);
        let same_lines = has_all(&self.lines, &lines);
        let same_terms = has_all(&self.terms, &terms);
        Ok(are_all(same_spots, same_lines, same_terms))
    }
}

/// Adds an entry and its spots. Fails with `NoMemory`, and then nothing is added.
fn add_posting(
    postings: &mut Vec<KeptEntry>,
    spots: &mut Vec<NewSpot>,
    kept: KeptEntry,
    more: &[NewSpot],
) -> Result<(), NoMemory>
    ensures posting { OnOk result (postings.new.items ≡ postings.old.items ++ kept ∷ []) }
    ensures spots { OnOk result (spots.new.items ≡ spots.old.items ++ more.now) }
    ensures failed { OnErr result
        ((postings.new.items ≡ postings.old.items) × (spots.new.items ≡ spots.old.items)) }
{
    postings.reserve(1)?;
    spots.extend_from_slice(more)?;
    postings.push_reserved(kept);
    Ok(())
}

/// Whether all three are the same.
fn are_all(spots: bool, lines: bool, terms: bool) -> bool
    ensures { result ≡ (spots && (lines && terms)) }
{
    spots && lines && terms
}

/// Whether the kept texts are these. True if none are kept yet.
fn fits(kept: &Option<Vec<String>>, texts: &[String]) -> bool
    ensures { MatchOption kept.now (result ≡ true)
        (λ old. Decides result (map string_bytes old.items ≡ map string_bytes texts.now)) }
{
    match kept {
        Some(old) => are_same(old, texts),
        None => true,
    }
}

/// Whether the texts are the same, in the same order.
fn are_same(a: &[String], b: &[String]) -> bool
    ensures { Decides result (map string_bytes a.now ≡ map string_bytes b.now) }
{
    if a.len() != b.len() {
        return false;
    }
    for i in 0..a.len() {
        if !is_same(&a[i], &b[i]) {
            return false;
        }
    }
    true
}

/// Sorts the rows by their numbers.
fn sort_rows(rows: &mut Vec<KeptEntry>)
    ensures same { IsPermutation rows.old.items rows.new.items }
    ensures order { IsNonDecreasingBy (λ row. row.id) rows.new.items }
{
    rows.sort_unstable_by_key(|row| row.id);
}

/// Returns the entries of these rows, oldest first. Fails with `Damaged` at the first row that
/// isn't the next entry of these stations, or with `NoMemory`.
fn entries_of(alloc: Global, rows: &[KeptEntry], stations: u32) -> Result<Vec<Entry>, StoreFault>
    ensures kept { IfOk result
        (λ entries. ArePostings (reverse entries.items) (map kept_row (reverse rows.now))) }
    ensures stationed { IfOk result (λ entries. All (IsOfStation stations) entries.items) }
    ensures faults { IfErr result
        (λ fault. fault ≢ StoreFault.NoMemory
        → (at : ℕ) × (fault ≡ StoreFault.Damaged at)
        × IsWrongAt stations at (map kept_row rows.now)) }
{
    let mut entries = Vec::new(alloc);
    for i in 0..rows.len() {
        match rows[i].listed(alloc, i as u64 + 1, stations) {
            Ok(entry) => entries.push(entry)?,
            Err(fault) => return Err(fault),
        }
    }
    Ok(entries)
}
