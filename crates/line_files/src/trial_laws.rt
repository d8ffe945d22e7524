//! Laws of trials. The functions do nothing: their contracts are the laws.
ghost use Rattle.std.specs.Prelude.{◌≡◌, ◌<◌, ◌++◌, ◌∷◌, ℕ, [], IsTrue, List, length, map, reverse};
ghost use Rattle.std.specs.List.{list_all};
ghost use Rattle.std.specs.Option.{option_to_list};
ghost use Rattle.posting_core.specs.declared.entry.Entry.{Entry};
ghost use Rattle.posting_core.specs.Book.{Book};
ghost use Rattle.posting_core.specs.Onward.{GoesOn, later};
ghost use Rattle.posting_core.specs.VerdictNames.{is_applied};
ghost use Rattle.table_core.specs.declared.row.TableLine.{TableLine};
ghost use Rattle.line_files.specs.Notes.{notes, row_note};
ghost use Rattle.line_files.specs.Trials.{after_lines, after_message};

use posting_core::Ledger;

/// Each row is judged over the record after the rows before it: its note is on that record, and the
/// rows after it go on from there.
pub fn each_row_follows_those_before()
    ensures posted { (B : Book) (s : ℕ) (before after : List TableLine) (line : TableLine)
        → after_lines B s (before ++ line ∷ after)
        ≡ after_lines (after_message (after_lines B s before) s line.message) s after }
    ensures notes { (B : Book) (s : ℕ) (before after : List TableLine) (line : TableLine)
        → notes B s (before ++ line ∷ after)
        ≡ notes B s before ++ (option_to_list (row_note (after_lines B s before) s line)
        ++ notes (after_message (after_lines B s before) s line.message) s after) }
{}

/// A trial only posts entries, and only those that the rules allow.
pub fn trials_only_post(ledger: &Ledger)
    ensures { (s : ℕ) (lines : List TableLine) → s < length ledger.now.museum.stations
        → (L : List Entry) × (after_lines ledger.now s lines ≡ later ledger.now L)
        × GoesOn ledger.now L }
{
    ledger.is_lawful();
}

/// If a trial has no notes, each message is posted, and all are Applied.
pub fn without_notes_all_are_applied()
    ensures { (B : Book) (s : ℕ) (lines : List TableLine) → notes B s lines ≡ []
        → (L : List Entry) × (after_lines B s lines ≡ later B (reverse L))
        × (map (λ e. e.message) L ≡ map (λ line. line.message) lines)
        × IsTrue (list_all (λ e. is_applied e.verdict) L) }
{}
