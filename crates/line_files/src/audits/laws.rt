//! Laws of an audit. Each is stated on a function that does nothing.
ghost use Rattle.std.specs.Prelude.{ℕ, ℤ, ◌≡◌, List, Contains, Some, slice_get};
ghost use Rattle.posting_core.specs.declared.message.Message.{Message};
ghost use Rattle.posting_core.specs.Book.{Book};
ghost use Rattle.count_core.specs.declared.answer.CountAnswer.{CountAnswer};
ghost use Rattle.count_core.specs.declared.count_row.CountRow.{CountRow};
ghost use Rattle.count_core.specs.Counts.{answers};
ghost use Rattle.line_files.specs.AuditLines.{moves};
ghost use Rattle.line_files.specs.SeenMoves.{IsAccountedFor, IsSeenMove};

/// Each message of an audit moves a thing that a row found elsewhere to the row's place, and each
/// thing that was found elsewhere and lies in no container has a message.
pub fn moves_are_what_was_seen()
    ensures seen { (B : Book) (day : ℤ) (rows : List CountRow) (m : Message)
        → Contains (moves B day rows) m → IsSeenMove B day rows m }
    ensures all { (B : Book) (day : ℤ) (rows : List CountRow) (m : Message)
        → IsSeenMove B day rows m → Contains (moves B day rows) m }
{}

/// No row of the list is lost: it agrees with the record, or its thing is among those that were
/// seen elsewhere, or it has a note.
pub fn each_row_is_accounted_for()
    ensures { (B : Book) (rows : List CountRow) (i : ℕ) (row : CountRow) (answer : CountAnswer)
        → slice_get rows i ≡ Some row → slice_get (answers B rows) i ≡ Some answer
        → IsAccountedFor B rows row answer }
{}
