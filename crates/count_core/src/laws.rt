//! Laws about counts and reports. Each is stated on a function that does nothing.
ghost use Rattle.std.specs.Prelude.{◌≡◌, ◌≢◌, ◌<◌, ◌⊎◌, ℕ, ℤ, List, [], Contains, length, true};
ghost use Rattle.std.specs.Prelude.{Some};
ghost use Rattle.codes_core.specs.Place.{lies_in};
ghost use Rattle.nest_core.specs.Museum.{is_own, normal_of, place_code_of};
ghost use Rattle.posting_core.specs.Book.{Book, place_in};
ghost use Rattle.count_core.specs.declared.answer.CountAnswer.TheVariants.{Found};
ghost use Rattle.count_core.specs.declared.answer.MissingObject.{MissingObject};
ghost use Rattle.count_core.specs.declared.count_row.CountRow.{CountRow};
ghost use Rattle.count_core.specs.Accounts.{IsOverdue, CountsAll, named_by_row, answer_of_row};
ghost use Rattle.count_core.specs.Counts.{answers, missing, named};
ghost use Rattle.count_core.specs.Reports.{away, away_object, in_place, overdue};

/// A loan is overdue exactly if its last day has passed and one of its objects is still owed.
pub fn overdue_is_owed_too_long()
    ensures told { (B : Book) (day : ℤ) (loan : List ℕ) → Contains (overdue B day) loan
        → IsOverdue B day loan }
    ensures all { (B : Book) (day : ℤ) (loan : List ℕ) → IsOverdue B day loan
        → Contains (overdue B day) loan }
{}

/// An own object is away exactly if its current place isn't its normal one. No other thing is away.
pub fn away_is_not_at_the_normal_place()
    ensures own { (B : Book) (x : ℕ) → Contains (away B) (away_object B x)
        → is_own B.museum x ≡ true }
    ensures told { (B : Book) (x : ℕ) → Contains (away B) (away_object B x)
        → place_in B x ≢ normal_of B.museum x }
    ensures all { (B : Book) (x : ℕ) → is_own B.museum x ≡ true
        → place_in B x ≢ normal_of B.museum x
        → Contains (away B) (away_object B x) }
{}

/// A thing in a place is in every place that this one lies in.
pub fn places_hold_what_lies_in_them()
    ensures { (B : Book) (inner outer : List ℕ) (x : ℕ) → lies_in inner outer ≡ true
        → Contains (in_place B inner) x → Contains (in_place B outer) x }
{}

/// Each thing with a place is in that place, and at one place only: of two places that it is in,
/// one lies in the other.
pub fn things_are_at_one_place()
    ensures somewhere { (B : Book) (x p : ℕ) (code : List ℕ) → x < length B.museum.things
        → place_in B x ≡ Some p → place_code_of B.museum p ≡ Some code
        → Contains (in_place B code) x }
    ensures once { (B : Book) (x : ℕ) (one other : List ℕ)
        → Contains (in_place B one) x → Contains (in_place B other) x
        → (lies_in one other ≡ true) ⊎ (lies_in other one ≡ true) }
{}

/// Each row of a count list has one answer, and only the first row that names a thing can have
/// Found.
pub fn rows_are_answered_once()
    ensures each { (B : Book) (rows : List CountRow) → length (answers B rows) ≡ length rows }
    ensures found_once { (B : Book) (rows : List CountRow) (i j x : ℕ) → i < j
        → named_by_row B rows i ≡ Some x → named_by_row B rows j ≡ Some x
        → answer_of_row B rows j ≢ Some Found }
{}

/// No row of the list names a missing object. If the rows name all that is in their places, nothing
/// is missing.
pub fn missing_is_what_no_row_names()
    ensures unnamed { (B : Book) (rows : List CountRow) (m : MissingObject) (r : CountRow)
        → Contains (missing B rows) m → Contains rows r → named B.museum r ≢ Some m.object }
    ensures whole { (B : Book) (rows : List CountRow) → CountsAll B rows → missing B rows ≡ [] }
{}
