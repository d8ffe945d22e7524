//! Laws of the line that fills a gap. The function does nothing: its contract is the laws.
ghost use Rattle.std.specs.Prelude.{◌≡◌, ◌∷◌, ℕ, List, IsTrue, not};
ghost use Rattle.posting_core.specs.declared.entry.Entry.{Entry};
ghost use Rattle.posting_core.specs.declared.verdict.Verdict.TheVariants.{UnknownLoan};
ghost use Rattle.posting_core.specs.Accountability.{AnswerAlike};
ghost use Rattle.posting_core.specs.Agreements.{is_agreed};
ghost use Rattle.posting_core.specs.Book.{Book, verdict_in};
ghost use Rattle.line_files.specs.Gaps.{gap_loan, gap_message};

use posting_core::laws::refused_changes_no_answer;

/// In every record without loan LO0000.1, the message of a gap is refused as UnknownLoan, and
/// posting it changes no answer.
pub fn gaps_change_nothing()
    ensures refused { (B : Book) (by : List ℕ) → IsTrue (not (is_agreed B.posted gap_loan))
        → verdict_in B (gap_message by) ≡ UnknownLoan }
    ensures unchanged { (B : Book) (e : Entry) (by : List ℕ)
        → IsTrue (not (is_agreed B.posted gap_loan)) → e.message ≡ gap_message by
        → e.verdict ≡ verdict_in B e.message
        → AnswerAlike (record B { posted = e ∷ B.posted }) B }
{
    refused_changes_no_answer();
}
