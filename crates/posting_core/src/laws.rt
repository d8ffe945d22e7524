//! Laws of a ledger's entries. The functions do nothing: their contracts are the laws.
ghost use Rattle.std.specs.Prelude.{◌≡◌, ◌≢◌, ◌⊎◌, ◌↔◌, ◌<◌, ◌∷◌, ◌++◌, ℕ, List, [], length, None};
ghost use Rattle.std.specs.Prelude.{Some, true, false, IfSome, All, is_some};
ghost use Rattle.std.specs.List.{last_or, AllAdjacentBelow};
ghost use Rattle.std.specs.Option.{option_map, option_map_or};
ghost use Rattle.nest_core.specs.Museum.{Museum, find_thing, is_own, is_borrowed, is_container};
ghost use Rattle.nest_core.specs.Museum.{listed_now, NeverFell};
ghost use Rattle.nest_core.specs.SetupGrowing.{Extends, grown};
ghost use Rattle.nest_core.specs.Puts.{last};
ghost use Rattle.posting_core.specs.declared.stage.LoanState.TheVariants.{Closed};
ghost use Rattle.posting_core.specs.declared.entry.Entry.{Entry};
ghost use Rattle.posting_core.specs.VerdictNames.{is_applied};
ghost use Rattle.posting_core.specs.Growing.{HasGrown};
ghost use Rattle.posting_core.specs.History.{puts};
ghost use Rattle.posting_core.specs.Lawful.{IsLawful};
ghost use Rattle.posting_core.specs.Verdicts.{is_known, is_known_at, is_known_container};
ghost use Rattle.posting_core.specs.Verdicts.{is_known_place, is_known_place_at};
ghost use Rattle.posting_core.specs.Book.{Book, place_in, spots_in, line_in, state_in, last_day_in};
ghost use Rattle.posting_core.specs.Book.{changes_of};
ghost use Rattle.posting_core.specs.Accountability.{IsHome, IsLent, IsWithLender, IsGuest, IsOver};
ghost use Rattle.posting_core.specs.Accountability.{AtEachApplied, IsAuthorised, IsInTerm};
ghost use Rattle.posting_core.specs.Accountability.{AnswerAlike};
ghost use Rattle.posting_core.specs.Onward.{later, GoesOn, are_refused, spots_for, names_line};
ghost use Rattle.posting_core.specs.Onward.{goes_forward, MovesOn, LeavesUncrated};

use crate::Ledger;

/// A thing's last spot is its current location, and a thing without a place has no spots.
pub fn last_spot_is_current(ledger: &Ledger)
    ensures current { (x : ℕ)
        → option_map (λ spot. spot.place) (last_or None (spots_in ledger.now x))
        ≡ place_in ledger.now x }
    ensures unplaced { (x : ℕ) → place_in ledger.now x ≡ None → spots_in ledger.now x ≡ [] }
{
    ledger.is_lawful();
}

/// A spot is added only if the place changes: each spot is at another place than the one before it.
pub fn each_spot_is_a_change(ledger: &Ledger)
    ensures { (x : ℕ)
        → AllAdjacentBelow (λ one next. one.place ≢ next.place) (spots_in ledger.now x)
        (length (spots_in ledger.now x)) }
{
    ledger.is_lawful();
}

/// An own object is home or lent. If it is home, it is inside or has no place yet, and it is away
/// under no loan. If it is lent, it is away under exactly one loan, which is a loan out, and it is
/// at the place of that loan's partner, which is elsewhere.
pub fn own_objects_are_accounted_for(ledger: &Ledger)
    ensures { (o : ℕ) → is_own ledger.now.museum o ≡ true
        → IsHome ledger.now o ⊎ IsLent ledger.now o }
{
    ledger.is_lawful();
}

/// A borrowed object is with its lender or a guest. If it is with its lender, it is elsewhere or
/// has no place yet, and it is here under no loan. If it is a guest, it is here under exactly one
/// loan, which is a loan in, and it is inside.
pub fn borrowed_objects_are_accounted_for(ledger: &Ledger)
    ensures { (o : ℕ) → is_borrowed ledger.now.museum o ≡ true
        → IsWithLender ledger.now o ⊎ IsGuest ledger.now o }
{
    ledger.is_lawful();
}

/// Under a closed loan, every object is back or given back.
pub fn closed_loans_are_over(ledger: &Ledger)
    ensures { (loan : List ℕ) → state_in ledger.now loan ≡ Some Closed → (o : ℕ)
        → IfSome (line_in ledger.now loan o) IsOver }
{
    ledger.is_lawful();
}

/// Things cross only under loans that were authorised before. They leave under a loan out, and
/// arrive under a loan in, no later than the loan's last day.
pub fn crossings_are_authorised(ledger: &Ledger)
    ensures authorised { AtEachApplied IsAuthorised ledger.now.posted }
    ensures in_term { AtEachApplied IsInTerm ledger.now.posted }
{
    ledger.is_lawful();
}

/// A refused message changes no answer: places, the containers above, spots, loans, their objects,
/// lines, states and last days stay the same.
pub fn refused_changes_no_answer()
    ensures { (B : Book) (e : Entry) → is_applied e.verdict ≡ false
        → AnswerAlike (record B { posted = e ∷ B.posted }) B }
{}

/// Several refused messages, one after another, change no answer either.
pub fn all_refused_change_no_answer()
    ensures { (B : Book) (L : List Entry) → are_refused L ≡ true → AnswerAlike (later B L) B }
{}

/// Posting an entry that the rules allow makes the changes of its plan, and no others. A thing's
/// spots afterwards are those before, followed by the new ones. A loan line changes exactly if a
/// new line names it, and then it has that new line's stage.
pub fn changes_are_the_difference()
    ensures spots { (B : Book) (e : Entry) → GoesOn B (e ∷ []) → (x : ℕ)
        → x < length B.museum.things →
        spots_in (later B (e ∷ [])) x ≡ spots_in B x ++ spots_for (changes_of B e.message) x }
    ensures lines { (B : Book) (e : Entry) → GoesOn B (e ∷ []) → (loan : List ℕ) (o : ℕ) →
        (line_in (later B (e ∷ [])) loan o ≢ line_in B loan o) ↔
        (names_line (changes_of B e.message) loan o ≡ true) }
    ensures stages { (B : Book) (e : Entry) → GoesOn B (e ∷ []) →
        All (λ l. line_in (later B (e ∷ [])) l.loan l.object ≡ Some l.stage)
        (changes_of B e.message).lines }
{}

/// A loan line's stage never goes back, whatever is posted later. It goes from awaited to away and
/// back, or from awaited to here and given back. An object that a loan lists stays listed.
pub fn lines_only_go_forward()
    ensures { (B : Book) (L : List Entry) → GoesOn B L → (loan : List ℕ) (o : ℕ) →
        goes_forward (line_in B loan o) (line_in (later B L) loan o) ≡ true }
{}

/// A closed loan stays closed.
pub fn closed_loans_stay_closed()
    ensures { (B : Book) (L : List Entry) → GoesOn B L → (loan : List ℕ) →
        state_in B loan ≡ Some Closed → state_in (later B L) loan ≡ Some Closed }
{}

/// An agreed loan always has a last day, which never becomes earlier.
pub fn last_days_only_move_on()
    ensures { (B : Book) (L : List Entry) → GoesOn B L → (loan : List ℕ) →
        MovesOn (last_day_in B loan) (last_day_in (later B L) loan) }
{}

/// No container leaves under a loan in.
pub fn no_crate_leaves_under_a_loan_in(ledger: &Ledger)
    ensures { AtEachApplied LeavesUncrated ledger.now.posted }
{
    ledger.is_lawful();
}

/// A thing that was ever put somewhere has a place, however deep it is in containers.
pub fn what_was_put_has_a_place(ledger: &Ledger)
    ensures { (x : ℕ) → is_some (last (puts ledger.now.museum ledger.now.posted) x) ≡ true →
        is_some (place_in ledger.now x) ≡ true }
{
    ledger.is_lawful();
}

/// A growth of the setup changes no verdict and no answer about the entries posted before it.
pub fn growing_changes_no_answer()
    ensures lawful { (S T : Museum) (depth : ℕ) (P : List Entry)
        → NeverFell S.growths (listed_now S) → Extends S T → IsLawful S depth P
        → IsLawful (grown (length P) S T) depth P }
    ensures answers { (S T : Museum) (depth : ℕ) (P : List Entry)
        → NeverFell S.growths (listed_now S) → Extends S T → IsLawful S depth P
        → AnswerAlike (record { museum = grown (length P) S T; depth = depth; posted = P })
        (record { museum = S; depth = depth; posted = P }) }
{}

/// After the last growth, everything that the setup lists is known. In a setup that never grew, it
/// always is.
pub fn after_the_growths_all_is_known()
    ensures things { (S : Museum) (P : List Entry) (x : List ℕ) → HasGrown S.growths (length P)
        → is_known_at S P x ≡ is_known S x }
    ensures places { (S : Museum) (P : List Entry) (p : List ℕ) → HasGrown S.growths (length P)
        → is_known_place_at S P p ≡ is_known_place S p }
    ensures containers { (S : Museum) (P : List Entry) (c : List ℕ)
        → HasGrown S.growths (length P)
        → is_known_container S P c ≡ option_map_or (is_container S) (find_thing S c) false }
{}
