//! Laws about posted messages. Each is stated on a function that does nothing.
ghost use Rattle.std.specs.Prelude.{◌≡◌, ℕ, ◌+◌, ◌<◌, ◌≤◌, true, List, [], ◌∷◌, ◌++◌, length, Some};
ghost use Rattle.std.specs.List.{slice_get};
ghost use Rattle.nest_core.specs.Museum.{Museum};
ghost use Rattle.posting_core.specs.declared.message.Message.{Message};
ghost use Rattle.posting_core.specs.declared.entry.Entry.{Entry};
ghost use Rattle.posting_core.specs.Book.{Book, changes_of};
ghost use Rattle.posting_core.specs.Growing.{HasGrown};
ghost use Rattle.posting_core.specs.Messages.{is_sign_off};
ghost use Rattle.posting_core.specs.Lawful.{Follows, IsLawful};
ghost use Rattle.posting_core.specs.Accountability.{AnswerAlike};
ghost use Rattle.posting_core.specs.Onward.{are_refused};
ghost use Rattle.station_core.specs.declared.TheConstants.{LAST};
ghost use Rattle.station_core.specs.declared.Refusal.{Refusal};
ghost use Rattle.station_core.specs.Runs.{Arrived, message_at, ready, refusal};
ghost use Rattle.register_store.specs.declared.store_fault.StoreFault.{StoreFault};
ghost use Rattle.register_store.specs.StoredRows.{Content, AreSame, IsStoreOf};
ghost use Rattle.register_store.specs.Registers.{is_failure};
ghost use Rattle.register_store.specs.Holdings.{Comes, IsPosted};
ghost use Rattle.hub_core.specs.declared.hub.answer.Arrival.{Arrival};
ghost use Rattle.hub_core.specs.declared.hub.answer.Answer.TheVariants.{Refused};
ghost use Rattle.hub_core.specs.Points.{point, posted, entry_of, post, reply, whereabouts, cut};
ghost use Rattle.hub_core.specs.Openings.{IsOpenFault, Opened};
ghost use Rattle.hub_core.specs.StandsFor.{State, HasStore};

use register_store::Register;

/// The posted messages of a station have the numbers 1, 2, 3 and so on, without a gap.
pub fn numbers_without_gap()
    ensures { (S : Museum) (depth : ℕ) (P : List Entry) (s i : ℕ) (r : Arrived Message)
        → IsLawful S depth P → slice_get (cut s P) i ≡ Some r → r.n ≡ i + 1 }
{}

/// A refused arrival leaves the posted and the held messages as they were.
pub fn refused_changes_nothing()
    ensures { (S : Museum) (depth : ℕ) (O : List Entry) (A : List Arrival) (r : Arrival)
        (why : Refusal) →
        refusal is_sign_off (length S.stations) (point S depth O A).taken r.station r.n ≡ Some why
        → point S depth O (A ++ r ∷ []) ≡ point S depth O A }
{}

/// An arrival that posts only refused verdicts changes no answer: the ledger's answers about every
/// thing and every loan stay the same, and so does where each thing is.
pub fn refused_verdicts_change_no_answer()
    ensures ledger { (S : Museum) (depth : ℕ) (O : List Entry) (A : List Arrival) (r : Arrival)
        (L : List Entry) →
        posted S depth O (A ++ r ∷ []) ≡ L ++ posted S depth O A → are_refused L ≡ true →
        AnswerAlike (record { museum = S; depth = depth; posted = posted S depth O (A ++ r ∷ []) })
        (record { museum = S; depth = depth; posted = posted S depth O A }) }
    ensures asked { (S : Museum) (depth : ℕ) (O : List Entry) (A : List Arrival) (r : Arrival)
        (L : List Entry) (code : List ℕ) →
        posted S depth O (A ++ r ∷ []) ≡ L ++ posted S depth O A → are_refused L ≡ true →
        whereabouts S (posted S depth O (A ++ r ∷ [])) code
        ≡ whereabouts S (posted S depth O A) code }
{}

/// A message that is sent again under a posted number is refused as Double, and changes nothing.
pub fn resent_is_double()
    ensures { (S : Museum) (depth : ℕ) (O : List Entry) (A : List Arrival) (r : Arrival)
        → r.station < length S.stations → 1 ≤ r.n → r.n ≤ LAST →
        r.n ≤ ready is_sign_off (point S depth O A).taken r.station
        → (reply S depth O A r ≡ Refused Refusal.Double)
        × (point S depth O (A ++ r ∷ []) ≡ point S depth O A) }
{}

/// If two hubs took the same unbroken run of a station's messages, they have posted the same
/// messages of it, in the same order.
pub fn same_taken_same_posted()
    ensures { (S T : Museum) (depth limit : ℕ) (O Q : List Entry) (A B : List Arrival) (s : ℕ)
        → IsLawful S depth (point S depth O A).posted → IsLawful T limit (point T limit Q B).posted
        →
        ((n : ℕ) → n ≤ ready is_sign_off (point S depth O A).taken s + 1
        → message_at (point T limit Q B).taken s n ≡ message_at (point S depth O A).taken s n) →
        cut s (point T limit Q B).posted ≡ cut s (point S depth O A).posted }
{}

/// A store with the rows of a lawful list that has all entries before the newest growth can be
/// opened: only NoMemory or Store can prevent it.
pub fn stored_list_opens()
    ensures { (S : Museum) (depth : ℕ) (P : List Entry) (c : Content) (fault : StoreFault)
        → IsLawful S depth P → HasGrown S.growths (length P) → IsStoreOf S depth P c
        → IsOpenFault S c fault → is_failure fault ≡ true }
{}

/// A store that has the rows of a lawful list has, after the next entry was posted with Ok, the
/// rows of the list with that entry, and no others.
pub fn next_entry_is_stored<R: Register>()
    ensures { (old new : R) (book : Book) (r : Arrived Message)
        → IsLawful book.museum book.depth book.posted →
        Follows book.museum book.depth book.posted (entry_of book.museum book.depth book.posted r)
        → HasStore (R.holding old) book →
        Comes (R.holding old) (R.holding new)
        (IsPosted (entry_of book.museum book.depth book.posted r) (changes_of book r.message)) →
        HasStore (R.holding new)
        (record book { posted = post book.museum book.depth book.posted r }) }
{}

/// A store that is opened, closed and opened again has the same posted list.
pub fn opened_again_is_the_same<R: Register>()
    ensures { (S T : Museum) (register : R) (first second : State R) (c : Content)
        → Opened R.holding S register first → Opened R.holding T first.register second →
        (R.holding second.register).is_quiet → (R.holding second.register).holds c
        → second.book.posted ≡ first.book.posted }
{}

/// Two openings of a store that can hold only these rows find the same posted list.
pub fn openings_tell_the_same<R: Register>()
    ensures { (S T : Museum) (register : R) (one other : State R) (c d e : Content)
        → ((k : Content) → (R.holding register).holds k → AreSame c k) →
        Opened R.holding S register one → (R.holding one.register).is_quiet
        → (R.holding one.register).holds d →
        Opened R.holding T register other → (R.holding other.register).is_quiet
        → (R.holding other.register).holds e →
        one.book.posted ≡ other.book.posted }
{}
