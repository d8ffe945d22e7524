//! Laws of the page. The functions do nothing: their contracts are the laws.
ghost use Rattle.std.specs.Prelude.{◌≡◌, ◌<◌, ℕ, ℤ, Option, if◌then◌else◌, length};
ghost use Rattle.std.specs.List.{flat_map};
ghost use Rattle.page_core.specs.Pieces.{marks, own_marks, page_text};
ghost use Rattle.nest_core.specs.Nest.{is_same_place, times};
ghost use Rattle.posting_core.specs.Book.{Book, place_in};
ghost use Rattle.posting_core.specs.Lawful.{IsLawful};
ghost use Rattle.page_core.specs.Listed.{listed_at};
ghost use Rattle.page_core.specs.Pages.{page};

/// The page lists each thing once: at its current location, inside its containers, or among the
/// things that were never placed.
pub fn each_thing_is_listed_once()
    ensures { (B : Book) (x : ℕ) (p : Option ℕ) → IsLawful B.museum B.depth B.posted
        → x < length B.museum.things
        → times x (listed_at B p) ≡ (if is_same_place (place_in B x) p then 1 else 0) }
{}

/// Every `<`, `>` and quote of the page comes from its markup, and none from a code or a name.
pub fn tags_are_the_page_s_own()
    ensures { (B : Book) (on : Option ℤ)
        → marks (page_text (page B on)) ≡ flat_map own_marks (page B on) }
{
    crate::html_laws::tags_are_the_page_s_own();
}
