//! Laws of escaped texts. The functions do nothing: their contracts are the laws.
ghost use Rattle.std.specs.Prelude.{◌≡◌, [], ℕ, IsTrue, List};
ghost use Rattle.std.specs.List.{flat_map};
ghost use Rattle.page_core.specs.Escapes.{escaped, has_whole_references};
ghost use Rattle.page_core.specs.Pieces.{Piece, marks, own_marks, page_text};

/// An escaped text has no `<`, `>` or quote, and each `&` in it begins a character reference.
pub fn escaped_texts_have_no_markup()
    ensures marks { (text : List ℕ) → marks (escaped text) ≡ [] }
    ensures references { (text : List ℕ) → IsTrue (has_whole_references (escaped text)) }
{}

/// Every `<`, `>` and quote of a page comes from its markup, and none from a text from outside.
pub fn tags_are_the_page_s_own()
    ensures { (pieces : List Piece)
        → marks (page_text pieces) ≡ flat_map own_marks pieces }
{}
