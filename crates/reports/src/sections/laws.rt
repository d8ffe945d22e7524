//! Laws of what the entries changed. The functions do nothing: their contracts are the laws.
ghost use Rattle.std.specs.Prelude.{◌≡◌, ◌<◌, ℕ, length};
ghost use Rattle.std.specs.List.{flat_map, range_with_len};
ghost use Rattle.posting_core.specs.Book.{Book, spots_in};
ghost use Rattle.posting_core.specs.Lawful.{IsLawful};
ghost use Rattle.reports.specs.EntryChanges.{locations_at};

/// The new locations that the entries brought a thing, in the order of the entries, are those that
/// the report `history` lists: the current one and all former ones.
pub fn locations_are_the_history()
    ensures { (B : Book) (x : ℕ) → IsLawful B.museum B.depth B.posted
        → x < length B.museum.things
        → flat_map (locations_at B x) (range_with_len 0 (length B.posted)) ≡ spots_in B x }
{}
