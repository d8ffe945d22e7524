//! Access to the fields of a JSON value, whether it owns its text or borrows it.
ghost use Rattle.std.specs.Prelude.{◌≡◌, is_some, map, option_map, option_and_then};
ghost use Rattle.serde_json.specs.Data.{Data};
ghost use Rattle.serde_json.specs.Find.{get, as_number, as_str, as_array, as_object, as_u64};
ghost use Rattle.serde_json.specs.View.{items_of};

/// A JSON value whose fields can be read. A method returns `None` for a value of another type.
pub trait Fields {
    /// The data that the value stands for.
    ghost seen: { Self → Data };

    /// The value at a key, if this is an object that has it. If a key occurs twice, the last value
    /// counts.
    fn at(&self, name: &str) -> Option<&Self>
        ensures { option_map (λ v. seen v.now) result ≡ get name.now (seen self.now) };

    /// Whether this is an object.
    fn has_members(&self) -> bool
        ensures { result ≡ is_some (as_object (seen self.now)) };

    /// The text, if this is a string.
    fn text(&self) -> Option<&str>
        ensures { option_map (λ s. s.now) result ≡ as_str (seen self.now) };

    /// The number, if this is a whole number from 0 to 2^64 - 1.
    fn whole_number(&self) -> Option<u64>
        ensures { result ≡ option_and_then as_u64 (as_number (seen self.now)) };

    /// The items, if this is an array.
    fn items(&self) -> Option<&[Self]>
        ensures { option_map (λ v. items_of (map seen v.now)) result
            ≡ as_array (seen self.now) };
}

impl Fields for serde_json::Value {
    ghost use Rattle.serde_json.specs.View.{view};

    ghost seen = { view };

    fn at(&self, name: &str) -> Option<&serde_json::Value> {
        self.get(name)
    }

    fn has_members(&self) -> bool {
        self.is_object()
    }

    fn text(&self) -> Option<&str> {
        self.as_str()
    }

    fn whole_number(&self) -> Option<u64> {
        self.as_u64()
    }

    fn items(&self) -> Option<&[serde_json::Value]> {
        Some(self.as_array()?.as_slice())
    }
}
