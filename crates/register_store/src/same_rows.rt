//! Compares rows with the wanted ones, in any order.
ghost use Rattle.std.specs.Prelude.{◌≡◌};
ghost use Rattle.std.specs.Bool.{Decides};
ghost use Rattle.std.specs.List.{IsDistinct, list_all};
ghost use Rattle.std.specs.List.Sorted.{IsPermutation};
ghost use Rattle.std.specs.Map.{keys_of};
ghost use Rattle.std.specs.declared.cmp.Ordering.TheVariants.{Less};
ghost use Rattle.sqlite_trees.specs.Tree.{IsAscending};
ghost use Rattle.register_store.specs.Plain.{is_kept};

use indexmap::IndexMap;
use std::hash::Hash;

/// Whether these are the wanted rows in some order, each as often. Sorts `rows`. The wanted rows
/// must be in strictly ascending order, and two rows may be equal only if they are identical.
pub fn has_rows<T: Ord + Drop>(rows: &mut Vec<T>, wanted: &[T]) -> bool
    requires ascending { IsAscending (λ a b. T.cmp a b ≡ Less) wanted.now }
    requires exact { (a b : _) → Decides (T.eq a b) (a ≡ b) }
    ensures same { IsPermutation rows.old.items rows.new.items }
    ensures told { Decides result (IsPermutation wanted.now rows.new.items) }
{
    rows.sort_unstable();
    rows.as_slice() == wanted
}

/// Whether the kept pairs are the wanted ones in some order. No key may be wanted twice. Two keys,
/// or two values, may be equal only if they are identical.
pub fn has_all<K: Eq + Hash + Copy, V: Eq + Copy>(kept: &IndexMap<K, V>, wanted: &[(K, V)]) -> bool
    requires distinct { IsDistinct K.eq (keys_of wanted.now) }
    requires keys { (a b : _) → Decides (K.eq a b) (a ≡ b) }
    requires values { (a b : _) → Decides (V.eq a b) (a ≡ b) }
    ensures { Decides result (IsPermutation wanted.now kept.now.entries) }
{
    kept.len() == wanted.len() && has_each(kept, wanted)
}

/// Whether each wanted pair is kept.
fn has_each<K: Eq + Hash + Copy, V: Eq + Copy>(kept: &IndexMap<K, V>, wanted: &[(K, V)]) -> bool
    ensures { result ≡ list_all (is_kept K.eq V.eq kept.now.entries) wanted.now }
{
    wanted.iter().all(|pair| has_pair(kept, pair.0, pair.1))
}

/// Whether the key is kept with this value.
fn has_pair<K: Eq + Hash + Copy, V: Eq + Copy>(kept: &IndexMap<K, V>, key: K, value: V) -> bool
    ensures { result ≡ is_kept K.eq V.eq kept.now.entries (key, value) }
{
    match kept.get(&key) {
        Some(found) => *found == value,
        None => false,
    }
}
