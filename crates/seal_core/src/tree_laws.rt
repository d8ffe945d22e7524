//! Laws of tree heads and audit paths. The functions do nothing: their contracts are the laws.
ghost use Rattle.std.specs.Prelude.{◌≡◌, ◌≢◌, ◌<◌, ◌≤◌, ◌-◌, ◌*◌, [], ◌∷◌, ◌++◌};
ghost use Rattle.std.specs.Prelude.{ℕ, List, Some, length, take, drop, slice_get};
ghost use Rattle.std.specs.Int.{IsPowerOfTwo};
ghost use Rattle.sha2.specs.Sha256.{sha256};
ghost use Rattle.seal_core.specs.Hashes.{leaf_hash, node_hash, AreHashes, Collision};
ghost use Rattle.seal_core.specs.Trees.{tree_head};
ghost use Rattle.seal_core.specs.Paths.{audit_path, root_from};

/// The head of a tree is MTH of RFC 6962, section 2.1. There, k is the largest power of two smaller
/// than the number of leaves.
pub fn heads_follow_rfc_6962()
    ensures none { tree_head [] ≡ sha256 [] }
    ensures one { (leaf : List ℕ) → tree_head (leaf ∷ []) ≡ leaf_hash leaf }
    ensures more { (leaves : List (List ℕ)) (k : ℕ) → IsPowerOfTwo k → k < length leaves
        → length leaves ≤ 2 * k
        → tree_head leaves ≡ node_hash (tree_head (take k leaves)) (tree_head (drop k leaves)) }
{}

/// An audit path is PATH of RFC 6962, section 2.1.1, with the same k.
pub fn paths_follow_rfc_6962()
    ensures one { (leaf : List ℕ) → audit_path 0 (leaf ∷ []) ≡ [] }
    ensures left { (leaves : List (List ℕ)) (i k : ℕ) → IsPowerOfTwo k → k < length leaves
        → length leaves ≤ 2 * k → i < k
        → audit_path i leaves ≡ audit_path i (take k leaves) ++ tree_head (drop k leaves) ∷ [] }
    ensures right { (leaves : List (List ℕ)) (i k : ℕ) → IsPowerOfTwo k → k < length leaves
        → length leaves ≤ 2 * k → k ≤ i → audit_path i leaves
        ≡ audit_path (i - k) (drop k leaves) ++ tree_head (take k leaves) ∷ [] }
{}

/// From a leaf and its audit path, the head of the tree is computed.
pub fn paths_are_complete()
    ensures { (leaves : List (List ℕ)) (i : ℕ) (leaf : List ℕ) → slice_get leaves i ≡ Some leaf
        → root_from (leaf_hash leaf) i (length leaves) (audit_path i leaves)
        ≡ Some (tree_head leaves) }
{}

/// If the same head is computed from two different leaves at the same place of a tree of the same
/// size, by any paths of 32-byte hashes, then two different texts have the same SHA-256. The proof
/// constructs them.
pub fn leaves_collide()
    ensures { (x y : List ℕ) (i n : ℕ) (p q : List (List ℕ)) (head : List ℕ) → AreHashes p
        → AreHashes q → root_from (leaf_hash x) i n p ≡ Some head
        → root_from (leaf_hash y) i n q ≡ Some head → x ≢ y → Collision }
{}

/// If the head of a tree is computed from another leaf than the one at that place of the tree, by
/// any path of 32-byte hashes, then two different texts have the same SHA-256. The proof constructs
/// them.
pub fn other_leaf_collides()
    ensures { (leaves : List (List ℕ)) (i : ℕ) (leaf other : List ℕ) (path : List (List ℕ))
        → slice_get leaves i ≡ Some leaf → AreHashes path
        → root_from (leaf_hash other) i (length leaves) path ≡ Some (tree_head leaves)
        → other ≢ leaf → Collision }
{}

/// If two different lists of leaves have the same head, then two different texts have the same
/// SHA-256. The proof constructs them. The lists may have different lengths.
pub fn heads_collide()
    ensures { (L M : List (List ℕ)) → tree_head L ≡ tree_head M → L ≢ M → Collision }
{}
