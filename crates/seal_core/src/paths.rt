//! Audit paths, and the head that is computed from one.
ghost use Rattle.std.specs.Prelude.{◌≡◌, ◌≢◌, ◌↔◌, ◌<◌, ◌++◌, ℕ, List, Some, IsTrue, IfOk, OnOk};
ghost use Rattle.std.specs.Prelude.{length, reverse, slice_get};
ghost use Rattle.seal_core.specs.Hashes.{leaf_hash, Collision};
ghost use Rattle.seal_core.specs.Trees.{HasHead};
ghost use Rattle.seal_core.specs.Paths.{audit_path, head_along, path_of, root_from, sides_within};

use crate::hashes;
use crate::hashes::node_hash;
use crate::trees::{head_of_hashes, left_size};
use std::alloc::{AllocError, Global};

/// Returns the audit path of leaf `index`, counted from 0, of the tree whose leaves have these
/// hashes (RFC 6962, section 2.1.1): the hash of the leaf's sibling, then of its parent's sibling,
/// and so on up to the root. Takes time proportional to the number of leaves. Fails if memory runs
/// out.
pub fn audit_path(
    alloc: Global,
    hashes: &[[u8; 32]],
    index: usize,
) -> Result<Vec<[u8; 32]>, AllocError>
    requires { index < length hashes.now }
    ensures { IfOk result (λ path. path.items ≡ path_of index hashes.now) }
{
    let mut path = Vec::new(alloc);
    add_path(&mut path, hashes, index)?;
    Ok(path)
}

/// Appends the audit path of leaf `index`. Fails if memory runs out.
fn add_path(path: &mut Vec<[u8; 32]>, hashes: &[[u8; 32]], index: usize) -> Result<(), AllocError>
    requires { index < length hashes.now }
    ensures { OnOk result (path.new.items ≡ path.old.items ++ path_of index hashes.now) }
{
    if hashes.len() == 1 {
        return Ok(());
    }
    let (left, right) = hashes.split_at(left_size(hashes.len()));
    if index < left.len() {
        add_path(path, left, index)?;
        path.push(head_of_hashes(right))?;
    } else {
        add_path(path, right, index - left.len())?;
        path.push(head_of_hashes(left))?;
    }
    Ok(())
}

/// Returns whether an audit path proves that this leaf is leaf `index`, counted from 0, of the tree
/// of `size` leaves with this head. Returns false if `index` is not below `size`.
pub fn verify_path(
    leaf: &[u8],
    index: usize,
    size: usize,
    path: &[[u8; 32]],
    head: &[u8; 32],
) -> bool
    ensures exact { IsTrue result
        ↔ (root_from (leaf_hash leaf.now) index size path.now ≡ Some head.now) }

    // For any leaves whose tree has this size and head: their own path is a proof, and a proof of
    // another leaf needs two different texts with the same SHA-256.
    ensures complete { (leaves : List (List ℕ)) → HasHead leaves size head.now
        → slice_get leaves index ≡ Some leaf.now → path.now ≡ audit_path index leaves
        → IsTrue result }
    ensures sound { (leaves : List (List ℕ)) (other : List ℕ) → HasHead leaves size head.now
        → slice_get leaves index ≡ Some other → leaf.now ≢ other → IsTrue result → Collision }
{
    root_from_path(leaf, index, size, path) == Some(*head)
}

/// Computes the head of a tree of `size` leaves from leaf `index`, counted from 0, and its audit
/// path. Returns `None` if `index` is not below `size`, or if the length of the path is wrong for
/// `index` and `size`.
pub fn root_from_path(leaf: &[u8], index: usize, size: usize, path: &[[u8; 32]]) -> Option<[u8; 32]>
    ensures { result ≡ root_from (leaf_hash leaf.now) index size path.now }
{
    if index < size {
        root_from_hash(hashes::leaf_hash(leaf), index, size, path)
    } else {
        None
    }
}

/// The same, from the hash of the leaf.
fn root_from_hash(hash: [u8; 32], index: usize, size: usize, path: &[[u8; 32]]) -> Option<[u8; 32]>
    requires { index < size }
    ensures { result ≡ head_along (sides_within size index size) hash (reverse path.now) }
{
    if size == 1 {
        return if path.is_empty() { Some(hash) } else { None };
    }
    let left = left_size(size);
    let (sibling, lower) = path.split_last()?;
    if index < left {
        let child = root_from_hash(hash, index, left, lower)?;
        Some(node_hash(&child, sibling))
    } else {
        let child = root_from_hash(hash, index - left, size - left, lower)?;
        Some(node_hash(sibling, &child))
    }
}
