//! The head of a tree.
ghost use Rattle.std.specs.Prelude.{◌≡◌, ◌<◌, ◌≤◌, ◌*◌, length};
ghost use Rattle.std.specs.Int.{IsPowerOfTwo};
ghost use Rattle.seal_core.specs.Trees.{head_of};

use crate::hashes::{empty_head, node_hash};

/// Returns the head of the tree whose leaves have these hashes, see [`leaf_hash`](crate::leaf_hash)
/// (RFC 6962, section 2.1). Takes time proportional to their number.
pub fn head_of_hashes(hashes: &[[u8; 32]]) -> [u8; 32]
    ensures { result ≡ head_of hashes.now }
{
    if hashes.is_empty() {
        return empty_head();
    }
    if hashes.len() == 1 {
        return hashes[0];
    }
    let (left, right) = hashes.split_at(left_size(hashes.len()));
    node_hash(&head_of_hashes(left), &head_of_hashes(right))
}

/// Returns the number of leaves on the left of the root of a tree with `size` leaves: the largest
/// power of two that is smaller.
pub(crate) fn left_size(size: usize) -> usize
    requires { 1 < size }
    ensures power { IsPowerOfTwo result }
    ensures smaller { result < size }
    ensures largest { size ≤ 2 * result }
{
    1 << (size - 1).ilog2()
}
