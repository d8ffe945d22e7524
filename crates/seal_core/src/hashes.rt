//! The hashes of leaves and nodes.
ghost use Rattle.std.specs.Prelude.{◌≡◌, [], ◌∷◌};
ghost use Rattle.sha2.specs.Sha256.{sha256};
ghost use Rattle.seal_core.specs.Hashes as hashes;

use sha2::{Digest, Sha256};

/// Returns the hash of a leaf: SHA-256 of a zero byte and the leaf (RFC 6962, section 2.1). Because
/// of the zero, no leaf can pass for a node.
pub fn leaf_hash(leaf: &[u8]) -> [u8; 32]
    ensures { result ≡ hashes.leaf_hash leaf.now }
{
    let mut hasher = Sha256::new();
    hasher.update([0u8]);
    hasher.update(leaf);
    hasher.finalize()
}

/// Returns the hash of a node: SHA-256 of a one byte and the hashes of its children.
pub(crate) fn node_hash(left: &[u8; 32], right: &[u8; 32]) -> [u8; 32]
    ensures { result ≡ hashes.node_hash left.now right.now }
{
    let mut hasher = Sha256::new();
    hasher.update([1u8]);
    hasher.update(left);
    hasher.update(right);
    hasher.finalize()
}

/// Returns the head of a tree without leaves: SHA-256 of no bytes.
pub(crate) fn empty_head() -> [u8; 32]
    ensures { result ≡ sha256 [] }
{
    Sha256::digest(b"")
}
