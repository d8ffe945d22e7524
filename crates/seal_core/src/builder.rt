//! A builder that takes the leaves of a tree one after another.
ghost use Rattle.std.specs.Prelude.{◌≡◌, ◌<◌, ◌+◌, ◌^◌, ◌++◌, ℕ, List, length};
ghost use Rattle.seal_core.specs.Trees.{head_of};
ghost use Rattle.seal_core.specs.Peaks.{ArePeaks, head_with};

use crate::hashes::{empty_head, leaf_hash, node_hash};

/// The number of binary digits of a count of leaves.
const LEVELS: usize = 64;

/// Computes the head of a tree from its leaves, one after another, without keeping them. It takes
/// 2,056 bytes, allocates no memory, and computes fewer than two hashes for each leaf on average.
#[derive(Drop)]
pub struct HeadBuilder {
    /// Where `count` has the binary digit 1 of value 2^i, peak i is the head of a full tree of 2^i
    /// leaves. The largest tree has the oldest leaves. Other peaks have no meaning.
    peaks: [[u8; 32]; LEVELS],
    /// The number of leaves so far.
    count: u64,
}

impl HeadBuilder {
    ghost use Rattle.std.specs.Prelude.{◌≡◌, ◌↔◌, ◌+◌, ◌-◌, ◌^◌, ◌<◌, [], ◌∷◌, ◌++◌};
    ghost use Rattle.std.specs.Prelude.{ℕ, List, IsTrue};
    ghost use Rattle.seal_core.specs.Trees.{tree_head};
    ghost use Rattle.seal_core.specs.HeadBuilder.{Holds, leaf_count};

    /// Returns a builder without leaves.
    pub fn new() -> HeadBuilder
        ensures count { leaf_count result ≡ 0 }
        ensures none { Holds result [] }
    {
        HeadBuilder {
            peaks: [[0; 32]; LEVELS],
            count: 0,
        }
    }

    /// Returns the number of leaves so far.
    pub fn leaf_count(&self) -> u64
        ensures { result ≡ leaf_count self.now }
    {
        self.count
    }

    /// Returns whether another leaf can be added: there are 2^64 - 1 at most.
    pub fn has_room(&self) -> bool
        ensures { IsTrue result ↔ (leaf_count self.now < 2 ^ 64 - 1) }
    {
        self.count < u64::MAX
    }

    /// Adds a leaf after those so far. There must be room: see [`has_room`](HeadBuilder::has_room).
    pub fn add(&mut self, leaf: &[u8])
        requires { leaf_count self.old < 2 ^ 64 - 1 }
        ensures count { leaf_count self.new ≡ leaf_count self.old + 1 }
        ensures leaves { (leaves : List (List ℕ)) → Holds self.old leaves
            → Holds self.new (leaves ++ leaf.now ∷ []) }
    {
        add_peak(&mut self.peaks, self.count, leaf_hash(leaf));
        self.count += 1;
    }

    /// Returns the head of the tree of the leaves so far (RFC 6962, section 2.1).
    pub fn head(&self) -> [u8; 32]
        ensures { (leaves : List (List ℕ)) → Holds self.now leaves → result ≡ tree_head leaves }
    {
        let mut head = None;
        let mut rest = self.count;
        'peaks: for peak in &self.peaks {
            if rest % 2 == 1 {
                head = Some(joined(peak, head));
            }
            rest /= 2;
        }
        head.unwrap_or(empty_head())
    }
}

/// Returns the head of a full tree and, if there is one, the smaller tree after it.
fn joined(older: &[u8; 32], newer: Option<[u8; 32]>) -> [u8; 32]
    ensures { result ≡ head_with older.now newer }
{
    match newer {
        Some(newer) => node_hash(older, &newer),
        None => *older,
    }
}

/// Adds a full tree with this head after `count` full trees of the same size. The first peak is for
/// a tree of that size.
fn add_peak(peaks: &mut [[u8; 32]], count: u64, head: [u8; 32])
    requires { count + 1 < 2 ^ length peaks.old }
    ensures { (d : ℕ) (older newer : List (List ℕ)) → ArePeaks d count peaks.old older
        → length newer ≡ 2 ^ d → head ≡ head_of newer
        → ArePeaks d (count + 1) peaks.new (older ++ newer) }
{
    if count % 2 == 0 {
        peaks[0] = head;
    } else {
        let pair = node_hash(&peaks[0], &head);
        add_peak(&mut peaks[1..], count / 2, pair);
    }
}
