//! The head of a record's first entries, computed by workers.
ghost use Rattle.std.specs.Prelude.{◌≡◌, ◌+◌, ◌*◌, ◌^◌, ◌<◌, ◌≤◌, IfOk, length, map};
ghost use Rattle.std.specs.Int.{div_ceil};
ghost use Rattle.std.specs.List.{range_with_len};
ghost use Rattle.seal_core.specs.Trees.{tree_head};
ghost use Rattle.seal_core.specs.Blocks.{block_head};
ghost use Rattle.seal_core.specs.Leaves.{entry_leaf, leaves};

use crate::builder::HeadBuilder;
use crate::leaves::entry_leaf;
use crate::trees::head_of_hashes;
use codes_core::NoMemory;
use posting_core::{EntryNo, Ledger};
use rayon::prelude::*;
use std::alloc::Global;
use std::thread::Threads;

/// The number of entries of a block.
const BLOCK: usize = 1024;

/// Returns the head of the tree of the first entries. Workers share the entries; the head is the
/// same for any number of workers. Fails with `NoMemory`.
pub(crate) fn head_of_entries(
    rt: &(impl Threads + Sync),
    alloc: Global,
    ledger: &Ledger,
    entries: EntryNo,
) -> Result<[u8; 32], NoMemory>
    requires { entries ≤ length ledger.now.posted }
    ensures { IfOk result (λ head. head ≡ tree_head (leaves ledger.now entries)) }
{
    let heads = block_heads(rt, alloc, ledger, entries as usize)?;
    Ok(head_of_hashes(&heads))
}

/// The heads of the blocks of the first entries. Fails if memory is refused.
fn block_heads(
    rt: &(impl Threads + Sync),
    alloc: Global,
    ledger: &Ledger,
    entries: usize,
) -> Result<Vec<[u8; 32]>, NoMemory>
    requires few { entries < 2 ^ 32 }
    requires posted { entries ≤ length ledger.now.posted }
    ensures { IfOk result (λ heads. heads.items
        ≡ map (block_head (entry_leaf ledger.now) 0 entries)
        (range_with_len 0 (div_ceil entries 1024))) }
{
    (0..entries.div_ceil(BLOCK))
        .into_par_iter()
        .with_min_len(1)
        .map(
            |block: usize| -> Result<[u8; 32], NoMemory>
                requires inside { block * 1024 < entries }
                requires few { entries < 2 ^ 32 }
                requires posted { entries ≤ length ledger.now.posted }
                ensures { IfOk result
                    (λ head. head ≡ block_head (entry_leaf ledger.entry.now) 0 entries block) }
            {
                let first = block * BLOCK;
                head_of_block(alloc, ledger, first, BLOCK.min(entries - first))
            },
        )
        .collect::<Result<_, _>>(rt, alloc)?
}

/// The head of the tree of some entries: so many, from this index on. Fails with `NoMemory`.
fn head_of_block(
    alloc: Global,
    ledger: &Ledger,
    first: usize,
    count: usize,
) -> Result<[u8; 32], NoMemory>
    requires few { first + count < 2 ^ 32 }
    requires posted { first + count ≤ length ledger.now.posted }
    ensures { IfOk result
        (λ head. head ≡ tree_head (map (entry_leaf ledger.now) (range_with_len first count))) }
{
    let mut builder = HeadBuilder::new();
    for i in 0..count {
        let leaf = entry_leaf(alloc, ledger, first + i)?;
        builder.add(leaf.as_bytes());
    }
    Ok(builder.head())
}
