//! Memory for reading one text after another.
ghost use Rattle.std.specs.Prelude.{◌≡◌, IfErr};

use crate::{TextFault, TokenScratch};
use bumpalo::Bump;
use std::alloc::Global;

/// The first size of the arena, in bytes: enough for ten messages that move a thing.
const ROOM: usize = 4096;

/// Memory for reading one text after another. The lists of a text are in an arena, which is emptied
/// before a text once more than half of it is used.
#[derive(Drop)]
pub struct Scratch {
    tokens: TokenScratch,
    lists: Bump,
}

impl Scratch {
    /// An empty scratch. Takes no memory.
    pub fn new(alloc: Global) -> Scratch {
        Scratch {
            tokens: TokenScratch::new(alloc),
            lists: Bump::new(alloc),
        }
    }

    /// Lends the memory for the tokens and the lists of a text. Fails with `NoMemory`.
    #[inline(always)]
    pub(crate) fn lend(&mut self, alloc: Global) -> Result<(&mut TokenScratch, &Bump), TextFault>
        ensures { IfErr result (λ fault. fault ≡ TextFault.NoMemory) }
    {
        let all = self.lists.allocated_bytes();
        if all == 0 {
            self.lists = Bump::try_with_capacity(alloc, ROOM)?;
        } else if self.lists.chunk_capacity() < all / 2 {
            self.lists.reset()?;
        }
        Ok((&mut self.tokens, &self.lists))
    }
}
