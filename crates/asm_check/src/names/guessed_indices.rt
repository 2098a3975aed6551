//! Free. Where names probably are in a table.
ghost use Rattle.std.specs.Prelude.{◌<◌, ◌^◌};

use asm_syntax::name::Text;
use std::alloc::{AllocError, Global};

/// A guess for each key. A right one spares the look-up in the table, and a wrong one is seen, as
/// the name there is another.
#[derive(Drop)]
pub(crate) struct GuessedIndices {
    indices: Vec<usize>,
    mask: u64,
}

impl GuessedIndices {
    /// Room for guesses of `count` names; each is the first for now.
    pub(crate) fn new(alloc: Global, count: usize) -> Result<GuessedIndices, AllocError> {
        let mask = mask_for(count);
        Ok(GuessedIndices {
            indices: vec![in alloc; 0; mask as usize + 1]?,
            mask,
        })
    }

    /// The same guesses once more.
    pub(crate) fn copy(&self, alloc: Global) -> Result<GuessedIndices, AllocError> {
        Ok(GuessedIndices {
            indices: self.indices.to_vec(alloc)?,
            mask: self.mask,
        })
    }

    /// Guesses that the name is there. Of names whose keys fall together
    /// the last one is found at once.
    pub(crate) fn put(&mut self, name: &Text, index: usize) {
        let slot = self.slot(name);
        if slot < self.indices.len() {
            self.indices[slot] = index;
        }
    }

    /// Where the name probably is if it is one of these, or else anywhere.
    pub(crate) fn index(&self, name: &Text) -> Option<usize> {
        self.indices.get(self.slot(name)).copied()
    }

    fn slot(&self, name: &Text) -> usize {
        let mixed = name.key().wrapping_mul(0x9e37_79b9_7f4a_7c15) >> 32;
        (mixed & self.mask) as usize
    }
}

/// One less than a power of two, which is some four times the length of most tables or more.
fn mask_for(len: usize) -> u64
    ensures { result < 2 ^ 32 }
{
    match len {
        0..=64 => 0xff,
        65..=1024 => 0xfff,
        _ => 0xffff,
    }
}
