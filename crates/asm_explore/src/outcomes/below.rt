//! Where the search for a result goes on in a list of outcomes.
ghost use Rattle.std.specs.Prelude.{◌≡◌};

use std::marker::Model;

/// The positions of two later outcomes of the list, or 0: the search for a result that isn't this
/// outcome's goes on at one of them, as a bit of its hash says. No clause sees them, so no proof
/// rests on them: what is found is compared.
#[derive(Drop)]
pub struct Below {
    zero: usize,
    one: usize,
}

impl Model for Below {
    ghost Value = { Unit {0} };

    ghost view = { λ b. tt };
}

/// The bit of a hash by which the search goes on after this many outcomes.
fn bit(hash: u64, depth: usize) -> bool {
    (hash >> (63 - depth.min(63))) & 1 == 1
}

impl Below {
    /// Of an outcome that is the last of its list, or alone.
    pub(crate) fn none() -> Below {
        Below { zero: 0, one: 0 }
    }

    /// Where the search for a hash goes on, or 0.
    pub(crate) fn next(&self, hash: u64, depth: usize) -> usize {
        if bit(hash, depth) {
            self.one
        } else {
            self.zero
        }
    }

    /// Says where it goes on.
    pub(crate) fn lead(&mut self, hash: u64, depth: usize, next: usize) {
        if bit(hash, depth) {
            self.one = next;
        } else {
            self.zero = next;
        }
    }
}
