//! The first of some assignments.
ghost use Rattle.std.specs.Prelude.{◌≡◌, ◌-◌, ◌++◌, ℕ, List, [], length, OnOk};
ghost use Rattle.asm_clash.specs.Standing.{later, Assigned};
ghost use Rattle.asm_clash.specs.code.FirstFound.{IsFound};

use crate::assignment::Assignment;
use std::alloc::{AllocError, Global};

/// The first of some assignments, and how many there are.
#[derive(Drop)]
pub struct Found {
    pub first: Vec<Assignment>,
    /// Cut off if it doesn't fit.
    pub count: u64,
}

impl Found {
    /// No assignment.
    pub(crate) fn none(alloc: Global) -> Found
        ensures { (most : ℕ) → IsFound most [] result }
    {
        Found {
            first: Vec::new(alloc),
            count: 0,
        }
    }

    /// How many more are kept, if at most so many are.
    pub(crate) fn room(&self, most: usize) -> usize
        ensures { result ≡ most - length self.now.first.items }
    {
        most.saturating_sub(self.first.len())
    }

    /// Puts others after these, of which as many were kept as there was room for.
    pub(crate) fn append(&mut self, others: Found) -> Result<(), AllocError>
        ensures { (most : ℕ) (all more : List Assigned) → IsFound most all self.old →
            IsFound (most - length self.old.first.items) more others → OnOk result (IsFound most (all ++ more) self.new) }
    {
        let Found { mut first, count } = others;
        self.first.append(&mut first)?;
        self.count = self.count.saturating_add(count);
        Ok(())
    }

    /// Puts later ones in their place, if there are any.
    pub(crate) fn put_later(&mut self, own: Found)
        ensures { (most : ℕ) (all more : List Assigned) → IsFound most all self.old → IsFound most more own → IsFound most (later all more) self.new }
    {
        if own.count == 0 {
            return;
        }
        *self = own;
    }
}
