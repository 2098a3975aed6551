//! The path of a rule in a step.
ghost use Rattle.std.specs.Prelude.{◌≡◌, IfOk};
ghost use Rattle.asm_meaning.specs.Yields as yields;

use std::alloc::{AllocError, Global};
use std::marker::Model;

/// The numbers of the descents from the body of the main rule: of a part, of an element in its
/// universe, or of a turn, from 0. It takes no memory to make one of a `Vec`, nor to give it back.
#[derive(Debug, Drop)]
pub struct Path {
    numbers: Vec<u64>,
}

impl Model for Path {
    ghost use Rattle.std.specs.Prelude.{List, ℕ};

    ghost Value = { List ℕ };

    ghost view = { λ p. p.numbers.items };
}

impl Path {
    /// The path with these numbers.
    pub fn new(numbers: Vec<u64>) -> Path
        ensures { result ≡ numbers.items }
    {
        Path { numbers }
    }

    /// The path with a copy of these numbers.
    pub fn of(alloc: Global, numbers: &[u64]) -> Result<Path, AllocError>
        ensures { IfOk result (λ p. p ≡ numbers.now) }
    {
        Ok(Path::new(numbers.to_vec(alloc)?))
    }

    /// The path of the part with this number, of a rule whose path has these numbers.
    pub fn below(alloc: Global, path: &[u64], number: u64) -> Result<Path, AllocError>
        ensures { IfOk result (λ p. p ≡ yields.at path.now number) }
    {
        let mut numbers = Vec::with_capacity(alloc, path.len().saturating_add(1))?;
        numbers.extend_from_slice(path)?;
        numbers.push(number)?;
        Ok(Path::new(numbers))
    }

    /// Its numbers.
    pub fn as_slice(&self) -> &[u64]
        ensures { result.now ≡ self.now }
    {
        self.numbers.as_slice()
    }

    /// Its numbers, as they were given.
    pub fn into_vec(self) -> Vec<u64>
        ensures { result.items ≡ self }
    {
        let Path { numbers } = self;
        numbers
    }
}
