//! Scripts.
//!
//! All numbers of a script have at most nine digits, so 32 bits are enough for each. `pick` borrows
//! the path and looks its numbers up one after the other, so it takes no memory. If no line is for
//! this path in this step, the line for every step is found by one index into a list.
ghost use Rattle.std.specs.Prelude.{◌≡◌};
ghost use Rattle.asm_reader.specs.ScriptLines.{no_lines};

use crate::path_numbers::PathNumbers;
use crate::picks::Picks;
use std::alloc::Global;
use std::marker::Model;

/// The steps for which a line holds.
#[derive(Clone, Copy)]
pub enum When {
    /// The step with this number.
    Step(u32),
    /// Every step for which no other line of the same path holds.
    EveryStep,
}

/// What a line says.
#[derive(Drop)]
pub struct ReadLine {
    /// The steps for which it holds.
    pub when: When,
    /// The path of the choice.
    pub path: Vec<u32>,
    /// The number of the candidate that is taken.
    pub number: u32,
}

/// Says which candidate is taken at a step and a path. No two of its lines have one step and path,
/// and no two lines for every step have one path.
#[derive(Drop)]
pub struct Script {
    /// The text that spells it, in which contracts see its lines. Nothing reads it: it takes less
    /// room than the lines would, one by one.
    pub(crate) text: Vec<u8>,
    /// What its lines say.
    pub(crate) places: PathNumbers,
}

impl Model for Script {
    ghost use Rattle.asm_reader.specs.ScriptLines as lines;
    ghost use Rattle.asm_reader.specs.code.PathNumbers.{Says};
    ghost use Rattle.asm_reader.specs.ScriptText.{lines_of, script_in};

    ghost Value = { lines.Script };

    ghost view = { λ s. script_in (lines_of s.text.items) };

    ghost invariant = { λ s. Says s.places (script_in (lines_of s.text.items)) };
}

impl Script {
    /// The script without lines.
    pub fn new(alloc: Global) -> Script
        ensures { result ≡ no_lines }
    {
        Script {
            text: Vec::new(alloc),
            places: PathNumbers::new(alloc),
        }
    }
}

impl Picks for Script {
    ghost script = { λ s. s };

    fn pick(&self, step: u64, path: &[u64]) -> u64 {
        let Some(place) = self.places.number_of_path(path) else {
            return 0;
        };
        let exact = self.places.exact_at(place, step);
        match exact.or(self.places.every_at(place)) {
            Some(number) => u64::from(number),
            None => 0,
        }
    }
}
