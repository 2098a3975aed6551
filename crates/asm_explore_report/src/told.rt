//! What is said of a fault.
ghost use Rattle.std.specs.Prelude.{◌≡◌, []};
ghost use Rattle.asm_explore_texts.specs.Comments.{lines_of};

use std::alloc::Global;

/// What is said of a fault that is found.
#[derive(Drop)]
pub struct Told {
    /// What it is: words for the first line.
    pub words: Vec<u8>,
    /// If a condition isn't true, why: a line behind the first.
    pub because: Vec<Vec<u8>>,
}

impl Told {
    /// These words, with no line behind them.
    pub fn alone(alloc: Global, words: Vec<u8>) -> Told
        ensures { (result.words.items ≡ words.items) × (lines_of result.because.items ≡ []) }
    {
        Told {
            words,
            because: Vec::new(alloc),
        }
    }
}
