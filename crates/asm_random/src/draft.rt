//! Which candidates a run takes, as far as it is drawn.
ghost use Rattle.std.specs.Prelude.{◌≡◌, ℕ, [], unwrap_or};
ghost use Rattle.asm_reader.specs.ExactLines.{exactly};
ghost use Rattle.asm_reader.specs.ScriptLines.{exact_choice};
ghost use Rattle.asm_random.specs.code.Drafts.{draft_lines, lines_in};

use asm_reader::Picks;
use std::alloc::{AllocError, Global};
use std::collections::BTreeMap;

/// The numbers of a step, by the paths of the `choose`s that take them.
pub(crate) type Numbers = BTreeMap<Vec<u64>, u64>;

/// Which candidates the steps of a run take. If there is no number, it is the first one.
#[derive(Drop)]
pub(crate) struct Draft {
    /// Those of the step with number 1 come first.
    pub(crate) steps: Vec<Numbers>,
}

impl Draft {
    /// The one of a run that takes the first candidate at each `choose`.
    pub(crate) fn new(alloc: Global) -> Draft
        ensures { result.steps.items ≡ [] }
    {
        Draft {
            steps: Vec::new(alloc),
        }
    }
}

/// The number at a path.
fn number_at(numbers: &Numbers, path: &[u64]) -> u64
    ensures { (step : ℕ) → result ≡ unwrap_or (exact_choice (lines_in step numbers.now.entries) step path.now) 0 }
{
    match numbers.get(path) {
        Some(number) => *number,
        None => 0,
    }
}

impl Picks for Draft {
    ghost script = { λ d. exactly (draft_lines d) };

    fn pick(&self, step: u64, path: &[u64]) -> u64 {
        if step == 0 {
            return 0;
        }
        let steps = self.steps.as_slice();
        let place = (step - 1) as usize;
        if place >= steps.len() {
            return 0;
        }
        number_at(&steps[place], path)
    }
}
