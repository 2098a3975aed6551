//! The choices of an edge, as a script for one step.
ghost use Rattle.std.specs.Prelude.{◌≡◌, ℕ, unwrap_or};
ghost use Rattle.asm_reader.specs.ExactLines.{exactly};
ghost use Rattle.asm_reader.specs.ScriptLines.{exact_choice};
ghost use Rattle.asm_explore.specs.ChoiceLines.{lines_for};

use asm_explore::Choice;
use asm_reader::Picks;

/// A script that makes the choices of an edge in step 1, and has no other line.
#[derive(Clone, Copy)]
pub(crate) struct EdgeScript<'a> {
    pub(crate) choices: &'a [Choice],
}

/// The number of the first of these choices at the path, or 0 if there is none.
fn number_at(choices: &[Choice], path: &[u64]) -> u64
    ensures { (step : ℕ) → result ≡ unwrap_or (exact_choice (lines_for step choices.now) step path.now) 0 }
{
    for k in 0..choices.len() {
        let choice = &choices[k];
        if choice.path.as_slice() == path {
            return choice.number;
        }
    }
    0
}

impl<'a> Picks for EdgeScript<'a> {
    ghost script = { λ t. exactly (lines_for 1 t.choices.now) };

    fn pick(&self, step: u64, path: &[u64]) -> u64 {
        if step == 1 {
            return number_at(self.choices, path);
        }
        0
    }
}
