//! The choices of some steps, as a script.
ghost use Rattle.std.specs.Prelude.{◌≡◌, ℕ, map, unwrap_or};
ghost use Rattle.asm_reader.specs.ExactLines.{exactly};
ghost use Rattle.asm_reader.specs.ScriptLines.{exact_choice};
ghost use Rattle.asm_explore.specs.ChoiceLines.{lines_for, lines_of};

use crate::outcomes::listed_outcome::Choice;
use asm_reader::Picks;

/// A script that makes the choices of some steps.
#[derive(Clone, Copy)]
pub(crate) struct TrailScript<'a> {
    /// Those of the last step come first.
    pub(crate) back: &'a [Vec<Choice>],
}

/// The number of the first of these choices at the path, or 0 if there is none.
fn number_at(choices: &[Choice], path: &[u64]) -> u64
    ensures { (step : ℕ) → result ≡ unwrap_or (exact_choice (lines_for step choices.now) step path.now) 0 }
{
    for k in 0..choices.len() {
        let choice = &choices[k];
        if choice.path.as_slice() == path {
            return choice.number;
        }
    }
    0
}

impl<'a> Picks for TrailScript<'a> {
    ghost script = { λ t. exactly (lines_of (map (λ cs. cs.items) t.back.now)) };

    fn pick(&self, step: u64, path: &[u64]) -> u64 {
        let back = self.back;
        if step == 0 {
            return 0;
        }
        if step > back.len() as u64 {
            return 0;
        }
        number_at(back[back.len() - step as usize].as_slice(), path)
    }
}
