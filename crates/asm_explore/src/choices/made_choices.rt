//! The choices of a run, without their candidates, which may take much room.
ghost use Rattle.std.specs.Prelude.{◌≡◌, [], IfOk};
ghost use Rattle.asm_syntax.specs.code.Views.{spec_of};
ghost use Rattle.asm_check.specs.Faults.{inits};
ghost use Rattle.asm_meaning.specs.Declarations.{main_rule, specification_of};
ghost use Rattle.asm_code.specs.code.RuleViews.{rule_of};
ghost use Rattle.asm_resolve.specs.code.RuleScopes.{resolved_rule_in};
ghost use Rattle.asm_explore.specs.RunChoices.{choices_in, choices_made, chosen_from, of_run};

use crate::choices::choice_point::ChoicePoint;
use crate::choices::run_choices::{RunChoices, make_step};
use crate::outcomes::listed_outcome::copy_choice;
use asm_check::Checked;
use asm_code::rule_code::RuleCode;
use asm_eval::Choices;
use asm_reader::Picks;
use asm_state::state::State;
use std::alloc::{AllocError, Global};

/// The same choices without their candidates.
fn without_candidates(alloc: Global, asked: &[ChoicePoint]) -> Result<Vec<ChoicePoint>, AllocError>
    ensures { IfOk result (λ made. choices_made made.items ≡ choices_made asked.now) }
{
    let mut made = Vec::new(alloc);
    for k in 0..asked.len() {
        let choice = copy_choice(alloc, &asked[k].choice)?;
        let candidates = Vec::new(alloc);
        made.push(ChoicePoint { choice, candidates })?;
    }
    Ok(made)
}

/// The choices of each step of the run under a script, of at most `steps` steps.
pub(crate) fn made_by_run<P: Picks>(
    alloc: Global,
    checked: &Checked,
    code: &RuleCode,
    turns: u32,
    script: &P,
    steps: u32,
) -> Result<RunChoices, AllocError>
    requires main { let s = spec_of checked.now.spec in resolved_rule_in s [] (main_rule s (inits s)) (rule_of code.now) }
    ensures { let s = spec_of checked.now.spec in
        IfOk result (λ run. choices_in run ≡ of_run (specification_of s) turns (chosen_from (specification_of s) turns) (P.script script.now) steps) }
{
    let mut state = State::initial(alloc, checked.signature())?;
    let mut all = Vec::new(alloc);
    for done in 0..steps {
        let choices = Choices {
            script,
            step: u64::from(done) + 1,
        };
        let mut asked = Vec::new(alloc);
        let next = make_step(alloc, checked, code, turns, &choices, &state, &mut asked)?;
        let made = without_candidates(alloc, asked.as_slice())?;
        all.push(made)?;
        match next {
            Some(later) => state = later,
            None => return Ok(RunChoices { steps: all }),
        }
    }
    Ok(RunChoices { steps: all })
}
