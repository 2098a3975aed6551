//! The choices of a run, step by step.
ghost use Rattle.std.specs.Prelude.{◌≡◌, ◌++◌, [], length, IfOk, IfSome, OnOk};
ghost use Rattle.asm_state.specs.Signature.{count_of, state_of};
ghost use Rattle.asm_syntax.specs.code.Views.{spec_of};
ghost use Rattle.asm_check.specs.Faults.{inits};
ghost use Rattle.asm_check.specs.Shapes.{shape_of};
ghost use Rattle.asm_meaning.specs.Declarations.{main_rule, specification_of};
ghost use Rattle.asm_code.specs.code.RuleViews.{rule_of};
ghost use Rattle.asm_resolve.specs.code.RuleScopes.{resolved_rule_in};
ghost use Rattle.asm_step.specs.code.Steps.{HasMainRule, shape_in, specification_in};
ghost use Rattle.asm_explore.specs.code.AskedPieces.{all_said};
ghost use Rattle.asm_explore.specs.code.StepLeads.{LeadsTo, situation_of};
ghost use Rattle.asm_explore.specs.code.ReachedStates.{steps_from};
ghost use Rattle.asm_explore.specs.RunChoices.{AreAsked, AreChoices, MakesTheRun, asked_from, asked_in, choices_in, choices_made, lines_forward, of_run};
ghost use Rattle.asm_explore.specs.ChoiceLines.{lines_for};
ghost use Rattle.asm_explore.specs.WrittenScripts.{AreSteps, lines_said};

use crate::choices::ask_choices::add_asked;
use crate::choices::choice_point::ChoicePoint;
use crate::scripts::script_line::ScriptLine;
use asm_check::Checked;
use asm_code::rule_code::RuleCode;
use asm_eval::evaluation::Evaluation;
use asm_eval::frame::Frame;
use asm_eval::piece::Piece;
use asm_eval::{Choices, Part, Path, View};
use asm_reader::Picks;
use asm_resolve::laws::resolving_laws;
use asm_resolve::main_rule::resolve_main;
use asm_state::state::State;
use asm_step::{ResolvedSpecification, Step};
use asm_updates::summary::Summary;
use std::alloc::{AllocError, Global};

/// The choices of the steps of a run, with their candidates, those of the first step first. The step
/// that ends the run is among them.
#[derive(Drop)]
pub struct RunChoices {
    pub steps: Vec<Vec<ChoicePoint>>,
}

/// Adds what is asked in the step from a state.
fn add_asked_in_step<P: Picks>(
    alloc: Global,
    resolved: &ResolvedSpecification<'_>,
    choices: &Choices<'_, P>,
    state: &State,
    asked: &mut Vec<ChoicePoint>,
) -> Result<(), AllocError>
    requires main { HasMainRule resolved.now }
    requires whole { length state.now ≡ count_of (shape_in resolved.now) }
    ensures { let m = resolved.now in
        OnOk result (all_said asked.new.items ≡ all_said asked.old.items ++ asked_from (specification_in m) m.turns (state_of (shape_in m) state.now) (situation_of P.script choices.now)) }
{
    resolving_laws();
    let signature = resolved.checked.signature();
    let nothing = Summary::new(alloc, signature.count());
    let view = View::new(signature, state, &nothing);
    let evaluation = Evaluation {
        view: &view,
        choices,
        turns: resolved.turns,
    };
    let piece = Piece {
        rule: resolved.code,
        frame: Frame::Empty,
        path: Path::new(Vec::new(alloc)),
        part: Part::Whole,
    };
    add_asked(alloc, &evaluation, &piece, asked)
}

/// Adds what is asked in the step from a state, and returns the state that the step leads to,
/// unless the run ends in it.
pub(crate) fn make_step<P: Picks>(
    alloc: Global,
    checked: &Checked,
    code: &RuleCode,
    turns: u32,
    choices: &Choices<'_, P>,
    state: &State,
    asked: &mut Vec<ChoicePoint>,
) -> Result<Option<State>, AllocError>
    requires main { let s = spec_of checked.now.spec in resolved_rule_in s [] (main_rule s (inits s)) (rule_of code.now) }
    requires whole { length state.now ≡ count_of (shape_of (spec_of checked.now.spec)) }
    ensures whole { IfOk result (λ next. IfSome next (λ s. length s ≡ count_of (shape_of (spec_of checked.now.spec)))) }
    ensures asked { let s = spec_of checked.now.spec in
        OnOk result (all_said asked.new.items ≡ all_said asked.old.items ++ asked_from (specification_of s) turns (state_of (shape_of s) state.now) (situation_of P.script choices.now)) }
    ensures leads { let s = spec_of checked.now.spec in
        let A = state_of (shape_of s) state.now in
        IfOk result (LeadsTo (shape_of s) A (steps_from (specification_of s) turns A (situation_of P.script choices.now))) }
{
    let resolved = ResolvedSpecification {
        checked,
        code,
        turns,
    };
    add_asked_in_step(alloc, &resolved, choices, state, asked)?;
    let made = asm_step::make_step(alloc, &resolved, choices, state)?;
    match made {
        Step::Next(next) => Ok(Some(next)),
        Step::Faulty(_) => Ok(None),
        Step::Exhausted(_) => Ok(None),
    }
}

/// What is asked in the step from a state: the choices that the main rule makes, whose code this is,
/// in their order, each with its candidates.
pub fn choices_of_step<P: Picks>(
    alloc: Global,
    checked: &Checked,
    code: &RuleCode,
    turns: u32,
    choices: &Choices<'_, P>,
    state: &State,
) -> Result<Vec<ChoicePoint>, AllocError>
    requires main { let s = spec_of checked.now.spec in resolved_rule_in s [] (main_rule s (inits s)) (rule_of code.now) }
    requires whole { length state.now ≡ count_of (shape_of (spec_of checked.now.spec)) }
    ensures { let s = spec_of checked.now.spec in
        IfOk result (λ asked. all_said asked.items ≡ asked_from (specification_of s) turns (state_of (shape_of s) state.now) (situation_of P.script choices.now)) }
{
    let resolved = ResolvedSpecification {
        checked,
        code,
        turns,
    };
    let mut asked = Vec::new(alloc);
    add_asked_in_step(alloc, &resolved, choices, state, &mut asked)?;
    Ok(asked)
}

/// What is asked in each step of the run under a script, of at most `steps` steps.
fn asked_by_run<P: Picks>(
    alloc: Global,
    checked: &Checked,
    code: &RuleCode,
    turns: u32,
    script: &P,
    steps: u32,
) -> Result<RunChoices, AllocError>
    requires main { let s = spec_of checked.now.spec in resolved_rule_in s [] (main_rule s (inits s)) (rule_of code.now) }
    ensures { let s = spec_of checked.now.spec in
        IfOk result (λ run. asked_in run ≡ of_run (specification_of s) turns (asked_from (specification_of s) turns) (P.script script.now) steps) }
{
    let mut state = State::initial(alloc, checked.signature())?;
    let mut all = Vec::new(alloc);
    for done in 0..steps {
        let choices = Choices {
            script,
            step: u64::from(done) + 1,
        };
        let mut asked = Vec::new(alloc);
        let next = make_step(alloc, checked, code, turns, &choices, &state, &mut asked)?;
        all.push(asked)?;
        match next {
            Some(later) => state = later,
            None => return Ok(RunChoices { steps: all }),
        }
    }
    Ok(RunChoices { steps: all })
}

/// The choices of the run of a specification under a script, of at most `steps` steps, as the rule
/// that it starts with makes them. A line for each of them makes just this run.
pub fn choices_of_run<P: Picks>(
    alloc: Global,
    checked: &Checked,
    turns: u32,
    script: &P,
    steps: u32,
) -> Result<RunChoices, AllocError>
    ensures asked { IfOk result (λ run. AreAsked (spec_of checked.now.spec) turns (P.script script.now) steps (asked_in run)) }
    ensures choices { IfOk result (λ run. AreChoices (spec_of checked.now.spec) turns (P.script script.now) steps (choices_in run)) }
    ensures again { IfOk result (λ run. MakesTheRun (specification_of (spec_of checked.now.spec)) turns (P.script script.now) steps (lines_forward (choices_in run))) }
{
    let code = resolve_main(alloc, checked)?;
    match asked_by_run(alloc, checked, &code, turns, script, steps) {
        Ok(choices) => {
            drop(code);
            Ok(choices)
        }
        Err(refused) => {
            drop(code);
            Err(refused)
        }
    }
}

/// Adds a line for each choice of a step.
fn add_lines<'a>(
    lines: &mut Vec<ScriptLine<'a>>,
    step: u64,
    asked: &'a [ChoicePoint],
) -> Result<(), AllocError>
    ensures { OnOk result (lines_said lines.new.items ≡ lines_said lines.old.items ++ lines_for step (choices_made asked.now)) }
{
    for k in 0..asked.len() {
        let choice = &asked[k].choice;
        lines.push(ScriptLine {
            step,
            path: choice.path.as_slice(),
            number: choice.number,
        })?;
    }
    Ok(())
}

/// A line for each choice of a run.
pub fn lines_of_run<'a>(
    alloc: Global,
    run: &'a RunChoices,
) -> Result<Vec<ScriptLine<'a>>, AllocError>
    ensures lines { IfOk result (λ lines. lines_said lines.items ≡ lines_forward (choices_in run.now)) }
    ensures steps { IfOk result (λ lines. AreSteps (lines_said lines.items)) }
{
    let mut lines = Vec::new(alloc);
    let steps = run.steps.as_slice();
    for k in 0..steps.len() {
        add_lines(&mut lines, k as u64 + 1, steps[k].as_slice())?;
    }
    Ok(lines)
}
