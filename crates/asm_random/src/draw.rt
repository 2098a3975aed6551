//! The text of the script of a run that is drawn.
ghost use Rattle.std.specs.Prelude.{◌≡◌, ◌⊎◌, [], IfNone, IfOk, IfSome};
ghost use Rattle.std.specs.String.{string_bytes};
ghost use Rattle.asm_syntax.specs.code.Views.{spec_of};
ghost use Rattle.asm_check.specs.Faults.{inits};
ghost use Rattle.asm_code.specs.code.RuleViews.{rule_of};
ghost use Rattle.asm_meaning.specs.Declarations.{main_rule, specification_of};
ghost use Rattle.asm_explore.specs.code.ResolvedConditions.{IsCondition, IsSpecified, term_holds};
ghost use Rattle.asm_resolve.specs.code.RuleScopes.{resolved_rule_in};
ghost use Rattle.asm_random.specs.DrawnTexts.{IsDrawnRun, IsDrawnText, IsLongDraw, IsUnsettled};
ghost use Rattle.asm_random.specs.code.Drafts.{draft_lines};
ghost use Rattle.asm_random.specs.code.ResolvedRuns.{right_in, specification_in};
ghost use Rattle.asm_reader.specs.ExactLines.{exactly};

use crate::draw_question::DrawQuestion;
use crate::drawn_run::{FollowedDraft, drawn_run};
use asm_check::Checked;
use asm_code::code::Code;
use asm_code::rule_code::RuleCode;
use asm_explore::condition::condition_code;
use asm_explore::laws::{making_laws, written_law, zeros_law};
use asm_explore::{ResolvedQuestion, Zeros, choices_of_run, lines_of_run, script_text};
use asm_meaning::laws::told_outcomes;
use asm_resolve::main_rule::resolve_main;
use asm_syntax::InputError;
use std::alloc::{AllocError, Global};

/// The text of the script with a line for each choice that the run under the draft makes, unless it
/// takes the first candidate. There is none if the lines are too long for a script.
fn text_of_run(
    alloc: Global,
    specified: &ResolvedQuestion<'_>,
    seed: u64,
    steps: u32,
    run: &FollowedDraft,
) -> Result<Option<String>, AllocError>
    requires { let m = specified.now in IsDrawnRun (specification_in m) m.turns (right_in m) seed steps (exactly (draft_lines run.now.draft)) run.now.steps }
    ensures some { let m = specified.now in
        IfOk result (λ found. IfSome found (λ text. IsDrawnText (specification_in m) m.turns (right_in m) seed steps (string_bytes text))) }
    ensures none { let m = specified.now in
        IfOk result (λ found. IfNone found (IsLongDraw (specification_in m) m.turns (right_in m) seed steps)) }
{
    making_laws();
    told_outcomes();
    zeros_law();
    let (checked, turns) = (specified.checked, specified.turns);
    let made = choices_of_run(alloc, checked, turns, &run.draft, run.steps)?;
    let lines = lines_of_run(alloc, &made)?;
    match script_text(alloc, lines.as_slice(), Zeros::LeftOut) {
        Ok(text) => Ok(Some(text)),
        Err(InputError::Memory) => Err(AllocError),
        Err(InputError::Named(_)) => Ok(None),
    }
}

/// The text of the script of the run that is drawn.
fn text_of_draw(
    alloc: Global,
    specified: &ResolvedQuestion<'_>,
    seed: u64,
    steps: u32,
) -> Result<Option<String>, AllocError>
    requires { IsSpecified specified.now }
    ensures some { let m = specified.now in
        IfOk result (λ found. IfSome found (λ text. IsDrawnText (specification_in m) m.turns (right_in m) seed steps (string_bytes text))) }
    ensures none { let m = specified.now in
        IfOk result (λ found. IfNone found (IsLongDraw (specification_in m) m.turns (right_in m) seed steps ⊎ IsUnsettled (specification_in m) m.turns (right_in m) seed steps)) }
{
    match drawn_run(alloc, specified, seed, steps)? {
        Some(run) => {
            let text = text_of_run(alloc, specified, seed, steps, &run)?;
            Ok(text)
        }
        None => Ok(None),
    }
}

/// The same of a specification whose main rule and whose condition have these codes.
fn text_with(
    alloc: Global,
    checked: &Checked,
    code: &RuleCode,
    always: &Option<Code>,
    question: &DrawQuestion,
) -> Result<Option<String>, AllocError>
    requires main { let s = spec_of checked.now.spec in resolved_rule_in s [] (main_rule s (inits s)) (rule_of code.now) }
    requires always { IsCondition checked.now question.now.always always.now }
    ensures some { let q = question.now in
        IfOk result (λ found. IfSome found (λ text. IsDrawnText (specification_of (spec_of checked.now.spec)) q.turns (term_holds checked.now q.always) q.seed q.steps (string_bytes text))) }
    ensures none { let q = question.now in let s = specification_of (spec_of checked.now.spec) in
        IfOk result (λ found. IfNone found (IsLongDraw s q.turns (term_holds checked.now q.always) q.seed q.steps ⊎ IsUnsettled s q.turns (term_holds checked.now q.always) q.seed q.steps)) }
{
    // Nothing but the condition and the turns is looked at.
    let specified = ResolvedQuestion {
        checked,
        code,
        turns: question.turns,
        limit: 0,
        always,
        within: always,
        when_quiet: always,
    };
    text_of_draw(alloc, &specified, question.seed, question.steps)
}

/// The same of a specification whose main rule has this code.
fn text_by(
    alloc: Global,
    checked: &Checked,
    code: &RuleCode,
    question: &DrawQuestion,
) -> Result<Option<String>, AllocError>
    requires { let s = spec_of checked.now.spec in resolved_rule_in s [] (main_rule s (inits s)) (rule_of code.now) }
    ensures some { let q = question.now in
        IfOk result (λ found. IfSome found (λ text. IsDrawnText (specification_of (spec_of checked.now.spec)) q.turns (term_holds checked.now q.always) q.seed q.steps (string_bytes text))) }
    ensures none { let q = question.now in let s = specification_of (spec_of checked.now.spec) in
        IfOk result (λ found. IfNone found (IsLongDraw s q.turns (term_holds checked.now q.always) q.seed q.steps ⊎ IsUnsettled s q.turns (term_holds checked.now q.always) q.seed q.steps)) }
{
    let always = condition_code(alloc, checked, &question.always)?;
    text_with(alloc, checked, code, &always, question)
}

/// The text of the script of a run whose choices are drawn: those of run 0 of the runs from the
/// seed. It has at most so many steps, and is drawn up to a state in which the condition isn't
/// true, a step that has a fault, or a state from which nothing goes on.
///
/// There is no text if the lines are too long for a script, or the numbers of a step aren't found.
pub fn drawn_text(
    alloc: Global,
    checked: &Checked,
    question: &DrawQuestion,
) -> Result<Option<String>, AllocError>
    ensures some { let q = question.now in
        IfOk result (λ found. IfSome found (λ text. IsDrawnText (specification_of (spec_of checked.now.spec)) q.turns (term_holds checked.now q.always) q.seed q.steps (string_bytes text))) }
    ensures none { let q = question.now in let s = specification_of (spec_of checked.now.spec) in
        IfOk result (λ found. IfNone found (IsLongDraw s q.turns (term_holds checked.now q.always) q.seed q.steps ⊎ IsUnsettled s q.turns (term_holds checked.now q.always) q.seed q.steps)) }
{
    let code = resolve_main(alloc, checked)?;
    let text = text_by(alloc, checked, &code, question);
    drop(code);
    text
}
