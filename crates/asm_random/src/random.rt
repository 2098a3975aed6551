//! Random runs of a checked specification.
ghost use Rattle.std.specs.Prelude.{[], IfOk};
ghost use Rattle.asm_syntax.specs.code.Views.{spec_of};
ghost use Rattle.asm_check.specs.Faults.{inits};
ghost use Rattle.asm_code.specs.code.RuleViews.{rule_of};
ghost use Rattle.asm_meaning.specs.Declarations.{main_rule, specification_of};
ghost use Rattle.asm_explore.specs.code.ResolvedConditions.{term_holds, IsCondition, IsSpecified};
ghost use Rattle.asm_explore.specs.code.MainRule.{IsMainOverLimit};
ghost use Rattle.asm_random.specs.RandomResults.{Claims, Counts};
ghost use Rattle.asm_random.specs.code.ResolvedRuns.{CanRun, crowds_in, rests_in, right_in, specification_in};
ghost use Rattle.asm_resolve.specs.code.RuleScopes.{resolved_rule_in};

use crate::bad_draft::BadDraft;
use crate::bad_end::BadEnd;
use crate::finding::{ShortFinding, short_finding};
use crate::progress::RandomProgress;
use crate::question::RandomQuestion;
use crate::random_result::{RandomFinding, RandomResult};
use crate::random_run::{DrawnRun, random_run};
use crate::random_source::RandomSource;
use asm_check::Checked;
use asm_code::code::Code;
use asm_code::rule_code::RuleCode;
use asm_explore::condition::condition_code;
use asm_explore::{Machine, ResolvedQuestion, Watch};
use asm_resolve::main_rule::resolve_main;
use asm_state::state::State;
use std::alloc::{AllocError, Global};

/// Makes runs until one goes wrong.
fn runs_of<W: Watch<RandomProgress>>(
    alloc: Global,
    specified: &ResolvedQuestion<'_>,
    question: &RandomQuestion,
    watch: &mut W,
) -> Result<RandomResult, AllocError>
    requires { CanRun specified.now }
    ensures claims { let m = specified.now in
        IfOk result (λ answer. Claims (specification_in m) m.turns (crowds_in m) question.now.steps (right_in m) (rests_in m) answer.finding) }
    ensures counts { let m = specified.now in
        IfOk result (λ answer. Counts (specification_in m) m.turns (crowds_in m) question.now.steps (right_in m) (rests_in m) question.now.runs answer.runs answer.steps answer.finding) }
{
    let mut made = 0u64;
    for number in 0..question.runs {
        let source = RandomSource {
            seed: question.seed,
            run: u64::from(number),
        };
        let DrawnRun {
            draft,
            steps,
            fault,
        } = random_run(alloc, specified, source, question.steps)?;
        made += u64::from(steps);
        watch.tell(RandomProgress {
            runs: number + 1,
            steps: made,
        });
        if let Some(fault) = fault {
            let wrong = BadEnd { step: steps, fault };
            let run = BadDraft { draft, wrong };
            let ShortFinding { finding, shortest } = short_finding(alloc, specified, number, run)?;
            return Ok(RandomResult {
                finding,
                runs: number + 1,
                steps: made,
                shortest,
            });
        }
    }
    Ok(RandomResult {
        finding: RandomFinding::Nothing,
        runs: question.runs,
        steps: made,
        shortest: true,
    })
}

/// Makes runs, unless the first state isn't right.
fn result_of_runs<W: Watch<RandomProgress>>(
    alloc: Global,
    specified: &ResolvedQuestion<'_>,
    question: &RandomQuestion,
    watch: &mut W,
) -> Result<RandomResult, AllocError>
    requires { IsSpecified specified.now }
    ensures claims { let m = specified.now in
        IfOk result (λ answer. Claims (specification_in m) m.turns (crowds_in m) question.now.steps (right_in m) (rests_in m) answer.finding) }
    ensures counts { let m = specified.now in
        IfOk result (λ answer. Counts (specification_in m) m.turns (crowds_in m) question.now.steps (right_in m) (rests_in m) question.now.runs answer.runs answer.steps answer.finding) }
{
    let initial = State::initial(alloc, specified.checked.signature())?;
    if !specified.is_right(alloc, &initial) {
        return Ok(RandomResult {
            finding: RandomFinding::WrongFirst,
            runs: 0,
            steps: 0,
            shortest: true,
        });
    }
    runs_of(alloc, specified, question, watch)
}

/// Makes random runs of a specification whose main rule and whose condition have these codes.
fn runs_with<W: Watch<RandomProgress>>(
    alloc: Global,
    checked: &Checked,
    code: &RuleCode,
    always: &Option<Code>,
    question: &RandomQuestion,
    watch: &mut W,
) -> Result<RandomResult, AllocError>
    requires main { let s = spec_of checked.now.spec in resolved_rule_in s [] (main_rule s (inits s)) (rule_of code.now) }
    requires always { IsCondition checked.now question.now.always always.now }
    ensures claims { let q = question.now in
        IfOk result (λ answer. Claims (specification_of (spec_of checked.now.spec)) q.turns (IsMainOverLimit checked.now q.turns q.outcomes) q.steps (term_holds checked.now q.always) (term_holds checked.now q.when_quiet) answer.finding) }
    ensures counts { let q = question.now in
        IfOk result (λ answer. Counts (specification_of (spec_of checked.now.spec)) q.turns (IsMainOverLimit checked.now q.turns q.outcomes) q.steps (term_holds checked.now q.always) (term_holds checked.now q.when_quiet) q.runs answer.runs answer.steps answer.finding) }
{
    let when_quiet = condition_code(alloc, checked, &question.when_quiet)?;
    // Runs are followed from each state.
    let specified = ResolvedQuestion {
        checked,
        code,
        turns: question.turns,
        limit: question.outcomes,
        always,
        within: always,
        when_quiet: &when_quiet,
    };
    result_of_runs(alloc, &specified, question, watch)
}

/// Makes random runs of a specification whose main rule has this code.
fn runs_by<W: Watch<RandomProgress>>(
    alloc: Global,
    checked: &Checked,
    code: &RuleCode,
    question: &RandomQuestion,
    watch: &mut W,
) -> Result<RandomResult, AllocError>
    requires { let s = spec_of checked.now.spec in resolved_rule_in s [] (main_rule s (inits s)) (rule_of code.now) }
    ensures claims { let q = question.now in
        IfOk result (λ answer. Claims (specification_of (spec_of checked.now.spec)) q.turns (IsMainOverLimit checked.now q.turns q.outcomes) q.steps (term_holds checked.now q.always) (term_holds checked.now q.when_quiet) answer.finding) }
    ensures counts { let q = question.now in
        IfOk result (λ answer. Counts (specification_of (spec_of checked.now.spec)) q.turns (IsMainOverLimit checked.now q.turns q.outcomes) q.steps (term_holds checked.now q.always) (term_holds checked.now q.when_quiet) q.runs answer.runs answer.steps answer.finding) }
{
    let always = condition_code(alloc, checked, &question.always)?;
    runs_with(alloc, checked, code, &always, question, watch)
}

/// Makes random runs of a specification, until one goes wrong: by a clash, by an update outside its
/// domain, by an `iterate` that is exhausted, in a state in which the condition isn't true, or in a
/// deadlock. That one is made shorter.
///
/// Runs and steps depend on the question alone, and are the same on every machine. After each run
/// the watch is told how many there were.
pub fn random_runs<W: Watch<RandomProgress>>(
    alloc: Global,
    checked: &Checked,
    question: &RandomQuestion,
    watch: &mut W,
) -> Result<RandomResult, AllocError>
    ensures claims { let q = question.now in
        IfOk result (λ answer. Claims (specification_of (spec_of checked.now.spec)) q.turns (IsMainOverLimit checked.now q.turns q.outcomes) q.steps (term_holds checked.now q.always) (term_holds checked.now q.when_quiet) answer.finding) }
    ensures counts { let q = question.now in
        IfOk result (λ answer. Counts (specification_of (spec_of checked.now.spec)) q.turns (IsMainOverLimit checked.now q.turns q.outcomes) q.steps (term_holds checked.now q.always) (term_holds checked.now q.when_quiet) q.runs answer.runs answer.steps answer.finding) }
{
    let code = resolve_main(alloc, checked)?;
    runs_by(alloc, checked, &code, question, watch)
}
