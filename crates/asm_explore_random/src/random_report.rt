//! What is printed of random runs.
ghost use Rattle.std.specs.Prelude.{◌≡◌, List, IfErr, IfOk};
ghost use Rattle.asm_state.specs.declared.operation.Op.{Op};
ghost use Rattle.asm_syntax.specs.code.Views.{spec_of};
ghost use Rattle.asm_syntax.specs.declared.term.Term.{Term as Code};
ghost use Rattle.asm_run.specs.Headline.{IsAccepted};
ghost use Rattle.asm_explore_texts.specs.code.CodedConditions.{IsJoined, terms_in};
ghost use Rattle.asm_explore_random.specs.code.CodedRuns.{IsAskedBy, plain};
ghost use Rattle.asm_explore_texts.specs.Comments.{lines_of};
ghost use Rattle.asm_explore_random.specs.RandomReport.{ExplainsRandom, IsRandomReport, IsRandomReported, RandomTells, random_line, random_status};

use crate::random_asked::{CheckedRandomQuestion, ask_random};
use crate::random_facts::{random_facts, shown_run};
use asm_explore::Watch;
use asm_explore_report::facts::behind;
use asm_explore_report::fault_words::{Subject, UNWRITTEN, bad_words, first_words};
use asm_explore_report::first_line::{of_fault, of_first};
use asm_explore_report::laws::all_asked_law;
use asm_explore_report::report::Report;
use asm_explore_report::told::Told;
use asm_explore_run::printed_run::{FoundRun, RunParts, printed_run};
use asm_explore_texts::conditions::Conditions;
use asm_explore_words::fault::{Fault, Unshown};
use asm_explore_words::settings::RandomSettings;
use asm_random::{RandomFinding, RandomProgress, RandomResult, random_runs};
use std::alloc::{AllocError, Global};
use std::thread::Threads;

/// The status of what is found.
fn status_of(finding: &RandomFinding) -> u8
    ensures { result ≡ random_status finding.now }
{
    match finding {
        RandomFinding::Nothing => 0,
        RandomFinding::Bad { .. } | RandomFinding::WrongFirst | RandomFinding::Unwritten(_) => 1,
    }
}

/// The words for the fault that is found, if there is one.
fn words_of<R: Threads + Sync>(
    rt: &R,
    alloc: Global,
    text: &[u8],
    subject: &Subject<'_>,
    finding: &RandomFinding,
) -> Result<Told, Unshown>
    ensures { (links : List (Op × Code)) → IsJoined links subject.now.always.now → IsAccepted text.now (spec_of subject.now.checked.now.spec) →
        IfOk result (λ told. RandomTells (spec_of subject.now.checked.now.spec) (terms_in links) subject.now.turns finding.now told.words.items (lines_of told.because.items)) }
{
    match finding {
        RandomFinding::Nothing => Ok(Told::alone(alloc, Vec::new(alloc))),
        RandomFinding::Bad { bad, .. } => bad_words(rt, alloc, text, subject, bad),
        RandomFinding::WrongFirst => first_words(alloc, subject),
        RandomFinding::Unwritten(_) => {
            let words = Vec::from_slice(alloc, UNWRITTEN)?;
            Ok(Told::alone(alloc, words))
        }
    }
}

/// What is found by `runs` runs of at most `steps` steps, in a line. These words describe the
/// fault, if there is one.
fn line_of(
    alloc: Global,
    runs: u32,
    steps: u32,
    finding: &RandomFinding,
    words: &[u8],
) -> Result<Vec<u8>, AllocError>
    ensures { IfOk result (λ line. line.items ≡ random_line runs steps finding.now words.now) }
{
    match finding {
        RandomFinding::Nothing => {
            Ok(format!(in alloc; "no fault in {runs} runs of at most {steps} steps")?.into_bytes())
        }
        RandomFinding::Bad { bad, .. } => of_fault(alloc, bad.fault, bad.step, words),
        RandomFinding::WrongFirst => of_first(alloc, words),
        RandomFinding::Unwritten(unwritten) => {
            of_fault(alloc, unwritten.fault, unwritten.step, words)
        }
    }
}

/// What is printed of a result for what was asked of random runs.
fn printed_of<R: Threads + Sync>(
    rt: &R,
    alloc: Global,
    text: &[u8],
    asked: &CheckedRandomQuestion,
    conditions: &Conditions<'_>,
    settings: &RandomSettings<'_>,
    answer: &RandomResult,
) -> Result<Vec<u8>, Unshown>
    requires accepted { IsAccepted text.now (spec_of asked.now.checked.spec) }
    ensures { (links : List (Op × Code)) → IsJoined links asked.now.question.always →
        IfOk result (λ whole. IsRandomReport text.now conditions.now settings.now (plain asked.now) (terms_in links) answer.now whole.items) }
{
    let finding = &answer.finding;
    let subject = Subject {
        checked: &asked.checked,
        always: &asked.question.always,
        turns: asked.question.turns,
    };
    let steps = asked.question.steps;
    let Told { words, because } = words_of(rt, alloc, text, &subject, finding)?;
    let first = line_of(alloc, answer.runs, steps, finding, words.as_slice())?;
    let facts = random_facts(alloc, conditions, settings, answer)?;
    let lines = behind(because, facts)?;
    let found = FoundRun {
        text,
        checked: &asked.checked,
        turns: asked.question.turns,
        shown: shown_run(finding),
    };
    let parts = RunParts {
        table: settings.table,
        trace: settings.trace,
    };
    let whole = printed_run(rt, alloc, found, parts, first.as_slice(), lines.as_slice())?;
    Ok(whole)
}

/// What is printed of random runs that are asked for, and the status of that.
fn reported<'w, R: Threads + Sync, W: Watch<RandomProgress>>(
    rt: &R,
    alloc: Global,
    text: &[u8],
    asked: &CheckedRandomQuestion,
    conditions: &Conditions<'w>,
    settings: &RandomSettings<'w>,
    watch: &mut W,
) -> Result<Report, Fault<'w>>
    requires asked { IsAskedBy text.now conditions.now settings.now asked.now }
    ensures reported { IfOk result (IsRandomReported text.now conditions.now settings.now) }
    ensures explained { IfErr result (ExplainsRandom text.now conditions.now settings.now) }
{
    all_asked_law();
    let answer = random_runs(alloc, &asked.checked, &asked.question, watch)?;
    let text = printed_of(rt, alloc, text, asked, conditions, settings, &answer)?;
    let status = status_of(&answer.finding);
    Ok(Report { text, status })
}

/// What is printed of random runs of the specification with this text, and the status of that.
pub fn random_report<'w, R: Threads + Sync, W: Watch<RandomProgress>>(
    rt: &R,
    alloc: Global,
    text: &[u8],
    conditions: &Conditions<'w>,
    settings: &RandomSettings<'w>,
    watch: &mut W,
) -> Result<Report, Fault<'w>>
    ensures reported { IfOk result (IsRandomReported text.now conditions.now settings.now) }
    ensures explained { IfErr result (ExplainsRandom text.now conditions.now settings.now) }
{
    let asked = ask_random(alloc, text, conditions, settings)?;
    let report = reported(rt, alloc, text, &asked, conditions, settings, watch);
    drop(asked);
    report
}
