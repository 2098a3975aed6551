//! The reports that words ask for.
ghost use Rattle.std.specs.Prelude.{◌≡◌, ◌⊎◌, [], false, Ok, Err, IfOk, IfErr};
ghost use Rattle.asm_explore_words.specs.declared.fault.Fault.{Fault as Cause};
ghost use Rattle.asm_explore_tool.specs.Faults.{IsToldOf, IsUnread};
ghost use Rattle.asm_explore_tool.specs.GivenTexts.{IsRead};
ghost use Rattle.asm_explore_tool.specs.Outputs.{ExplainsRunTask, ExplainsShowTask, ExplainsTask, IsFaultOfAll, IsFaultOfRandom, IsReportOf, IsReportOfAll, IsReportOfRandom, IsReportOfRun, IsReportOfShow};
ghost use Rattle.asm_explore_all.specs.MadeFiles.{Makes};
ghost use Rattle.asm_explore_run.specs.RunReport.{AreChoicesReported, IsClashReported};
ghost use Rattle.asm_explore_words.specs.WordsSaid.{reads_input_twice, reads_task_twice};

use crate::given_texts::{conditions, random_conditions, text};
use crate::no_answer::NoAnswer;
use crate::progress_lines::ProgressLines;
use crate::run_texts::{GivenRun, given_run};
use asm_explore::{Progress, Watch};
use asm_explore_all::all_report::all_report;
use asm_explore_all::files::NewFiles;
use asm_explore_random::random_report::random_report;
use asm_explore_report::report::Report;
use asm_explore_run::choices_report::choices_report;
use asm_explore_run::clash_report::clash_report;
use asm_explore_run::show_report::show_report;
use asm_explore_words::fault::{Fault, Source};
use asm_explore_words::settings::{RandomSettings, RunQuestion, Settings, ShowSettings, Task};
use asm_files::folder::Folder;
use asm_random::RandomProgress;
use asm_run::sink::Sink;
use std::alloc::Global;
use std::io::Read;
use std::thread::Threads;
use std::time::Clock;

/// The report for a command with its settings.
#[tactic(auto, using(crate::proofs::NoFiles::makes_none))]
pub(crate) fn report<'w, R: Threads + Clock + Sync, F: Folder + NewFiles, I: Read + Drop, E: Sink>(
    rt: &R,
    folder: &mut F,
    alloc: Global,
    task: &Task<'w>,
    input: I,
    lines: &mut ProgressLines<'_, R, E>,
) -> Result<Report, NoAnswer<'w>>
    requires { reads_task_twice task.now ≡ false }
    ensures report { IfOk result (IsReportOf (F.contents folder.old) (I.remaining input) (F.made folder.old) (F.made folder.new) task.now) }
    ensures explained { IfErr result (ExplainsTask (F.contents folder.old) (I.remaining input) (F.made folder.old) (F.made folder.new) task.now) }
{
    match task {
        Task::All(settings) => {
            lines.begin(settings.progress);
            report_of_all(rt, folder, alloc, settings, input, lines)
        }
        Task::Random(settings) => {
            lines.begin(settings.progress);
            report_of_random(rt, folder, alloc, settings, input, lines)
        }
        Task::Choices(question) => report_of_choices(rt, folder, alloc, question, input),
        Task::Clash(question) => report_of_clash(rt, folder, alloc, question, input),
        Task::Show(settings) => report_of_show(rt, folder, alloc, settings, input),
    }
}

/// The choices of the run that settings ask for.
fn report_of_choices<'w, R: Threads + Sync, F: Folder, I: Read + Drop>(
    rt: &R,
    folder: &F,
    alloc: Global,
    question: &RunQuestion<'w>,
    input: I,
) -> Result<Report, NoAnswer<'w>>
    requires { reads_input_twice question.now.run ≡ false }
    ensures report { IfOk result (IsReportOfRun (F.contents folder.now) (I.remaining input) AreChoicesReported question.now) }
    ensures explained { IfErr result (ExplainsRunTask (F.contents folder.now) (I.remaining input) question.now) }
{
    let names = question.always_files.as_slice();
    let given = given_run(
        folder,
        alloc,
        &question.run,
        question.always.as_slice(),
        names,
        input,
    )?;
    let GivenRun {
        text,
        conditions,
        run,
        script,
    } = given;
    let (bytes, asked) = (text.as_slice(), conditions.as_slice());
    let script = script.as_slice();
    let report = choices_report(rt, alloc, bytes, script, asked, &run);
    told(report, text)
}

/// The assignments by which the run ends that settings ask for.
fn report_of_clash<'w, R: Threads + Sync, F: Folder, I: Read + Drop>(
    rt: &R,
    folder: &F,
    alloc: Global,
    question: &RunQuestion<'w>,
    input: I,
) -> Result<Report, NoAnswer<'w>>
    requires { reads_input_twice question.now.run ≡ false }
    ensures report { IfOk result (IsReportOfRun (F.contents folder.now) (I.remaining input) IsClashReported question.now) }
    ensures explained { IfErr result (ExplainsRunTask (F.contents folder.now) (I.remaining input) question.now) }
{
    let names = question.always_files.as_slice();
    let given = given_run(
        folder,
        alloc,
        &question.run,
        question.always.as_slice(),
        names,
        input,
    )?;
    let GivenRun {
        text,
        conditions,
        run,
        script,
    } = given;
    let (bytes, asked) = (text.as_slice(), conditions.as_slice());
    let script = script.as_slice();
    let report = clash_report(rt, alloc, bytes, script, asked, &run);
    told(report, text)
}

/// The table of the run that settings ask for.
fn report_of_show<'w, R: Threads + Sync, F: Folder, I: Read + Drop>(
    rt: &R,
    folder: &F,
    alloc: Global,
    settings: &ShowSettings<'w>,
    input: I,
) -> Result<Report, NoAnswer<'w>>
    requires { reads_input_twice settings.now.run ≡ false }
    ensures report { IfOk result (IsReportOfShow (F.contents folder.now) (I.remaining input) settings.now) }
    ensures explained { IfErr result (ExplainsShowTask (F.contents folder.now) (I.remaining input) settings.now) }
{
    let names = settings.always_files.as_slice();
    let given = given_run(
        folder,
        alloc,
        &settings.run,
        settings.always.as_slice(),
        names,
        input,
    )?;
    let GivenRun {
        text,
        conditions,
        run,
        script,
    } = given;
    let (bytes, asked) = (text.as_slice(), conditions.as_slice());
    let script = script.as_slice();
    let report = show_report(rt, alloc, bytes, script, asked, &run, settings);
    told(report, text)
}

/// The report for settings of `all`.
#[tactic(auto, using(crate::proofs::NoFiles::makes_none))]
fn report_of_all<'w, R: Threads + Sync, F: Folder + NewFiles, I: Read + Drop, W: Watch<Progress>>(
    rt: &R,
    folder: &mut F,
    alloc: Global,
    settings: &Settings<'w>,
    input: I,
    watch: &mut W,
) -> Result<Report, NoAnswer<'w>>
    ensures report { IfOk result (IsReportOfAll (F.contents folder.old) (I.remaining input) (F.made folder.old) (F.made folder.new) settings.now) }
    ensures explained { IfErr result (λ fault. (IsUnread (IsRead settings.now.spec settings.now.always_files.items) fault × Makes (F.made folder.old) (F.made folder.new) [])
        ⊎ IsFaultOfAll (F.contents folder.old) (I.remaining input) (F.made folder.old) (F.made folder.new) settings.now fault) }
{
    let spec = settings.spec;
    let text = text(folder, alloc, Source::Specification(spec), spec, input)?;
    let conditions = conditions(folder, alloc, settings)?;
    let bytes = text.as_slice();
    let report = all_report(rt, folder, alloc, bytes, &conditions, settings, watch);
    told(report, text)
}

/// The report for settings of `random`.
fn report_of_random<'w, R: Threads + Sync, F: Folder, I: Read + Drop, W: Watch<RandomProgress>>(
    rt: &R,
    folder: &F,
    alloc: Global,
    settings: &RandomSettings<'w>,
    input: I,
    watch: &mut W,
) -> Result<Report, NoAnswer<'w>>
    ensures report { IfOk result (IsReportOfRandom (F.contents folder.now) (I.remaining input) settings.now) }
    ensures explained { IfErr result (λ fault. IsUnread (IsRead settings.now.spec settings.now.always_files.items) fault ⊎ IsFaultOfRandom (F.contents folder.now) (I.remaining input) settings.now fault) }
{
    let spec = settings.spec;
    let text = text(folder, alloc, Source::Specification(spec), spec, input)?;
    let conditions = random_conditions(folder, alloc, settings)?;
    let bytes = text.as_slice();
    let report = random_report(rt, alloc, bytes, &conditions, settings, watch);
    told(report, text)
}

/// A report for a specification with this text, or why there is none.
fn told<'w>(report: Result<Report, Fault<'w>>, text: Vec<u8>) -> Result<Report, NoAnswer<'w>>
    ensures report { IfOk result (λ made. report.entry ≡ Ok made) }
    ensures explained { IfErr result (λ fault. (cause : Cause) × (report.entry ≡ Err cause) × IsToldOf text.items cause fault) }
{
    match report {
        Ok(report) => Ok(report),
        Err(fault) => Err(NoAnswer::of_report(fault, text)),
    }
}
