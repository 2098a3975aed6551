//! The graph of states, written to a file.
ghost use Rattle.std.specs.Prelude.{◌≡◌, ◌∷◌, [], ℕ, List, length, option_map, IfErr, IfOk, OnOk};
ghost use Rattle.std.specs.String.{string_bytes};
ghost use Rattle.asm_state.specs.Signature.{count_of};
ghost use Rattle.asm_syntax.specs.code.Views.{spec_of};
ghost use Rattle.asm_reader.specs.ScriptText.{IsScript};
ghost use Rattle.asm_check.specs.Shapes.{shape_of};
ghost use Rattle.asm_explore.specs.ListElements.{Each};
ghost use Rattle.asm_graph.specs.code.EdgeMarks.{AreMarks};
ghost use Rattle.asm_graph.specs.declared.graph.Node.{Node};
ghost use Rattle.asm_explore_table.specs.code.StepsMade.{names_said};
ghost use Rattle.asm_explore_report.specs.ShownRuns.{shown};
ghost use Rattle.asm_explore_all.specs.DrawnGraphs.{AreSpelled, ExplainsDrawing, IsDrawn, IsRed, IsRedText, IsRunText, IsSpelled, drawn_in};
ghost use Rattle.asm_explore_all.specs.MadeFiles.{MadeFile, Makes};
ghost use Rattle.asm_explore_all.specs.code.CodedQuestions.{plain};
ghost use Rattle.asm_explore_all.specs.code.GraphFiles.{ExplainsWriting, IsTextOf, drawn, drawn_of, graph_lines};

use crate::checked_question::CheckedQuestion;
use crate::files::NewFiles;
use asm_explore::Finding;
use asm_explore_report::shown_run::{ShownRun, first_state, run_of};
use asm_explore_words::fault::Fault;
use asm_graph::{EdgeMarks, Graph, GraphError, dot_text, run_graph, run_marks, state_graph};
use asm_reader::{Script, read_script};
use asm_syntax::InputError;
use std::alloc::{AllocError, Global};

/// How many states a graph has at most.
const MAX_GRAPH_STATES: u32 = 2000;

/// What became of the graph of states.
#[derive(Clone, Copy, Debug, PartialEq, Eq)]
pub(crate) enum GraphFile {
    /// It isn't asked for.
    NotAsked,
    /// It is in its file.
    Written,
    /// It has too many states, and its file has the run that is shown, and nothing else.
    RunAlone,
    /// It has too many states, no run is shown, and no file was made.
    TooMany,
}

/// A run that is drawn.
#[derive(Clone, Copy, Debug)]
struct DrawnRun<'r> {
    shown: ShownRun<'r>,
    /// The step that shows the fault. From a state that is one, it leads back.
    last: u64,
}

/// The text of a graph.
#[derive(Drop)]
enum GraphText {
    /// Of all states.
    Whole(String),
    /// There are too many, and it is that of the run that is shown.
    Run(String),
    /// There are too many, and no run is shown.
    TooMany,
}

/// The run that shows what is found, if a run does.
fn drawn_run(finding: &Finding) -> Option<DrawnRun<'_>>
    ensures { drawn_of result ≡ drawn_in finding.now }
{
    match finding {
        Finding::BadStep(bad) => Some(DrawnRun {
            shown: run_of(bad),
            last: bad.step,
        }),
        Finding::WrongFirst => Some(DrawnRun {
            shown: first_state(),
            last: 0,
        }),
        _ => None,
    }
}

/// The script of a run.
fn script_of(alloc: Global, run: ShownRun<'_>) -> Result<Script, AllocError>
    requires { IsSpelled (shown run) }
    ensures { IfOk result (λ script. IsScript run.entry.script.now script) }
{
    match read_script(alloc, run.script) {
        Ok(script) => Ok(script),
        Err(InputError::Memory) => Err(AllocError),
        Err(InputError::Named(_)) => unreachable!(),
    }
}

/// The edges of a graph that a run takes, if there is one.
fn marks_of(
    alloc: Global,
    graph: &Graph,
    run: Option<DrawnRun<'_>>,
) -> Result<EdgeMarks, AllocError>
    requires { AreSpelled (drawn_of run) }
    ensures { IfOk result (λ marks. (path : List (ℕ × ℕ)) × IsRed (drawn_of run.entry) graph.now.steps.items path × AreMarks path marks) }
{
    match run {
        Some(run) => {
            let script = script_of(alloc, run.shown)?;
            let marks = run_marks(alloc, graph, &script, run.shown.steps)?;
            Ok(marks)
        }
        None => Ok(EdgeMarks::none(alloc)),
    }
}

/// The text of a graph in which this run is red, and nodes show what these names name.
fn text_of(
    alloc: Global,
    asked: &CheckedQuestion,
    names: &[&str],
    graph: &Graph,
    run: Option<DrawnRun<'_>>,
) -> Result<String, AllocError>
    requires whole { Each (λ (n : Node). length n.state ≡ count_of (shape_of (spec_of asked.now.checked.spec))) graph.now.nodes.items }
    requires paired { length graph.now.steps.items ≡ length graph.now.nodes.items }
    requires spelled { AreSpelled (drawn_of run) }
    ensures { IfOk result (λ text. IsRedText (plain asked.now) (names_said names.now) (drawn_of run.entry) graph.now (string_bytes text)) }
{
    let marks = marks_of(alloc, graph, run)?;
    let turns = asked.question.turns;
    let text = dot_text(alloc, &asked.checked, names, turns, graph, &marks)?;
    Ok(text)
}

/// The text of the graph of a run alone.
fn run_text(
    alloc: Global,
    asked: &CheckedQuestion,
    names: &[&str],
    run: DrawnRun<'_>,
) -> Result<String, AllocError>
    requires { IsSpelled (drawn run).0 }
    ensures { IfOk result (λ text. IsRunText (plain asked.now) (names_said names.now) (drawn run.entry) (string_bytes text)) }
{
    let script = script_of(alloc, run.shown)?;
    let (checked, question) = (&asked.checked, &asked.question);
    let graph = run_graph(alloc, checked, question, &script, run.last)?;
    drop(script);
    let text = text_of(alloc, asked, names, &graph, Some(run))?;
    Ok(text)
}

/// The text of the graph of states that the question comes to; or of the run that is shown, if there
/// are too many.
fn graph_text(
    alloc: Global,
    asked: &CheckedQuestion,
    names: &[&str],
    run: Option<DrawnRun<'_>>,
) -> Result<GraphText, AllocError>
    requires { AreSpelled (drawn_of run) }
    ensures { IfOk result (IsTextOf (plain asked.now) (names_said names.now) (drawn_of run.entry)) }
{
    let (checked, question) = (&asked.checked, &asked.question);
    match state_graph(alloc, checked, question, MAX_GRAPH_STATES) {
        Ok(graph) => {
            let text = text_of(alloc, asked, names, &graph, run)?;
            Ok(GraphText::Whole(text))
        }
        Err(GraphError::Memory) => Err(AllocError),
        Err(GraphError::TooMany) => match run {
            Some(run) => Ok(GraphText::Run(run_text(alloc, asked, names, run)?)),
            None => Ok(GraphText::TooMany),
        },
    }
}

/// Writes a text to a file.
fn write<'w, F: NewFiles>(files: &mut F, name: &'w str, text: &String) -> Result<(), Fault<'w>>
    ensures made { OnOk result (Makes (F.made files.old) (F.made files.new) ((name.now, string_bytes text.now) ∷ [])) }
    ensures explained { IfErr result (ExplainsWriting name.now (string_bytes text.now) (F.made files.old) (F.made files.new)) }
{
    match files.make(name, text.as_bytes()) {
        Ok(()) => Ok(()),
        Err(_) => Err(Fault::Graph(name)),
    }
}

/// Writes the graph of states to the file of this name, if one is given, with the run that shows
/// what is found. Its nodes show what these names name. If the graph has too many states, this run
/// alone is written; or nothing, if there is none.
#[tactic(auto, using(crate::proofs::GrowingFiles::makes_none))]
pub(crate) fn draw<'w, F: NewFiles>(
    files: &mut F,
    alloc: Global,
    asked: &CheckedQuestion,
    names: &[&str],
    name: Option<&'w str>,
    finding: &Finding,
) -> Result<GraphFile, Fault<'w>>
    requires { AreSpelled (drawn_in finding.now) }
    ensures drawn { IfOk result (λ drawing. (made : List MadeFile) × Makes (F.made files.old) (F.made files.new) made
        × IsDrawn (plain asked.now) (names_said names.now) (drawn_in finding.now) (option_map (λ name. name.now) name.entry) (graph_lines drawing) made) }
    ensures explained { IfErr result (ExplainsDrawing (plain asked.now) (names_said names.now) (drawn_in finding.now) (option_map (λ name. name.now) name.entry) (F.made files.old) (F.made files.new)) }
{
    let Some(name) = name else {
        return Ok(GraphFile::NotAsked);
    };
    match graph_text(alloc, asked, names, drawn_run(finding))? {
        GraphText::Whole(text) => {
            write(files, name, &text)?;
            Ok(GraphFile::Written)
        }
        GraphText::Run(text) => {
            write(files, name, &text)?;
            Ok(GraphFile::RunAlone)
        }
        GraphText::TooMany => Ok(GraphFile::TooMany),
    }
}
