//! What the program is asked to do.
ghost use Rattle.std.specs.Prelude.{◌≡◌, ◌||◌, Some, is_some, option_map};
ghost use Rattle.clap.specs.Walk.{texts};
ghost use Rattle.asm_explore_words.specs.WordsSaid.{IsFaultOf, are_two_in_one, chooses_twice, is_input, is_one_file, is_over_conditions, is_over_text, lacks_graph, reads_input_twice};
ghost use Rattle.asm_explore_words.specs.declared.settings.WordFault.TheVariants.{Memory};

use crate::help;
use clap::Error;
use clap::error::ErrorKind;
use std::alloc::AllocError;

/// What the words ask for: a command, with its settings.
#[derive(Debug, Drop)]
pub enum Task<'w> {
    /// To look at every run.
    All(Settings<'w>),
    /// To look at random runs.
    Random(RandomSettings<'w>),
    /// To show the choices of one run.
    Choices(RunQuestion<'w>),
    /// To show the assignments by which one run ends.
    Clash(RunQuestion<'w>),
    /// To show one run as a table.
    Show(ShowSettings<'w>),
}

/// What the words after `all` ask for.
#[derive(Debug, Drop)]
pub struct Settings<'w> {
    /// The name of the specification's file; `-` is standard input.
    pub spec: &'w str,
    /// Runs are looked at of at most this many steps.
    pub steps: u32,
    /// This many turns exhaust an `iterate` or a `while`.
    pub turns: u32,
    /// This many states may be reached.
    pub states: u32,
    /// This many outcomes may be listed at once.
    pub outcomes: u32,
    /// The conditions that are to be true in each state, in the order of the words.
    pub always: Vec<&'w str>,
    /// The names of the files of further such conditions.
    pub always_files: Vec<&'w str>,
    /// The condition that is to be true in each quiet state.
    pub when_quiet: Option<&'w str>,
    /// From states in which this condition isn't true no run is followed.
    pub within: Option<&'w str>,
    /// This many workers list outcomes. Their number shows in nothing that is written.
    pub workers: u32,
    /// The name of the file to which the graph of states is written, if there is one.
    pub dot: Option<&'w str>,
    /// The functions and locations that a node of the graph shows; if there are none, all.
    pub dot_only: Vec<&'w str>,
    /// The name of the file to which a script to the first quiet state is written, if there is one.
    pub quiet: Option<&'w str>,
    /// Whether the trace of the run that is found is shown.
    pub trace: bool,
    /// Whether that run is shown as a table.
    pub table: bool,
    /// Whether lines tell how far it is, on standard error.
    pub progress: bool,
}

/// What the words after `random` ask for.
#[derive(Debug, Drop)]
pub struct RandomSettings<'w> {
    /// The name of the specification's file; `-` is standard input.
    pub spec: &'w str,
    /// Each run is of at most this many steps.
    pub steps: u32,
    /// This many turns exhaust an `iterate` or a `while`.
    pub turns: u32,
    /// The conditions that are to be true in each state, in the order of the words.
    pub always: Vec<&'w str>,
    /// The names of the files of further such conditions.
    pub always_files: Vec<&'w str>,
    /// The condition that is to be true in each quiet state.
    pub when_quiet: Option<&'w str>,
    /// This many outcomes may be listed to see whether a state is quiet.
    pub outcomes: u32,
    /// This many runs are made, or fewer if one goes wrong.
    pub runs: u32,
    /// What is drawn depends on it alone.
    pub seed: u64,
    /// Whether the trace of the run that is found is shown.
    pub trace: bool,
    /// Whether that run is shown as a table.
    pub table: bool,
    /// Whether lines tell how far it is, on standard error.
    pub progress: bool,
}

/// What the words after `choices` or `clash` ask for.
#[derive(Debug, Drop)]
pub struct RunQuestion<'w> {
    /// The run of which something is shown.
    pub run: RunSettings<'w>,
    /// The conditions that are to be true in each state, in the order of the words.
    pub always: Vec<&'w str>,
    /// The names of the files of further such conditions.
    pub always_files: Vec<&'w str>,
}

/// A run of which something is shown.
#[derive(Clone, Copy, Debug, PartialEq, Eq)]
pub struct RunSettings<'w> {
    /// The name of the specification's file; `-` is standard input.
    pub spec: &'w str,
    /// The run has at most this many steps.
    pub steps: u32,
    /// This many turns exhaust an `iterate` or a `while`.
    pub turns: u32,
    /// The name of the script's file, if there is one; `-` is standard input.
    pub script: Option<&'w str>,
    /// At each `choose` is drawn what this seed gives, as in run 0 of `random --seed`; if there is
    /// none, nothing is drawn.
    pub draw: Option<u64>,
    /// Whether the words say how many steps; if they don't, the script may.
    pub steps_said: bool,
    /// Whether they say how many turns.
    pub turns_said: bool,
}

/// How a run is shown.
#[derive(Clone, Copy, Debug, PartialEq, Eq)]
pub enum ShowForm {
    /// As a table, among the comments of a script.
    Table,
    /// As a page of HTML.
    Page,
    /// As lines of JSON, one for each row.
    Json,
}

/// What the words after `show` ask for.
#[derive(Debug, Drop)]
pub struct ShowSettings<'w> {
    /// The run that is shown.
    pub run: RunSettings<'w>,
    /// The conditions that are to be true in each state, in the order of the words.
    pub always: Vec<&'w str>,
    /// The names of the files of further such conditions.
    pub always_files: Vec<&'w str>,
    /// The functions and locations that are shown; if there are none, each location that changes.
    pub names: Vec<&'w str>,
    /// A line of a table has at most this many bytes, unless one column alone is wider.
    pub width: u32,
    /// How the run is shown.
    pub form: ShowForm,
}

/// Why words ask for nothing that can be done.
#[derive(Debug, Drop)]
pub enum WordFault {
    /// Memory ran out.
    Memory,
    /// They ask for help or the version, or can't be understood.
    Words(Error),
}

impl From<AllocError> for WordFault {
    ghost from_gives = { λ _ fault. fault ≡ Memory };

    fn from(_error: AllocError) -> WordFault {
        WordFault::Memory
    }
}

impl From<Error> for WordFault {
    ghost from_gives = { λ error fault. IsFaultOf error fault };

    fn from(error: Error) -> WordFault {
        match error.kind() {
            ErrorKind::OutOfMemory => WordFault::Memory,
            _ => WordFault::Words(error),
        }
    }
}

/// What is to be said of settings that are at odds.
pub(crate) fn at_odds(settings: &Settings<'_>) -> Option<&'static str>
    ensures { is_some result ≡ (are_two_in_one (Some settings.now.spec.now) (texts settings.now.always_files.items) (option_map (λ text. text.now) settings.now.dot) (option_map (λ text. text.now) settings.now.quiet)
        || lacks_graph (texts settings.now.dot_only.items) (option_map (λ text. text.now) settings.now.dot)) }
{
    let conditions = settings.always_files.as_slice();
    match two_in_one(settings.spec, conditions, settings.dot, settings.quiet) {
        Some(said) => Some(said),
        None if has_no_graph(&settings.dot_only, settings.dot) => Some(help::ONLY_WITHOUT_DOT),
        None => None,
    }
}

/// Whether names are given for a graph, and no file for it.
fn has_no_graph(names: &[&str], dot: Option<&str>) -> bool
    ensures { result ≡ lacks_graph (texts names.now) (option_map (λ text. text.now) dot.entry) }
{
    !names.is_empty() && dot.is_none()
}

/// What is to be said of settings of a run that are at odds.
pub(crate) fn run_at_odds(run: RunSettings<'_>) -> Option<&'static str>
    ensures { is_some result ≡ (reads_input_twice run.entry || chooses_twice run.entry) }
{
    if is_standard_input(Some(run.spec)) && is_standard_input(run.script) {
        return Some(help::ONE_INPUT);
    }
    if run.script.is_some() && run.draw.is_some() {
        return Some(help::SCRIPT_AND_DRAW);
    }
    None
}

/// What is to be said if the graph and the script would be in one file, or one of them in the file
/// of the specification or of a condition, by these names.
fn two_in_one(
    spec: &str,
    conditions: &[&str],
    dot: Option<&str>,
    quiet: Option<&str>,
) -> Option<&'static str>
    ensures { is_some result ≡ are_two_in_one (Some spec.now) (texts conditions.now) (option_map (λ text. text.now) dot.entry) (option_map (λ text. text.now) quiet.entry) }
{
    if is_same_file(dot, quiet) {
        return Some(help::ONE_FILE);
    }
    if is_over_specification(spec, dot, quiet) {
        return Some(help::OVER_SPECIFICATION);
    }
    if is_over_condition(conditions, dot, quiet) {
        return Some(help::OVER_CONDITION);
    }
    None
}

/// Whether the graph or the script would be written to the file that the specification is read from.
fn is_over_specification(spec: &str, dot: Option<&str>, quiet: Option<&str>) -> bool
    ensures { result ≡ is_over_text (Some spec.now) (option_map (λ text. text.now) dot.entry) (option_map (λ text. text.now) quiet.entry) }
{
    !is_standard_input(Some(spec)) && (is_named(spec, dot) || is_named(spec, quiet))
}

/// Whether the graph or the script would be written to one of the files that conditions are read
/// from.
fn is_over_condition(files: &[&str], dot: Option<&str>, quiet: Option<&str>) -> bool
    ensures { result ≡ is_over_conditions (texts files.now) (option_map (λ text. text.now) dot.entry) (option_map (λ text. text.now) quiet.entry) }
{
    for k in 0..files.len() {
        if is_named(files[k], dot) || is_named(files[k], quiet) {
            return true;
        }
    }
    false
}

/// Whether both name the same file.
fn is_same_file(one: Option<&str>, other: Option<&str>) -> bool
    ensures { result ≡ is_one_file (option_map (λ text. text.now) one.entry) (option_map (λ text. text.now) other.entry) }
{
    match one {
        Some(one) => is_named(one, other),
        None => false,
    }
}

/// Whether a file that may be named has this name.
fn is_named(name: &str, file: Option<&str>) -> bool
    ensures { result ≡ is_one_file (Some name.now) (option_map (λ text. text.now) file.entry) }
{
    match file {
        Some(file) => name == file,
        None => false,
    }
}

/// Whether the file with this name is standard input.
fn is_standard_input(name: Option<&str>) -> bool
    ensures { result ≡ is_input (option_map (λ text. text.now) name.entry) }
{
    match name {
        Some(name) => name == "-",
        None => false,
    }
}
