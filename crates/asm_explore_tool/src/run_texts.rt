//! What is read for one run: the texts of the specification and of the script, and conditions.
ghost use Rattle.std.specs.Prelude.{◌≡◌, ◌⊎◌, false, IfErr, IfOk};
ghost use Rattle.asm_explore_tool.specs.Faults.{IsUnread};
ghost use Rattle.asm_explore_tool.specs.GivenTexts.{AreRunTexts, IsGivenRun, IsReadForQuestion, IsReadForRun, IsScriptOfRun, IsTextOfFile, IsUndrawn, IsUndrawnRun};
ghost use Rattle.asm_explore_words.specs.WordsSaid.{reads_input_twice};

use crate::given_texts::{MAX_BYTES_READ, always_given, text as text_of};
use crate::no_answer::NoAnswer;
use asm_explore_random::drawn_script::drawn_script;
use asm_explore_texts::conditions::Condition;
use asm_explore_texts::run_numbers::with_numbers;
use asm_explore_words::fault::Source;
use asm_explore_words::settings::RunSettings;
use asm_files::folder::Folder;
use asm_files::input;
use std::alloc::Global;
use std::io::Read;

/// The texts of the specification and of the script; without a script that has no bytes.
#[derive(Drop)]
struct RunTexts {
    text: Vec<u8>,
    script: Vec<u8>,
}

/// What is read for one run, and the run.
#[derive(Drop)]
pub(crate) struct GivenRun<'w> {
    /// The text of the specification.
    pub(crate) text: Vec<u8>,
    /// The conditions that are to be true in each state.
    pub(crate) conditions: Vec<Condition<'w>>,
    /// The run: what the words don't say of its steps and turns, the script may.
    pub(crate) run: RunSettings<'w>,
    /// The text of its script.
    pub(crate) script: Vec<u8>,
}

/// The text in the file of this name.
fn from_file<'w, F: Folder>(
    folder: &F,
    alloc: Global,
    name: &'w str,
    source: Source<'w>,
) -> Result<Vec<u8>, NoAnswer<'w>>
    ensures text { IfOk result (λ text. IsTextOfFile (F.contents folder.now) name.now text.items) }
    ensures unread { IfErr result (IsUnread (λ s. s ≡ source.entry)) }
{
    match input::script(folder, alloc, Some(name), MAX_BYTES_READ) {
        Ok(text) => Ok(text),
        Err(fault) => Err(NoAnswer::of_read(source, fault)),
    }
}

/// The texts that the settings name, at most one of them on the input.
fn run_texts<'w, F: Folder, I: Read + Drop>(
    folder: &F,
    alloc: Global,
    settings: &RunSettings<'w>,
    input: I,
) -> Result<RunTexts, NoAnswer<'w>>
    requires { reads_input_twice settings.now ≡ false }
    ensures texts { IfOk result (λ texts. AreRunTexts (F.contents folder.now) (I.remaining input) settings.now texts.text.items texts.script.items) }
    ensures unread { IfErr result (IsUnread (IsReadForRun settings.now)) }
{
    let spec = settings.spec;
    match settings.script {
        None => {
            let text = text_of(folder, alloc, Source::Specification(spec), spec, input)?;
            let script = Vec::new(alloc);
            Ok(RunTexts { text, script })
        }
        Some(name) if name == "-" => {
            let text = from_file(folder, alloc, spec, Source::Specification(spec))?;
            let script = text_of(folder, alloc, Source::Script(name), name, input)?;
            Ok(RunTexts { text, script })
        }
        Some(name) => {
            let text = text_of(folder, alloc, Source::Specification(spec), spec, input)?;
            let script = from_file(folder, alloc, name, Source::Script(name))?;
            Ok(RunTexts { text, script })
        }
    }
}

/// The script of the run that settings ask for: the one that is given, or if its choices are drawn,
/// that of the run that is drawn of the specification with this text, up to a state in which one of
/// these conditions isn't true.
fn script_of_run<'w>(
    alloc: Global,
    text: &[u8],
    conditions: &[Condition<'w>],
    settings: &RunSettings<'w>,
    given: Vec<u8>,
) -> Result<Vec<u8>, NoAnswer<'w>>
    ensures script { IfOk result (λ script. IsScriptOfRun settings.now text.now conditions.now given.items script.items) }
    ensures undrawn { IfErr result (IsUndrawn settings.now text.now conditions.now) }
{
    let Some(seed) = settings.draw else {
        return Ok(given);
    };
    match drawn_script(alloc, text, conditions, settings, seed) {
        Ok(script) => Ok(script),
        Err(why) => Err(NoAnswer::of_draw(seed, why)),
    }
}

/// What is read for the run that settings ask for, with the conditions that words give and those in
/// the files of these names.
pub(crate) fn given_run<'w, F: Folder, I: Read + Drop>(
    folder: &F,
    alloc: Global,
    settings: &RunSettings<'w>,
    words: &[&'w str],
    names: &[&'w str],
    input: I,
) -> Result<GivenRun<'w>, NoAnswer<'w>>
    requires { reads_input_twice settings.now ≡ false }
    ensures given { IfOk result (λ given.
        IsGivenRun (F.contents folder.now) (I.remaining input) settings.now words.now names.now given.text.items given.conditions.items given.run given.script.items) }
    ensures explained { IfErr result (λ fault.
        IsUnread (IsReadForQuestion settings.now names.now) fault ⊎ IsUndrawnRun (F.contents folder.now) (I.remaining input) settings.now words.now names.now fault) }
{
    let RunTexts { text, script } = run_texts(folder, alloc, settings, input)?;
    let conditions = always_given(folder, alloc, words, names)?;
    let run = with_numbers(settings, script.as_slice());
    let (bytes, asked) = (text.as_slice(), conditions.as_slice());
    let script = script_of_run(alloc, bytes, asked, &run, script)?;
    Ok(GivenRun {
        text,
        conditions,
        run,
        script,
    })
}
