//! The program over any reader and writers, and the status that it ends with.
ghost use Rattle.std.specs.Prelude.{◌≡◌, ◌≢◌, ◌≤◌, ◌⊎◌, [], map, IsTrue, IfOk, IfErr};
ghost use Rattle.std.specs.Io.KnownBytes.{Appends, Keeps};
ghost use Rattle.clap.specs.Kinds.{IsAmong, Kinds};
ghost use Rattle.clap.specs.Values.{kind_of};
ghost use Rattle.asm_explore_tool.specs.Faults.{IsOfFault, status_of};
ghost use Rattle.asm_explore_tool.specs.Outputs.{AreRefused, Explains, IsAnswer, IsExplained, IsHelp};
ghost use Rattle.asm_explore_words.specs.WordsSaid.{AskForHelp, task_refusals};

use crate::explain::{explain, explain_to};
use crate::no_answer::NoAnswer;
use crate::progress_lines::ProgressLines;
use crate::reports::report;
use crate::written::written;
use asm_explore_all::files::NewFiles;
use asm_explore_words::command_line::settings;
use asm_explore_words::settings::WordFault;
use asm_files::folder::Folder;
use asm_files::output::Finish;
use asm_run::sink::Sink;
use clap::Error;
use std::alloc::{AllocError, Global};
use std::convert::AsStr;
use std::io::Read;
use std::thread::Threads;
use std::time::Clock;

/// Does what the words ask for, and writes the report to `out` or the line of a fault to `err`. The
/// words are those after the program's name. Lines that tell how far a search is go to `err` too,
/// if they are asked for or it is a terminal.
pub fn status<
    R: Threads + Clock + Sync + AllocGlobal,
    F: Folder + NewFiles,
    S: AsStr,
    I: Read + Drop,
    O: Finish,
    E: Sink,
>(rt: &R, folder: &mut F, words: &[S], input: I, out: &mut O, err: &mut E, is_terminal: bool) -> u8
    // Words that are taken don't end with 4. Others end with 4, or with 3, or with 0 if they ask
    // for help or for the version.
    ensures taken { task_refusals (map S.text words.entry.now) ≡ [] → result ≢ 4 }
    ensures refused { task_refusals (map S.text words.entry.now) ≢ [] →
        (result ≡ 4) ⊎ ((result ≡ 3) ⊎ ((result ≡ 0) × AskForHelp (task_refusals (map S.text words.entry.now)))) }
    // Neither 2, 3 nor 4: the output grew by the report, or by help or the version, and by nothing
    // else. Nothing of it is kept back. The files that the report is said to make are made, and no
    // others.
    ensures answered { ¬ (IsOfFault result) →
        IsAnswer (F.contents folder.old) (I.remaining input) (Appends (O.bytes out.old) (O.bytes out.new)) (F.made folder.old) (F.made folder.new) (map S.text words.entry.now) result }
    ensures finished { ¬ (IsOfFault result) → IsTrue (O.is_finished out.new) }
    ensures quiet { task_refusals (map S.text words.entry.now) ≢ [] → result ≡ 0 → Keeps (E.bytes err.old) (E.bytes err.new) }
    // 2 to 4: a fault with this status says why; 2: which text is refused, and for what. Nothing is
    // written then, or a front of it if the output failed. No file is made, but by `all`: once runs
    // were looked at, its files may be, up to one that can't be written, or all if the output failed.
    ensures explained { IsOfFault result →
        IsExplained (O.bytes out.old) (O.bytes out.new) (O.has_failed out.new) (F.contents folder.old) (I.remaining input) (F.made folder.old) (F.made folder.new) (map S.text words.entry.now) result }
{
    match answer(rt, folder, words, input, out, err, is_terminal) {
        Ok(status) => status,
        Err(fault) => {
            explain_to(rt.alloc(), words, &fault, err);
            fault.status()
        }
    }
}

/// Says why what the words ask for isn't written, and returns the status of that.
pub fn refusal<E: Sink>(fault: &NoAnswer<'_>, err: &mut E) -> u8
    ensures { result ≡ status_of fault.now }
{
    explain(fault, err);
    fault.status()
}

/// Writes what the words ask for, and returns the status of that.
#[tactic(auto, using(crate::proofs::NoFiles::makes_none))]
fn answer<
    'w,
    R: Threads + Clock + Sync + AllocGlobal,
    F: Folder + NewFiles,
    S: AsStr,
    I: Read + Drop,
    O: Finish,
    E: Sink,
>(
    rt: &R,
    folder: &mut F,
    words: &'w [S],
    input: I,
    out: &mut O,
    err: &mut E,
    is_terminal: bool,
) -> Result<u8, NoAnswer<'w>>
    ensures answered { IfOk result (IsAnswer (F.contents folder.old) (I.remaining input) (Appends (O.bytes out.old) (O.bytes out.new)) (F.made folder.old) (F.made folder.new) (map S.text words.entry.now)) }
    ensures finished { IfOk result (λ _. IsTrue (O.is_finished out.new)) }
    ensures quiet { task_refusals (map S.text words.entry.now) ≢ [] → Keeps (E.bytes err.old) (E.bytes err.new) }
    ensures explained { IfErr result (Explains (O.bytes out.old) (O.bytes out.new) (O.has_failed out.new) (F.contents folder.old) (I.remaining input) (F.made folder.old) (F.made folder.new) (map S.text words.entry.now)) }
{
    match settings(rt.alloc(), words) {
        Ok(task) => {
            let mut lines = ProgressLines::new(rt, err, is_terminal);
            let report = report(rt, folder, rt.alloc(), &task, input, &mut lines)?;
            match written(out, report.text.as_slice()) {
                Ok(()) => Ok(report.status),
                Err(_) => Err(NoAnswer::Write),
            }
        }
        Err(WordFault::Memory) => Err(NoAnswer::Memory),
        Err(WordFault::Words(error)) => told(rt.alloc(), out, error),
    }
}

/// Writes the help or the version, if refused words ask for that.
fn told<'w, O: Finish>(alloc: Global, out: &mut O, error: Error) -> Result<u8, NoAnswer<'w>>
    ensures told { (kinds : Kinds) → IsAmong (kind_of error) kinds →
        IfOk result (λ status. (status ≡ 0) × IsHelp (Appends (O.bytes out.old) (O.bytes out.new)) kinds) }
    ensures finished { IfOk result (λ _. IsTrue (O.is_finished out.new)) }
    ensures refused { (kinds : Kinds) → IsAmong (kind_of error) kinds →
        IfErr result (AreRefused (O.bytes out.old) (O.bytes out.new) (O.has_failed out.new) kinds) }
{
    if error.use_stderr() {
        return Err(NoAnswer::Words(error));
    }
    let text = text_of(alloc, &error)?;
    match written(out, text.as_bytes()) {
        Ok(()) => Ok(0),
        Err(_) => Err(NoAnswer::Write),
    }
}

/// The text that the library which reads the words has for this.
fn text_of(alloc: Global, error: &Error) -> Result<String, AllocError> {
    format!(in alloc; "{error}")
}
