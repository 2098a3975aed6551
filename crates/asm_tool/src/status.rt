//! The program over any reader and writers, and the status that it ends with.
ghost use Rattle.std.specs.Prelude.{◌≡◌, ◌≢◌, ◌≤◌, ◌⊎◌, [], map, false, IsTrue, IfOk, IfErr};
ghost use Rattle.asm_limits.specs.Limits.{are_in_range};
ghost use Rattle.asm_tool.specs.CommandLine.{refusals};
ghost use Rattle.std.specs.Io.KnownBytes.{Keeps};
ghost use Rattle.asm_tool.specs.ToolPromises.{Explains, ExplainsOfWords, IsExplained, IsSaid, IsWholeTrace, LeavesUnwritten, line_of};
ghost use Rattle.asm_tool.specs.Statuses.{IsFaultOfWords, OfWords, StatusTells, TellsOfWords, run_fault, status_at, status_in, status_of};
ghost use Rattle.asm_tool.specs.declared.fault.Fault.TheVariants.{Write};

use crate::command_line::settings;
use crate::fault::Fault;
use crate::fault_line::say;
use asm_files::folder::Folder;
use asm_files::input;
use asm_files::output::Finish;
use asm_limits::run_limits::Limits;
use asm_run::end::EndKind;
use asm_run::error::RunError;
use asm_run::laws::results_tell;
use asm_run::run::run;
use asm_run::sink::Sink;
use asm_syntax::MAX_LENGTH;
use std::alloc::Global;
use std::convert::AsStr;
use std::io::Read;
use std::thread::Threads;

/// One more than the bytes of the longest text, and of the longest script: reading goes no further,
/// and what is of this length is too long.
const MAX_BYTES_READ: u64 = MAX_LENGTH as u64 + 1;

/// Runs the specification of the file that the words name, or of the input if they name none, and
/// writes its trace to `out` and the line of a fault to `err`. The words are those after the
/// program's name.
pub fn status<
    R: Threads + Sync + AllocGlobal,
    F: Folder,
    S: AsStr,
    I: Read + Drop,
    O: Finish,
    E: Sink,
>(rt: &R, folder: &F, words: &[S], input: I, out: &mut O, err: &mut E) -> u8
    requires { O.has_failed out.old ≡ false }
    // Words that are taken end with 3 at most, and others with 4, or 3 if memory ran out.
    ensures taken { refusals (map S.text words.entry.now) ≡ [] → result ≤ 3 }
    ensures refused { refusals (map S.text words.entry.now) ≢ [] → (result ≡ 3) ⊎ (result ≡ 4) }
    // How the run of the texts ends that the words name.
    ensures told { TellsOfWords (map S.text words.entry.now) (F.contents folder.now) (I.remaining input) result }
    // 0 and 1: the output grew by the trace of that run, and by nothing else. Nothing of it is kept
    // back, and nothing is said on standard error.
    ensures wrote { result ≤ 1 → OfWords (map S.text words.entry.now) (F.contents folder.now) (I.remaining input) (IsWholeTrace (O.bytes out.old) (O.bytes out.new)) }
    ensures finished { result ≤ 1 → IsTrue (O.is_finished out.new) }
    ensures quiet { result ≤ 1 → Keeps (E.bytes err.old) (E.bytes err.new) }
    // 2 to 4: a fault with this status says why, of the texts and of what is written, and its line
    // alone is said. That the output can't be written is such a fault only if it failed.
    ensures explained { 2 ≤ result → IsExplained (map S.text words.entry.now) (F.contents folder.now) (I.remaining input) (O.bytes out.old) (O.bytes out.new) (O.has_failed out.new) result (E.bytes err.old) (E.bytes err.new) (E.has_failed err.new) }
{
    match run_words(rt, folder, words, input, out) {
        Ok(end) => whole_trace(end),
        Err(fault) => refusal(&fault, err),
    }
}

/// The status of a run whose trace is written whole.
fn whole_trace(end: EndKind) -> u8
    ensures { result ≡ status_at end }
{
    match end {
        EndKind::Limit => 0,
        EndKind::Clash | EndKind::Outside | EndKind::Exhausted => 1,
    }
}

/// Says why there is no whole trace, and returns the status of that.
pub fn refusal<E: Sink>(fault: &Fault, err: &mut E) -> u8
    ensures status { result ≡ status_of fault.now }
    ensures said { IsSaid (E.bytes err.old) (E.bytes err.new) (E.has_failed err.new) (line_of fault.now) }
{
    say(fault, err);
    fault.status()
}

/// How the run ends, once its whole trace is written. The words come first, then the text, then
/// the script.
fn run_words<R: Threads + Sync + AllocGlobal, F: Folder, S: AsStr, I: Read + Drop, O: Finish>(
    rt: &R,
    folder: &F,
    words: &[S],
    input: I,
    out: &mut O,
) -> Result<EndKind, Fault>
    requires { O.has_failed out.old ≡ false }
    ensures taken { IfOk result (λ _. refusals (map S.text words.entry.now) ≡ []) }
    ensures refused { IfErr result (IsFaultOfWords (map S.text words.entry.now)) }
    ensures told { TellsOfWords (map S.text words.entry.now) (F.contents folder.now) (I.remaining input) (status_in result) }
    ensures wrote { IfOk result (λ _. OfWords (map S.text words.entry.now) (F.contents folder.now) (I.remaining input) (IsWholeTrace (O.bytes out.old) (O.bytes out.new))) }
    ensures explained { IfErr result (ExplainsOfWords (map S.text words.entry.now) (F.contents folder.now) (I.remaining input) (O.bytes out.old) (O.bytes out.new) (O.has_failed out.new)) }
    ensures finished { IfOk result (λ _. IsTrue (O.is_finished out.new)) }
{
    let alloc = rt.alloc();
    let settings = settings(alloc, words)?;
    let text = input::text(folder, alloc, settings.spec, input, MAX_BYTES_READ)?;
    let script = input::script(folder, alloc, settings.script, MAX_BYTES_READ)?;
    run_texts(
        rt,
        alloc,
        text.as_slice(),
        script.as_slice(),
        &settings.limits,
        out,
    )
}

/// How the run of this text with this script ends, once its whole trace is written.
fn run_texts<R: Threads + Sync, O: Finish>(
    rt: &R,
    alloc: Global,
    text: &[u8],
    script: &[u8],
    limits: &Limits,
    out: &mut O,
) -> Result<EndKind, Fault>
    requires range { IsTrue (are_in_range limits.now) }
    requires open { O.has_failed out.old ≡ false }
    ensures low { IfErr result (λ fault. status_of fault ≤ 3) }
    ensures wrote { IfOk result (λ _. IsWholeTrace (O.bytes out.old) (O.bytes out.new) text.now script.now limits.now) }
    ensures explained { IfErr result (λ fault. Explains fault (O.bytes out.old) (O.bytes out.new) text.now script.now limits.now) }
    ensures unwritten { IfErr result (λ fault. LeavesUnwritten fault (O.bytes out.old) (O.bytes out.new)) }
    ensures failed { IfErr result (λ fault. fault ≡ Write → IsTrue (O.has_failed out.new)) }
    ensures told { StatusTells text.now script.now limits.now (status_in result) }
    ensures finished { IfOk result (λ _. IsTrue (O.is_finished out.new)) }
{
    results_tell();
    let answer = run(rt, alloc, text, script, limits, out);
    // What a run wrote before a refusal is shown too.
    let finished = out.finish();
    let end = match answer {
        Ok(end) => end.kind(),
        Err(error) => return Err(refused_run(error)),
    };
    match finished {
        Ok(()) => Ok(end),
        Err(_) => Err(Fault::Write),
    }
}

/// The fault of a run with limits in their ranges that is refused.
fn refused_run(error: RunError) -> Fault
    requires { error ≢ RunError.Limits }
    ensures { result ≡ run_fault error }
{
    match error {
        RunError::Read(error) => Fault::Read(error),
        RunError::Check(error) => Fault::Check(error),
        RunError::Script(error) => Fault::Script(error),
        RunError::Memory => Fault::Memory,
        RunError::Write => Fault::Write,
        RunError::Limits => unreachable!(),
    }
}
