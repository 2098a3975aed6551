//! The script to the first quiet state, written to a file.
ghost use Rattle.std.specs.Prelude.{option_map, IfErr, OnOk};
ghost use Rattle.asm_explore_all.specs.AllFacts.{ExplainsScript, quiet_files};
ghost use Rattle.asm_explore_all.specs.MadeFiles.{Makes};

use crate::files::NewFiles;
use asm_explore::QuietRun;
use asm_explore_words::fault::Fault;

/// Writes the script of a run to a quiet state to the file of this name, if one is given. Nothing
/// is written if there is no such script.
#[tactic(auto, using(crate::proofs::GrowingFiles::makes_none))]
pub(crate) fn write_script<'w, F: NewFiles>(
    files: &mut F,
    run: &Option<QuietRun>,
    name: Option<&'w str>,
) -> Result<(), Fault<'w>>
    ensures made { OnOk result (Makes (F.made files.old) (F.made files.new) (quiet_files (option_map (λ name. name.now) name.entry) run.now)) }
    ensures explained { IfErr result (ExplainsScript (option_map (λ name. name.now) name.entry) run.now (F.made files.old) (F.made files.new)) }
{
    let Some(name) = name else {
        return Ok(());
    };
    let Some(run) = run else {
        return Ok(());
    };
    match files.make(name, run.script.as_bytes()) {
        Ok(()) => Ok(()),
        Err(_) => Err(Fault::QuietScript(name)),
    }
}
