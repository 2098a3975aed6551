//! Lines of a script, by their steps and paths.
ghost use Rattle.std.specs.Prelude.{◌≡◌, ◌↔◌, ◌∷◌, cond, false, true, IfOk, IsTrue, OnOk};
ghost use Rattle.asm_reader.specs.ScriptLines.{SaidLine};
ghost use Rattle.asm_reader.specs.ScriptText.{line_said};
ghost use Rattle.asm_explore.specs.WrittenScripts.{line_said as choice_said};
ghost use Rattle.asm_explore_run.specs.code.LineKeys.{has_line, key_said, line_count, meets};

use asm_explore::ScriptLine;
use asm_reader::script::{ReadLine, When};
use std::alloc::{AllocError, Global};
use std::collections::BTreeSet;

/// Some lines of a script: those for one step, and those for every step.
#[derive(Drop)]
pub(crate) struct LineKeys {
    /// Of each of the first the step, and behind it the path.
    in_step: BTreeSet<Vec<u64>>,
    /// Of each of the others the path.
    in_every_step: BTreeSet<Vec<u64>>,
}

impl LineKeys {
    /// No lines.
    pub(crate) fn new(alloc: Global) -> LineKeys
        ensures { line_count result ≡ 0 }
    {
        LineKeys {
            in_step: BTreeSet::new(alloc),
            in_every_step: BTreeSet::new(alloc),
        }
    }

    /// Whether there are none.
    pub(crate) fn is_empty(&self) -> bool
        ensures { IsTrue result ↔ (line_count self.now ≡ 0) }
    {
        self.in_step.is_empty() && self.in_every_step.is_empty()
    }

    /// Adds a line.
    pub(crate) fn add(&mut self, alloc: Global, line: &ReadLine) -> Result<(), AllocError>
        ensures kept { OnOk result ((other : SaidLine) → has_line other self.old ≡ true → has_line other self.new ≡ true) }
        ensures added { OnOk result (has_line (line_said line.now) self.new ≡ true) }
    {
        let key = key_of(alloc, line)?;
        match line.when {
            When::Step(_) => self.in_step.insert(key)?,
            When::EveryStep => self.in_every_step.insert(key)?,
        };
        Ok(())
    }

    /// Whether a line is among these.
    pub(crate) fn has(&self, alloc: Global, line: &ReadLine) -> Result<bool, AllocError>
        ensures { IfOk result (λ has. has ≡ has_line (line_said line.now) self.now) }
    {
        let key = key_of(alloc, line)?;
        match line.when {
            When::Step(_) => Ok(self.in_step.contains(&key)),
            When::EveryStep => Ok(self.in_every_step.contains(&key)),
        }
    }

    /// Removes the lines that a choice meets: of its step and its path, and of its path in every
    /// step.
    pub(crate) fn remove_met(
        &mut self,
        alloc: Global,
        choice: &ScriptLine<'_>,
    ) -> Result<(), AllocError>
        ensures { OnOk result ((line : SaidLine) → has_line line self.new ≡ cond (meets (choice_said choice.now) line) false (has_line line self.old)) }
    {
        let key = key_at(alloc, choice.step, choice.path)?;
        let _ = self.in_step.remove(&key);
        let _ = self.in_every_step.remove(choice.path);
        Ok(())
    }
}

/// A step, and behind it a path.
fn key_at(alloc: Global, step: u64, path: &[u64]) -> Result<Vec<u64>, AllocError>
    ensures { IfOk result (λ key. key.items ≡ step ∷ path.now) }
{
    let mut key = Vec::new(alloc);
    key.push(step)?;
    key.extend_from_slice(path)?;
    Ok(key)
}

/// These numbers, each in 64 bits.
fn widened(alloc: Global, numbers: &[u32]) -> Result<Vec<u64>, AllocError>
    ensures { IfOk result (λ wide. wide.items ≡ numbers.now) }
{
    let mut wide = Vec::new(alloc);
    for number in numbers {
        wide.push(u64::from(*number))?;
    }
    Ok(wide)
}

/// What a line is found by among those of its kind.
fn key_of(alloc: Global, line: &ReadLine) -> Result<Vec<u64>, AllocError>
    ensures { IfOk result (λ key. key.items ≡ key_said (line_said line.now)) }
{
    let path = widened(alloc, line.path.as_slice())?;
    match line.when {
        When::Step(step) => key_at(alloc, u64::from(step), path.as_slice()),
        When::EveryStep => Ok(path),
    }
}
