//! What the lines of a script say, by their paths and steps.
ghost use Rattle.std.specs.Prelude.{◌≡◌, ◌≤◌, ◌<◌, ℕ, true, not, cond, nat_eq, is_some, get_or, length, ◌+◌, [], None, Some, IfOk};
ghost use Rattle.asm_reader.specs.code.PathNumbers.{AreShort, IsNext, HasPathNumber, Says, entry_at, is_pair, number_of_path};
ghost use Rattle.asm_reader.specs.ScriptLines as lines;
ghost use Rattle.asm_reader.specs.ScriptText.{has_line_of, line_said};
ghost use Rattle.asm_reader.specs.code.LinesSaid.{then_line};

use crate::script::{ReadLine, When};
use std::alloc::{AllocError, Global};
use std::collections::BTreeMap;

/// What the lines of a script say. Their paths make a tree of places: at the first place is the
/// path without numbers, and from each place the numbers that may come next in a path lead to places
/// of their own. All is found by its order: hashes could be made to collide by who writes a script.
#[derive(Drop)]
pub(crate) struct PathNumbers {
    /// The place to which a number leads from a place. The first one has the number 0.
    ways: BTreeMap<(u32, u32), u32>,
    /// What the line says for a step whose path is at a place.
    exact: BTreeMap<(u32, u32), u32>,
    /// What the line for every step says whose path is at the place with this index, if there is
    /// one. After the last place with such a line nothing need be there.
    every: Vec<Option<u32>>,
}

impl PathNumbers {
    /// What no lines say.
    pub(crate) fn new(alloc: Global) -> PathNumbers
        ensures says { Says result lines.no_lines }
        ensures no_ways { result.ways.entries ≡ [] }
    {
        PathNumbers {
            ways: BTreeMap::new(alloc),
            exact: BTreeMap::new(alloc),
            every: Vec::new(alloc),
        }
    }

    /// The place of the path.
    pub(crate) fn number_of_path(&self, path: &[u64]) -> Option<u32>
        requires { AreShort self.now.ways.entries }
        ensures { result ≡ number_of_path self.now.ways.entries path.now }
    {
        let mut path_number = 0;
        for number in path {
            path_number = entry(&self.ways, path_number, *number)?;
        }
        Some(path_number)
    }

    /// What the line says for this step whose path is there.
    pub(crate) fn exact_at(&self, path_number: u32, step: u64) -> Option<u32>
        requires { AreShort self.now.exact.entries }
        ensures { result ≡ entry_at self.now.exact.entries path_number step }
    {
        entry(&self.exact, path_number, step)
    }

    /// What the line for every step says whose path is there.
    pub(crate) fn every_at(&self, path_number: u32) -> Option<u32>
        ensures { result ≡ get_or self.now.every.items path_number None }
    {
        match self.every.get(path_number as usize) {
            Some(number) => *number,
            None => None,
        }
    }

    /// Takes a line, but not with the step and the path of another one, nor one for every step with
    /// the path of another such line. Returns whether it was taken. If it wasn't, it is there
    /// instead of the other one.
    pub(crate) fn add(&mut self, choice: &ReadLine) -> Result<bool, AllocError>
        requires { length self.old.ways.entries + length choice.now.path.items < 4_294_967_296 }
        ensures added { (script : lines.Script) → Says self.old script → IfOk result (λ added. has_line_of script (line_said choice.now) ≡ not added) }
        ensures taken { (script : lines.Script) → Says self.old script → IfOk result (λ added. added ≡ true → Says self.new (then_line script (line_said choice.now))) }
        ensures room { IfOk result (λ _. length self.new.ways.entries ≤ length self.old.ways.entries + length choice.now.path.items) }
    {
        let path_number = number_for_path(&mut self.ways, choice.path.as_slice())?;
        match choice.when {
            When::Step(step) => put_exact(&mut self.exact, path_number, step, choice.number),
            When::EveryStep => put_every(&mut self.every, path_number, choice.number),
        }
    }
}

/// What is at this place and this number.
fn entry(entries: &BTreeMap<(u32, u32), u32>, path_number: u32, number: u64) -> Option<u32>
    requires { AreShort entries.now.entries }
    ensures { result ≡ entry_at entries.now.entries path_number number }
{
    let number = u32::try_from(number).ok()?;
    entries.get(&(path_number, number)).copied()
}

/// The place to which the number leads from this place, which is a new one if it led to none.
fn number_for_next(
    ways: &mut BTreeMap<(u32, u32), u32>,
    path_number: u32,
    number: u32,
) -> Result<u32, AllocError>
    // The next place has a number.
    requires { length ways.old.entries + 1 < 4_294_967_296 }
    ensures { IfOk result (λ n. IsNext ways.old.entries path_number number n ways.new.entries) }
{
    if let Some(next) = ways.get(&(path_number, number)) {
        return Ok(*next);
    }
    let next = (ways.len() + 1) as u32;
    ways.insert((path_number, number), next)?;
    Ok(next)
}

/// The place of the path, a new one if it had none.
fn number_for_path(ways: &mut BTreeMap<(u32, u32), u32>, path: &[u32]) -> Result<u32, AllocError>
    requires { length ways.old.entries + length path.now < 4_294_967_296 }
    ensures placed { IfOk result (λ n. HasPathNumber ways.old.entries path.now n ways.new.entries) }
    ensures room { IfOk result (λ _. length ways.new.entries ≤ length ways.old.entries + length path.now) }
{
    let mut path_number = 0;
    for number in path {
        path_number = number_for_next(ways, path_number, *number)?;
    }
    Ok(path_number)
}

/// Puts the number at the place and the step. Returns whether none was there.
fn put_exact(
    exact: &mut BTreeMap<(u32, u32), u32>,
    path_number: u32,
    step: u32,
    number: u32,
) -> Result<bool, AllocError>
    ensures free { IfOk result (λ free. is_some (entry_at exact.old.entries path_number step) ≡ not free) }
    ensures at { IfOk result (λ _. (n s : ℕ) → entry_at exact.new.entries n s ≡ cond (is_pair path_number step (n, s)) (Some number) (entry_at exact.old.entries n s)) }
    ensures short { AreShort exact.old.entries → IfOk result (λ _. AreShort exact.new.entries) }
{
    let before = exact.insert((path_number, step), number)?;
    Ok(before.is_none())
}

/// Puts the number at the place. Returns whether none was there.
fn put_every(
    every: &mut Vec<Option<u32>>,
    path_number: u32,
    number: u32,
) -> Result<bool, AllocError>
    ensures free { IfOk result (λ free. is_some (get_or every.old.items path_number None) ≡ not free) }
    ensures at { IfOk result (λ _. (m : ℕ) → get_or every.new.items m None ≡ cond (nat_eq path_number m) (Some number) (get_or every.old.items m None)) }
    ensures room { IfOk result (λ _. (c : ℕ) → path_number < c → length every.old.items ≤ c → length every.new.items ≤ c) }
{
    let path_number = path_number as usize;
    if every.len() <= path_number {
        every.resize(path_number + 1, None)?;
    }
    let before = every[path_number];
    every[path_number] = Some(number);
    Ok(before.is_none())
}
