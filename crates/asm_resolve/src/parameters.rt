//! The parameters of a body, among which a name is found by its text.
ghost use Rattle.std.specs.Prelude.{◌≡◌, ◌≤◌, ◌+◌, ◌^◌, IfOk, IfErr, map};
ghost use Rattle.std.specs.List.{position};
ghost use Rattle.std.specs.Option.{ForSome};
ghost use Rattle.asm_syntax.specs.Tree as tree;
ghost use Rattle.asm_meaning.specs.code.MeantTrees.{text_of};
ghost use Rattle.asm_meaning.specs.Program.{is_name};
ghost use Rattle.asm_resolve.specs.code.Slots.{AreFirst, called_slots, found_from, position_of, value_slot};

use asm_syntax::name::Name;
use std::alloc::{AllocError, Global};
use std::collections::BTreeMap;

/// The most names that are looked through one by one.
const MAX_SCANNED: usize = 8;

/// The parameters of a body, after `result` if a call has a target.
#[derive(Drop)]
pub struct Parameters<'a> {
    pub answers: bool,
    pub names: &'a [Name],
    /// Where the first of each text is, if there are more than a few names.
    positions: Option<BTreeMap<Vec<u8>, usize>>,
    ghost first: { ForSome positions (λ m. AreFirst (map text_of names.now) m.entries) },
}

impl<'a> Parameters<'a> {
    ghost use Rattle.asm_resolve.specs.code.Scopes.{slots_in};

    /// These parameters, for calls with a target or without.
    pub fn new(
        alloc: Global,
        answers: bool,
        names: &'a [Name],
    ) -> Result<Parameters<'a>, AllocError>
        ensures { IfOk result (λ parameters. slots_in parameters ≡ called_slots answers (map text_of names.now)) }
    {
        let positions = positions(alloc, names)?;
        Ok(Parameters {
            answers,
            names,
            positions,
        })
    }

    /// The position of a name after `before` others, and whether the name stands for a location
    /// there.
    pub(crate) fn find(
        &self,
        before: usize,
        name: &Name,
    ) -> Result<Option<(usize, bool)>, AllocError>
        ensures { IfOk result (λ o. o ≡ found_from before (slots_in self.now) name.now.text) }
    {
        if !self.answers {
            let found = find_among(before, self.names, &self.positions, name)?;
            return Ok(found);
        }
        if is_result(name) {
            return Ok(Some((before, true)));
        }
        let found = find_among(behind(before, 1)?, self.names, &self.positions, name)?;
        Ok(found)
    }
}

/// The position `count` after another one. It is refused if 64 bits can't hold it: no memory has
/// that many names.
pub(crate) fn behind(position: usize, count: usize) -> Result<usize, AllocError>
    ensures position { IfOk result (λ n. n ≡ position + count) }
    ensures refused { IfErr result (λ e. 2 ^ 64 ≤ position + count) }
{
    position.checked_add(count).ok_or(AllocError)
}

/// The position of a name among parameters, when the first of them has this one.
fn find_among(
    first: usize,
    names: &[Name],
    positions: &Option<BTreeMap<Vec<u8>, usize>>,
    name: &Name,
) -> Result<Option<(usize, bool)>, AllocError>
    requires { ForSome positions.now (λ m. AreFirst (map text_of names.now) m.entries) }
    ensures { IfOk result (λ o. o ≡ found_from first (map value_slot (map text_of names.now)) name.now.text) }
{
    match index_of(names, positions, name) {
        None => Ok(None),
        Some(index) => {
            let position = behind(first, index)?;
            Ok(Some((position, false)))
        }
    }
}

/// The first position of each text, if there are more than a few names.
fn positions(alloc: Global, names: &[Name]) -> Result<Option<BTreeMap<Vec<u8>, usize>>, AllocError>
    ensures { IfOk result (λ o. ForSome o (λ m. AreFirst (map text_of names.now) m.entries)) }
{
    if names.len() <= MAX_SCANNED {
        return Ok(None);
    }
    let positions = first_positions(alloc, names)?;
    Ok(Some(positions))
}

/// The first position of each text: the names are gone through from the last one to the first.
fn first_positions(alloc: Global, names: &[Name]) -> Result<BTreeMap<Vec<u8>, usize>, AllocError>
    ensures { IfOk result (λ m. AreFirst (map text_of names.now) m.entries) }
{
    let mut positions = BTreeMap::new(alloc);
    let mut rest = names;
    while let [before @ .., name] = rest {
        let text = name.text.as_bytes().to_vec(alloc)?;
        positions.insert(text, before.len())?;
        rest = before;
    }
    Ok(positions)
}

/// The index of the first of this text.
fn index_of(
    names: &[Name],
    positions: &Option<BTreeMap<Vec<u8>, usize>>,
    name: &Name,
) -> Option<usize>
    requires { ForSome positions.now (λ m. AreFirst (map text_of names.now) m.entries) }
    ensures { result ≡ position_of (map text_of names.now) name.now.text }
{
    match positions {
        None => index_among(names, name),
        Some(positions) => positions.get(name.text.as_bytes()).copied(),
    }
}

/// The same, by looking at one name after the other.
fn index_among(names: &[Name], name: &Name) -> Option<usize>
    ensures { result ≡ position (λ it. is_name (text_of it) name.now.text) names.now }
{
    names.iter().position(|it| it.text.is_same_text(&name.text))
}

/// Whether the name is the word `result`.
fn is_result(name: &Name) -> bool
    ensures { result ≡ is_name tree.result name.now.text }
{
    name.text.as_bytes() == b"result".as_slice()
}
