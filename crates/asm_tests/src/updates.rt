//! Summaries: what calls leave in them, how they are told and fired, and what a refusal leaves.
ghost use Rattle.std.specs.Prelude.{◌≡◌, IfOk};

use crate::plain::{
    Entry, FIVE, FOUR, NOTHING, ONE, Plain, THREE, TWO, add_all, has_contents, has_entries,
    summary_of, value,
};
use asm_state::word::Word;
use asm_updates::summary::Summary;
use std::alloc::{AllocError, Global};
use std::test::Fail;

mod calls;
mod faults;
mod large;
mod refusals;

/// Entries of a set, added as those of any locations, or as values at locations that aren't stray.
#[derive(Clone, Copy)]
enum Entries {
    Any(&'static [Entry]),
    Proper(&'static [(usize, Plain)]),
}

/// A call on a set.
#[derive(Clone, Copy)]
enum Call {
    Add(Entries),
    Union(Entries),
    Merge(Entries),
    Sort,
    Clear,
}

fn add_proper(summary: &mut Summary, values: &[(usize, Plain)]) -> Result<(), AllocError>
    ensures { summary.new.count ≡ summary.old.count }
{
    for (n, plain) in values {
        if *n < summary.count() {
            summary.add_proper(*n, value(*plain))?;
        }
    }
    Ok(())
}

fn add(summary: &mut Summary, entries: Entries) -> Result<(), AllocError>
    ensures { summary.new.count ≡ summary.old.count }
{
    match entries {
        Entries::Any(entries) => add_all(summary, entries),
        Entries::Proper(values) => add_proper(summary, values),
    }
}

fn set_of(alloc: Global, count: usize, entries: Entries) -> Result<Summary, AllocError>
    ensures { IfOk result (λ s. s.count ≡ count) }
{
    let mut set = Summary::new(alloc, count);
    add(&mut set, entries)?;
    Ok(set)
}

fn unite(alloc: Global, summary: &mut Summary, entries: Entries) -> Result<(), AllocError>
    ensures { summary.new.count ≡ summary.old.count }
{
    let other = set_of(alloc, summary.count(), entries)?;
    summary.union(&other)
}

fn merge(alloc: Global, summary: &mut Summary, entries: Entries) -> Result<(), AllocError>
    ensures { summary.new.count ≡ summary.old.count }
{
    let later = set_of(alloc, summary.count(), entries)?;
    summary.merge_with(&later)
}

fn make_call(alloc: Global, summary: &mut Summary, call: &Call) -> Result<(), AllocError>
    ensures { summary.new.count ≡ summary.old.count }
{
    match call {
        Call::Add(entries) => add(summary, *entries),
        Call::Union(entries) => unite(alloc, summary, *entries),
        Call::Merge(entries) => merge(alloc, summary, *entries),
        Call::Sort => summary.sort(),
        Call::Clear => {
            summary.clear();
            Ok(())
        }
    }
}

/// The set over this many locations that these calls leave, from none on.
fn left_by(alloc: Global, count: usize, calls: &[Call]) -> Result<Summary, AllocError>
    ensures { IfOk result (λ s. s.count ≡ count) }
{
    let mut summary = Summary::new(alloc, count);
    for one in calls {
        make_call(alloc, &mut summary, one)?;
    }
    Ok(summary)
}

/// The values at a location.
fn entry_of(entries: &[Entry], n: usize) -> Option<(Word, Word)> {
    for (at, low, high) in entries {
        if *at == n {
            return Some((value(*low), value(*high)));
        }
    }
    None
}

/// Whether a set has these entries, and nothing at any other location.
fn has_just(summary: &Summary, entries: &[Entry]) -> bool {
    for n in 0..summary.count() {
        if summary.get(n) != entry_of(entries, n) {
            return false;
        }
    }
    summary.len() == entries.len()
}
