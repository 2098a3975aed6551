//! Sets whose memory is kept for the next ones.
//!
//! A set takes memory only when it first names a location. `take_memory` can give it the memory of
//! a set that is no longer needed, which `keep_spare` has kept.
ghost use Rattle.std.specs.Prelude.{◌≡◌, ◌<◌, OnOk, IfOk, IfErr};
ghost use Rattle.asm_state.specs.Signature.{Shape, count_of, location_at};
ghost use Rattle.asm_state.specs.Updates.{UpdateSet, merge, one};
ghost use Rattle.asm_updates.specs.code.Stands.{Stands, Adds};
ghost use Rattle.asm_eval.specs.code.FormedOutcomes.{KeepsForming};
ghost use Rattle.asm_eval.specs.code.PartSets.{IsPartSet};
ghost use Rattle.asm_eval.specs.declared.stopped.Stopped.TheVariants.{Memory};

use crate::outcome::Forming;
use crate::part_set::PartSet;
use crate::stopped::Stopped;
use asm_state::signature::Signature;
use asm_state::word::Word;
use asm_updates::summary::Summary;
use std::alloc::Global;
use std::mem;

/// How many sets are kept. If more sequences are nested, the sets of the outer ones, which are the
/// larger ones, are let go.
const MAX_SPARE_SETS: usize = 16;

/// Takes out the set that was formed before a sequence, which begins with the empty set in its
/// place. The memory stays where it is if that set is empty.
pub fn set_aside(alloc: Global, set: &mut Summary) -> Summary
    ensures before { result ≡ set.old }
    ensures count { set.new.count ≡ set.old.count }
{
    let nothing = Summary::new(alloc, set.count());
    if set.len() == 0 {
        nothing
    } else {
        mem::replace(set, nothing)
    }
}

/// Gives a set that has no memory yet that of a set that was kept, if there is one.
#[inline(always)]
pub fn take_memory(spare: &mut Vec<Summary>, set: &mut Summary)
    ensures same { set.new ≡ set.old }
    ensures count { set.new.count ≡ set.old.count }
{
    if !set.has_memory() {
        take_spare(spare, set);
    }
}

/// Puts a set that was kept in the place of an empty one, if there is one.
fn take_spare(spare: &mut Vec<Summary>, set: &mut Summary)
    ensures same { set.new ≡ set.old }
    ensures count { set.new.count ≡ set.old.count }
{
    if set.len() > 0 {
        return;
    }
    if let Some(kept) = spare.pop() {
        let mut empty = kept;
        if empty.count() == set.count() {
            empty.clear();
            *set = empty;
        }
    }
}

/// Keeps a set that a sequence has done with, for its memory. If enough are kept, or memory is
/// refused, it is let go.
pub fn keep_spare(spare: &mut Vec<Summary>, set: Summary) {
    if set.has_memory() && spare.len() < MAX_SPARE_SETS && spare.reserve(1).is_ok() {
        spare.push_reserved(set);
    }
}

/// Goes on with the set that was formed last: the turbo merge. If nothing was formed before it, it
/// is taken as it is.
pub fn merge_part(so_far: &mut Summary, forming: &mut Forming) -> Result<(), Stopped>
    requires { forming.old.set.count ≡ so_far.old.count }
    ensures keeps { KeepsForming so_far.old so_far.new forming.old forming.new result }
    ensures merge { OnOk result ((shape : Shape) (U V : UpdateSet) → Stands shape so_far.old U → Stands shape forming.old.set V →
        Stands shape so_far.new (merge U V)) }
{
    if so_far.is_empty() {
        mem::swap(so_far, &mut forming.set);
        return Ok(());
    }
    so_far.merge_with(&forming.set)?;
    Ok(())
}

/// Goes on with the set of one update, and returns what this set is.
#[inline(always)]
pub fn merge_update(
    signature: &Signature,
    n: usize,
    value: Word,
    so_far: &mut Summary,
    forming: &mut Forming,
) -> Result<PartSet, Stopped>
    requires location { n < count_of signature.now }
    requires so_far { so_far.old.count ≡ count_of signature.now }
    requires forming { forming.old.set.count ≡ count_of signature.now }
    ensures keeps { KeepsForming so_far.old so_far.new forming.old forming.new result }
    ensures part { IfOk result (λ part. IsPartSet (one (location_at signature.now n) value) part) }
    ensures merge { OnOk result ((U : UpdateSet) → Stands signature.now so_far.old U →
        Stands signature.now so_far.new (merge U (one (location_at signature.now n) value))) }
{
    match signature.stray(n) {
        None => {
            take_memory(&mut forming.spare, so_far);
            so_far.merge_proper(n, value)?;
            Ok(PartSet::Consistent)
        }
        Some(_) => {
            forming.set.clear();
            forming.set.add(n, value, value)?;
            merge_part(so_far, forming)?;
            Ok(PartSet::Inconsistent)
        }
    }
}

/// Puts back the set that was formed before a sequence, with the sequence's set added.
pub fn put_back(before: Summary, so_far: Summary, forming: &mut Forming) -> Result<(), Stopped>
    requires { so_far.count ≡ before.count }
    ensures count { forming.new.set.count ≡ before.count }
    ensures path { forming.new.path.items ≡ forming.old.path.items }
    ensures instances { forming.new.instances ≡ forming.old.instances }
    ensures adds { (shape : Shape) (V : UpdateSet) → Stands shape so_far V → OnOk result (Adds shape V before forming.new.set) }
    ensures stopped { IfErr result (λ stop. stop ≡ Memory) }
{
    if before.is_empty() {
        let last = mem::replace(&mut forming.set, so_far);
        keep_spare(&mut forming.spare, before);
        keep_spare(&mut forming.spare, last);
        return Ok(());
    }
    let last = mem::replace(&mut forming.set, before);
    forming.set.union(&so_far)?;
    keep_spare(&mut forming.spare, so_far);
    keep_spare(&mut forming.spare, last);
    Ok(())
}
