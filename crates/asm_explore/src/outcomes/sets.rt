//! Sets of updates: none, one, two beside each other, and two one after the other.
ghost use Rattle.std.specs.Prelude.{◌≡◌, ◌<◌, IfOk};
ghost use Rattle.asm_state.specs.Signature.{Shape, count_of, location_at};
ghost use Rattle.asm_state.specs.Updates.{UpdateSet, none, one, together};
ghost use Rattle.asm_updates.specs.code.Stands.{Stands};
ghost use Rattle.asm_meaning.specs.Yields as yields;
ghost use Rattle.asm_meaning.specs.Yields.{Result as Yielded};
ghost use Rattle.asm_explore.specs.declared.outcomes.listed_outcome.RuleResult.TheVariants as answer;
ghost use Rattle.asm_explore.specs.code.OutcomeLists.{Shows};
ghost use Rattle.asm_explore.specs.code.Sequences.{IsTold, Merges};

use crate::updates::Updates;
use asm_state::signature::Signature;
use asm_state::word::Word;
use asm_updates::summary::Summary;
use std::alloc::{AllocError, Global};

/// No updates.
pub(crate) fn no_updates(alloc: Global, signature: &Signature) -> Updates
    ensures count { result.set.count ≡ count_of signature.now }
    ensures none { Stands signature.now result.set none }
{
    let set = Summary::new(alloc, signature.count());
    Updates { set }
}

/// One update.
pub(crate) fn one_update(
    alloc: Global,
    signature: &Signature,
    n: usize,
    value: Word,
) -> Result<Updates, AllocError>
    requires { n < count_of signature.now }
    ensures count { IfOk result (λ u. u.set.count ≡ count_of signature.now) }
    ensures one { IfOk result (λ u. Stands signature.now u.set (together none (one (location_at signature.now n) value))) }
{
    let mut set = Summary::new(alloc, signature.count());
    set.add(n, value, value)?;
    Ok(Updates { set })
}

/// The same updates again.
pub(crate) fn copy_updates(alloc: Global, updates: &Updates) -> Result<Updates, AllocError>
    ensures { IfOk result (λ u. u.set ≡ updates.now.set) }
{
    let set = updates.set.copy(alloc)?;
    Ok(Updates { set })
}

/// The set as that of an outcome. It is marked as one that may have a fault, unless it is empty,
/// since by another signature a location of it may be a stray one.
pub(crate) fn marked(set: Summary) -> Result<Updates, AllocError>
    ensures count { IfOk result (λ u. u.set.count ≡ set.count) }
    ensures stands { IfOk result (λ u. (shape : Shape) (U : UpdateSet) → Stands shape set U → Stands shape u.set U) }
{
    if set.len() == 0 {
        return Ok(Updates { set });
    }
    let mut set = set;
    let (n, low, high) = set.entry_at(0);
    set.add(n, low, high)?;
    Ok(Updates { set })
}

/// The entries in the order of their locations, so that sets that are the same have the same
/// entries.
pub(crate) fn in_order(updates: Updates) -> Result<Updates, AllocError>
    ensures count { IfOk result (λ u. u.set.count ≡ updates.set.count) }
    ensures stands { IfOk result (λ u. (shape : Shape) (U : UpdateSet) → Stands shape updates.set U → Stands shape u.set U) }
{
    let Updates { mut set, .. } = updates;
    set.sort()?;
    Ok(Updates { set })
}

/// The union with another set, in the room of this one.
fn unite(updates: Updates, other: &Updates) -> Result<Updates, AllocError>
    requires { other.now.set.count ≡ updates.set.count }
    ensures count { IfOk result (λ u. u.set.count ≡ updates.set.count) }
    ensures union { IfOk result (λ u. (shape : Shape) (U V : UpdateSet) → Stands shape updates.set U → Stands shape other.now.set V → Stands shape u.set (together U V)) }
{
    let Updates { mut set, .. } = updates;
    // The calls say that each entry is of a location below the count.
    let _len = set.len();
    let _other = other.set.len();
    set.union(&other.set)?;
    Ok(Updates { set })
}

/// The union of two sets.
pub(crate) fn union(alloc: Global, left: &Updates, right: &Updates) -> Result<Updates, AllocError>
    requires { right.now.set.count ≡ left.now.set.count }
    ensures count { IfOk result (λ u. u.set.count ≡ left.now.set.count) }
    ensures rule_result { (shape : Shape) (x y : Yielded) → IfOk result (λ u.
        Shows shape (answer.Set left.now) x → Shows shape (answer.Set right.now) y → Shows shape (answer.Set u) (yields.beside x y)) }
{
    let again = copy_updates(alloc, left)?;
    let both = unite(again, right)?;
    let both = in_order(both)?;
    Ok(both)
}

/// The union of two sets, in the room of the second.
pub(crate) fn union_into(left: Updates, right: Updates) -> Result<Updates, AllocError>
    requires { left.set.count ≡ right.set.count }
    ensures count { IfOk result (λ u. u.set.count ≡ right.set.count) }
    ensures rule_result { (shape : Shape) (x y : Yielded) → IfOk result (λ u.
        Shows shape (answer.Set left) x → Shows shape (answer.Set right) y → Shows shape (answer.Set u) (yields.beside x y)) }
{
    if right.set.is_empty() {
        return Ok(left);
    }
    let both = unite(right, &left)?;
    Ok(both)
}

/// The turbo merge with a later set, in the room of this one.
fn follow(updates: Updates, later: &Updates) -> Result<Updates, AllocError>
    requires { later.now.set.count ≡ updates.set.count }
    ensures count { IfOk result (λ u. u.set.count ≡ updates.set.count) }
    ensures merges { IfOk result (λ u. Merges updates.set later.now.set u.set) }
{
    let Updates { mut set, .. } = updates;
    // The calls say that each entry is of a location below the count.
    let _len = set.len();
    let _later = later.set.len();
    set.merge_with(&later.set)?;
    Ok(Updates { set })
}

/// The turbo merge of the set so far with a later one.
pub(crate) fn merged(
    alloc: Global,
    so_far: &Updates,
    later: &Updates,
) -> Result<Updates, AllocError>
    requires { later.now.set.count ≡ so_far.now.set.count }
    ensures count { IfOk result (λ u. u.set.count ≡ so_far.now.set.count) }
    ensures merges { IfOk result (λ u. Merges so_far.now.set later.now.set u.set) }
{
    let again = copy_updates(alloc, so_far)?;
    let both = follow(again, later)?;
    let both = in_order(both)?;
    Ok(both)
}

/// Whether a part with this set is the last: it is faulty, or empty if turns end so.
pub(crate) fn is_last(signature: &Signature, updates: &Updates, turns: bool) -> bool
    requires { updates.now.set.count ≡ count_of signature.now }
    ensures { IsTold signature.now turns updates.now.set result }
{
    if updates.set.first_fault(signature).is_some() {
        return true;
    }
    let empty = updates.set.is_empty();
    turns && empty
}
