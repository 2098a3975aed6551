//! Which results are the same.
ghost use Rattle.std.specs.Prelude.{◌≡◌, ◌↔◌, ◌<◌, IsTrue, length, slice_get};
ghost use Rattle.asm_state.specs.Signature.{Shape};
ghost use Rattle.asm_state.specs.Updates.{UpdateSet};
ghost use Rattle.asm_updates.specs.code.Stands.{Stands};
ghost use Rattle.asm_explore.specs.code.OutcomeLists.{AnyOf, IsShownBy};

use crate::outcomes::listed_outcome::{ListedOutcome, RuleResult};
use crate::states::index::{NO_CONTENTS, with_content};
use crate::updates::Updates;
use asm_state::laws::codes_apart;
use asm_state::word::Word;
use asm_updates::summary::Summary;

/// Whether two values are the same.
pub(crate) fn is_same_value(left: Word, right: Word) -> bool
    ensures { IsTrue result ↔ left ≡ right }
{
    codes_apart();
    left.code() == right.code()
}

/// Whether two ranges have the same bounds.
fn is_same_range(low: Word, high: Word, least: Word, greatest: Word) -> bool
    ensures { IsTrue result → (low ≡ least) × (high ≡ greatest) }
{
    is_same_value(low, least) && is_same_value(high, greatest)
}

/// Whether the sets have the same entry at a position.
fn is_same_at(left: &Summary, right: &Summary, i: usize) -> bool
    requires left { i < length left.now.ranges }
    requires right { i < length right.now.ranges }
    ensures { IsTrue result → slice_get left.now.ranges i ≡ slice_get right.now.ranges i }
{
    let (n, low, high) = left.entry_at(i);
    let (m, least, greatest) = right.entry_at(i);
    n == m && is_same_range(low, high, least, greatest)
}

/// Whether two sets have the same entries in the same order.
fn is_same_set(left: &Updates, right: &Updates) -> bool
    ensures { IsTrue result → (shape : Shape) (U : UpdateSet) → Stands shape right.now.set U → Stands shape left.now.set U }
{
    let (left, right) = (&left.set, &right.set);
    if left.count() != right.count() || left.len() != right.len() {
        return false;
    }
    for i in 0..left.len() {
        if !is_same_at(left, right, i) {
            return false;
        }
    }
    true
}

/// Whether two results are found to be the same.
fn is_same_result(left: &RuleResult, right: &RuleResult) -> bool
    ensures { IsTrue result → IsShownBy right.now left.now }
{
    match left {
        RuleResult::Set(set) => match right {
            RuleResult::Set(other) => is_same_set(set, other),
            RuleResult::Exhausted(_) => false,
        },
        RuleResult::Exhausted(path) => match right {
            RuleResult::Set(_) => false,
            RuleResult::Exhausted(other) => path.as_slice() == other.as_slice(),
        },
    }
}

/// The hash of a result. Equal sets whose entries are in other orders have other ones.
pub(crate) fn hash_of(answer: &RuleResult) -> u64 {
    let mut hash = NO_CONTENTS;
    match answer {
        RuleResult::Set(updates) => {
            let set = &updates.set;
            for i in 0..set.len() {
                let (n, low, high) = set.entry_at(i);
                hash = with_content(hash, n as u64);
                hash = with_content(hash, low.code());
                hash = with_content(hash, high.code());
            }
        }
        RuleResult::Exhausted(path) => {
            for number in path.as_slice() {
                hash = with_content(hash, *number);
            }
        }
    }
    hash
}

/// Whether some outcome of the list is found to have the result of this one.
pub(crate) fn is_known(found: &[ListedOutcome], one: &ListedOutcome) -> bool
    ensures { IsTrue result → AnyOf (λ f. IsShownBy one.now.answer f.answer) found.now }
{
    let mut at = 0;
    for depth in 0..found.len() {
        if at >= found.len() {
            return false;
        }
        let other = &found[at];
        if other.hash == one.hash && is_same_result(&other.answer, &one.answer) {
            return true;
        }
        at = other.below.next(one.hash, depth);
        if at == 0 {
            return false;
        }
    }
    false
}

/// Lets the search come to the last outcome of the list.
pub(crate) fn link_last(found: &mut Vec<ListedOutcome>)
    ensures { found.new.items ≡ found.old.items }
{
    let len = found.len();
    if len < 2 {
        return;
    }
    let hash = found[len - 1].hash;
    let mut at = 0;
    for depth in 0..len {
        if at >= found.len() {
            return;
        }
        let next = found[at].below.next(hash, depth);
        if next == 0 {
            found[at].below.lead(hash, depth, len - 1);
            return;
        }
        at = next;
    }
}
