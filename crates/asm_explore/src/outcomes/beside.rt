//! Lists of outcomes of parts beside each other.
ghost use Rattle.std.specs.Prelude.{◌≡◌, ◌<◌, ℕ, ◌+◌, [], ◌∷◌, ◌++◌, length, IfOk, IfErr, OnOk};
ghost use Rattle.asm_state.specs.Signature.{Shape, count_of};
ghost use Rattle.asm_meaning.specs.Yields as yields;
ghost use Rattle.asm_meaning.specs.Yields.{Result as Yielded};
ghost use Rattle.asm_explore.specs.code.OverLimit.{IfTooMany};
ghost use Rattle.asm_explore.specs.code.OutcomeLists.{Situation, Shows, HaveChoices, IsCounted, AreCounted, IsJoined, Lists};
ghost use Rattle.asm_explore.specs.code.ChoicePaths.{LieBelow, IsPlacedFrom};
ghost use Rattle.asm_explore.specs.code.ChoiceLists.{choice_lists, AreSomeOf, all_joined};

use crate::outcomes::add_outcome::add_outcome;
use crate::outcomes::below::Below;
use crate::outcomes::choice_list::both_choices;
use crate::outcomes::list_error::ListError;
use crate::outcomes::listed_outcome::{ListedOutcome, RuleResult, copy_path};
use crate::outcomes::sets::{union, union_into};
use crate::same_result::hash_of;
use asm_eval::Path;
use asm_state::signature::Signature;
use std::alloc::{AllocError, Global};

/// The first of two paths.
fn first_path(alloc: Global, left: &Path, right: &Path) -> Result<Path, AllocError>
    ensures { IfOk result (λ p. p ≡ yields.first_path left.now right.now) }
{
    if right.as_slice().cmp(left.as_slice()).is_lt() {
        copy_path(alloc, right)
    } else {
        copy_path(alloc, left)
    }
}

/// Two results beside each other.
fn beside(
    alloc: Global,
    signature: &Signature,
    left: &RuleResult,
    right: &RuleResult,
) -> Result<RuleResult, AllocError>
    requires left { IsCounted (count_of signature.now) left.now }
    requires right { IsCounted (count_of signature.now) right.now }
    ensures counted { IfOk result (IsCounted (count_of signature.now)) }
    ensures rule_result { (shape : Shape) (x y : Yielded) → IfOk result (λ a. Shows shape left.now x → Shows shape right.now y → Shows shape a (yields.beside x y)) }
{
    match left {
        RuleResult::Set(set) => match right {
            RuleResult::Set(other) => {
                let set = union(alloc, set, other)?;
                Ok(RuleResult::Set(set))
            }
            RuleResult::Exhausted(path) => {
                let path = copy_path(alloc, path)?;
                Ok(RuleResult::Exhausted(path))
            }
        },
        RuleResult::Exhausted(path) => match right {
            RuleResult::Set(_) => {
                let path = copy_path(alloc, path)?;
                Ok(RuleResult::Exhausted(path))
            }
            RuleResult::Exhausted(other) => {
                let path = first_path(alloc, path, other)?;
                Ok(RuleResult::Exhausted(path))
            }
        },
    }
}

/// Two outcomes beside each other, with the choices of both.
fn join(
    alloc: Global,
    signature: &Signature,
    left: &ListedOutcome,
    right: &ListedOutcome,
) -> Result<ListedOutcome, AllocError>
    requires left { IsCounted (count_of signature.now) left.now.answer }
    requires right { IsCounted (count_of signature.now) right.now.answer }
    ensures choices { IfOk result (λ f. f.choices ≡ left.now.choices ++ right.now.choices) }
    ensures counted { IfOk result (λ f. IsCounted (count_of signature.now) f.answer) }
    ensures rule_result { (shape : Shape) (x y : Yielded) → IfOk result (λ f. Shows shape left.now.answer x → Shows shape right.now.answer y → Shows shape f.answer (yields.beside x y)) }
{
    let choices = both_choices(alloc, &left.choices, &right.choices)?;
    let answer = beside(alloc, signature, &left.answer, &right.answer)?;
    let hash = hash_of(&answer);
    Ok(ListedOutcome {
        choices,
        answer,
        hash,
        below: Below::none(),
    })
}

/// Adds one outcome beside each of a list.
fn beside_each(
    alloc: Global,
    signature: &Signature,
    left: &ListedOutcome,
    right: &[ListedOutcome],
    limit: usize,
    found: &mut Vec<ListedOutcome>,
) -> Result<(), ListError>
    requires left { IsCounted (count_of signature.now) left.now.answer }
    requires right { AreCounted (count_of signature.now) right.now }
    ensures joins { OnOk result (IsJoined signature.now left.now right.now found.old.items found.new.items) }
    ensures crowd { IfErr result (IfTooMany (limit < length found.old.items + length right.now)) }
{
    for i in 0..right.len() {
        let joined = join(alloc, signature, left, &right[i])?;
        add_outcome(found, joined, limit)?;
    }
    Ok(())
}

/// What two parts yield that are beside each other: each outcome of the one beside each of the
/// other.
pub(crate) fn beside_all(
    alloc: Global,
    signature: &Signature,
    left: &[ListedOutcome],
    right: &[ListedOutcome],
    limit: usize,
) -> Result<Vec<ListedOutcome>, ListError>
    requires left { AreCounted (count_of signature.now) left.now }
    requires right { AreCounted (count_of signature.now) right.now }
    ensures lists { (o q : Situation → Yielded) → Lists signature.now o left.now → Lists signature.now q right.now →
        IfOk result (λ fs. Lists signature.now (λ s. yields.beside (o s) (q s)) fs.items) }
    ensures placed { (p : yields.Path) (k : ℕ) → HaveChoices (LieBelow (yields.at p k)) left.now → HaveChoices (IsPlacedFrom p (k + 1)) right.now →
        IfOk result (λ fs. HaveChoices (IsPlacedFrom p k) fs.items) }
    ensures chosen { IfOk result (λ fs. AreSomeOf (choice_lists fs.items) (all_joined (choice_lists left.now) (choice_lists right.now))) }
    ensures crowd { IfErr result (IfTooMany (limit < length (all_joined (choice_lists left.now) (choice_lists right.now)))) }
{
    let mut found = Vec::new(alloc);
    for i in 0..left.len() {
        beside_each(alloc, signature, &left[i], right, limit, &mut found)?;
    }
    Ok(found)
}

/// Two results beside each other, in the room of the second.
fn beside_into(
    signature: &Signature,
    left: RuleResult,
    right: RuleResult,
) -> Result<RuleResult, AllocError>
    requires left { IsCounted (count_of signature.now) left }
    requires right { IsCounted (count_of signature.now) right }
    ensures counted { IfOk result (IsCounted (count_of signature.now)) }
    ensures rule_result { (shape : Shape) (x y : Yielded) → IfOk result (λ a. Shows shape left x → Shows shape right y → Shows shape a (yields.beside x y)) }
{
    match left {
        RuleResult::Set(set) => match right {
            RuleResult::Set(other) => {
                let set = union_into(set, other)?;
                Ok(RuleResult::Set(set))
            }
            RuleResult::Exhausted(path) => Ok(RuleResult::Exhausted(path)),
        },
        RuleResult::Exhausted(path) => match right {
            RuleResult::Set(_) => Ok(RuleResult::Exhausted(path)),
            RuleResult::Exhausted(other) => Ok(RuleResult::Exhausted(lesser_path(path, other))),
        },
    }
}

/// The first of two paths.
fn lesser_path(left: Path, right: Path) -> Path
    ensures { result ≡ yields.first_path left right }
{
    if right.as_slice().cmp(left.as_slice()).is_lt() {
        right
    } else {
        left
    }
}

/// Two outcomes beside each other, with the choices of both, in the room of the second.
fn join_into(
    alloc: Global,
    signature: &Signature,
    left: ListedOutcome,
    right: ListedOutcome,
) -> Result<ListedOutcome, AllocError>
    requires left { IsCounted (count_of signature.now) left.answer }
    requires right { IsCounted (count_of signature.now) right.answer }
    ensures choices { IfOk result (λ f. f.choices ≡ left.choices ++ right.choices) }
    ensures counted { IfOk result (λ f. IsCounted (count_of signature.now) f.answer) }
    ensures rule_result { (shape : Shape) (x y : Yielded) → IfOk result (λ f. Shows shape left.answer x → Shows shape right.answer y → Shows shape f.answer (yields.beside x y)) }
{
    let ListedOutcome {
        choices: first,
        answer: left,
        ..
    } = left;
    let ListedOutcome {
        choices: then,
        answer: right,
        ..
    } = right;
    let choices = first.then(alloc, then)?;
    let answer = beside_into(signature, left, right)?;
    Ok(ListedOutcome {
        choices,
        answer,
        hash: 0,
        below: Below::none(),
    })
}

/// One outcome beside one other, in the room of the second's list, which has nothing in it.
fn one_beside_one(
    alloc: Global,
    signature: &Signature,
    left: ListedOutcome,
    right: ListedOutcome,
    room: Vec<ListedOutcome>,
) -> Result<Vec<ListedOutcome>, AllocError>
    requires left { IsCounted (count_of signature.now) left.answer }
    requires right { IsCounted (count_of signature.now) right.answer }
    requires room { room.items ≡ [] }
    ensures lists { (o q : Situation → Yielded) → Lists signature.now o (left ∷ []) → Lists signature.now q (right ∷ []) →
        IfOk result (λ fs. Lists signature.now (λ s. yields.beside (o s) (q s)) fs.items) }
    ensures placed { (p : yields.Path) (k : ℕ) → HaveChoices (LieBelow (yields.at p k)) (left ∷ []) → HaveChoices (IsPlacedFrom p (k + 1)) (right ∷ []) →
        IfOk result (λ fs. HaveChoices (IsPlacedFrom p k) fs.items) }
    ensures chosen { IfOk result (λ fs. AreSomeOf (choice_lists fs.items) (all_joined (choice_lists (left ∷ [])) (choice_lists (right ∷ [])))) }
{
    let one = join_into(alloc, signature, left, right)?;
    let mut found = room;
    found.push(one)?;
    Ok(found)
}

/// The same of lists that aren't wanted afterwards.
pub(crate) fn beside_lists(
    alloc: Global,
    signature: &Signature,
    left: Vec<ListedOutcome>,
    right: Vec<ListedOutcome>,
    limit: usize,
) -> Result<Vec<ListedOutcome>, ListError>
    requires left { AreCounted (count_of signature.now) left.items }
    requires right { AreCounted (count_of signature.now) right.items }
    ensures lists { (o q : Situation → Yielded) → Lists signature.now o left.items → Lists signature.now q right.items →
        IfOk result (λ fs. Lists signature.now (λ s. yields.beside (o s) (q s)) fs.items) }
    ensures placed { (p : yields.Path) (k : ℕ) → HaveChoices (LieBelow (yields.at p k)) left.items → HaveChoices (IsPlacedFrom p (k + 1)) right.items →
        IfOk result (λ fs. HaveChoices (IsPlacedFrom p k) fs.items) }
    ensures chosen { IfOk result (λ fs. AreSomeOf (choice_lists fs.items) (all_joined (choice_lists left.items) (choice_lists right.items))) }
    ensures crowd { IfErr result (IfTooMany (limit < length (all_joined (choice_lists left.items) (choice_lists right.items)))) }
{
    if left.len() == 1 && right.len() == 1 {
        let (mut part, mut room) = (left, right);
        let (Some(one), Some(other)) = (part.pop(), room.pop()) else {
            unreachable!();
        };
        let found = one_beside_one(alloc, signature, one, other, room)?;
        return Ok(found);
    }
    let found = beside_all(alloc, signature, left.as_slice(), right.as_slice(), limit)?;
    Ok(found)
}
