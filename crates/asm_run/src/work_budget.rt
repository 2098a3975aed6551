//! Free. How much work pieces are, and how many workers that is worth: a guess from the code alone,
//! on which no trace depends.
//!
//! The bodies of called rules and of derived functions are counted at each use. If the nodes can't
//! be counted, as after an `iterate`, all workers share.
ghost use Rattle.std.specs.Prelude.{◌<◌, All, map, option_map};
ghost use Rattle.asm_code.specs.code.CodeViews.{code_of, codes_of};
ghost use Rattle.asm_code.specs.code.RuleMeaning.{IsSoundTarget, IsSoundRule, IsSoundTest};
ghost use Rattle.asm_code.specs.code.RuleViews.{target_code_of, rule_of};
ghost use Rattle.asm_code.specs.code.SoundCodes.{AreSound, IsSound, IsUniverseNumber};
ghost use Rattle.asm_eval.specs.code.Pieces.{IsPiece};

use asm_code::code::Code;
use asm_code::rule_code::{RuleCode, TargetCode};
use asm_eval::Part;
use asm_eval::piece::Piece;
use asm_state::signature::Signature;

/// A region of fewer nodes of rules and terms is evaluated before another thread had its part of
/// it: a table is to be opened and closed, and a thread started.
const MIN_REGION_NODES: u32 = 32_768;

/// This many nodes of a round are worth a thread.
const NODES_PER_THREAD: u32 = 16_384;

/// The nodes of a value that is bound.
const NODES_OF_BOUND_VALUE: u32 = 1;

/// What a round does with its pieces.
#[derive(Clone, Copy, Debug)]
pub(crate) struct RoundWork {
    /// At most `cut` elements are one piece. None: the pieces are worked whole.
    pub cut: Option<usize>,
    /// A `forall` that isn't longer than the cut is worked whole.
    pub are_enough: bool,
}

/// Whether the rule is evaluated by so few nodes, whatever the state, that it isn't worth a thread.
/// An `iterate` may take any number. What a name stands for in a called rule is taken for the
/// longest argument.
pub(crate) fn is_little(signature: &Signature, rule: &RuleCode) -> bool
    requires { IsSoundRule signature.now (rule_of rule.now) }
{
    budget_after_rule(signature, rule, NODES_OF_BOUND_VALUE, MIN_REGION_NODES).is_some()
}

/// At most this many nodes of a rule are looked at, to see whether a run may have work to share.
const MAX_NODES_LOOKED_AT: u32 = 65_536;

/// Whether some region that the rule comes to may be worth a thread, in whatever state. It is told
/// once for a run, so that a run of little regions doesn't weigh them in each step.
pub(crate) fn may_be_shared(signature: &Signature, rule: &RuleCode) -> bool
    requires { IsSoundRule signature.now (rule_of rule.now) }
{
    budget_after_regions(signature, rule, NODES_OF_BOUND_VALUE, MAX_NODES_LOOKED_AT).is_none()
}

/// What is left of `budget` nodes after those of the rule that are outside of regions, and after
/// its regions, each of which takes little. A name stands for a term of `local` nodes at most.
/// None: a region may be worth a thread, or `budget` isn't enough.
fn budget_after_regions(
    signature: &Signature,
    rule: &RuleCode,
    local: u32,
    budget: u32,
) -> Option<u32>
    requires { IsSoundRule signature.now (rule_of rule.now) }
{
    let budget = budget.checked_sub(1)?;
    match rule {
        RuleCode::Skip | RuleCode::Assign { .. } => Some(budget),
        RuleCode::Par(_) | RuleCode::Forall { .. } => {
            let most = budget.min(MIN_REGION_NODES);
            let over = budget_after_rule(signature, rule, local, most)?;
            budget.checked_sub(most.checked_sub(over)?)
        }
        RuleCode::Seq(parts) => {
            let mut budget = budget;
            for part in parts {
                budget = budget_after_regions(signature, part, local, budget)?;
            }
            Some(budget)
        }
        RuleCode::If { yes, no, .. } => {
            let budget = budget_after_regions(signature, yes, local, budget)?;
            budget_after_regions(signature, no, local, budget)
        }
        RuleCode::Let { body, .. } => budget_after_regions(signature, body, local, budget),
        RuleCode::Choose { body, none, .. } => {
            let budget = budget_after_regions(signature, body, local, budget)?;
            budget_after_regions(signature, none, local, budget)
        }
        RuleCode::Iterate(body) => budget_after_regions(signature, body, local, budget),
        RuleCode::Call {
            body,
            arguments,
            ..
        } => {
            let longest = longest_of(signature, arguments.as_slice(), local, budget)?;
            budget_after_regions(signature, body, longest, budget)
        }
    }
}

/// How many of the workers a round is worth: one for each `NODES_PER_THREAD` of its nodes, and all
/// if that can't be told.
pub(crate) fn workers_for(
    signature: &Signature,
    round_work: RoundWork,
    pieces: &[Piece<'_>],
    workers: usize,
) -> usize
    requires { All (IsPiece signature.now) pieces.now }
    ensures { 0 < result }
{
    let nodes = NODES_PER_THREAD.saturating_mul(saturated(workers));
    match budget_after_pieces(signature, round_work, pieces, nodes) {
        Some(left) => {
            let used = nodes.saturating_sub(left) / NODES_PER_THREAD;
            workers.min(used as usize + 1).max(1)
        }
        None => workers.max(1),
    }
}

/// What is left of `nodes` after what a round does with its pieces. None: they aren't enough.
fn budget_after_pieces(
    signature: &Signature,
    round_work: RoundWork,
    pieces: &[Piece<'_>],
    nodes: u32,
) -> Option<u32>
    requires { All (IsPiece signature.now) pieces.now }
{
    let mut budget = nodes;
    for piece in pieces {
        budget = budget_after_piece(signature, round_work, piece, budget)?;
    }
    Some(budget)
}

/// What is left after one piece.
fn budget_after_piece(
    signature: &Signature,
    round_work: RoundWork,
    piece: &Piece<'_>,
    budget: u32,
) -> Option<u32>
    requires { IsPiece signature.now piece.now }
{
    budget_after_part(signature, round_work, piece.rule, piece.part, budget)
}

/// What is left after a part of a rule.
fn budget_after_part(
    signature: &Signature,
    round_work: RoundWork,
    rule: &RuleCode,
    part: Part,
    budget: u32,
) -> Option<u32>
    requires { IsSoundRule signature.now (rule_of rule.now) }
{
    let Some(cut) = round_work.cut else {
        return budget_after_whole(signature, rule, part, budget);
    };
    match rule {
        RuleCode::Skip | RuleCode::Assign { .. } | RuleCode::Seq(_) | RuleCode::Iterate(_) => {
            budget_after_rule(signature, rule, NODES_OF_BOUND_VALUE, budget)
        }
        RuleCode::Par(parts) => budget.checked_sub(saturated(parts.len())),
        RuleCode::Call {
            answer,
            arguments,
            ..
        } => {
            let budget = match answer {
                Some(place) => budget_after_target(signature, place, NODES_OF_BOUND_VALUE, budget)?,
                None => budget,
            };
            budget
                .checked_sub(saturated(arguments.len()))?
                .checked_sub(1)
        }
        RuleCode::If { test, .. } => budget_after_term(
            signature,
            test,
            NODES_OF_BOUND_VALUE,
            budget,
        ),
        RuleCode::Let { value, .. } => budget_after_term(
            signature,
            value,
            NODES_OF_BOUND_VALUE,
            budget,
        ),
        RuleCode::Choose { over, test, .. } => {
            budget_after_tests(
                signature,
                elements_of(signature, *over),
                test,
                NODES_OF_BOUND_VALUE,
                budget,
            )
        }
        RuleCode::Forall { over, test, .. } => {
            let elements = elements_in(signature, part, *over);
            let longest = saturated(cut);
            if longest < elements {
                return budget.checked_sub(elements.checked_div(longest)?);
            }
            if round_work.are_enough {
                return budget_after_whole(signature, rule, part, budget);
            }
            budget_after_tests(signature, elements, test, NODES_OF_BOUND_VALUE, budget)
        }
    }
}

/// What is left after a part of a rule that is worked whole.
fn budget_after_whole(
    signature: &Signature,
    rule: &RuleCode,
    part: Part,
    budget: u32,
) -> Option<u32>
    requires { IsSoundRule signature.now (rule_of rule.now) }
{
    match rule {
        RuleCode::Forall { over, test, body } => {
            let elements = elements_in(signature, part, *over);
            let budget = budget_after_tests(
                signature,
                elements,
                test,
                NODES_OF_BOUND_VALUE,
                budget,
            )?;
            let share = budget.checked_div(elements)?;
            let over = budget_after_rule(signature, body, NODES_OF_BOUND_VALUE, share)?;
            budget_after_each(elements, share, over, budget)
        }
        rule => budget_after_rule(signature, rule, NODES_OF_BOUND_VALUE, budget),
    }
}

/// What is left of `budget` nodes after a rule's evaluation, if a name stands for a term of `local`
/// nodes at most.
fn budget_after_rule(signature: &Signature, rule: &RuleCode, local: u32, budget: u32) -> Option<u32>
    requires { IsSoundRule signature.now (rule_of rule.now) }
{
    let budget = budget.checked_sub(1)?;
    match rule {
        RuleCode::Skip => Some(budget),
        RuleCode::Assign { place, value } => {
            let budget = budget_after_target(signature, place, local, budget)?;
            budget_after_term(signature, value, local, budget)
        }
        RuleCode::Par(parts) => {
            let mut budget = budget;
            for part in parts {
                budget = budget_after_rule(signature, part, local, budget)?;
            }
            Some(budget)
        }
        RuleCode::Seq(parts) => {
            let mut budget = budget;
            for part in parts {
                budget = budget_after_rule(signature, part, local, budget)?;
            }
            Some(budget)
        }
        RuleCode::If { test, yes, no } => {
            let budget = budget_after_term(signature, test, local, budget)?;
            let budget = budget_after_rule(signature, yes, local, budget)?;
            budget_after_rule(signature, no, local, budget)
        }
        RuleCode::Let { value, body } => {
            let budget = budget_after_term(signature, value, local, budget)?;
            budget_after_rule(signature, body, local, budget)
        }
        RuleCode::Forall { over, test, body } => {
            let elements = elements_of(signature, *over);
            let budget = budget_after_tests(signature, elements, test, local, budget)?;
            let share = budget.checked_div(elements)?;
            let over = budget_after_rule(signature, body, local, share)?;
            budget_after_each(elements, share, over, budget)
        }
        RuleCode::Choose {
            over,
            test,
            body,
            none,
        } => {
            let elements = elements_of(signature, *over);
            let budget = budget_after_tests(signature, elements, test, local, budget)?;
            let budget = budget_after_rule(signature, body, local, budget)?;
            budget_after_rule(signature, none, local, budget)
        }
        RuleCode::Call {
            body,
            answer,
            arguments,
        } => {
            let longest = longest_of(signature, arguments.as_slice(), local, budget)?;
            let budget = match answer {
                Some(place) => budget_after_target(signature, place, local, budget)?,
                None => budget,
            };
            budget_after_rule(signature, body, longest, budget)
        }
        RuleCode::Iterate(_) => None,
    }
}

/// What is left after the arguments of a target.
fn budget_after_target(
    signature: &Signature,
    place: &TargetCode,
    local: u32,
    budget: u32,
) -> Option<u32>
    requires { IsSoundTarget signature.now (target_code_of place.now) }
{
    match place {
        TargetCode::ResultAt(_) | TargetCode::Cell(_) => Some(budget),
        TargetCode::Row { argument, .. } => budget_after_term(signature, argument, local, budget),
        TargetCode::Grid { row, column, .. } => {
            let budget = budget_after_term(signature, row, local, budget)?;
            budget_after_term(signature, column, local, budget)
        }
        TargetCode::FunctionAt { arguments, .. } => budget_after_terms(
            signature,
            arguments.as_slice(),
            local,
            budget,
        ),
    }
}

/// What is left of `budget` nodes after a term's evaluation, if a name stands for a term of `local`
/// nodes at most.
fn budget_after_term(signature: &Signature, term: &Code, local: u32, budget: u32) -> Option<u32>
    requires { IsSound signature.now (code_of term.now) }
{
    let budget = budget.checked_sub(1)?;
    match term {
        Code::Constant(_) | Code::Cell(_) => Some(budget),
        Code::Local(_) => budget.checked_sub(local.saturating_sub(NODES_OF_BOUND_VALUE)),
        Code::Row { argument, .. } => budget_after_term(signature, argument, local, budget),
        Code::Grid { row, column, .. } => {
            let budget = budget_after_term(signature, row, local, budget)?;
            budget_after_term(signature, column, local, budget)
        }
        Code::FunctionAt { arguments, .. } => {
            let mut budget = budget;
            for argument in arguments {
                budget = budget_after_term(signature, argument, local, budget)?;
            }
            Some(budget)
        }
        Code::Derived { body, arguments } => {
            let mut budget = budget;
            for argument in arguments {
                budget = budget_after_term(signature, argument, local, budget)?;
            }
            budget_after_term(signature, body, NODES_OF_BOUND_VALUE, budget)
        }
        Code::DerivedOne { body, argument } => {
            let budget = budget_after_term(signature, argument, local, budget)?;
            budget_after_term(signature, body, NODES_OF_BOUND_VALUE, budget)
        }
        Code::DerivedTwo {
            body,
            first,
            second,
        } => {
            let budget = budget_after_term(signature, first, local, budget)?;
            let budget = budget_after_term(signature, second, local, budget)?;
            budget_after_term(signature, body, NODES_OF_BOUND_VALUE, budget)
        }
        Code::With { left: operand, .. } => budget_after_term(signature, operand, local, budget),
        Code::Plus { left: operand, .. } => budget_after_term(signature, operand, local, budget),
        Code::PlusModulo { left: operand, .. } => budget_after_term(
            signature, operand, local, budget,
        ),
        Code::Modulo { left: operand, .. } => budget_after_term(signature, operand, local, budget),
        Code::Equals { left: operand, .. } => budget_after_term(signature, operand, local, budget),
        Code::Both {
            left: first,
            right: second,
            ..
        } => {
            let budget = budget_after_term(signature, first, local, budget)?;
            budget_after_term(signature, second, local, budget)
        }
        Code::Chain { first, rest } => {
            let mut budget = budget_after_term(signature, first, local, budget)?;
            for (_, operand) in rest {
                budget = budget_after_term(signature, operand, local, budget)?;
            }
            Some(budget)
        }
        Code::Exists { over, test } | Code::Every { over, test } => {
            let elements = elements_of(signature, *over);
            let share = budget.checked_div(elements)?;
            let over = budget_after_term(signature, test, local, share)?;
            budget_after_each(elements, share, over, budget)
        }
    }
}

/// What is left after these terms.
fn budget_after_terms(signature: &Signature, terms: &[Code], local: u32, budget: u32) -> Option<u32>
    requires { AreSound signature.now (codes_of (map code_of terms.now)) }
{
    let mut budget = budget;
    for term in terms {
        budget = budget_after_term(signature, term, local, budget)?;
    }
    Some(budget)
}

/// How many nodes the longest of these terms has, and no fewer than a value that is bound.
fn longest_of(signature: &Signature, terms: &[Code], local: u32, most: u32) -> Option<u32>
    requires { AreSound signature.now (codes_of (map code_of terms.now)) }
{
    let mut longest = NODES_OF_BOUND_VALUE;
    for term in terms {
        let over = budget_after_term(signature, term, local, most)?;
        longest = longest.max(most.checked_sub(over)?);
    }
    Some(longest)
}

/// What is left after that many elements, each with its test.
fn budget_after_tests(
    signature: &Signature,
    elements: u32,
    test: &Option<Code>,
    local: u32,
    budget: u32,
) -> Option<u32>
    requires { IsSoundTest signature.now (option_map code_of test.now) }
{
    let budget = budget.checked_sub(elements)?;
    match test {
        Some(test) => {
            let share = budget.checked_div(elements)?;
            let over = budget_after_term(signature, test, local, share)?;
            budget_after_each(elements, share, over, budget)
        }
        None => Some(budget),
    }
}

/// What is left after that many elements, if the share of each was `share`, and `over` of it is
/// left over.
fn budget_after_each(elements: u32, share: u32, over: u32, budget: u32) -> Option<u32> {
    budget.checked_sub(share.checked_sub(over)?.checked_mul(elements)?)
}

/// How many elements of its universe a `forall` has in this part.
fn elements_in(signature: &Signature, part: Part, over: usize) -> u32
    requires { IsUniverseNumber signature.now over }
{
    match part {
        Part::Whole => elements_of(signature, over),
        Part::Span { from, to } => saturated(to.saturating_sub(from)),
    }
}

/// How many elements the universe has.
fn elements_of(signature: &Signature, over: usize) -> u32
    requires { IsUniverseNumber signature.now over }
{
    saturated(signature.universe(over).size())
}

/// The number, or the greatest that there is.
fn saturated(number: usize) -> u32 {
    u32::try_from(number).unwrap_or(u32::MAX)
}
