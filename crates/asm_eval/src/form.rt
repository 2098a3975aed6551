//! The outcome of a resolved rule, formed in place.
//!
//! `form_part` appends the number of a part to the path, and removes it when the part is formed, so
//! no part and no element needs a path of its own. The functions promise `Follows`. The recursion
//! ends because the number of rules in the code, with the bodies of called rules written out
//! (`rule_size`), falls. How a `seq` or an `iterate` is formed: `sequences.rt`.
//!
//! In a loop over parts or elements the invariant speaks of what is left: what the rest yields,
//! added to what has been formed, is what the whole yields, added to what was there before.
ghost use Rattle.std.specs.Prelude.{◌≡◌, ◌≤◌, length, map, option_map};
ghost use Rattle.asm_state.specs.Signature.{count_of};
ghost use Rattle.asm_eval.specs.code.FormedOutcomes.{Follows};
ghost use Rattle.asm_meaning.specs.Yields as yields;
ghost use Rattle.asm_code.specs.code.CodeViews.{code_of, codes_of};
ghost use Rattle.asm_code.specs.code.Readings.{universe_at};
ghost use Rattle.asm_code.specs.code.RuleMeaning.{AreSoundRules, IsSoundOptionalTarget, IsSoundTarget, IsSoundRule, IsSoundTest};
ghost use Rattle.asm_code.specs.code.RuleTree as tree;
ghost use Rattle.asm_code.specs.code.RuleViews.{target_code_of, rule_of, rules_of};
ghost use Rattle.asm_code.specs.code.SoundCodes.{AreSound, IsSound, IsUniverseNumber};
ghost use Rattle.asm_eval.specs.code.Frames.{IsSoundFrame};
ghost use Rattle.asm_eval.specs.code.Evaluation.{HasLocations, parts_at, rule_at, evaluation_shape, span_at, assigned};

use crate::block::{BLOCK, elements_from};
use crate::choose::{chosen, keep_passing};
use crate::evaluation::Evaluation;
use crate::frame::Frame;
use crate::outcome::Forming;
use crate::regions::{RegionOutcome, Regions};
use crate::sequences::{form_in_order, form_turns};
use crate::spare_sets::take_memory;
use crate::stopped::Stopped;
use crate::target::{optional_target_number, target_number};
use crate::update::add_update;
use crate::value::{holds, value};
use crate::view::View;
use asm_code::code::Code;
use asm_code::rule_code::{RuleCode, TargetCode};
use asm_reader::Picks;
use std::alloc::Global;

/// Forms what the rule yields at the path where the evaluation stands: its updates come to those
/// formed before, and its instances are counted. If it is exhausted, it stands at the path of
/// the `iterate` that made its last turn. If it stopped, the set may have some of the updates.
/// Each `par` and `forall` is offered to `regions` first.
#[cycle(form)]
pub fn form<'e, P: Picks, G: Regions<P>>(
    alloc: Global,
    regions: &mut G,
    evaluation: &Evaluation<'_, '_, P>,
    frame: &'e Frame<'e>,
    rule: &'e RuleCode,
    forming: &mut Forming,
) -> Result<(), Stopped>
    requires sound { IsSoundRule (evaluation_shape evaluation.now) (rule_of rule.now) }
    requires framed { IsSoundFrame (evaluation_shape evaluation.now) frame.now }
    requires ready { G.is_ready regions.old }
    requires fits { HasLocations evaluation.now forming.old }
    ensures ready { G.is_ready regions.new }
    ensures formed { Follows (evaluation_shape evaluation.now) (rule_at evaluation.now frame.now forming.old.path.items (rule_of rule.now)) forming.old forming.new result }
{
    match rule {
        RuleCode::Skip => Ok(()),
        RuleCode::Assign { place, value } => {
            assign(alloc, evaluation.view, frame, place, value, forming)
        }
        RuleCode::Par(parts) => match regions.region(alloc, evaluation, frame, rule, forming)? {
            RegionOutcome::Formed => Ok(()),
            RegionOutcome::Left => form_all(
                alloc,
                regions,
                evaluation,
                frame,
                parts.as_slice(),
                forming,
            ),
        },
        RuleCode::Seq(parts) => form_in_order(
            alloc,
            regions,
            evaluation,
            frame,
            parts.as_slice(),
            forming,
        ),
        RuleCode::If { test, yes, no } => form_if(
            alloc, regions, evaluation, frame, test, yes, no, forming,
        ),
        RuleCode::Let { value, body } => form_let(
            alloc, regions, evaluation, frame, value, body, forming,
        ),
        RuleCode::Forall { over, test, body } => {
            match regions.region(alloc, evaluation, frame, rule, forming)? {
                RegionOutcome::Formed => Ok(()),
                RegionOutcome::Left => {
                    let size = evaluation.view.signature.universe(*over).size();
                    form_span(
                        alloc, regions, evaluation, frame, *over, test, 0, size, body, forming,
                    )
                }
            }
        }
        RuleCode::Choose {
            over,
            test,
            body,
            none,
        } => form_choose(
            alloc, regions, evaluation, frame, *over, test, body, none, forming,
        ),
        RuleCode::Iterate(body) => form_turns(alloc, regions, evaluation, frame, body, forming),
        RuleCode::Call {
            body,
            answer,
            arguments,
        } => form_call(
            alloc,
            regions,
            evaluation,
            frame,
            body,
            answer,
            arguments.as_slice(),
            forming,
        ),
    }
}

/// Forms one of two rules. If the other one is left out, nothing is done for it.
#[cycle(form)]
#[inline(never)]
fn form_if<'e, P: Picks, G: Regions<P>>(
    alloc: Global,
    regions: &mut G,
    evaluation: &Evaluation<'_, '_, P>,
    frame: &'e Frame<'e>,
    test: &'e Code,
    yes: &'e RuleCode,
    no: &'e RuleCode,
    forming: &mut Forming,
) -> Result<(), Stopped>
    requires sound_test { IsSound (evaluation_shape evaluation.now) (code_of test.now) }
    requires sound { IsSoundRule (evaluation_shape evaluation.now) (rule_of yes.now) }
    requires sound_no { IsSoundRule (evaluation_shape evaluation.now) (rule_of no.now) }
    requires framed { IsSoundFrame (evaluation_shape evaluation.now) frame.now }
    requires ready { G.is_ready regions.old }
    requires fits { HasLocations evaluation.now forming.old }
    ensures ready { G.is_ready regions.new }
    ensures formed { Follows (evaluation_shape evaluation.now) (rule_at evaluation.now frame.now forming.old.path.items (tree.If (code_of test.now) (rule_of yes.now) (rule_of no.now))) forming.old forming.new result }
{
    if holds(evaluation.view, frame, test) {
        return form_part(alloc, regions, evaluation, frame, yes, 0, forming);
    }
    match no {
        RuleCode::Skip => Ok(()),
        _ => form_part(alloc, regions, evaluation, frame, no, 1, forming),
    }
}

/// Forms a rule under one value more, which is the term's.
#[cycle(form)]
#[inline(never)]
fn form_let<'e, P: Picks, G: Regions<P>>(
    alloc: Global,
    regions: &mut G,
    evaluation: &Evaluation<'_, '_, P>,
    frame: &'e Frame<'e>,
    term: &'e Code,
    body: &'e RuleCode,
    forming: &mut Forming,
) -> Result<(), Stopped>
    requires sound_term { IsSound (evaluation_shape evaluation.now) (code_of term.now) }
    requires sound { IsSoundRule (evaluation_shape evaluation.now) (rule_of body.now) }
    requires framed { IsSoundFrame (evaluation_shape evaluation.now) frame.now }
    requires ready { G.is_ready regions.old }
    requires fits { HasLocations evaluation.now forming.old }
    ensures ready { G.is_ready regions.new }
    ensures formed { Follows (evaluation_shape evaluation.now) (rule_at evaluation.now frame.now forming.old.path.items (tree.Let (code_of term.now) (rule_of body.now))) forming.old forming.new result }
{
    let value = value(evaluation.view, frame, term);
    let bound = Frame::One {
        value: value.unbranded_code(),
        outer: frame,
    };
    form_part(alloc, regions, evaluation, &bound, body, 0, forming)
}

/// Forms a rule for the candidate that is taken, or the other rule if there is none.
#[cycle(form)]
#[inline(never)]
fn form_choose<'e, P: Picks, G: Regions<P>>(
    alloc: Global,
    regions: &mut G,
    evaluation: &Evaluation<'_, '_, P>,
    frame: &'e Frame<'e>,
    over: usize,
    test: &'e Option<Code>,
    body: &'e RuleCode,
    none: &'e RuleCode,
    forming: &mut Forming,
) -> Result<(), Stopped>
    requires universe { IsUniverseNumber (evaluation_shape evaluation.now) over }
    requires sound_test { IsSoundTest (evaluation_shape evaluation.now) (option_map code_of test.now) }
    requires sound { IsSoundRule (evaluation_shape evaluation.now) (rule_of body.now) }
    requires sound_none { IsSoundRule (evaluation_shape evaluation.now) (rule_of none.now) }
    requires framed { IsSoundFrame (evaluation_shape evaluation.now) frame.now }
    requires ready { G.is_ready regions.old }
    requires fits { HasLocations evaluation.now forming.old }
    ensures ready { G.is_ready regions.new }
    ensures formed { Follows (evaluation_shape evaluation.now) (rule_at evaluation.now frame.now forming.old.path.items (tree.Choose over (option_map code_of test.now) (rule_of body.now) (rule_of none.now))) forming.old forming.new result }
{
    let Some(value) = chosen(evaluation, frame, over, test, forming.path.as_slice()) else {
        return form_part(alloc, regions, evaluation, frame, none, 1, forming);
    };
    let bound = Frame::One {
        value: value.unbranded_code(),
        outer: frame,
    };
    form_part(alloc, regions, evaluation, &bound, body, 0, forming)
}

/// Forms the body of a rule that is called, in which the call's terms stand by name.
#[cycle(form)]
#[inline(never)]
fn form_call<'e, P: Picks, G: Regions<P>>(
    alloc: Global,
    regions: &mut G,
    evaluation: &Evaluation<'_, '_, P>,
    frame: &'e Frame<'e>,
    body: &'e RuleCode,
    answer: &'e Option<TargetCode>,
    arguments: &'e [Code],
    forming: &mut Forming,
) -> Result<(), Stopped>
    requires sound { IsSoundRule (evaluation_shape evaluation.now) (rule_of body.now) }
    requires sound_answer { IsSoundOptionalTarget (evaluation_shape evaluation.now) (option_map target_code_of answer.now) }
    requires sound_arguments { AreSound (evaluation_shape evaluation.now) (codes_of (map code_of arguments.now)) }
    requires framed { IsSoundFrame (evaluation_shape evaluation.now) frame.now }
    requires ready { G.is_ready regions.old }
    requires fits { HasLocations evaluation.now forming.old }
    ensures ready { G.is_ready regions.new }
    ensures formed { Follows (evaluation_shape evaluation.now) (rule_at evaluation.now frame.now forming.old.path.items (tree.Call (rule_of body.now) (option_map target_code_of answer.now) (codes_of (map code_of arguments.now)))) forming.old forming.new result }
{
    let answer = optional_target_number(alloc, evaluation.view, frame, answer)?;
    let bound = Frame::Terms {
        answer,
        codes: arguments,
        caller: frame,
    };
    form_part(alloc, regions, evaluation, &bound, body, 0, forming)
}

/// Forms the part with this number.
#[cycle(form)]
fn form_part<'e, P: Picks, G: Regions<P>>(
    alloc: Global,
    regions: &mut G,
    evaluation: &Evaluation<'_, '_, P>,
    frame: &'e Frame<'e>,
    rule: &'e RuleCode,
    number: u64,
    forming: &mut Forming,
) -> Result<(), Stopped>
    requires sound { IsSoundRule (evaluation_shape evaluation.now) (rule_of rule.now) }
    requires framed { IsSoundFrame (evaluation_shape evaluation.now) frame.now }
    requires ready { G.is_ready regions.old }
    requires fits { HasLocations evaluation.now forming.old }
    ensures ready { G.is_ready regions.new }
    ensures formed { Follows (evaluation_shape evaluation.now) (rule_at evaluation.now frame.now (yields.at forming.old.path.items number) (rule_of rule.now)) forming.old forming.new result }
{
    forming.path.push(number)?;
    form(alloc, regions, evaluation, frame, rule, forming)?;
    forming.path.pop();
    Ok(())
}

/// Forms parts beside each other.
#[cycle(form)]
#[inline(never)]
fn form_all<'e, P: Picks, G: Regions<P>>(
    alloc: Global,
    regions: &mut G,
    evaluation: &Evaluation<'_, '_, P>,
    frame: &'e Frame<'e>,
    parts: &'e [RuleCode],
    forming: &mut Forming,
) -> Result<(), Stopped>
    requires sound { AreSoundRules (evaluation_shape evaluation.now) (rules_of (map rule_of parts.now)) }
    requires framed { IsSoundFrame (evaluation_shape evaluation.now) frame.now }
    requires ready { G.is_ready regions.old }
    requires fits { HasLocations evaluation.now forming.old }
    ensures ready { G.is_ready regions.new }
    ensures formed { Follows (evaluation_shape evaluation.now) (parts_at evaluation.now frame.now forming.old.path.items 0 (rules_of (map rule_of parts.now))) forming.old forming.new result }
{
    for i in 0..parts.len() {
        form_part(
            alloc, regions, evaluation, frame, &parts[i], i as u64, forming,
        )?;
    }
    Ok(())
}

/// Forms the body for each value of an interval of a universe for which the condition holds, block
/// after block. A value's number is its position, which its code says.
#[cycle(form)]
#[inline(never)]
pub(crate) fn form_span<'e, P: Picks, G: Regions<P>>(
    alloc: Global,
    regions: &mut G,
    evaluation: &Evaluation<'_, '_, P>,
    frame: &'e Frame<'e>,
    over: usize,
    test: &'e Option<Code>,
    from: usize,
    to: usize,
    body: &'e RuleCode,
    forming: &mut Forming,
) -> Result<(), Stopped>
    requires universe { IsUniverseNumber (evaluation_shape evaluation.now) over }
    requires within { to ≤ length (universe_at (evaluation_shape evaluation.now) over) }
    requires sound_test { IsSoundTest (evaluation_shape evaluation.now) (option_map code_of test.now) }
    requires sound { IsSoundRule (evaluation_shape evaluation.now) (rule_of body.now) }
    requires framed { IsSoundFrame (evaluation_shape evaluation.now) frame.now }
    requires ready { G.is_ready regions.old }
    requires fits { HasLocations evaluation.now forming.old }
    ensures ready { G.is_ready regions.new }
    ensures formed { Follows (evaluation_shape evaluation.now) (span_at evaluation.now frame.now forming.old.path.items over (option_map code_of test.now) (rule_of body.now) from to) forming.old forming.new result }
{
    let universe = evaluation.view.signature.universe(over);
    let low = universe.first_code();
    let mut i = from;
    while i < to {
        let count = (to - i).min(BLOCK);
        let mut elements = elements_from(universe, i, count);
        let kept = keep_passing(evaluation.view, frame, test, count, &mut elements);
        for k in 0..kept {
            let element = elements[k];
            let bound = Frame::One {
                value: element.unbranded_code(),
                outer: frame,
            };
            forming.instances = forming.instances.saturating_add(1);
            let number = element.code() - low;
            form_part(alloc, regions, evaluation, &bound, body, number, forming)?;
        }
        i += count;
    }
    Ok(())
}

/// Adds the update of an assignment. A target that is no location gives none.
#[inline(never)]
fn assign<'e>(
    alloc: Global,
    view: &View,
    frame: &'e Frame<'e>,
    place: &'e TargetCode,
    new: &'e Code,
    forming: &mut Forming,
) -> Result<(), Stopped>
    requires sound { IsSoundTarget view.now.signature.now (target_code_of place.now) }
    requires sound_new { IsSound view.now.signature.now (code_of new.now) }
    requires framed { IsSoundFrame view.now.signature.now frame.now }
    requires fits { forming.old.set.count ≡ count_of view.now.signature.now }
    ensures { Follows view.now.signature.now (assigned view.now frame.now (target_code_of place.now) (code_of new.now)) forming.old forming.new result }
{
    let Some(n) = target_number(alloc, view, frame, place)? else {
        return Ok(());
    };
    let new = value(view, frame, new);
    take_memory(&mut forming.spare, &mut forming.set);
    add_update(view.signature, &mut forming.set, n, new)?;
    Ok(())
}
