//! Sequences, formed in place: parts one after the other, and turns.
//!
//! A `seq` or an `iterate` sets aside what was formed before. It evaluates part after part, or turn
//! after turn, over a view that lays the set so far over the view of the whole. For a part that is
//! an assignment or a `skip`, or an `if` between such, at most one update is found, and the set so
//! far goes on with it (`single_update`, `merge_update`). A sequence in it goes on with the same set
//! so far, also one in a branch or in a rule that is called (`merge_rule`): its updates are merged
//! where they belong at once, and a read looks through one set however deep such sequences are. Any
//! other part is formed in one summary, which is cleared for each, and then joined by the turbo
//! merge; the first set that isn't empty is taken as it is (`merge_part`). So joining a turn costs
//! what its own updates cost, however much was done before it, and a million turns take the memory
//! of the locations that they update. Turns are a loop and take no stack.
//!
//! The functions that go on with a set promise `FollowsUpon`, for each consistent set that it may
//! stand for.
//! The invariant of their loops: the whole is what the sequence's own set so far becomes with the
//! rest after it, in the state in which both are fired (`proofs/SequencesUpon.antt`,
//! `proofs/CodeSequences.antt`).
ghost use Rattle.std.specs.Prelude.{◌≡◌, ◌<◌, IfOk, IfSome, map, option_map};
ghost use Rattle.asm_state.specs.Signature.{count_of};
ghost use Rattle.asm_state.specs.Updates.{UpdateSet, IsConsistent, fire, merge};
ghost use Rattle.asm_updates.specs.code.Stands.{Stands};
ghost use Rattle.asm_meaning.specs.Value.{is_true};
ghost use Rattle.asm_eval.specs.code.FormedOutcomes.{Follows, FollowsUpon};
ghost use Rattle.asm_eval.specs.code.PartSets.{IsPartSet};
ghost use Rattle.asm_meaning.specs.Yields as yields;
ghost use Rattle.asm_code.specs.code.CodeViews.{code_of, codes_of};
ghost use Rattle.asm_code.specs.code.Readings.{reading};
ghost use Rattle.asm_code.specs.code.RuleMeaning.{AreSoundRules, IsSoundOptionalTarget, IsSoundRule, optional_target_location};
ghost use Rattle.asm_code.specs.code.RuleTree as tree;
ghost use Rattle.asm_code.specs.code.RuleViews.{target_code_of, rule_of, rules_of};
ghost use Rattle.asm_code.specs.code.SoundCodes.{AreSound, IsSound};
ghost use Rattle.asm_eval.specs.code.Frames.{IsSoundFrame, readings_of};
ghost use Rattle.asm_eval.specs.code.Evaluation.{HasLocations, frame_locations, in_order_at, in_order_upon, location_numbered, rule_at, rule_upon, evaluation_shape, evaluation_state};

use crate::evaluation::Evaluation;
use crate::form::form;
use crate::frame::Frame;
use crate::one_update::{OneUpdate, single_update};
use crate::outcome::Forming;
use crate::part_set::PartSet;
use crate::regions::Regions;
use crate::spare_sets::{merge_part, merge_update, put_back, set_aside};
use crate::stopped::Stopped;
use crate::target::optional_target_number;
use crate::value::holds;
use crate::view::View;
use asm_code::code::Code;
use asm_code::rule_code::{RuleCode, TargetCode};
use asm_reader::Picks;
use asm_updates::summary::Summary;
use std::alloc::{AllocError, Global};

/// Forms the parts one after the other, up to the first whose set is faulty.
#[cycle(form)]
#[inline(never)]
pub(crate) fn form_in_order<'e, P: Picks, G: Regions<P>>(
    alloc: Global,
    regions: &mut G,
    evaluation: &Evaluation<'_, '_, P>,
    frame: &'e Frame<'e>,
    parts: &'e [RuleCode],
    forming: &mut Forming,
) -> Result<(), Stopped>
    requires sound { AreSoundRules (evaluation_shape evaluation.now) (rules_of (map rule_of parts.now)) }
    requires framed { IsSoundFrame (evaluation_shape evaluation.now) frame.now }
    requires ready { G.is_ready regions.old }
    requires fits { HasLocations evaluation.now forming.old }
    ensures ready { G.is_ready regions.new }
    ensures formed { Follows (evaluation_shape evaluation.now) (in_order_at evaluation.now frame.now forming.old.path.items (rules_of (map rule_of parts.now))) forming.old forming.new result }
{
    let before = set_aside(alloc, &mut forming.set);
    let mut so_far = Summary::new(alloc, evaluation.view.signature.count());
    merge_in_order(
        alloc,
        regions,
        evaluation,
        frame,
        parts,
        &mut so_far,
        forming,
    )?;
    put_back(before, so_far, forming)
}

/// Forms turns of the body one after the other, up to the first whose set is empty or faulty.
#[cycle(form)]
#[inline(never)]
pub(crate) fn form_turns<'e, P: Picks, G: Regions<P>>(
    alloc: Global,
    regions: &mut G,
    evaluation: &Evaluation<'_, '_, P>,
    frame: &'e Frame<'e>,
    body: &'e RuleCode,
    forming: &mut Forming,
) -> Result<(), Stopped>
    requires sound { IsSoundRule (evaluation_shape evaluation.now) (rule_of body.now) }
    requires framed { IsSoundFrame (evaluation_shape evaluation.now) frame.now }
    requires ready { G.is_ready regions.old }
    requires fits { HasLocations evaluation.now forming.old }
    ensures ready { G.is_ready regions.new }
    ensures formed { Follows (evaluation_shape evaluation.now) (rule_at evaluation.now frame.now forming.old.path.items (tree.Iterate (rule_of body.now))) forming.old forming.new result }
{
    let before = set_aside(alloc, &mut forming.set);
    let mut so_far = Summary::new(alloc, evaluation.view.signature.count());
    merge_turns(
        alloc,
        regions,
        evaluation,
        frame,
        body,
        &mut so_far,
        forming,
    )?;
    put_back(before, so_far, forming)
}

/// Goes on with the parts one after the other, up to the first whose set is faulty.
#[cycle(form)]
#[inline(never)]
fn merge_in_order<'e, P: Picks, G: Regions<P>>(
    alloc: Global,
    regions: &mut G,
    evaluation: &Evaluation<'_, '_, P>,
    frame: &'e Frame<'e>,
    parts: &'e [RuleCode],
    so_far: &mut Summary,
    forming: &mut Forming,
) -> Result<PartSet, Stopped>
    requires sound { AreSoundRules (evaluation_shape evaluation.now) (rules_of (map rule_of parts.now)) }
    requires framed { IsSoundFrame (evaluation_shape evaluation.now) frame.now }
    requires ready { G.is_ready regions.old }
    requires fits { HasLocations evaluation.now forming.old }
    requires so_far { so_far.old.count ≡ count_of (evaluation_shape evaluation.now) }
    ensures ready { G.is_ready regions.new }
    ensures formed { FollowsUpon (evaluation_shape evaluation.now) (λ U. in_order_upon evaluation.now U frame.now forming.old.path.items (rules_of (map rule_of parts.now))) so_far.old so_far.new forming.old forming.new result }
{
    let mut whole = PartSet::Empty;
    for i in 0..parts.len() {
        let part = form_next(
            alloc, regions, evaluation, frame, &parts[i], i as u64, so_far, forming,
        )?;
        whole = joined(whole, part);
        if part.ends_parts() {
            return Ok(whole);
        }
    }
    Ok(whole)
}

/// Goes on with turns of the body one after the other, up to the first whose set is empty or
/// faulty.
#[cycle(form)]
#[inline(never)]
fn merge_turns<'e, P: Picks, G: Regions<P>>(
    alloc: Global,
    regions: &mut G,
    evaluation: &Evaluation<'_, '_, P>,
    frame: &'e Frame<'e>,
    body: &'e RuleCode,
    so_far: &mut Summary,
    forming: &mut Forming,
) -> Result<PartSet, Stopped>
    requires sound { IsSoundRule (evaluation_shape evaluation.now) (rule_of body.now) }
    requires framed { IsSoundFrame (evaluation_shape evaluation.now) frame.now }
    requires ready { G.is_ready regions.old }
    requires fits { HasLocations evaluation.now forming.old }
    requires so_far { so_far.old.count ≡ count_of (evaluation_shape evaluation.now) }
    ensures ready { G.is_ready regions.new }
    ensures formed { FollowsUpon (evaluation_shape evaluation.now) (λ U. rule_upon evaluation.now U frame.now forming.old.path.items (tree.Iterate (rule_of body.now))) so_far.old so_far.new forming.old forming.new result }
{
    let mut whole = PartSet::Empty;
    for turn in 0..evaluation.turns {
        let part = form_next(
            alloc,
            regions,
            evaluation,
            frame,
            body,
            u64::from(turn),
            so_far,
            forming,
        )?;
        whole = joined(whole, part);
        if part.ends_turns() {
            return Ok(whole);
        }
    }
    Err(Stopped::Exhausted)
}

/// Forms the part with this number in the state in which the set so far has been fired, instead of
/// what was formed before, and goes on with it.
#[cycle(form)]
#[inline(always)]
fn form_next<'e, P: Picks, G: Regions<P>>(
    alloc: Global,
    regions: &mut G,
    evaluation: &Evaluation<'_, '_, P>,
    frame: &'e Frame<'e>,
    rule: &'e RuleCode,
    number: u64,
    so_far: &mut Summary,
    forming: &mut Forming,
) -> Result<PartSet, Stopped>
    requires sound { IsSoundRule (evaluation_shape evaluation.now) (rule_of rule.now) }
    requires framed { IsSoundFrame (evaluation_shape evaluation.now) frame.now }
    requires ready { G.is_ready regions.old }
    requires fits { HasLocations evaluation.now forming.old }
    requires so_far { so_far.old.count ≡ count_of (evaluation_shape evaluation.now) }
    ensures ready { G.is_ready regions.new }
    ensures formed { FollowsUpon (evaluation_shape evaluation.now) (λ U. rule_upon evaluation.now U frame.now (yields.at forming.old.path.items number) (rule_of rule.now)) so_far.old so_far.new forming.old forming.new result }
{
    let view = View::upon(evaluation.view, so_far);
    match single_update(alloc, &view, frame, rule)? {
        OneUpdate::Nothing => Ok(PartSet::Empty),
        OneUpdate::Update(n, value) => merge_update(
            evaluation.view.signature,
            n,
            value,
            so_far,
            forming,
        ),
        OneUpdate::Unknown => merge_numbered(
            alloc, regions, evaluation, frame, rule, number, so_far, forming,
        ),
    }
}

/// The same of any rule.
#[cycle(form)]
#[inline(never)]
fn merge_numbered<'e, P: Picks, G: Regions<P>>(
    alloc: Global,
    regions: &mut G,
    evaluation: &Evaluation<'_, '_, P>,
    frame: &'e Frame<'e>,
    rule: &'e RuleCode,
    number: u64,
    so_far: &mut Summary,
    forming: &mut Forming,
) -> Result<PartSet, Stopped>
    requires sound { IsSoundRule (evaluation_shape evaluation.now) (rule_of rule.now) }
    requires framed { IsSoundFrame (evaluation_shape evaluation.now) frame.now }
    requires ready { G.is_ready regions.old }
    requires fits { HasLocations evaluation.now forming.old }
    requires so_far { so_far.old.count ≡ count_of (evaluation_shape evaluation.now) }
    ensures ready { G.is_ready regions.new }
    ensures formed { FollowsUpon (evaluation_shape evaluation.now) (λ U. rule_upon evaluation.now U frame.now (yields.at forming.old.path.items number) (rule_of rule.now)) so_far.old so_far.new forming.old forming.new result }
{
    forming.path.push(number)?;
    let part = merge_rule(alloc, regions, evaluation, frame, rule, so_far, forming)?;
    forming.path.pop();
    Ok(part)
}

/// Goes on with what the rule yields in the state in which the set so far has been fired. A
/// sequence, and one in a branch or in a rule that is called, goes on with the same set, part by
/// part. Any other rule is formed alone.
#[cycle(form)]
#[inline(never)]
fn merge_rule<'e, P: Picks, G: Regions<P>>(
    alloc: Global,
    regions: &mut G,
    evaluation: &Evaluation<'_, '_, P>,
    frame: &'e Frame<'e>,
    rule: &'e RuleCode,
    so_far: &mut Summary,
    forming: &mut Forming,
) -> Result<PartSet, Stopped>
    requires sound { IsSoundRule (evaluation_shape evaluation.now) (rule_of rule.now) }
    requires framed { IsSoundFrame (evaluation_shape evaluation.now) frame.now }
    requires ready { G.is_ready regions.old }
    requires fits { HasLocations evaluation.now forming.old }
    requires so_far { so_far.old.count ≡ count_of (evaluation_shape evaluation.now) }
    ensures ready { G.is_ready regions.new }
    ensures formed { FollowsUpon (evaluation_shape evaluation.now) (λ U. rule_upon evaluation.now U frame.now forming.old.path.items (rule_of rule.now)) so_far.old so_far.new forming.old forming.new result }
{
    match rule {
        RuleCode::Seq(parts) => merge_in_order(
            alloc,
            regions,
            evaluation,
            frame,
            parts.as_slice(),
            so_far,
            forming,
        ),
        RuleCode::If { test, yes, no } => merge_if(
            alloc, regions, evaluation, frame, test, yes, no, so_far, forming,
        ),
        RuleCode::Iterate(body) => {
            merge_turns(alloc, regions, evaluation, frame, body, so_far, forming)
        }
        RuleCode::Call {
            body,
            answer,
            arguments,
        } => merge_call(
            alloc,
            regions,
            evaluation,
            frame,
            body,
            answer,
            arguments.as_slice(),
            so_far,
            forming,
        ),
        _ => form_upon(alloc, regions, evaluation, frame, rule, so_far, forming),
    }
}

/// Goes on with one of two rules.
#[cycle(form)]
#[inline(never)]
fn merge_if<'e, P: Picks, G: Regions<P>>(
    alloc: Global,
    regions: &mut G,
    evaluation: &Evaluation<'_, '_, P>,
    frame: &'e Frame<'e>,
    test: &'e Code,
    yes: &'e RuleCode,
    no: &'e RuleCode,
    so_far: &mut Summary,
    forming: &mut Forming,
) -> Result<PartSet, Stopped>
    requires sound_test { IsSound (evaluation_shape evaluation.now) (code_of test.now) }
    requires sound { IsSoundRule (evaluation_shape evaluation.now) (rule_of yes.now) }
    requires sound_no { IsSoundRule (evaluation_shape evaluation.now) (rule_of no.now) }
    requires framed { IsSoundFrame (evaluation_shape evaluation.now) frame.now }
    requires ready { G.is_ready regions.old }
    requires fits { HasLocations evaluation.now forming.old }
    requires so_far { so_far.old.count ≡ count_of (evaluation_shape evaluation.now) }
    ensures ready { G.is_ready regions.new }
    ensures formed { FollowsUpon (evaluation_shape evaluation.now) (λ U. rule_upon evaluation.now U frame.now forming.old.path.items (tree.If (code_of test.now) (rule_of yes.now) (rule_of no.now))) so_far.old so_far.new forming.old forming.new result }
{
    if holds_upon(evaluation, frame, test, so_far) {
        return form_next(alloc, regions, evaluation, frame, yes, 0, so_far, forming);
    }
    form_next(alloc, regions, evaluation, frame, no, 1, so_far, forming)
}

/// Whether a condition holds in the state in which the set so far has been fired.
#[inline(always)]
fn holds_upon<'e, P: Picks>(
    evaluation: &Evaluation<'_, '_, P>,
    frame: &'e Frame<'e>,
    test: &'e Code,
    so_far: &Summary,
) -> bool
    requires sound { IsSound (evaluation_shape evaluation.now) (code_of test.now) }
    requires framed { IsSoundFrame (evaluation_shape evaluation.now) frame.now }
    requires so_far { so_far.now.count ≡ count_of (evaluation_shape evaluation.now) }
    ensures { (U : UpdateSet) → Stands (evaluation_shape evaluation.now) so_far.now U → IsConsistent U →
        result ≡ is_true (reading (evaluation_shape evaluation.now) (code_of test.now) (readings_of (evaluation_shape evaluation.now) frame.now) (fire (evaluation_state evaluation.now) U)) }
{
    let view = View::upon(evaluation.view, so_far);
    holds(&view, frame, test)
}

/// Goes on with the body of a rule that is called, in which the call's terms stand by name.
#[cycle(form)]
#[inline(never)]
fn merge_call<'e, P: Picks, G: Regions<P>>(
    alloc: Global,
    regions: &mut G,
    evaluation: &Evaluation<'_, '_, P>,
    frame: &'e Frame<'e>,
    body: &'e RuleCode,
    answer: &'e Option<TargetCode>,
    arguments: &'e [Code],
    so_far: &mut Summary,
    forming: &mut Forming,
) -> Result<PartSet, Stopped>
    requires sound { IsSoundRule (evaluation_shape evaluation.now) (rule_of body.now) }
    requires sound_answer { IsSoundOptionalTarget (evaluation_shape evaluation.now) (option_map target_code_of answer.now) }
    requires sound_arguments { AreSound (evaluation_shape evaluation.now) (codes_of (map code_of arguments.now)) }
    requires framed { IsSoundFrame (evaluation_shape evaluation.now) frame.now }
    requires ready { G.is_ready regions.old }
    requires fits { HasLocations evaluation.now forming.old }
    requires so_far { so_far.old.count ≡ count_of (evaluation_shape evaluation.now) }
    ensures ready { G.is_ready regions.new }
    ensures formed { FollowsUpon (evaluation_shape evaluation.now) (λ U. rule_upon evaluation.now U frame.now forming.old.path.items (tree.Call (rule_of body.now) (option_map target_code_of answer.now) (codes_of (map code_of arguments.now)))) so_far.old so_far.new forming.old forming.new result }
{
    let answer = target_upon(alloc, evaluation, frame, answer, so_far)?;
    let bound = Frame::Terms {
        answer,
        codes: arguments,
        caller: frame,
    };
    form_next(alloc, regions, evaluation, &bound, body, 0, so_far, forming)
}

/// The number of the location that a call's result goes to, in the state in which the set so far
/// has been fired.
#[inline(always)]
fn target_upon<'e, P: Picks>(
    alloc: Global,
    evaluation: &Evaluation<'_, '_, P>,
    frame: &'e Frame<'e>,
    answer: &'e Option<TargetCode>,
    so_far: &Summary,
) -> Result<Option<usize>, AllocError>
    requires sound { IsSoundOptionalTarget (evaluation_shape evaluation.now) (option_map target_code_of answer.now) }
    requires framed { IsSoundFrame (evaluation_shape evaluation.now) frame.now }
    requires so_far { so_far.now.count ≡ count_of (evaluation_shape evaluation.now) }
    ensures in_range { IfOk result (λ o. IfSome o (λ n. n < count_of (evaluation_shape evaluation.now))) }
    ensures location { (U : UpdateSet) → Stands (evaluation_shape evaluation.now) so_far.now U → IsConsistent U →
        IfOk result (λ o. location_numbered (evaluation_shape evaluation.now) o ≡ optional_target_location (evaluation_shape evaluation.now) (option_map target_code_of answer.now) (readings_of (evaluation_shape evaluation.now) frame.now) (frame_locations (evaluation_shape evaluation.now) frame.now) (fire (evaluation_state evaluation.now) U)) }
{
    let view = View::upon(evaluation.view, so_far);
    optional_target_number(alloc, &view, frame, answer)
}

/// Goes on with a rule that is formed alone.
#[cycle(form)]
#[inline(never)]
fn form_upon<'e, P: Picks, G: Regions<P>>(
    alloc: Global,
    regions: &mut G,
    evaluation: &Evaluation<'_, '_, P>,
    frame: &'e Frame<'e>,
    rule: &'e RuleCode,
    so_far: &mut Summary,
    forming: &mut Forming,
) -> Result<PartSet, Stopped>
    requires sound { IsSoundRule (evaluation_shape evaluation.now) (rule_of rule.now) }
    requires framed { IsSoundFrame (evaluation_shape evaluation.now) frame.now }
    requires ready { G.is_ready regions.old }
    requires fits { HasLocations evaluation.now forming.old }
    requires so_far { so_far.old.count ≡ count_of (evaluation_shape evaluation.now) }
    ensures ready { G.is_ready regions.new }
    ensures formed { FollowsUpon (evaluation_shape evaluation.now) (λ U. rule_upon evaluation.now U frame.now forming.old.path.items (rule_of rule.now)) so_far.old so_far.new forming.old forming.new result }
{
    forming.set.clear();
    let view = View::upon(evaluation.view, so_far);
    let inner = Evaluation {
        view: &view,
        choices: evaluation.choices,
        turns: evaluation.turns,
    };
    form(alloc, regions, &inner, frame, rule, forming)?;
    let part = PartSet::of(evaluation.view.signature, &forming.set);
    merge_part(so_far, forming)?;
    Ok(part)
}

/// What the sets of two parts of a sequence are together: the turbo merge.
#[inline(always)]
fn joined(first: PartSet, then: PartSet) -> PartSet
    ensures { (U V : UpdateSet) → IsConsistent U → IsPartSet U first → IsPartSet V then → IsPartSet (merge U V) result }
{
    match then {
        PartSet::Empty => first,
        PartSet::Consistent => PartSet::Consistent,
        PartSet::Inconsistent => PartSet::Inconsistent,
    }
}
