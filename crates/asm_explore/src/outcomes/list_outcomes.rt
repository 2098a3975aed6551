//! The outcomes of a resolved rule through all scripts.
//!
//! A `choose` has the outcomes of its body for each candidate, each with one more choice. Parts
//! beside each other have each outcome of one part together with each outcome of the others. The
//! parts of a sequence go on from each set so far, in the state in which it has been fired. Of
//! equal outcomes one is kept. A rule in which nothing is chosen is formed once, as in a run.
ghost use Rattle.std.specs.Prelude.{◌≡◌, ◌+◌, ◌++◌, [], ◌∷◌, ◌<◌, List, cond, IfOk, IfErr, OnOk, map, option_map, length, take};
ghost use Rattle.asm_state.specs.Location.{State};
ghost use Rattle.asm_state.specs.Signature.{count_of};
ghost use Rattle.asm_meaning.specs.Yields as yields;
ghost use Rattle.asm_code.specs.code.CodeViews.{code_of, codes_of};
ghost use Rattle.asm_code.specs.code.RuleMeaning.{AreSoundRules, IsSoundOptionalTarget, IsSoundRule, IsSoundTest};
ghost use Rattle.asm_code.specs.code.RuleTree as tree;
ghost use Rattle.asm_code.specs.code.RuleViews.{target_code_of, rule_of, rules_of};
ghost use Rattle.asm_code.specs.code.SoundCodes.{AreSound, IsSound, IsUniverseNumber};
ghost use Rattle.asm_eval.specs.code.Frames.{IsSoundFrame};
ghost use Rattle.asm_eval.specs.code.Evaluation.{passes_in};
ghost use Rattle.asm_explore.specs.declared.outcomes.listed_outcome.Choice.{Choice};
ghost use Rattle.asm_explore.specs.declared.outcomes.listed_outcome.ListedOutcome.{ListedOutcome as found_now};
ghost use Rattle.asm_explore.specs.code.OverLimit.{AreDifferent, Refuses};
ghost use Rattle.asm_explore.specs.code.ExploredRules.{exploration_shape, exploration_state, yields_on, parts_on, in_order_on, here_on, made_on, makes_on, parts_made_on, order_made_on};
ghost use Rattle.asm_explore.specs.code.ListedRules.{ListsOutcomes};
ghost use Rattle.asm_explore.specs.code.OutcomeLists.{Situation, HaveChoices, AreCounted, IsCounted, Lists};
ghost use Rattle.asm_explore.specs.code.ChoicesMade.{AreMade, IsWay};
ghost use Rattle.asm_explore.specs.code.ChoicesMadeSoFar.{MadeSoFar, MakesOfAll, MakesTo};
ghost use Rattle.asm_explore.specs.code.ChoicePaths.{LieBelow, IsPlacedFrom, IsPlacedBefore};
ghost use Rattle.asm_explore.specs.code.Sequences.{AllDiffer, BothHave, HasSet, Next, NextOne, Upon};
ghost use Rattle.asm_explore.specs.code.ChoiceLists.{choice_lists};

use crate::exploration::Exploration;
use crate::outcomes::candidates::{candidate_at, candidates};
use crate::outcomes::choiceless::{formed, is_formed_once};
use crate::outcomes::leaf_outcomes::{assigned, empty};
use crate::outcomes::listed_outcome::{ListedOutcome, RuleResult};
use crate::outcomes::outcomes_error::OutcomesError;
use crate::outcomes::over_limit::{add_part, add_part_of_sequence, beside_lists, close, exhaust};
use crate::outcomes::sequence_outcomes::SequenceOutcomes;
use crate::updates::Updates;
use asm_code::code::Code;
use asm_code::rule_code::{RuleCode, TargetCode};
use asm_eval::choose::passes;
use asm_eval::frame::Frame;
use asm_eval::target::optional_target_number;
use asm_eval::value::{holds, value};
use asm_eval::{Path, View};
use std::alloc::Global;

/// Paths with fewer numbers than this need no memory.
const MAX_SHORT_PATH: usize = 16;

/// Puts the path of the part with this number first.
#[inline(always)]
fn put_path(path: &[u64], number: u64, below: &mut [u64; MAX_SHORT_PATH])
    requires { length path.now < 16 }
    ensures { take (length path.now + 1) below.new ≡ yields.at path.now number }
{
    let len = path.len();
    below[..len].copy_from_slice(path);
    below[len] = number;
}

/// What the rule may yield at this path: each outcome with choices that lead to it.
#[cycle(list)]
pub fn outcomes<'e>(
    alloc: Global,
    exploration: &Exploration<'_, '_>,
    frame: &'e Frame<'e>,
    rule: &'e RuleCode,
    path: &[u64],
) -> Result<Vec<ListedOutcome>, OutcomesError>
    requires sound { IsSoundRule (exploration_shape exploration.now) (rule_of rule.now) }
    requires framed { IsSoundFrame (exploration_shape exploration.now) frame.now }
    ensures { let R = rule_of rule.now in
        ListsOutcomes exploration.now path.now (yields_on exploration.now frame.now path.now R) (makes_on exploration.now frame.now path.now R) result }
{
    if is_formed_once(rule) {
        let found = formed(alloc, exploration, frame, rule, path)?;
        return Ok(found);
    }
    match rule {
        RuleCode::Skip => {
            let found = empty(alloc, exploration)?;
            Ok(found)
        }
        RuleCode::Assign { place, value } => {
            let found = assigned(alloc, exploration, frame, place, value, path)?;
            Ok(found)
        }
        RuleCode::Par(parts) => list_all(alloc, exploration, frame, parts.as_slice(), path),
        RuleCode::Seq(parts) => list_in_order(alloc, exploration, frame, parts.as_slice(), path),
        RuleCode::If { test, yes, no } => list_if(alloc, exploration, frame, test, yes, no, path),
        RuleCode::Let { value, body } => list_let(alloc, exploration, frame, value, body, path),
        RuleCode::Forall { over, test, body } => {
            list_each(alloc, exploration, frame, *over, test, body, path)
        }
        RuleCode::Choose {
            over,
            test,
            body,
            none,
        } => list_choose(alloc, exploration, frame, *over, test, body, none, path),
        RuleCode::Iterate(body) => list_turns(alloc, exploration, frame, body, path),
        RuleCode::Call {
            body,
            answer,
            arguments,
        } => list_call(
            alloc,
            exploration,
            frame,
            body,
            answer,
            arguments.as_slice(),
            path,
        ),
    }
}

/// Of the part with this number.
#[cycle(list)]
fn list_part<'e>(
    alloc: Global,
    exploration: &Exploration<'_, '_>,
    frame: &'e Frame<'e>,
    rule: &'e RuleCode,
    number: u64,
    path: &[u64],
) -> Result<Vec<ListedOutcome>, OutcomesError>
    requires sound { IsSoundRule (exploration_shape exploration.now) (rule_of rule.now) }
    requires framed { IsSoundFrame (exploration_shape exploration.now) frame.now }
    ensures { let here = yields.at path.now number in let R = rule_of rule.now in
        ListsOutcomes exploration.now here (yields_on exploration.now frame.now here R) (makes_on exploration.now frame.now here R) result }
{
    if path.len() < MAX_SHORT_PATH {
        let mut below = [0u64; MAX_SHORT_PATH];
        put_path(path, number, &mut below);
        return outcomes(alloc, exploration, frame, rule, &below[..path.len() + 1]);
    }
    let below = Path::below(alloc, path, number)?;
    let found = outcomes(alloc, exploration, frame, rule, below.as_slice())?;
    Ok(found)
}

/// Of one of two rules, as the condition says.
#[cycle(list)]
fn list_if<'e>(
    alloc: Global,
    exploration: &Exploration<'_, '_>,
    frame: &'e Frame<'e>,
    test: &'e Code,
    yes: &'e RuleCode,
    no: &'e RuleCode,
    path: &[u64],
) -> Result<Vec<ListedOutcome>, OutcomesError>
    requires sound_test { IsSound (exploration_shape exploration.now) (code_of test.now) }
    requires sound { IsSoundRule (exploration_shape exploration.now) (rule_of yes.now) }
    requires sound_no { IsSoundRule (exploration_shape exploration.now) (rule_of no.now) }
    requires framed { IsSoundFrame (exploration_shape exploration.now) frame.now }
    ensures { let R = tree.If (code_of test.now) (rule_of yes.now) (rule_of no.now) in
        ListsOutcomes exploration.now path.now (yields_on exploration.now frame.now path.now R) (makes_on exploration.now frame.now path.now R) result }
{
    if holds(exploration.view, frame, test) {
        list_part(alloc, exploration, frame, yes, 0, path)
    } else {
        list_part(alloc, exploration, frame, no, 1, path)
    }
}

/// Of a rule under one value more, which is the term's.
#[cycle(list)]
fn list_let<'e>(
    alloc: Global,
    exploration: &Exploration<'_, '_>,
    frame: &'e Frame<'e>,
    term: &'e Code,
    body: &'e RuleCode,
    path: &[u64],
) -> Result<Vec<ListedOutcome>, OutcomesError>
    requires sound_term { IsSound (exploration_shape exploration.now) (code_of term.now) }
    requires sound { IsSoundRule (exploration_shape exploration.now) (rule_of body.now) }
    requires framed { IsSoundFrame (exploration_shape exploration.now) frame.now }
    ensures { let R = tree.Let (code_of term.now) (rule_of body.now) in
        ListsOutcomes exploration.now path.now (yields_on exploration.now frame.now path.now R) (makes_on exploration.now frame.now path.now R) result }
{
    let value = value(exploration.view, frame, term);
    let bound = Frame::One {
        value: value.unbranded_code(),
        outer: frame,
    };
    list_part(alloc, exploration, &bound, body, 0, path)
}

/// Of the parts beside each other, from the last to the first.
#[cycle(list)]
fn list_all<'e>(
    alloc: Global,
    exploration: &Exploration<'_, '_>,
    frame: &'e Frame<'e>,
    parts: &'e [RuleCode],
    path: &[u64],
) -> Result<Vec<ListedOutcome>, OutcomesError>
    requires sound { AreSoundRules (exploration_shape exploration.now) (rules_of (map rule_of parts.now)) }
    requires framed { IsSoundFrame (exploration_shape exploration.now) frame.now }
    ensures { let Rs = rules_of (map rule_of parts.now) in
        ListsOutcomes exploration.now path.now (parts_on exploration.now frame.now path.now Rs) (parts_made_on exploration.now frame.now path.now Rs) result }
{
    let mut found = empty(alloc, exploration)?;
    let mut i = parts.len();
    while i > 0 {
        i -= 1;
        let part = list_part(alloc, exploration, frame, &parts[i], i as u64, path)?;
        let signature = exploration.view.signature;
        let more = beside_lists(alloc, signature, part, found, exploration.limit, path)?;
        found = more;
    }
    Ok(found)
}

/// Of the body for each value for which the condition holds, from the last to the first.
#[cycle(list)]
fn list_each<'e>(
    alloc: Global,
    exploration: &Exploration<'_, '_>,
    frame: &'e Frame<'e>,
    over: usize,
    test: &'e Option<Code>,
    body: &'e RuleCode,
    path: &[u64],
) -> Result<Vec<ListedOutcome>, OutcomesError>
    requires universe { IsUniverseNumber (exploration_shape exploration.now) over }
    requires sound_test { IsSoundTest (exploration_shape exploration.now) (option_map code_of test.now) }
    requires sound { IsSoundRule (exploration_shape exploration.now) (rule_of body.now) }
    requires framed { IsSoundFrame (exploration_shape exploration.now) frame.now }
    ensures { let R = tree.Forall over (option_map code_of test.now) (rule_of body.now) in
        ListsOutcomes exploration.now path.now (yields_on exploration.now frame.now path.now R) (makes_on exploration.now frame.now path.now R) result }
{
    let mut found = empty(alloc, exploration)?;
    let universe = exploration.view.signature.universe(over);
    let mut i = universe.size();
    while i > 0 {
        i -= 1;
        let bound = Frame::One {
            value: universe.element(i).unbranded_code(),
            outer: frame,
        };
        let more = list_element(
            alloc,
            exploration,
            &bound,
            test,
            body,
            i as u64,
            path,
            found,
        )?;
        found = more;
    }
    Ok(found)
}

/// Of the body for one value beside what comes after it, or of that alone.
#[cycle(list)]
fn list_element<'e>(
    alloc: Global,
    exploration: &Exploration<'_, '_>,
    frame: &'e Frame<'e>,
    test: &'e Option<Code>,
    body: &'e RuleCode,
    number: u64,
    path: &[u64],
    after: Vec<ListedOutcome>,
) -> Result<Vec<ListedOutcome>, OutcomesError>
    requires sound_test { IsSoundTest (exploration_shape exploration.now) (option_map code_of test.now) }
    requires sound { IsSoundRule (exploration_shape exploration.now) (rule_of body.now) }
    requires framed { IsSoundFrame (exploration_shape exploration.now) frame.now }
    requires counted { AreCounted (count_of (exploration_shape exploration.now)) after.items }
    ensures lists { (o : Situation → yields.Result) → Lists (exploration_shape exploration.now) o after.items →
        let here = yields_on exploration.now frame.now (yields.at path.now number) (rule_of body.now) in
        let so = passes_in exploration.now.view.now frame.now test.now in
        IfOk result (λ fs. Lists (exploration_shape exploration.now) (λ s. cond so (yields.beside (here s) (o s)) (o s)) fs.items) }
    ensures placed { HaveChoices (IsPlacedFrom path.now (number + 1)) after.items →
        IfOk result (λ fs. HaveChoices (IsPlacedFrom path.now number) fs.items) }
    ensures differ { AreDifferent path.now (choice_lists after.items) → IfOk result (λ fs. AreDifferent path.now (choice_lists fs.items)) }
    ensures made { (m : Situation → List Choice) → HaveChoices (AreMade m) after.items →
        let here = makes_on exploration.now frame.now (yields.at path.now number) (rule_of body.now) in
        let so = passes_in exploration.now.view.now frame.now test.now in
        IfOk result (λ fs. HaveChoices (AreMade (λ s. cond so (here s ++ m s) (m s))) fs.items) }
    ensures crowded { (m : Situation → List Choice) → HaveChoices (AreMade m) after.items → HaveChoices (IsPlacedFrom path.now (number + 1)) after.items → AreDifferent path.now (choice_lists after.items) →
        let here = makes_on exploration.now frame.now (yields.at path.now number) (rule_of body.now) in
        let so = passes_in exploration.now.view.now frame.now test.now in
        IfErr result (Refuses exploration.now.limit (λ q. IsWay path.now (λ s. cond so (here s ++ m s) (m s)))) }
{
    if passes(exploration.view, frame, test) {
        let part = list_part(alloc, exploration, frame, body, number, path)?;
        let signature = exploration.view.signature;
        let found = beside_lists(alloc, signature, part, after, exploration.limit, path)?;
        Ok(found)
    } else {
        Ok(after)
    }
}

/// Of the body for each candidate, or of the other rule if there is none.
#[cycle(list)]
fn list_choose<'e>(
    alloc: Global,
    exploration: &Exploration<'_, '_>,
    frame: &'e Frame<'e>,
    over: usize,
    test: &'e Option<Code>,
    body: &'e RuleCode,
    none: &'e RuleCode,
    path: &[u64],
) -> Result<Vec<ListedOutcome>, OutcomesError>
    requires universe { IsUniverseNumber (exploration_shape exploration.now) over }
    requires sound_test { IsSoundTest (exploration_shape exploration.now) (option_map code_of test.now) }
    requires sound { IsSoundRule (exploration_shape exploration.now) (rule_of body.now) }
    requires sound_none { IsSoundRule (exploration_shape exploration.now) (rule_of none.now) }
    requires framed { IsSoundFrame (exploration_shape exploration.now) frame.now }
    ensures { let R = tree.Choose over (option_map code_of test.now) (rule_of body.now) (rule_of none.now) in
        ListsOutcomes exploration.now path.now (yields_on exploration.now frame.now path.now R) (makes_on exploration.now frame.now path.now R) result }
{
    let values = candidates(alloc, exploration.view, frame, over, test)?;
    let all = values.as_slice();
    if all.len() == 0 {
        return list_part(alloc, exploration, frame, none, 1, path);
    }
    let mut found = Vec::new(alloc);
    for k in 0..all.len() {
        let value = candidate_at(all, k);
        let bound = Frame::One {
            value: value.unbranded_code(),
            outer: frame,
        };
        let part = list_part(alloc, exploration, &bound, body, 0, path)?;
        add_part(alloc, part, path, k as u64, exploration.limit, &mut found)?;
    }
    Ok(found)
}

/// Of the body of a rule that is called, in which the call's terms stand by name.
#[cycle(list)]
fn list_call<'e>(
    alloc: Global,
    exploration: &Exploration<'_, '_>,
    frame: &'e Frame<'e>,
    body: &'e RuleCode,
    answer: &'e Option<TargetCode>,
    arguments: &'e [Code],
    path: &[u64],
) -> Result<Vec<ListedOutcome>, OutcomesError>
    requires sound { IsSoundRule (exploration_shape exploration.now) (rule_of body.now) }
    requires sound_answer { IsSoundOptionalTarget (exploration_shape exploration.now) (option_map target_code_of answer.now) }
    requires sound_arguments { AreSound (exploration_shape exploration.now) (codes_of (map code_of arguments.now)) }
    requires framed { IsSoundFrame (exploration_shape exploration.now) frame.now }
    ensures { let R = tree.Call (rule_of body.now) (option_map target_code_of answer.now) (codes_of (map code_of arguments.now)) in
        ListsOutcomes exploration.now path.now (yields_on exploration.now frame.now path.now R) (makes_on exploration.now frame.now path.now R) result }
{
    let answer = optional_target_number(alloc, exploration.view, frame, answer)?;
    let bound = Frame::Terms {
        answer,
        codes: arguments,
        caller: frame,
    };
    list_part(alloc, exploration, &bound, body, 0, path)
}

/// Of the parts one after the other: each outcome of a part leads on to those of the parts after
/// it.
#[cycle(list)]
fn list_in_order<'e>(
    alloc: Global,
    exploration: &Exploration<'_, '_>,
    frame: &'e Frame<'e>,
    parts: &'e [RuleCode],
    path: &[u64],
) -> Result<Vec<ListedOutcome>, OutcomesError>
    requires sound { AreSoundRules (exploration_shape exploration.now) (rules_of (map rule_of parts.now)) }
    requires framed { IsSoundFrame (exploration_shape exploration.now) frame.now }
    ensures { let Rs = rules_of (map rule_of parts.now) in
        ListsOutcomes exploration.now path.now (in_order_on exploration.now frame.now path.now Rs) (order_made_on exploration.now frame.now path.now Rs) result }
{
    let begin = empty(alloc, exploration)?;
    let mut sorted = SequenceOutcomes {
        done: Vec::new(alloc),
        more: begin,
    };
    for i in 0..parts.len() {
        let SequenceOutcomes { done, more } = sorted;
        let front = more.as_slice();
        let next = list_next(
            alloc,
            exploration,
            frame,
            &parts[i],
            i as u64,
            path,
            false,
            front,
            done,
        )?;
        sorted = next;
    }
    let found = close(alloc, sorted, exploration.limit, path)?;
    Ok(found)
}

/// Of the turns one after the other.
#[cycle(list)]
fn list_turns<'e>(
    alloc: Global,
    exploration: &Exploration<'_, '_>,
    frame: &'e Frame<'e>,
    body: &'e RuleCode,
    path: &[u64],
) -> Result<Vec<ListedOutcome>, OutcomesError>
    requires sound { IsSoundRule (exploration_shape exploration.now) (rule_of body.now) }
    requires framed { IsSoundFrame (exploration_shape exploration.now) frame.now }
    ensures { let R = tree.Iterate (rule_of body.now) in
        ListsOutcomes exploration.now path.now (yields_on exploration.now frame.now path.now R) (makes_on exploration.now frame.now path.now R) result }
{
    let begin = empty(alloc, exploration)?;
    let mut sorted = SequenceOutcomes {
        done: Vec::new(alloc),
        more: begin,
    };
    for turn in 0..exploration.turns {
        let waiting = sorted.more.as_slice();
        if waiting.len() == 0 {
            return Ok(sorted.done);
        }
        let SequenceOutcomes { done, more } = sorted;
        let front = more.as_slice();
        let number = u64::from(turn);
        let next = list_next(
            alloc,
            exploration,
            frame,
            body,
            number,
            path,
            true,
            front,
            done,
        )?;
        sorted = next;
    }
    let found = exhaust(alloc, sorted, path, exploration.limit)?;
    Ok(found)
}

/// Goes on with the next part, upon each of the sets so far.
#[cycle(list)]
fn list_next<'e>(
    alloc: Global,
    exploration: &Exploration<'_, '_>,
    frame: &'e Frame<'e>,
    rule: &'e RuleCode,
    number: u64,
    path: &[u64],
    turns: bool,
    front: &[ListedOutcome],
    done: Vec<ListedOutcome>,
) -> Result<SequenceOutcomes, OutcomesError>
    requires sound { IsSoundRule (exploration_shape exploration.now) (rule_of rule.now) }
    requires framed { IsSoundFrame (exploration_shape exploration.now) frame.now }
    requires counted { AreCounted (count_of (exploration_shape exploration.now)) front.now }
    ensures next { let here = here_on exploration.now frame.now (yields.at path.now number) (rule_of rule.now) in
        IfOk result (Next (exploration_shape exploration.now) turns (exploration_state exploration.now) here front.now done.items) }
    ensures placed { HaveChoices (IsPlacedBefore path.now number) front.now → HaveChoices (IsPlacedBefore path.now number) done.items →
        IfOk result (BothHave (IsPlacedBefore path.now (number + 1))) }
    ensures differ { AreDifferent path.now (choice_lists done.items ++ choice_lists front.now) → IfOk result (AllDiffer path.now []) }
    ensures made { let here = here_on exploration.now frame.now (yields.at path.now number) (rule_of rule.now) in
        let makes = made_on exploration.now frame.now (yields.at path.now number) (rule_of rule.now) in
        (total : Situation → List Choice) (left left_then : Situation → State → List Choice) → MakesTo turns here makes left left_then →
        MadeSoFar (exploration_shape exploration.now) (exploration_state exploration.now) total left done.items front.now →
        IfOk result (λ sorted. MadeSoFar (exploration_shape exploration.now) (exploration_state exploration.now) total left_then sorted.done.items sorted.more.items) }
    ensures crowded { let here = here_on exploration.now frame.now (yields.at path.now number) (rule_of rule.now) in
        let makes = made_on exploration.now frame.now (yields.at path.now number) (rule_of rule.now) in
        (total : Situation → List Choice) (left left_then : Situation → State → List Choice) → MakesTo turns here makes left left_then →
        MadeSoFar (exploration_shape exploration.now) (exploration_state exploration.now) total left done.items front.now →
        HaveChoices (IsPlacedBefore path.now number) front.now → HaveChoices (IsPlacedBefore path.now number) done.items →
        AreDifferent path.now (choice_lists done.items ++ choice_lists front.now) → IfErr result (Refuses exploration.now.limit (λ q. IsWay path.now total)) }
{
    let mut sorted = SequenceOutcomes {
        done,
        more: Vec::new(alloc),
    };
    for i in 0..front.len() {
        list_one(
            alloc,
            exploration,
            frame,
            rule,
            number,
            path,
            turns,
            &front[i],
            &mut sorted,
        )?;
    }
    Ok(sorted)
}

/// Goes on with the next part, upon one set so far.
#[cycle(list)]
fn list_one<'e>(
    alloc: Global,
    exploration: &Exploration<'_, '_>,
    frame: &'e Frame<'e>,
    rule: &'e RuleCode,
    number: u64,
    path: &[u64],
    turns: bool,
    one: &ListedOutcome,
    sorted: &mut SequenceOutcomes,
) -> Result<(), OutcomesError>
    requires sound { IsSoundRule (exploration_shape exploration.now) (rule_of rule.now) }
    requires framed { IsSoundFrame (exploration_shape exploration.now) frame.now }
    requires counted { IsCounted (count_of (exploration_shape exploration.now)) one.now.answer }
    ensures next { let here = here_on exploration.now frame.now (yields.at path.now number) (rule_of rule.now) in
        OnOk result (NextOne (exploration_shape exploration.now) turns (exploration_state exploration.now) here one.now sorted.old sorted.new) }
    ensures placed { IsPlacedBefore path.now number one.now.choices → BothHave (IsPlacedBefore path.now (number + 1)) sorted.old →
        OnOk result (BothHave (IsPlacedBefore path.now (number + 1)) sorted.new) }
    ensures differ { (others : List found_now) → AllDiffer path.now (one.now ∷ others) sorted.old → OnOk result (AllDiffer path.now others sorted.new) }
    ensures made { let here = here_on exploration.now frame.now (yields.at path.now number) (rule_of rule.now) in
        let makes = made_on exploration.now frame.now (yields.at path.now number) (rule_of rule.now) in
        (total : Situation → List Choice) (left left_then : Situation → State → List Choice) → MakesTo turns here makes left left_then →
        AreMade total one.now.choices → HasSet (exploration_shape exploration.now) (MakesOfAll (exploration_state exploration.now) total left) one.now →
        MadeSoFar (exploration_shape exploration.now) (exploration_state exploration.now) total left_then sorted.old.done.items sorted.old.more.items →
        OnOk result (MadeSoFar (exploration_shape exploration.now) (exploration_state exploration.now) total left_then sorted.new.done.items sorted.new.more.items) }
    ensures crowded { let here = here_on exploration.now frame.now (yields.at path.now number) (rule_of rule.now) in
        let makes = made_on exploration.now frame.now (yields.at path.now number) (rule_of rule.now) in
        (total : Situation → List Choice) (left left_then : Situation → State → List Choice) → MakesTo turns here makes left left_then →
        AreMade total one.now.choices → HasSet (exploration_shape exploration.now) (MakesOfAll (exploration_state exploration.now) total left) one.now →
        MadeSoFar (exploration_shape exploration.now) (exploration_state exploration.now) total left_then sorted.old.done.items sorted.old.more.items →
        IsPlacedBefore path.now number one.now.choices → BothHave (IsPlacedBefore path.now (number + 1)) sorted.old → AllDiffer path.now (one.now ∷ []) sorted.old →
        IfErr result (Refuses exploration.now.limit (λ q. IsWay path.now total)) }
{
    match &one.answer {
        RuleResult::Set(so_far) => {
            let part = list_upon(alloc, exploration, frame, rule, number, path, so_far)?;
            let signature = exploration.view.signature;
            add_part_of_sequence(
                alloc,
                signature,
                so_far,
                one,
                part,
                turns,
                exploration.limit,
                path,
                sorted,
            )?;
            Ok(())
        }
        RuleResult::Exhausted(_) => Ok(()),
    }
}

/// Of the part with this number, in the state in which the set so far has been fired.
#[cycle(list)]
fn list_upon<'e>(
    alloc: Global,
    exploration: &Exploration<'_, '_>,
    frame: &'e Frame<'e>,
    rule: &'e RuleCode,
    number: u64,
    path: &[u64],
    so_far: &Updates,
) -> Result<Vec<ListedOutcome>, OutcomesError>
    requires sound { IsSoundRule (exploration_shape exploration.now) (rule_of rule.now) }
    requires framed { IsSoundFrame (exploration_shape exploration.now) frame.now }
    requires counted { so_far.now.set.count ≡ count_of (exploration_shape exploration.now) }
    ensures upon { let here = here_on exploration.now frame.now (yields.at path.now number) (rule_of rule.now) in
        let makes = made_on exploration.now frame.now (yields.at path.now number) (rule_of rule.now) in
        Upon (exploration_shape exploration.now) (exploration_state exploration.now) so_far.now.set exploration.now.limit (yields.at path.now number) here makes result }
    ensures placed { IfOk result (λ fs. HaveChoices (LieBelow (yields.at path.now number)) fs.items) }
    ensures differ { IfOk result (λ fs. AreDifferent (yields.at path.now number) (choice_lists fs.items)) }
{
    let view = View::upon(exploration.view, &so_far.set);
    let inner = Exploration {
        view: &view,
        turns: exploration.turns,
        limit: exploration.limit,
    };
    let found = list_part(alloc, &inner, frame, rule, number, path)?;
    Ok(found)
}
