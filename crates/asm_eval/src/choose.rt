//! Which candidate a resolved `choose` takes.
//!
//! `chosen` walks along the elements to the first candidate, and then asks the script for a number.
//! Number 0 is that candidate. For another number k it walks to candidate k. Only if there are no
//! more than k candidates, which this walk has counted, does it walk once more, to the candidate
//! whose number is the remainder of k. So no list of candidates is kept, and a condition is
//! evaluated at most three times for an element.
ghost use Rattle.std.specs.Prelude.{◌≡◌, ◌≤◌, option_map, take};
ghost use Rattle.std.specs.List.{filter};
ghost use Rattle.asm_reader.specs.ScriptLines.{pick};
ghost use Rattle.asm_meaning.specs.Taken.{taken};
ghost use Rattle.asm_eval.specs.code.FoundCandidates.{found_candidate};
ghost use Rattle.asm_code.specs.code.CodeViews.{code_of};
ghost use Rattle.asm_code.specs.code.RuleMeaning.{IsSoundTest};
ghost use Rattle.asm_code.specs.code.SoundCodes.{IsUniverseNumber};
ghost use Rattle.asm_eval.specs.code.Frames.{IsSoundFrame};
ghost use Rattle.asm_eval.specs.code.Evaluation.{is_passing, passes_in, passing_in};

use crate::block::BLOCK;
use crate::evaluation::Evaluation;
use crate::found_candidate::{FoundCandidate, element_at};
use crate::frame::Frame;
use crate::keep_holding::keep_holding;
use crate::value::holds;
use crate::view::View;
use asm_code::code::Code;
use asm_reader::Picks;
use asm_state::word::Word;

/// Whether the condition holds, or there is none.
pub fn passes<'e>(view: &View, frame: &'e Frame<'e>, test: &'e Option<Code>) -> bool
    requires sound { IsSoundTest view.now.signature.now (option_map code_of test.now) }
    requires framed { IsSoundFrame view.now.signature.now frame.now }
    ensures { result ≡ passes_in view.now frame.now test.now }
{
    match test {
        None => true,
        Some(test) => holds(view, frame, test),
    }
}

/// Keeps the elements for which, at position 0, the condition holds: all if there is none. Returns
/// how many they are.
#[inline(always)]
pub(crate) fn keep_passing<'e>(
    view: &View,
    frame: &'e Frame<'e>,
    test: &'e Option<Code>,
    count: usize,
    elements: &mut [Word; BLOCK],
) -> usize
    requires few { count ≤ 16 }
    requires sound { IsSoundTest view.now.signature.now (option_map code_of test.now) }
    requires framed { IsSoundFrame view.now.signature.now frame.now }
    ensures few { result ≤ count }
    ensures kept { take result elements.new ≡ filter (is_passing view.now frame.now test.now) (take count elements.old) }
{
    match test {
        None => count,
        Some(test) => keep_holding(view, frame, test, count, elements),
    }
}

/// Walks to the candidate with this number, from 0.
fn find_candidate<'e>(
    view: &View,
    frame: &'e Frame<'e>,
    over: usize,
    test: &'e Option<Code>,
    number: u64,
) -> FoundCandidate
    requires universe { IsUniverseNumber view.now.signature.now over }
    requires sound { IsSoundTest view.now.signature.now (option_map code_of test.now) }
    requires framed { IsSoundFrame view.now.signature.now frame.now }
    ensures { result ≡ found_candidate number (passing_in view.now frame.now over test.now) }
{
    let universe = view.signature.universe(over);
    if test.is_none() {
        return element_at(universe, number);
    }
    let mut met = 0;
    for i in 0..universe.size() {
        let bound = Frame::One {
            value: universe.element(i).unbranded_code(),
            outer: frame,
        };
        if passes(view, &bound, test) {
            if met == number {
                return FoundCandidate::At(universe.element(i));
            }
            met += 1;
        }
    }
    FoundCandidate::TooFew(met)
}

/// The candidate that is taken at this path. If there are candidates the script is asked once,
/// else never.
///
/// Without a condition, every element of the universe is a candidate, and none is looked at except
/// the one that is taken.
pub(crate) fn chosen<'e, P: Picks>(
    evaluation: &Evaluation<'_, '_, P>,
    frame: &'e Frame<'e>,
    over: usize,
    test: &'e Option<Code>,
    path: &[u64],
) -> Option<Word>
    requires universe { IsUniverseNumber evaluation.now.view.now.signature.now over }
    requires sound { IsSoundTest evaluation.now.view.now.signature.now (option_map code_of test.now) }
    requires framed { IsSoundFrame evaluation.now.view.now.signature.now frame.now }
    ensures { let number = pick (P.script evaluation.now.choices.now.script.now) evaluation.now.choices.now.step path.now in
        result ≡ taken number (passing_in evaluation.now.view.now frame.now over test.now) }
{
    let FoundCandidate::At(first) = find_candidate(evaluation.view, frame, over, test, 0) else {
        return None;
    };
    let choices = evaluation.choices;
    let number = choices.script.pick(choices.step, path);
    if number == 0 {
        return Some(first);
    }
    match find_candidate(evaluation.view, frame, over, test, number) {
        FoundCandidate::At(value) => Some(value),
        FoundCandidate::TooFew(count) => match find_candidate(
            evaluation.view,
            frame,
            over,
            test,
            number % count,
        ) {
            FoundCandidate::At(value) => Some(value),
            FoundCandidate::TooFew(_) => unreachable!(),
        },
    }
}
