//! The candidates of a `choose`.
ghost use Rattle.std.specs.Prelude.{◌≡◌, ◌<◌, Some, IfOk, length, option_map, slice_get};
ghost use Rattle.asm_code.specs.code.CodeViews.{code_of};
ghost use Rattle.asm_code.specs.code.RuleMeaning.{IsSoundTest};
ghost use Rattle.asm_code.specs.code.SoundCodes.{IsUniverseNumber};
ghost use Rattle.asm_eval.specs.code.Frames.{IsSoundFrame};
ghost use Rattle.asm_eval.specs.code.Evaluation.{passing_in};

use asm_code::code::Code;
use asm_eval::View;
use asm_eval::choose::passes;
use asm_eval::frame::Frame;
use asm_state::word::Word;
use std::alloc::{AllocError, Global};

/// The values of a universe for which the condition holds.
pub(crate) fn candidates<'e>(
    alloc: Global,
    view: &View,
    frame: &'e Frame<'e>,
    over: usize,
    test: &'e Option<Code>,
) -> Result<Vec<Word>, AllocError>
    requires universe { IsUniverseNumber view.now.signature.now over }
    requires sound { IsSoundTest view.now.signature.now (option_map code_of test.now) }
    requires framed { IsSoundFrame view.now.signature.now frame.now }
    ensures { IfOk result (λ vs. vs.items ≡ passing_in view.now frame.now over test.now) }
{
    let universe = view.signature.universe(over);
    let mut found = Vec::new(alloc);
    for i in 0..universe.size() {
        let value = universe.element(i);
        let bound = Frame::One {
            value: value.unbranded_code(),
            outer: frame,
        };
        if passes(view, &bound, test) {
            found.push(value)?;
        }
    }
    Ok(found)
}

/// The candidate at a place.
pub(crate) fn candidate_at(values: &[Word], k: usize) -> Word
    requires { k < length values.now }
    ensures { slice_get values.now k ≡ Some result }
{
    values[k]
}
