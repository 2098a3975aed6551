//! The assignments at the location of the fault of a step.
ghost use Rattle.std.specs.Prelude.{◌≡◌, ◌<◌, IfOk, length};
ghost use Rattle.asm_state.specs.Signature.{count_of, location_at, state_of};
ghost use Rattle.asm_state.specs.Updates.{UpdateSet, IsFirstFault};
ghost use Rattle.asm_updates.specs.Faults.{fault_of};
ghost use Rattle.asm_updates.specs.code.Stands.{Stands};
ghost use Rattle.asm_reader.specs.ScriptLines.{pick};
ghost use Rattle.asm_code.specs.code.RuleViews.{rule_of};
ghost use Rattle.asm_step.specs.code.Steps.{HasMainRule, shape_in};
ghost use Rattle.asm_clash.specs.ClashOfRun.{location_of};
ghost use Rattle.asm_clash.specs.code.CodedSteps.{coded_at};
ghost use Rattle.asm_clash.specs.code.FirstFound.{IsFound};

use crate::found::Found;
use crate::sought::Sought;
use crate::standing::standing_in;
use asm_eval::evaluation::Evaluation;
use asm_eval::frame::Frame;
use asm_eval::piece::Piece;
use asm_eval::{Choices, Part, Path, View};
use asm_reader::Script;
use asm_state::signature::Signature;
use asm_state::state::State;
use asm_step::ResolvedSpecification;
use asm_updates::fault::Fault;
use asm_updates::summary::Summary;
use std::alloc::{AllocError, Global};

/// The number of the location of a set's first fault.
pub(crate) fn fault_number(signature: &Signature, set: &Summary, fault: &Fault) -> usize
    requires first { (U : UpdateSet) × Stands signature.now set.now U × IsFirstFault U (fault_of signature.now fault.now) }
    ensures in_range { result < count_of signature.now }
    ensures location { location_at signature.now result ≡ location_of signature.now fault.now }
{
    match fault {
        Fault::Clash { location, .. } => *location,
        Fault::Outside { function } => signature.stray_number(*function),
    }
}

/// The first assignments whose updates stand at a location in what the step from a state yields
/// with these choices, at most `most`, and how many there are.
pub(crate) fn assignments_at(
    alloc: Global,
    resolved: &ResolvedSpecification<'_>,
    choices: &Choices<'_, Script>,
    state: &State,
    location: usize,
    most: usize,
) -> Result<Found, AllocError>
    requires main { HasMainRule resolved.now }
    requires whole { length state.now ≡ count_of (shape_in resolved.now) }
    requires number { location < count_of (shape_in resolved.now) }
    ensures { let m = resolved.now in
        IfOk result (IsFound most (coded_at (shape_in m) m.turns (pick choices.now.script.now choices.now.step) (rule_of m.code.now) (state_of (shape_in m) state.now) (location_at (shape_in m) location))) }
{
    let signature = resolved.checked.signature();
    let nothing = Summary::new(alloc, signature.count());
    let view = View::new(signature, state, &nothing);
    let evaluation = Evaluation {
        view: &view,
        choices,
        turns: resolved.turns,
    };
    let piece = Piece {
        rule: resolved.code,
        frame: Frame::Empty,
        path: Path::new(Vec::new(alloc)),
        part: Part::Whole,
    };
    let sought = Sought {
        location,
        given: &[],
        most,
    };
    let found = standing_in(alloc, &evaluation, &piece, &sought)?;
    Ok(found)
}
