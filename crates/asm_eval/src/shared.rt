//! Views, paths, parts, resolved rules, frames and pieces for several threads.
ghost use denote.Ref.{NamedLft};
ghost use denote.Param.Send.{IsSend, IsSync};
ghost use Rattle.asm_code.specs.contracts.rule_code.RuleCode as rule;
ghost use Rattle.asm_eval.specs.contracts.frame.Frame as frame;
ghost use Rattle.asm_eval.specs.contracts.piece.Piece as piece;
ghost use Rattle.asm_eval.specs.contracts.part.Part as part;
ghost use Rattle.asm_eval.specs.contracts.path.Path as path;
ghost use Rattle.asm_eval.specs.contracts.view.View as view;

use asm_state::signature::Signature;
use asm_state::state::State;
use asm_updates::summary::Summary;

/// Threads may share views, resolved rules, frames and pieces, and hand pieces over. A function
/// that does so calls this before.
pub fn views_and_pieces_are_shared()
    ensures views { (a : NamedLft) → IsSync (view.the_row a) }
    ensures rules { IsSync rule.the_row }
    ensures frames { (a : NamedLft) → IsSync (frame.the_row a) }
    ensures pieces { (a : NamedLft) → IsSync (piece.the_row a) }
    ensures sent { (a : NamedLft) → IsSend (piece.the_row a) }
{
    views_are_shared();
    paths_and_parts_cross();
}

/// Threads may share views.
fn views_are_shared()
    ensures { (a : NamedLft) → IsSync (view.the_row a) }
{
    is_shared::<Signature>();
    is_shared::<State>();
    is_shared::<Summary>();
}

/// Threads may share paths and parts, and hand them over.
fn paths_and_parts_cross()
    ensures paths { IsSync path.the_row }
    ensures paths_sent { IsSend path.the_row }
    ensures parts { IsSync part.the_row }
    ensures parts_sent { IsSend part.the_row }
{}

/// Threads may share a value of this type.
fn is_shared<T: Sync>()
    ensures { IsSync T.row }
{}
