//! How many elements of a `forall` a piece has.
ghost use Rattle.std.specs.Prelude.{◌≡◌, ◌<◌};
ghost use Rattle.asm_code.specs.code.RuleMeaning.{IsSoundRule};
ghost use Rattle.asm_code.specs.code.RuleViews.{rule_of};
ghost use Rattle.asm_eval.specs.code.Pieces.{HasAtMost, IsPiece, all_positions, positions_in};

use crate::part::Part;
use crate::piece::Piece;
use asm_code::rule_code::RuleCode;
use asm_state::signature::Signature;

/// At how many positions of its universe a piece's `forall` is evaluated. None: its rule is no
/// `forall`.
pub fn positions_of(signature: &Signature, piece: &Piece<'_>) -> Option<usize>
    requires { IsPiece signature.now piece.now }
    ensures { result ≡ positions_in signature.now piece.now }
{
    match (piece.part, piece.rule) {
        (Part::Span { from, to }, _) => Some(to.saturating_sub(from)),
        (Part::Whole, RuleCode::Forall { over, .. }) => Some(signature.universe(*over).size()),
        (Part::Whole, _) => None,
    }
}

/// A cut at which the rule isn't cut to spans.
pub fn whole_cut(signature: &Signature, rule: &RuleCode) -> usize
    requires { IsSoundRule signature.now (rule_of rule.now) }
    ensures some { 0 < result }
    ensures whole { HasAtMost (all_positions signature.now (rule_of rule.now)) result }
{
    match rule {
        RuleCode::Forall { over, .. } => signature.universe(*over).size().max(1),
        _ => 1,
    }
}
