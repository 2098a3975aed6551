//! Laws of joined conditions, of comments before a script, and of the call of `asm` among them.
ghost use Rattle.std.specs.Prelude.{◌≡◌, ◌≤◌, ◌++◌, ℕ, List, Option, Some, codes, length};
ghost use Rattle.std.specs.List.{list_all};
ghost use Rattle.asm_state.specs.Location.{State};
ghost use Rattle.asm_state.specs.declared.operation.Op.{Op};
ghost use Rattle.asm_reader.specs.ScriptLines.{Script};
ghost use Rattle.asm_reader.specs.ScriptText.{IsScript, max_script};
ghost use Rattle.asm_syntax.specs.code.Views.{spec_of, test_of};
ghost use Rattle.asm_syntax.specs.declared.term.Term.{Term};
ghost use Rattle.asm_check.specs.declared.checked.Checked.{Checked};
ghost use Rattle.asm_explore.specs.code.ResolvedConditions.{term_holds};
ghost use Rattle.asm_explore_texts.specs.Comments.{comments, in_one_line};
ghost use Rattle.asm_explore_texts.specs.RunNumbers.{numbers_in_line};
ghost use Rattle.asm_explore_texts.specs.code.CodedConditions.{AreAnds, IsJoined, terms_in};
ghost use Rattle.asm_explore_report.specs.AskedConditions.{AreAllAsked};
ghost use Rattle.asm_explore_report.specs.Commands.{command};
ghost use Rattle.asm_explore_report.specs.code.JoinedConditions.{AreAllJoined};

use asm_check::Checked;
use asm_meaning::laws::{declared_ranks, plain_terms, valued_by_cases};

/// Conditions that are joined by `and` hold together just when each of them does.
pub fn joined_law(checked: &Checked)
    ensures { (links : List (Op × Term)) (t : Option Term) → AreAnds links → IsJoined links t →
        (A : State) → term_holds checked.now t A ≡ list_all (λ link. term_holds checked.now (Some link.1) A) links }
{
    valued_by_cases();
    declared_ranks();
    plain_terms();
}

/// The term that joins conditions is true just when each of the terms is that their texts spell.
pub fn all_asked_law()
    ensures { (texts : List (List ℕ)) (checked : Checked) (t : Option Term) (joined : AreAllJoined texts checked t) →
        AreAllAsked texts (spec_of checked.spec) (test_of t) (terms_in joined.links) }
{}

/// Comments before the text of a script say the same script, unless all is longer than a script may
/// be.
pub fn comments_law()
    ensures { (text : List ℕ) (script : Script) → IsScript text script →
        (lines : List (List ℕ)) → length (comments lines ++ text) ≤ max_script → IsScript (comments lines ++ text) script }
{}

/// The call of `asm` that a report has as a comment says how many steps and turns its run has.
pub fn call_law()
    ensures { (steps turns : ℕ) (name : List ℕ) → steps ≤ 1_000_000 → 1 ≤ turns → turns ≤ 1_000_000 →
        numbers_in_line (codes "# " ++ in_one_line (command steps turns name)) ≡ Some (record { steps = steps; turns = turns }) }
{}
