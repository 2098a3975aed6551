//! Laws of what is listed, and of what is claimed.
ghost use Rattle.std.specs.Prelude.{◌≡◌, ℕ, Bool, true, List, []};
ghost use Rattle.asm_state.specs.Location.{State};
ghost use Rattle.asm_reader.specs.ExactLines.{exactly};
ghost use Rattle.asm_reader.specs.ScriptLines.{Line, Script, pick};
ghost use Rattle.asm_syntax.specs.code.Views.{spec_of};
ghost use Rattle.asm_syntax.specs.Tree.{Rule};
ghost use Rattle.asm_check.specs.Faults.{inits};
ghost use Rattle.asm_check.specs.Shapes.{shape_of};
ghost use Rattle.asm_check.specs.declared.checked.Checked.{Checked};
ghost use Rattle.asm_meaning.specs.Declarations.{main_rule, specification_of};
ghost use Rattle.asm_meaning.specs.Program.{Environment, Program};
ghost use Rattle.asm_meaning.specs.Run.{Specification};
ghost use Rattle.asm_meaning.specs.Scripts.{IsUnrepeated};
ghost use Rattle.asm_meaning.specs.Yields.{Path};
ghost use Rattle.asm_code.specs.code.RuleTree.{RuleCode};
ghost use Rattle.asm_resolve.specs.code.RuleScopes.{resolved_rule_in};
ghost use Rattle.asm_explore.specs.declared.exploration_result.ExplorationResult.{ExplorationResult};
ghost use Rattle.asm_explore.specs.declared.outcomes.listed_outcome.Choice.{Choice};
ghost use Rattle.asm_explore.specs.ExplorationResults.{IsExplorationResult};
ghost use Rattle.asm_explore.specs.ListElements.{Each};
ghost use Rattle.asm_explore.specs.declared.outcomes.outcomes_error.RuleOverLimit.{RuleOverLimit};
ghost use Rattle.asm_explore.specs.code.ChoicesMade.{made_in};
ghost use Rattle.asm_explore.specs.code.MainRule.{IsMainOverLimit};
ghost use Rattle.asm_explore.specs.code.StepOutcomes.{IsOverLimitOf};
ghost use Rattle.asm_explore.specs.code.ChoicePaths.{HaveOwnPaths};
ghost use Rattle.asm_explore.specs.code.ChoiceLaws.{ChoiceLaws};
ghost use Rattle.asm_explore.specs.ChoicesMadeLaws.{MakingLaws};
ghost use Rattle.asm_explore.specs.code.ReachedStates.{MakesAll};
ghost use Rattle.asm_explore.specs.ChoiceLines.{lines_of, needed};
ghost use Rattle.asm_explore.specs.declared.scripts.script_line.Zeros.{Zeros};
ghost use Rattle.asm_explore.specs.declared.scripts.script_line.Zeros.TheVariants.{Written};
ghost use Rattle.asm_explore.specs.Search.{StaysWithin};
ghost use Rattle.asm_explore.specs.WrittenScripts.{written};

/// A complete and sound list of a step's outcomes has just what the step may yield, for whatever
/// choices.
pub fn choice_laws()
    ensures { ChoiceLaws }
{}

/// If every state is within, each run stays within.
pub fn within_law()
    ensures { (specification : Specification) (turns : ℕ) (within : State → Bool) (script : Script) (limit : ℕ) → ((A : State) → within A ≡ true) →
        StaysWithin specification turns within script limit }
{}

/// If no step makes two choices at one path, no two lines of the script with a line for each choice
/// have one step and one path. It makes all choices, and so do the lines that are needed.
pub fn script_law()
    ensures apart { (back : List (List Choice)) → Each HaveOwnPaths back → IsUnrepeated (exactly (lines_of back)) }
    ensures makes { (back : List (List Choice)) → Each HaveOwnPaths back → MakesAll (exactly (lines_of back)) back }
    ensures needed { (back : List (List Choice)) → Each HaveOwnPaths back → MakesAll (exactly (needed (lines_of back))) back }
{}

/// Lines that have each a step and a path of their own pick the same if those with number 0 are
/// left out.
pub fn zeros_law()
    ensures { (zeros : Zeros) (lines : List Line) → IsUnrepeated (exactly lines) → (step : ℕ) (path : List ℕ) → pick (exactly (written zeros lines)) step path ≡ pick (exactly lines) step path }
{}

/// If each line is written, all are.
pub fn written_law()
    ensures { (lines : List Line) → written Written lines ≡ lines }
{}

/// What a result says of some conditions it says of others that are true in the same states, and
/// what it says of too many outcomes of the main rule's code, it says of the main rule.
pub fn same_rule_result()
    ensures { (checked : Checked) (P : RuleCode) (turns outcomes steps states : ℕ) (right rests within also rested inside : State → Bool) (answer : ExplorationResult) →
        let s = spec_of checked.spec in
        resolved_rule_in s [] (main_rule s (inits s)) P →
        ((A : State) → right A ≡ also A) → ((A : State) → rests A ≡ rested A) → ((A : State) → within A ≡ inside A) →
        IsExplorationResult (specification_of s) turns (IsOverLimitOf (made_in (shape_of s) turns P) outcomes) steps states right rests within answer →
        IsExplorationResult (specification_of s) turns (IsMainOverLimit checked turns outcomes) steps states also rested inside answer }
{}

/// A rule makes each of its choices at a path of its own, at or below that of the rule. Who takes
/// the same at these paths, whatever elsewhere, has the rule tell the same story.
pub fn making_laws()
    ensures { (program : Program) (turns : ℕ) (script : Script) (step : ℕ) (A : State) (e : Environment) (p : Path) (R : Rule) →
        MakingLaws program turns script step A e p R }
{}

/// If the code of the main rule has too many outcomes, the main rule has.
pub fn over_limit()
    ensures { (checked : Checked) (turns limit : ℕ) (P : RuleCode) →
        (let s = spec_of checked.spec in resolved_rule_in s [] (main_rule s (inits s)) P) → (A : State) (crowd : RuleOverLimit) →
        IsOverLimitOf (made_in (shape_of (spec_of checked.spec)) turns P) limit A crowd → IsMainOverLimit checked turns limit A crowd }
{}
