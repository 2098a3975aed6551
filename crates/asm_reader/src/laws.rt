//! Laws of the definitions of specifications, scripts and refusals.

ghost use Rattle.std.specs.Prelude.{◌≡◌, ◌≢◌, ◌⊎◌, ℕ, cond, false, List, ◌∷◌, ◌++◌, IsSome};
ghost use Rattle.asm_syntax.specs.declared.token.Token.{Token};
ghost use Rattle.asm_syntax.specs.SourceTree as source;
ghost use Rattle.asm_reader.specs.declared.error.ReadError.{ReadError};
ghost use Rattle.asm_reader.specs.Grammar.{specification};
ghost use Rattle.asm_reader.specs.OldGrammar.{StillSpells, StillIsSpecification};
ghost use Rattle.asm_reader.specs.OldScripts.{StillIsScript};
ghost use Rattle.asm_reader.specs.Specification.{IsSpecification};
ghost use Rattle.asm_reader.specs.Refusals.{IsRefusal};
ghost use Rattle.asm_reader.specs.TermText.{IsTermText, IsTermRefusal};
ghost use Rattle.asm_reader.specs.ExactLines.{exactly};
ghost use Rattle.asm_reader.specs.ScriptLines.{Line, EveryLine, Script, is_line_of, pick};
ghost use Rattle.asm_reader.specs.ScriptText.{lines_of, line_of, is_skipped, IsScript, IsScriptRefusal};
ghost use Rattle.asm_reader.specs.declared.script_error.ScriptError.{ScriptError};

use asm_syntax::{no_tokens_beside_a_fault, one_fault, one_list_of_tokens, tokens_or_a_fault};

/// Tokens spell one tree at most, at any depth.
pub fn one_tree_of_tokens()
    ensures { (text : List ℕ) (ts : List Token) (s t : source.Spec) → specification text ts s → specification text ts t → s ≡ t }
{}

/// What spelled a specification before there were `while`, `<-` and `result` spells the same one
/// still: tokens, at any depth, and texts.
pub fn old_texts()
    ensures tokens { StillSpells }
    ensures texts { StillIsSpecification }
{}

/// A text has one specification at most.
pub fn one_tree()
    ensures { (text : List ℕ) (s t : source.Spec) → IsSpecification text s → IsSpecification text t → s ≡ t }
{
    one_list_of_tokens();
}

/// Each text has a specification or a refusal.
pub fn tree_or_a_refusal()
    ensures { (text : List ℕ) → ((s : source.Spec) × IsSpecification text s) ⊎ ((e : ReadError) × IsRefusal text e) }
{
    tokens_or_a_fault();
}

/// A text that spells a specification has no refusal.
pub fn no_tree_beside_a_refusal()
    ensures { (text : List ℕ) (s : source.Spec) (e : ReadError) → IsSpecification text s → ¬ IsRefusal text e }
{
    one_list_of_tokens();
    no_tokens_beside_a_fault();
}

/// A text has one refusal at most.
pub fn one_refusal()
    ensures { (text : List ℕ) (e f : ReadError) → IsRefusal text e → IsRefusal text f → e ≡ f }
{
    one_list_of_tokens();
    no_tokens_beside_a_fault();
    one_fault();
}

/// A text spells one term at most.
pub fn one_term()
    ensures { (text : List ℕ) (s t : source.Term) → IsTermText text s → IsTermText text t → s ≡ t }
{
    one_list_of_tokens();
}

/// Each text spells a term or has a refusal as one.
pub fn term_or_a_refusal()
    ensures { (text : List ℕ) → ((t : source.Term) × IsTermText text t) ⊎ ((e : ReadError) × IsTermRefusal text e) }
{
    tokens_or_a_fault();
}

/// A text that spells a term has no refusal as one.
pub fn no_term_beside_a_refusal()
    ensures { (text : List ℕ) (t : source.Term) (e : ReadError) → IsTermText text t → ¬ IsTermRefusal text e }
{
    one_list_of_tokens();
    no_tokens_beside_a_fault();
}

/// A text has one refusal as a term at most.
pub fn one_term_refusal()
    ensures { (text : List ℕ) (e f : ReadError) → IsTermRefusal text e → IsTermRefusal text f → e ≡ f }
{
    one_list_of_tokens();
    no_tokens_beside_a_fault();
    one_fault();
}

/// What spelled a script before a line could hold for every step still spells one, which picks the
/// same at every step and path.
pub fn old_scripts()
    ensures { StillIsScript }
{}

/// A text spells one script at most.
pub fn one_script()
    ensures { (text : List ℕ) (s t : Script) → IsScript text s → IsScript text t → s ≡ t }
{}

/// Each text has a script or a refusal as one.
pub fn script_or_a_refusal()
    ensures { (text : List ℕ) → ((s : Script) × IsScript text s) ⊎ ((e : ScriptError) × IsScriptRefusal text e) }
{}

/// A text that spells a script has no refusal as one.
pub fn no_script_beside_a_refusal()
    ensures { (text : List ℕ) (s : Script) (e : ScriptError) → IsScript text s → ¬ IsScriptRefusal text e }
{}

/// A text has one refusal as a script at most.
pub fn one_script_refusal()
    ensures { (text : List ℕ) (e f : ScriptError) → IsScriptRefusal text e → IsScriptRefusal text f → e ≡ f }
{}

/// Each line of a script is skipped or says something; no two say it of one step and path, and no
/// two of one path in every step.
pub fn script_lines()
    ensures said { (text : List ℕ) (s : Script) → IsScript text s → (before after : List (List ℕ)) (line : List ℕ) → lines_of text ≡ before ++ line ∷ after → is_skipped line ≡ false → IsSome (line_of line) }
    ensures apart { (text : List ℕ) (s : Script) → IsScript text s → (before between after : List Line) (k l : Line) → s.exact ≡ before ++ k ∷ between ++ l ∷ after → ¬ ((k.step ≡ l.step) × (k.path ≡ l.path)) }
    ensures every_apart { (text : List ℕ) (s : Script) → IsScript text s → (before between after : List EveryLine) (k l : EveryLine) → s.every ≡ before ++ k ∷ between ++ l ∷ after → k.path ≢ l.path }
{}

/// A script with one more line for one step, and none for every step, picks what that line says if
/// it is of this step and path, and else what it picked before.
pub fn pick_line()
    ensures { (line : Line) (lines : List Line) (step : ℕ) (p : List ℕ) → pick (exactly (line ∷ lines)) step p ≡ cond (is_line_of step p line) line.choice (pick (exactly lines) step p) }
{}
