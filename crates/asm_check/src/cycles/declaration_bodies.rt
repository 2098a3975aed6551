//! What the bodies of declarations hold: the word `result`, and calls of rules and uses of derived
//! functions, as steps between declarations. It looks at the uses that were collected.
ghost use Rattle.std.specs.Prelude.{◌≡◌, ◌<◌, ℕ, All, IfOk, IfSome, Some, is_some, map, length};
ghost use Rattle.asm_syntax.specs.SourceTree as source;
ghost use Rattle.asm_syntax.specs.code.Views.{spec_of};
ghost use Rattle.asm_check.specs.code.uses.RulesWithResult.{AreWithResult};
ghost use Rattle.asm_check.specs.code.cycles.Graph.{IsGraph, next_of, step_lists};
ghost use Rattle.asm_check.specs.Names as meanings;
ghost use Rattle.asm_check.specs.code.cycles.CallsAndUses.{called_or_used};
ghost use Rattle.asm_check.specs.code.cycles.StepsOfBody.{is_stepping, stepping_to, onward_from};
ghost use Rattle.asm_check.specs.code.names.Tables.{IsTableOf, declared_as_view, text_at};
ghost use Rattle.asm_check.specs.code.uses.UseViews.{use_of};

use crate::limits::limit_faults::declared_at;
use crate::names::declared_as::DeclaredAs;
use crate::names::first_names::{meaning, position};
use crate::names::name_table::NameTable;
use crate::uses::declaration_uses::Use;
use crate::uses::roles::{is_step, may_be_step};
use crate::uses::rules_with_result::has_result;
use asm_syntax::spec::Spec;
use std::alloc::{AllocError, Global};

/// What the bodies of all declarations hold, by the positions of these in the table.
#[derive(Drop)]
pub(crate) struct DeclarationBodies {
    /// Whether it is the body of a rule with a result.
    pub answering: Vec<bool>,
    /// The positions of the rules that it calls, or of the derived functions that it uses.
    pub steps: Vec<Vec<usize>>,
}

/// The same of one declaration.
#[derive(Drop)]
struct DeclarationBody {
    is_answering: bool,
    steps: Vec<usize>,
}

/// What the bodies hold of all that is declared.
pub(crate) fn bodies_of(
    alloc: Global,
    spec: &Spec,
    names: &NameTable,
) -> Result<DeclarationBodies, AllocError>
    requires { IsTableOf (spec_of spec.now) names.now }
    ensures answering { IfOk result (λ bodies. AreWithResult names.now bodies.answering.items) }
    ensures len { IfOk result (λ bodies. length bodies.steps.items ≡ length names.now) }
    ensures graph { IfOk result (λ bodies. IsGraph (step_lists bodies.steps.items)) }
    ensures steps { IfOk result (λ bodies. (n : ℕ) → n < length names.now →
        map (text_at names.now) (next_of (step_lists bodies.steps.items) n) ≡ called_or_used (spec_of spec.now) (text_at names.now n)) }
{
    let _ = spec;
    let mut with_result = Vec::new(alloc);
    let mut steps = Vec::new(alloc);
    for i in 0..names.len() {
        let declared = declared_at(names, i);
        let body = body_of(alloc, names, declared.meaning)?;
        with_result.push(body.is_answering)?;
        steps.push(body.steps)?;
    }
    Ok(DeclarationBodies {
        answering: with_result,
        steps,
    })
}

/// What the body of a declaration holds, if it has one.
fn body_of(
    alloc: Global,
    names: &NameTable,
    meaning: DeclaredAs,
) -> Result<DeclarationBody, AllocError>
    ensures answering { IfOk result (λ body. body.is_answering ≡ meanings.has_result_in_body (Some (declared_as_view meaning.entry))) }
    ensures within { IfOk result (λ body. All (λ n. n < length names.now) body.steps.items) }
    ensures steps { IfOk result (λ body. (spec : source.Spec) → IsTableOf spec names.now →
        map (text_at names.now) body.steps.items ≡ onward_from spec (Some (declared_as_view meaning.entry))) }
{
    match meaning {
        DeclaredAs::Rule(body) => {
            let is_answering = has_result(body.uses);
            let steps = positions(alloc, names, body.uses, true)?;
            Ok(DeclarationBody {
                is_answering,
                steps,
            })
        }
        DeclaredAs::Derived(body) => {
            let steps = positions(alloc, names, body.uses, false)?;
            Ok(DeclarationBody {
                is_answering: false,
                steps,
            })
        }
        _ => Ok(DeclarationBody {
            is_answering: false,
            steps: Vec::new(alloc),
        }),
    }
}

/// The positions of the names whose uses are steps, in the body of a rule
/// or else of a derived function.
fn positions(
    alloc: Global,
    names: &NameTable,
    uses: &[Use],
    in_rule: bool,
) -> Result<Vec<usize>, AllocError>
    ensures within { IfOk result (λ steps. All (λ n. n < length names.now) steps.items) }
    ensures steps { IfOk result (λ steps. (spec : source.Spec) → IsTableOf spec names.now →
        map (text_at names.now) steps.items ≡ stepping_to spec in_rule (map use_of uses.now)) }
{
    let mut positions = Vec::new(alloc);
    for used in uses {
        if let Some(position) = step(names, in_rule, *used) {
            positions.push(position)?;
        }
    }
    Ok(positions)
}

/// The position to which a use leads, if it is a step.
fn step(names: &NameTable, in_rule: bool, used: Use) -> Option<usize>
    ensures within { IfSome result (λ n. n < length names.now) }
    ensures name { IfSome result (λ n. text_at names.now n ≡ used.entry.name.now.text) }
    ensures step { (spec : source.Spec) → IsTableOf spec names.now → is_stepping spec in_rule (use_of used.entry) ≡ is_some result }
{
    if !may_be_step(in_rule, used.role) {
        return None;
    }
    let declared = meaning(names, &used.name.text);
    if is_step(in_rule, used.role, used.is_bound, declared) {
        position(names, &used.name.text)
    } else {
        None
    }
}
