//! The codes of rules.
//!
//! The body of a rule is resolved for the parameters that a call binds, so each name that has a
//! position is bound in each call. The pass refuses nothing: only memory can be short. It ends
//! because ranks fall with calls and uses (`declared_ranks`, `tree_weights`). The proof has one
//! lemma for each form of term (`proofs/TermPasses.antt`) and of rule
//! (`proofs/RuleResolving.antt`).
ghost use Rattle.std.specs.Prelude.{◌≡◌, ◌<◌, List, Some, None, IfOk, IfSome, IfNone, OnOk, length, take};
ghost use Rattle.std.specs.Arc.{arc_value};
ghost use Rattle.asm_state.specs.declared.function.FunctionKind.TheVariants.{Controlled};
ghost use Rattle.asm_state.specs.declared.value.Value.{Value as ValueHere};
ghost use Rattle.asm_state.specs.Signature.{HasKind, domain_of};
ghost use Rattle.asm_syntax.specs.code.Views.{spec_of};
ghost use Rattle.asm_check.specs.Numbers.{named, rules_of};
ghost use Rattle.asm_check.specs.Shapes.{shape_of};
ghost use Rattle.asm_check.specs.declared.checked.NameNumber.TheVariants as number;
ghost use Rattle.asm_meaning.specs.Declarations.{program_of, rule_number};
ghost use Rattle.asm_meaning.specs.Program as declared;
ghost use Rattle.asm_meaning.specs.Targets.{location_of};
ghost use Rattle.asm_code.specs.code.RuleViews as views;
ghost use Rattle.asm_resolve.specs.code.RuleScopes.{AreKnown, IsRuleBody, assign_resolved, call_resolved, choose_resolved, forall_resolved, other_resolved, parts_resolved, named_target_resolved, rule_resolved, target_resolved, test_resolved, while_resolved};
ghost use Rattle.asm_resolve.specs.code.Scopes.{slots_of};
ghost use Rattle.asm_resolve.specs.code.Slots as slots;

use crate::bodies::{Bodies, RuleBody, keep_rule, known_rule, shared_rule};
use crate::functions::{cell_target, grid_target, row_target};
use crate::parameters::Parameters;
use crate::resolve::{resolve, resolve_all, universe_numbered};
use crate::scope::{Scope, result_position};
use asm_check::{Checked, NameNumber};
use asm_code::code::Code;
use asm_code::rule_code::{RuleCode, TargetCode};
use asm_state::function::FunctionKind;
use asm_state::word::Word;
use asm_syntax::name::Name;
use asm_syntax::rule::{Rule, Target};
use asm_syntax::term::Term;
use std::alloc::{AllocError, Global};
use std::sync::Arc;

/// The code of a rule under the names of the scope. The bodies of the derived functions and of the
/// rules that it uses are resolved once, and kept.
#[cycle(resolve_rule)]
pub fn resolve_rule<'e>(
    alloc: Global,
    checked: &'e Checked,
    known: &mut Bodies,
    scope: &'e Scope<'e>,
    rule: &'e Rule,
) -> Result<RuleCode, AllocError>
    requires known { AreKnown (spec_of checked.now.spec) known.old }
    ensures resolved { IfOk result (rule_resolved checked.now scope.now rule.now) }
    ensures known { OnOk result (AreKnown (spec_of checked.now.spec) known.new) }
{
    match rule {
        Rule::Skip => Ok(RuleCode::Skip),
        Rule::Assign {
            name,
            arguments,
            value,
        } => resolve_assign(
            alloc,
            checked,
            known,
            scope,
            name,
            arguments.as_slice(),
            value,
        ),
        Rule::SetResult { name, value } => {
            resolve_assign(alloc, checked, known, scope, name, &[], value)
        }
        Rule::Par(parts) => {
            let codes = resolve_parts(alloc, checked, known, scope, parts.as_slice())?;
            Ok(RuleCode::Par(codes))
        }
        Rule::Seq(parts) => {
            let codes = resolve_parts(alloc, checked, known, scope, parts.as_slice())?;
            Ok(RuleCode::Seq(codes))
        }
        Rule::If { test, yes, no } => {
            let test = resolve(alloc, checked, &mut known.terms, scope, test)?;
            let yes = resolve_boxed(alloc, checked, known, scope, yes)?;
            let no = resolve_other(alloc, checked, known, scope, no)?;
            Ok(RuleCode::If {
                test,
                yes,
                no: Box::new(alloc, no)?,
            })
        }
        Rule::Let { name, value, body } => {
            let value = resolve(alloc, checked, &mut known.terms, scope, value)?;
            let inner = Scope::Within { name, outer: scope };
            let body = resolve_boxed(alloc, checked, known, &inner, body)?;
            Ok(RuleCode::Let { value, body })
        }
        Rule::Forall {
            name,
            over,
            test,
            body,
        } => resolve_forall(alloc, checked, known, scope, name, over, test, body),
        Rule::Choose {
            name,
            over,
            test,
            body,
            none,
        } => resolve_choose(alloc, checked, known, scope, name, over, test, body, none),
        Rule::Iterate(body) => {
            let body = resolve_boxed(alloc, checked, known, scope, body)?;
            Ok(RuleCode::Iterate(body))
        }
        Rule::While { test, body } => resolve_while(alloc, checked, known, scope, test, body),
        Rule::Call {
            target,
            name,
            arguments,
        } => resolve_call(
            alloc,
            checked,
            known,
            scope,
            target,
            name,
            arguments.as_slice(),
        ),
    }
}

/// The code of a rule for each element.
#[cycle(resolve_rule)]
fn resolve_forall<'e>(
    alloc: Global,
    checked: &'e Checked,
    known: &mut Bodies,
    scope: &'e Scope<'e>,
    name: &'e Name,
    over: &'e Name,
    test: &'e Option<Term>,
    body: &'e Rule,
) -> Result<RuleCode, AllocError>
    requires known { AreKnown (spec_of checked.now.spec) known.old }
    ensures resolved { IfOk result (forall_resolved checked.now scope.now name.now.text over.now.text test.now body.now) }
    ensures known { OnOk result (AreKnown (spec_of checked.now.spec) known.new) }
{
    let Some(over) = universe_numbered(checked, over) else {
        return Ok(RuleCode::Skip);
    };
    let inner = Scope::Within { name, outer: scope };
    let test = resolve_test(alloc, checked, known, &inner, test)?;
    let body = resolve_boxed(alloc, checked, known, &inner, body)?;
    Ok(RuleCode::Forall { over, test, body })
}

/// The code of a rule for one candidate, or of another one if there is none.
#[cycle(resolve_rule)]
fn resolve_choose<'e>(
    alloc: Global,
    checked: &'e Checked,
    known: &mut Bodies,
    scope: &'e Scope<'e>,
    name: &'e Name,
    over: &'e Name,
    test: &'e Option<Term>,
    body: &'e Rule,
    none: &'e Option<Box<Rule>>,
) -> Result<RuleCode, AllocError>
    requires known { AreKnown (spec_of checked.now.spec) known.old }
    ensures resolved { IfOk result (choose_resolved checked.now scope.now name.now.text over.now.text test.now body.now none.now) }
    ensures known { OnOk result (AreKnown (spec_of checked.now.spec) known.new) }
{
    let other = resolve_other(alloc, checked, known, scope, none)?;
    let none = Box::new(alloc, other)?;
    let Some(over) = universe_numbered(checked, over) else {
        return Ok(RuleCode::If {
            test: Code::Constant(Word::truth(false)),
            yes: Box::new(alloc, RuleCode::Skip)?,
            no: none,
        });
    };
    let inner = Scope::Within { name, outer: scope };
    let test = resolve_test(alloc, checked, known, &inner, test)?;
    let body = resolve_boxed(alloc, checked, known, &inner, body)?;
    Ok(RuleCode::Choose {
        over,
        test,
        body,
        none,
    })
}

/// The code of turns under a condition.
#[cycle(resolve_rule)]
fn resolve_while<'e>(
    alloc: Global,
    checked: &'e Checked,
    known: &mut Bodies,
    scope: &'e Scope<'e>,
    test: &'e Term,
    body: &'e Rule,
) -> Result<RuleCode, AllocError>
    requires known { AreKnown (spec_of checked.now.spec) known.old }
    ensures resolved { IfOk result (while_resolved checked.now scope.now test.now body.now) }
    ensures known { OnOk result (AreKnown (spec_of checked.now.spec) known.new) }
{
    let test = resolve(alloc, checked, &mut known.terms, scope, test)?;
    let yes = resolve_boxed(alloc, checked, known, scope, body)?;
    let turn = RuleCode::If {
        test,
        yes,
        no: Box::new(alloc, RuleCode::Skip)?,
    };
    Ok(RuleCode::Iterate(Box::new(alloc, turn)?))
}

/// The code of a rule in a box.
#[cycle(resolve_rule)]
fn resolve_boxed<'e>(
    alloc: Global,
    checked: &'e Checked,
    known: &mut Bodies,
    scope: &'e Scope<'e>,
    rule: &'e Rule,
) -> Result<Box<RuleCode>, AllocError>
    requires known { AreKnown (spec_of checked.now.spec) known.old }
    ensures resolved { IfOk result (λ b. rule_resolved checked.now scope.now rule.now b.value) }
    ensures known { OnOk result (AreKnown (spec_of checked.now.spec) known.new) }
{
    let code = resolve_rule(alloc, checked, known, scope, rule)?;
    Ok(Box::new(alloc, code)?)
}

/// The code of a rule that may be left out.
#[cycle(resolve_rule)]
fn resolve_other<'e>(
    alloc: Global,
    checked: &'e Checked,
    known: &mut Bodies,
    scope: &'e Scope<'e>,
    rule: &'e Option<Box<Rule>>,
) -> Result<RuleCode, AllocError>
    requires known { AreKnown (spec_of checked.now.spec) known.old }
    ensures resolved { IfOk result (other_resolved checked.now scope.now rule.now) }
    ensures known { OnOk result (AreKnown (spec_of checked.now.spec) known.new) }
{
    match rule {
        None => Ok(RuleCode::Skip),
        Some(rule) => resolve_rule(alloc, checked, known, scope, rule),
    }
}

/// The codes of rules.
#[cycle(resolve_rule)]
fn resolve_parts<'e>(
    alloc: Global,
    checked: &'e Checked,
    known: &mut Bodies,
    scope: &'e Scope<'e>,
    parts: &'e [Rule],
) -> Result<Vec<RuleCode>, AllocError>
    requires known { AreKnown (spec_of checked.now.spec) known.old }
    ensures resolved { IfOk result (λ cs. parts_resolved checked.now scope.now parts.now cs.items) }
    ensures known { OnOk result (AreKnown (spec_of checked.now.spec) known.new) }
{
    let mut codes = Vec::with_capacity(alloc, parts.len())?;
    for i in 0..parts.len() {
        let code = resolve_rule(alloc, checked, known, scope, &parts[i])?;
        codes.push(code)?;
    }
    Ok(codes)
}

/// The code of a call.
#[cycle(resolve_rule)]
fn resolve_call<'e>(
    alloc: Global,
    checked: &'e Checked,
    known: &mut Bodies,
    scope: &'e Scope<'e>,
    target: &'e Option<Target>,
    name: &'e Name,
    arguments: &'e [Term],
) -> Result<RuleCode, AllocError>
    requires known { AreKnown (spec_of checked.now.spec) known.old }
    ensures resolved { IfOk result (call_resolved checked.now scope.now target.now name.now.text arguments.now) }
    ensures known { OnOk result (AreKnown (spec_of checked.now.spec) known.new) }
{
    let Some(r) = number_of_rule(checked.named_text(&name.text)) else {
        return Ok(RuleCode::Skip);
    };
    let answer = resolve_target(alloc, checked, known, scope, target)?;
    let (names, _rule) = checked.rule(r);
    let bound = names.len().min(arguments.len());
    let body = resolve_rule_body(alloc, checked, known, name, r, answer.is_some(), bound)?;
    let passed = &arguments[..bound];
    let arguments = resolve_all(alloc, checked, &mut known.terms, scope, name, passed)?;
    Ok(RuleCode::Call {
        body,
        answer,
        arguments,
    })
}

/// Resolves the body of a rule for a call with a target or without, and with that many
/// arguments.
pub(crate) fn resolve_named_rule<'e>(
    alloc: Global,
    checked: &'e Checked,
    known: &mut Bodies,
    name: &'e Name,
    answers: bool,
    arguments: usize,
) -> Result<(), AllocError>
    requires { AreKnown (spec_of checked.now.spec) known.old }
    ensures { OnOk result (AreKnown (spec_of checked.now.spec) known.new) }
{
    if let Some(r) = number_of_rule(checked.named_text(&name.text)) {
        let (names, _rule) = checked.rule(r);
        let bound = names.len().min(arguments);
        resolve_rule_body(alloc, checked, known, name, r, answers, bound)?;
    }
    Ok(())
}

/// The number of a rule.
fn number_of_rule(it: Option<NameNumber>) -> Option<usize>
    ensures { result ≡ rule_number it }
{
    match it {
        Some(NameNumber::Rule(r)) => Some(r),
        _ => None,
    }
}

/// The code of the body of the rule with this name and number, for a call that binds `bound`
/// parameters, and has a target or none.
#[cycle(resolve_rule)]
fn resolve_rule_body<'e>(
    alloc: Global,
    checked: &'e Checked,
    known: &mut Bodies,
    name: &'e Name,
    r: usize,
    answers: bool,
    bound: usize,
) -> Result<Arc<RuleCode, Global>, AllocError>
    requires known { AreKnown (spec_of checked.now.spec) known.old }
    requires number { named (spec_of checked.now.spec) name.now.text ≡ Some (number.Rule r) }
    requires in_range { r < length (rules_of (spec_of checked.now.spec)) }
    ensures body { IfOk result (λ c. IsRuleBody (spec_of checked.now.spec) r answers bound (views.rule_of (arc_value c))) }
    ensures known { OnOk result (AreKnown (spec_of checked.now.spec) known.new) }
{
    if let Some(body) = known_rule(known.rules.as_slice(), r, answers, bound)? {
        return Ok(body);
    }
    let (names, rule) = checked.rule(r);
    let parameters = Parameters::new(alloc, answers, first_of(names, bound))?;
    let scope = Scope::Called(&parameters);
    let code = resolve_rule(alloc, checked, known, &scope, rule)?;
    let body = Arc::new(alloc, code)?;
    let kept = RuleBody {
        answers,
        bound,
        code: shared_rule(&body)?,
    };
    keep_rule(&mut known.rules, r, kept)?;
    Ok(body)
}

/// The first `count` of the names, or all if there are fewer.
fn first_of<'a>(names: &'a [Name], count: usize) -> &'a [Name]
    ensures { result.now ≡ take count names.now }
{
    if count < names.len() {
        return &names[..count];
    }
    names
}

/// The code of a condition that may be left out.
fn resolve_test<'e>(
    alloc: Global,
    checked: &'e Checked,
    known: &mut Bodies,
    scope: &'e Scope<'e>,
    test: &'e Option<Term>,
) -> Result<Option<Code>, AllocError>
    requires known { AreKnown (spec_of checked.now.spec) known.old }
    ensures resolved { IfOk result (test_resolved checked.now scope.now test.now) }
    ensures known { OnOk result (AreKnown (spec_of checked.now.spec) known.new) }
{
    match test {
        None => Ok(None),
        Some(test) => {
            let test = resolve(alloc, checked, &mut known.terms, scope, test)?;
            Ok(Some(test))
        }
    }
}

/// The code of an assignment.
fn resolve_assign<'e>(
    alloc: Global,
    checked: &'e Checked,
    known: &mut Bodies,
    scope: &'e Scope<'e>,
    name: &'e Name,
    arguments: &'e [Term],
    value: &'e Term,
) -> Result<RuleCode, AllocError>
    requires known { AreKnown (spec_of checked.now.spec) known.old }
    ensures resolved { IfOk result (assign_resolved checked.now scope.now name.now.text arguments.now value.now) }
    ensures known { OnOk result (AreKnown (spec_of checked.now.spec) known.new) }
{
    match resolve_named_target(alloc, checked, known, scope, name, arguments)? {
        None => Ok(RuleCode::Skip),
        Some(place) => {
            let value = resolve(alloc, checked, &mut known.terms, scope, value)?;
            Ok(RuleCode::Assign { place, value })
        }
    }
}

/// Where a call's result goes.
fn resolve_target<'e>(
    alloc: Global,
    checked: &'e Checked,
    known: &mut Bodies,
    scope: &'e Scope<'e>,
    target: &'e Option<Target>,
) -> Result<Option<TargetCode>, AllocError>
    requires known { AreKnown (spec_of checked.now.spec) known.old }
    ensures resolved { IfOk result (target_resolved checked.now scope.now target.now) }
    ensures known { OnOk result (AreKnown (spec_of checked.now.spec) known.new) }
{
    match target {
        None => Ok(None),
        Some(target) => resolve_named_target(
            alloc,
            checked,
            known,
            scope,
            &target.name,
            target.arguments.as_slice(),
        ),
    }
}

/// The location that a name with arguments stands for, if it stands for one.
fn resolve_named_target<'e>(
    alloc: Global,
    checked: &'e Checked,
    known: &mut Bodies,
    scope: &'e Scope<'e>,
    name: &'e Name,
    arguments: &'e [Term],
) -> Result<Option<TargetCode>, AllocError>
    requires known { AreKnown (spec_of checked.now.spec) known.old }
    ensures resolved { IfOk result (named_target_resolved checked.now scope.now name.now.text arguments.now) }
    ensures known { OnOk result (AreKnown (spec_of checked.now.spec) known.new) }
{
    if let Some(i) = result_position(scope, name)? {
        return Ok(Some(TargetCode::ResultAt(i)));
    }
    let Some(function) = controlled(checked, name) else {
        return Ok(None);
    };
    let place = resolve_located(alloc, checked, known, scope, name, function, arguments)?;
    Ok(Some(place))
}

/// The location of a controlled function with arguments.
fn resolve_located<'e>(
    alloc: Global,
    checked: &'e Checked,
    known: &mut Bodies,
    scope: &'e Scope<'e>,
    name: &'e Name,
    f: usize,
    arguments: &'e [Term],
) -> Result<TargetCode, AllocError>
    requires known { AreKnown (spec_of checked.now.spec) known.old }
    requires free { slots.result_position (slots_of scope.now) name.now.text ≡ None }
    requires stands { declared.declared (program_of (spec_of checked.now.spec)) name.now.text ≡ Some (declared.Controlled f (domain_of (shape_of (spec_of checked.now.spec)) f)) }
    requires kind { HasKind Controlled (shape_of (spec_of checked.now.spec)) f }
    ensures resolved { IfOk result (λ to. named_target_resolved checked.now scope.now name.now.text arguments.now (Some to)) }
    ensures known { OnOk result (AreKnown (spec_of checked.now.spec) known.new) }
{
    let signature = checked.signature();
    let terms = &mut known.terms;
    if arguments.is_empty() {
        return Ok(cell_target(alloc, signature, f));
    }
    if arguments.len() == 1 {
        let argument = resolve(alloc, checked, terms, scope, &arguments[0])?;
        return row_target(alloc, signature, f, argument);
    }
    if arguments.len() == 2 {
        let row = resolve(alloc, checked, terms, scope, &arguments[0])?;
        let column = resolve(alloc, checked, terms, scope, &arguments[1])?;
        return grid_target(alloc, signature, f, row, column);
    }
    let arguments = resolve_all(alloc, checked, terms, scope, name, arguments)?;
    Ok(TargetCode::FunctionAt {
        function: f,
        arguments,
    })
}

/// The number of the controlled function that the name stands for.
fn controlled(checked: &Checked, name: &Name) -> Option<usize>
    ensures kind { IfSome result (λ f. HasKind Controlled (shape_of (spec_of checked.now.spec)) f) }
    ensures some { IfSome result (λ f. declared.declared (program_of (spec_of checked.now.spec)) name.now.text ≡ Some (declared.Controlled f (domain_of (shape_of (spec_of checked.now.spec)) f))) }
    ensures none { IfNone result ((vs : List ValueHere) → location_of (declared.declared (program_of (spec_of checked.now.spec)) name.now.text) vs ≡ None) }
{
    match checked.named_text(&name.text) {
        Some(NameNumber::Function(f)) => match checked.signature().function(f).kind {
            FunctionKind::Controlled => Some(f),
            FunctionKind::Static => None,
        },
        _ => None,
    }
}
