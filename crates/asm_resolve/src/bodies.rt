//! The bodies of derived functions and of rules, which all their uses share.
//!
//! What the main rule doesn't reach isn't resolved. A rule has one body for each way in which it is
//! called: with a target or without, and for each number of parameters that a call binds. In a
//! specification without faults each call binds all of them.
ghost use Rattle.std.specs.Prelude.{◌≡◌, ◌<◌, IfOk, IfSome, OnOk, length};
ghost use Rattle.std.specs.Arc.{arc_value};
ghost use Rattle.asm_syntax.specs.SourceTree as source;
ghost use Rattle.asm_syntax.specs.code.Views.{spec_of};
ghost use Rattle.asm_code.specs.code.CodeViews.{code_of};
ghost use Rattle.asm_code.specs.code.RuleViews.{rule_of};
ghost use Rattle.asm_resolve.specs.code.RuleScopes.{AreKnown, AreRuleBodies, IsRuleBody};
ghost use Rattle.asm_resolve.specs.code.Scopes.{AreResolvedBodies, IsBody};

use asm_check::Checked;
use asm_code::code::Code;
use asm_code::rule_code::RuleCode;
use std::alloc::{AllocError, Global};
use std::sync::Arc;

/// The body of a rule for a call that binds `bound` of its parameters, and has a target or none.
#[derive(Drop)]
pub struct RuleBody {
    pub answers: bool,
    pub bound: usize,
    pub code: Arc<RuleCode, Global>,
}

/// What is resolved so far: for the number of each derived function its body, and for that of each
/// rule its bodies.
#[derive(Drop)]
pub struct Bodies {
    pub terms: Vec<Option<Arc<Code, Global>>>,
    pub rules: Vec<Vec<RuleBody>>,
}

impl Bodies {
    /// Nothing yet.
    pub fn new(alloc: Global, checked: &Checked) -> Result<Bodies, AllocError>
        ensures { IfOk result (AreKnown (spec_of checked.now.spec)) }
    {
        let mut terms = Vec::new(alloc);
        for _d in 0..checked.derived_functions() {
            terms.push(None)?;
        }
        let mut rules = Vec::new(alloc);
        for _r in 0..checked.rules() {
            rules.push(Vec::new(alloc))?;
        }
        Ok(Bodies { terms, rules })
    }
}

/// The body of the derived function with this number, if it is known.
pub(crate) fn known_body(
    terms: &[Option<Arc<Code, Global>>],
    number: usize,
) -> Result<Option<Arc<Code, Global>>, AllocError>
    requires { number < length terms.now }
    ensures { (spec : source.Spec) → AreResolvedBodies spec terms.now → IfOk result (λ o. IfSome o (λ c. IsBody spec number (code_of (arc_value c)))) }
{
    match &terms[number] {
        None => Ok(None),
        Some(code) => Ok(Some(shared(code)?)),
    }
}

/// Keeps a body.
pub(crate) fn keep(
    terms: &mut Vec<Option<Arc<Code, Global>>>,
    number: usize,
    code: Arc<Code, Global>,
)
    requires { number < length terms.old.items }
    ensures { (spec : source.Spec) → AreResolvedBodies spec terms.old.items → IsBody spec number (code_of (arc_value code)) → AreResolvedBodies spec terms.new.items }
{
    terms[number] = Some(code);
}

/// The same code once more.
pub(crate) fn shared(code: &Arc<Code, Global>) -> Result<Arc<Code, Global>, AllocError>
    ensures { IfOk result (λ c. arc_value c ≡ arc_value code.now) }
{
    Ok(code.clone()?)
}

/// The body of the rule with this number for such calls, if it is known.
pub(crate) fn known_rule(
    rules: &[Vec<RuleBody>],
    number: usize,
    answers: bool,
    bound: usize,
) -> Result<Option<Arc<RuleCode, Global>>, AllocError>
    requires { number < length rules.now }
    ensures { (spec : source.Spec) → AreRuleBodies spec rules.now → IfOk result (λ o. IfSome o (λ c. IsRuleBody spec number answers bound (rule_of (arc_value c)))) }
{
    let bodies = rules[number].as_slice();
    for i in 0..bodies.len() {
        if bodies[i].answers == answers && bodies[i].bound == bound {
            return Ok(Some(shared_rule(&bodies[i].code)?));
        }
    }
    Ok(None)
}

/// Keeps the body of a rule.
pub(crate) fn keep_rule(
    rules: &mut Vec<Vec<RuleBody>>,
    number: usize,
    body: RuleBody,
) -> Result<(), AllocError>
    requires { number < length rules.old.items }
    ensures { OnOk result ((spec : source.Spec) → AreRuleBodies spec rules.old.items → IsRuleBody spec number body.answers body.bound (rule_of (arc_value body.code)) → AreRuleBodies spec rules.new.items) }
{
    rules[number].push(body)?;
    Ok(())
}

/// The same code of a rule once more.
pub(crate) fn shared_rule(code: &Arc<RuleCode, Global>) -> Result<Arc<RuleCode, Global>, AllocError>
    ensures { IfOk result (λ c. arc_value c ≡ arc_value code.now) }
{
    Ok(code.clone()?)
}
