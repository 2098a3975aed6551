//! The codes of terms.
ghost use Rattle.std.specs.Prelude.{◌≡◌, ◌<◌, [], length, IfOk, IfSome, IfNone, Some, None, OnOk};
ghost use Rattle.std.specs.Arc.{arc_value};
ghost use Rattle.asm_state.specs.Signature.{functions_of};
ghost use Rattle.asm_syntax.specs.code.Views.{spec_of};
ghost use Rattle.asm_check.specs.Numbers.{derived_of, named};
ghost use Rattle.asm_check.specs.Shapes.{shape_of};
ghost use Rattle.asm_check.specs.declared.checked.NameNumber.TheVariants as number;
ghost use Rattle.asm_meaning.specs.Declarations.{program_of, universe_number};
ghost use Rattle.asm_meaning.specs.Value as spec;
ghost use Rattle.asm_code.specs.code.CodeViews.{code_of};
ghost use Rattle.asm_resolve.specs.code.Slots.{position_of};
ghost use Rattle.asm_resolve.specs.code.Scopes.{AreResolvedBodies, IsBody, all_resolved, chain_resolved, inner_resolved, names_of, named_resolved, term_resolved};

use crate::bodies::{keep, known_body, shared};
use crate::functions::{make_cell, make_function, make_grid, make_row};
use crate::make::{make_derived, make_link};
use crate::parameters::Parameters;
use crate::scope::{Scope, position};
use asm_check::{Checked, NameNumber};
use asm_code::code::Code;
use asm_state::element::Element;
use asm_state::operation::Op;
use asm_state::value::Value;
use asm_state::word::Word;
use asm_syntax::name::Name;
use asm_syntax::term::Term;
use std::alloc::{AllocError, Global};
use std::sync::Arc;

/// The code of a term under the names of the scope. The bodies of the derived functions that it
/// uses are resolved once, and kept.
#[cycle(resolve)]
pub fn resolve<'e>(
    alloc: Global,
    checked: &'e Checked,
    bodies: &mut Vec<Option<Arc<Code, Global>>>,
    scope: &'e Scope<'e>,
    term: &'e Term,
) -> Result<Code, AllocError>
    requires bodies { AreResolvedBodies (spec_of checked.now.spec) bodies.old.items }
    ensures resolved { IfOk result (term_resolved checked.now scope.now term.now) }
    ensures bodies { OnOk result (AreResolvedBodies (spec_of checked.now.spec) bodies.new.items) }
{
    match term {
        Term::Constant(literal) => Ok(Code::Constant(literal.value())),
        Term::Named { name, arguments } => {
            resolve_name(alloc, checked, bodies, scope, name, arguments.as_slice())
        }
        Term::Chain { first, rest } => {
            resolve_chain(alloc, checked, bodies, scope, first, rest.as_slice())
        }
        Term::Not(inner) => {
            let inner = resolve(alloc, checked, bodies, scope, inner)?;
            Ok(Code::With {
                operation: Op::Not,
                left: Box::new(alloc, inner)?,
                right: Word::undef(),
            })
        }
        Term::Negative(inner) => {
            let inner = resolve(alloc, checked, bodies, scope, inner)?;
            Ok(Code::With {
                operation: Op::Negate,
                left: Box::new(alloc, inner)?,
                right: Word::undef(),
            })
        }
        Term::Exists { name, over, test } => match universe_numbered(checked, over) {
            None => Ok(Code::Constant(Word::truth(false))),
            Some(over) => {
                let test = resolve_within(alloc, checked, bodies, scope, name, test)?;
                Ok(Code::Exists { over, test })
            }
        },
        Term::Every { name, over, test } => match universe_numbered(checked, over) {
            None => Ok(Code::Constant(Word::truth(true))),
            Some(over) => {
                let test = resolve_within(alloc, checked, bodies, scope, name, test)?;
                Ok(Code::Every { over, test })
            }
        },
        Term::Result(name) => resolve_name(alloc, checked, bodies, scope, name, &[]),
    }
}

/// The code of a term under one more name.
#[cycle(resolve)]
fn resolve_within<'e>(
    alloc: Global,
    checked: &'e Checked,
    bodies: &mut Vec<Option<Arc<Code, Global>>>,
    scope: &'e Scope<'e>,
    name: &'e Name,
    term: &'e Term,
) -> Result<Box<Code>, AllocError>
    requires bodies { AreResolvedBodies (spec_of checked.now.spec) bodies.old.items }
    ensures resolved { IfOk result (λ b. inner_resolved checked.now scope.now name.now.text term.now b.value) }
    ensures bodies { OnOk result (AreResolvedBodies (spec_of checked.now.spec) bodies.new.items) }
{
    let inner = Scope::Within { name, outer: scope };
    let code = resolve(alloc, checked, bodies, &inner, term)?;
    Ok(Box::new(alloc, code)?)
}

/// The code of a chain.
#[cycle(resolve)]
fn resolve_chain<'e>(
    alloc: Global,
    checked: &'e Checked,
    bodies: &mut Vec<Option<Arc<Code, Global>>>,
    scope: &'e Scope<'e>,
    first: &'e Term,
    rest: &'e [(Op, Term)],
) -> Result<Code, AllocError>
    requires bodies { AreResolvedBodies (spec_of checked.now.spec) bodies.old.items }
    ensures resolved { IfOk result (chain_resolved checked.now scope.now first.now rest.now) }
    ensures bodies { OnOk result (AreResolvedBodies (spec_of checked.now.spec) bodies.new.items) }
{
    if rest.len() == 1 {
        let (operation, right) = &rest[0];
        let left = resolve(alloc, checked, bodies, scope, first)?;
        let right = resolve(alloc, checked, bodies, scope, right)?;
        return make_link(alloc, *operation, left, right);
    }
    let mut links = Vec::with_capacity(alloc, rest.len())?;
    for (operation, right) in rest {
        let right = resolve(alloc, checked, bodies, scope, right)?;
        links.push((*operation, right))?;
    }
    let begin = resolve(alloc, checked, bodies, scope, first)?;
    Ok(Code::Chain {
        first: Box::new(alloc, begin)?,
        rest: links,
    })
}

/// The code of a name with arguments.
#[cycle(resolve)]
fn resolve_name<'e>(
    alloc: Global,
    checked: &'e Checked,
    bodies: &mut Vec<Option<Arc<Code, Global>>>,
    scope: &'e Scope<'e>,
    name: &'e Name,
    arguments: &'e [Term],
) -> Result<Code, AllocError>
    requires bodies { AreResolvedBodies (spec_of checked.now.spec) bodies.old.items }
    ensures resolved { IfOk result (named_resolved checked.now scope.now name.now.text arguments.now) }
    ensures bodies { OnOk result (AreResolvedBodies (spec_of checked.now.spec) bodies.new.items) }
{
    if let Some(i) = position(scope, name)? {
        return Ok(Code::Local(i));
    }
    match checked.named_text(&name.text) {
        Some(NameNumber::Function(f)) => {
            resolve_function(alloc, checked, bodies, scope, name, f, arguments)
        }
        Some(NameNumber::Element(e)) => Ok(Code::Constant(Word::of(Value::Element(Element {
            index: e as u32,
        })))),
        Some(NameNumber::Derived(d)) => {
            let body = resolve_body(alloc, checked, bodies, d)?;
            let arguments = resolve_all(alloc, checked, bodies, scope, name, arguments)?;
            make_derived(alloc, body, arguments)
        }
        Some(NameNumber::Universe(_)) => Ok(Code::Constant(Word::undef())),
        Some(NameNumber::Rule(_)) => Ok(Code::Constant(Word::undef())),
        None => Ok(Code::Constant(Word::undef())),
    }
}

/// The code of a controlled or static function with arguments.
#[cycle(resolve)]
fn resolve_function<'e>(
    alloc: Global,
    checked: &'e Checked,
    bodies: &mut Vec<Option<Arc<Code, Global>>>,
    scope: &'e Scope<'e>,
    name: &'e Name,
    f: usize,
    arguments: &'e [Term],
) -> Result<Code, AllocError>
    requires bodies { AreResolvedBodies (spec_of checked.now.spec) bodies.old.items }
    requires free { position_of (names_of scope.now) name.now.text ≡ None }
    requires stands { Some (number.Function f) ≡ named (spec_of checked.now.spec) name.now.text }
    requires known { f < functions_of (shape_of (spec_of checked.now.spec)) }
    ensures resolved { IfOk result (named_resolved checked.now scope.now name.now.text arguments.now) }
    ensures bodies { OnOk result (AreResolvedBodies (spec_of checked.now.spec) bodies.new.items) }
{
    let signature = checked.signature();
    if arguments.is_empty() {
        return Ok(make_cell(alloc, signature, f));
    }
    if arguments.len() == 1 {
        let argument = resolve(alloc, checked, bodies, scope, &arguments[0])?;
        return make_row(alloc, signature, f, argument);
    }
    if arguments.len() == 2 {
        let row = resolve(alloc, checked, bodies, scope, &arguments[0])?;
        let column = resolve(alloc, checked, bodies, scope, &arguments[1])?;
        return make_grid(alloc, signature, f, row, column);
    }
    let arguments = resolve_all(alloc, checked, bodies, scope, name, arguments)?;
    Ok(make_function(signature, f, arguments))
}

/// The codes of the arguments of a name.
#[cycle(resolve)]
pub(crate) fn resolve_all<'e>(
    alloc: Global,
    checked: &'e Checked,
    bodies: &mut Vec<Option<Arc<Code, Global>>>,
    scope: &'e Scope<'e>,
    name: &'e Name,
    arguments: &'e [Term],
) -> Result<Vec<Code>, AllocError>
    requires bodies { AreResolvedBodies (spec_of checked.now.spec) bodies.old.items }
    ensures resolved { IfOk result (λ cs. all_resolved checked.now scope.now arguments.now cs.items) }
    ensures bodies { OnOk result (AreResolvedBodies (spec_of checked.now.spec) bodies.new.items) }
{
    let mut codes = Vec::with_capacity(alloc, arguments.len())?;
    for argument in arguments {
        codes.push(resolve(alloc, checked, bodies, scope, argument)?)?;
    }
    Ok(codes)
}

/// The code of a derived function's body.
#[cycle(resolve)]
pub(crate) fn resolve_body<'e>(
    alloc: Global,
    checked: &'e Checked,
    bodies: &mut Vec<Option<Arc<Code, Global>>>,
    d: usize,
) -> Result<Arc<Code, Global>, AllocError>
    requires bodies { AreResolvedBodies (spec_of checked.now.spec) bodies.old.items }
    requires known { d < length (derived_of (spec_of checked.now.spec)) }
    ensures body { IfOk result (λ c. IsBody (spec_of checked.now.spec) d (code_of (arc_value c))) }
    ensures bodies { OnOk result (AreResolvedBodies (spec_of checked.now.spec) bodies.new.items) }
{
    if let Some(body) = known_body(bodies.as_slice(), d)? {
        return Ok(body);
    }
    let (names, term) = checked.derived(d);
    let parameters = Parameters::new(alloc, false, names)?;
    let scope = Scope::Called(&parameters);
    let code = resolve(alloc, checked, bodies, &scope, term)?;
    let body = Arc::new(alloc, code)?;
    let kept = shared(&body)?;
    keep(bodies, d, kept);
    Ok(body)
}

/// The number of the universe that the name stands for.
pub(crate) fn universe_numbered(checked: &Checked, name: &Name) -> Option<usize>
    ensures number { IfSome result (λ n. universe_number (named (spec_of checked.now.spec) name.now.text) ≡ Some n) }
    ensures known { IfSome result (λ n. n < length (shape_of (spec_of checked.now.spec)).universes) }
    ensures none { IfNone result (spec.universe (program_of (spec_of checked.now.spec)) name.now.text ≡ []) }
{
    match number_of_universe(checked.named_text(&name.text)) {
        None => None,
        Some(n) => Some(n),
    }
}

/// The number of a universe.
fn number_of_universe(it: Option<NameNumber>) -> Option<usize>
    ensures { result ≡ universe_number it }
{
    match it {
        Some(NameNumber::Universe(n)) => Some(n),
        _ => None,
    }
}
