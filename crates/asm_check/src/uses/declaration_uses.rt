//! The uses of names in a declaration, each with its role.
ghost use Rattle.std.specs.Prelude.{◌≡◌, IfOk, map};
ghost use Rattle.asm_syntax.specs.code.Views.{name_of, item_of, term_of, rule_of};
ghost use Rattle.asm_check.specs.Names.{text_of, rule_scope, uses_of, uses_of_term, uses_of_rule};
ghost use Rattle.asm_check.specs.code.uses.UseViews.{use_of, AreUsesOf};

use crate::uses::collector::Collector;
use asm_syntax::name::Name;
use asm_syntax::rule::Rule;
use asm_syntax::spec::Item;
use asm_syntax::term::Term;
use std::alloc::{AllocError, Global};

/// What a name is used as.
#[derive(Clone, Copy)]
pub(crate) enum Role {
    InTerm,
    AsTarget,
    /// In a plain call.
    AsRule,
    /// After a `<-`.
    AsResultCall,
    AsUniverse,
    AsCodomain,
    AsElement,
    /// The word `result`.
    AsResult,
}

/// A name in a role, with its number of arguments, and whether a binder of this name is around it.
#[derive(Clone, Copy)]
pub(crate) struct Use<'a> {
    pub role: Role,
    pub name: &'a Name,
    pub count: usize,
    pub is_bound: bool,
}

/// The uses in each line of the specification.
pub(crate) fn uses_of_items<'a>(
    alloc: Global,
    items: &'a [Item],
) -> Result<Vec<Vec<Use<'a>>>, AllocError>
    ensures { IfOk result (λ uses. AreUsesOf (map item_of items.now) uses.items) }
{
    let mut uses = Vec::with_capacity(alloc, items.len())?;
    for item in items {
        let of_item = uses_of_item(alloc, item)?;
        uses.push(of_item)?;
    }
    Ok(uses)
}

/// The uses in a line of the specification.
fn uses_of_item<'a>(alloc: Global, item: &'a Item) -> Result<Vec<Use<'a>>, AllocError>
    ensures { IfOk result (λ uses. map use_of uses.items ≡ uses_of (item_of item.now)) }
{
    match item {
        Item::Uses(_) | Item::Init(_) | Item::Enum { .. } | Item::Universe { .. } => {
            Ok(Vec::new(alloc))
        }
        Item::Function {
            domain,
            codomain,
            table,
            ..
        } => {
            let mut collector = Collector::new(alloc);
            collector.function(domain, codomain, table)?;
            Ok(collector.found)
        }
        Item::Derived {
            parameters,
            body,
            ..
        } => uses_of_body(alloc, parameters, body),
        Item::Rule {
            parameters,
            body,
            ..
        } => uses_of_named_rule(alloc, parameters, body),
    }
}

/// The uses in the body of a derived function.
pub(crate) fn uses_of_body<'a>(
    alloc: Global,
    parameters: &'a [Name],
    body: &'a Term,
) -> Result<Vec<Use<'a>>, AllocError>
    ensures { IfOk result (λ uses. map use_of uses.items ≡ uses_of_term (term_of body.now) (map text_of (map name_of parameters.now))) }
{
    let mut collector = Collector::with_parameters(alloc, parameters)?;
    collector.term(body)?;
    Ok(collector.found)
}

/// The uses in the body of a rule.
fn uses_of_named_rule<'a>(
    alloc: Global,
    parameters: &'a [Name],
    body: &'a Rule,
) -> Result<Vec<Use<'a>>, AllocError>
    ensures { IfOk result (λ uses. map use_of uses.items ≡ uses_of_rule (rule_of body.now) (rule_scope (map name_of parameters.now))) }
{
    let mut collector = Collector::in_rule(alloc, parameters)?;
    collector.rule(body)?;
    Ok(collector.found)
}
