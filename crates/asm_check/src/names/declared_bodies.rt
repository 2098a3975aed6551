//! The bodies of derived functions and rules, each with the uses in it, which are collected once.
ghost use Rattle.std.specs.Prelude.{◌≡◌, map};
ghost use Rattle.asm_syntax.specs.code.Views.{name_of, term_of, rule_of};
ghost use Rattle.asm_check.specs.Names.{text_of, rule_scope, uses_of_term, uses_of_rule};
ghost use Rattle.asm_check.specs.code.uses.UseViews.{use_of};

use crate::uses::declaration_uses::Use;
use asm_syntax::name::Name;
use asm_syntax::rule::Rule;
use asm_syntax::term::Term;

/// The body of a derived function, with the uses in it.
#[derive(Clone, Copy)]
pub(crate) struct DerivedBody<'a> {
    pub parameters: &'a [Name],
    pub term: &'a Term,
    pub uses: &'a [Use<'a>],
    ghost collected: { map use_of uses.now ≡ uses_of_term (term_of term.now) (map text_of (map name_of parameters.now)) },
}

/// The body of a rule, with the uses in it.
#[derive(Clone, Copy)]
pub(crate) struct RuleBody<'a> {
    pub parameters: &'a [Name],
    pub rule: &'a Rule,
    pub uses: &'a [Use<'a>],
    ghost collected: { map use_of uses.now ≡ uses_of_rule (rule_of rule.now) (rule_scope (map name_of parameters.now)) },
}
