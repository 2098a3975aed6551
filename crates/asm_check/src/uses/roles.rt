//! What a name may be declared as where it is used.
ghost use Rattle.std.specs.Prelude.{◌≡◌, Bool, Option, false, option_map, if◌then◌else◌};
ghost use Rattle.asm_check.specs.Names as names;
ghost use Rattle.asm_check.specs.code.names.Tables.{declared_as_view};
ghost use Rattle.asm_check.specs.code.uses.UseViews.{role_of};
ghost use Rattle.asm_check.specs.CallGraph.{is_call, is_use};

use crate::names::declared_as::DeclaredAs;
use crate::uses::declaration_uses::Role;

/// Whether a name that is declared so can stand in this role.
pub(crate) fn is_known(role: Role, is_bound: bool, meaning: Option<DeclaredAs>) -> bool
    ensures { result ≡ names.is_known (role_of role) is_bound (option_map declared_as_view meaning.entry) }
{
    match role {
        Role::InTerm => is_bound || has_value(meaning),
        Role::AsTarget => is_bound || meaning.is_some(),
        Role::AsRule | Role::AsResultCall => matches!(meaning, Some(DeclaredAs::Rule(_))),
        Role::AsUniverse => is_universe(meaning),
        Role::AsCodomain => matches!(meaning, Some(DeclaredAs::Predeclared))
            || is_universe(meaning),
        Role::AsElement => matches!(meaning, Some(DeclaredAs::Element(_))),
        Role::AsResult => true,
    }
}

/// Whether it stands for a value, or for one at each list of arguments.
fn has_value(meaning: Option<DeclaredAs>) -> bool
    ensures { result ≡ names.is_known names.InTerm false (option_map declared_as_view meaning.entry) }
{
    matches!(
        meaning,
        Some(
            DeclaredAs::Element(_)
                | DeclaredAs::Controlled(_)
                | DeclaredAs::Static(_)
                | DeclaredAs::Derived(_)
        )
    )
}

/// Whether it has elements to go through.
fn is_universe(meaning: Option<DeclaredAs>) -> bool
    ensures { result ≡ names.is_known names.AsUniverse false (option_map declared_as_view meaning.entry) }
{
    matches!(
        meaning,
        Some(DeclaredAs::Range { .. } | DeclaredAs::Enumeration(_))
    )
}

/// How many arguments a name that is declared so has in this role, if they are looked at.
pub(crate) fn arguments_of(role: Role, is_bound: bool, meaning: Option<DeclaredAs>) -> Option<usize>
    ensures { result ≡ names.arguments_of (role_of role) is_bound (option_map declared_as_view meaning.entry) }
{
    match role {
        Role::InTerm if is_bound => Some(0),
        Role::InTerm => match meaning {
            Some(DeclaredAs::Element(_)) => Some(0),
            Some(DeclaredAs::Controlled(domain)) => Some(domain.len()),
            Some(DeclaredAs::Static(domain)) => Some(domain.len()),
            Some(DeclaredAs::Derived(body)) => Some(body.parameters.len()),
            _ => None,
        },
        Role::AsTarget => match meaning {
            Some(DeclaredAs::Controlled(domain)) if !is_bound => Some(domain.len()),
            _ => None,
        },
        Role::AsRule | Role::AsResultCall => match meaning {
            Some(DeclaredAs::Rule(body)) => Some(body.parameters.len()),
            _ => None,
        },
        _ => None,
    }
}

/// Whether a name that is declared so is a controlled function, with no binder around it.
pub(crate) fn is_assignable(is_bound: bool, meaning: Option<DeclaredAs>) -> bool
    ensures { result ≡ names.is_assignable is_bound (option_map declared_as_view meaning.entry) }
{
    !is_bound && matches!(meaning, Some(DeclaredAs::Controlled(_)))
}

/// Whether a use, in the body of a rule or else of a derived function, of a name
/// that is declared so is a step.
pub(crate) fn is_step(
    in_rule: bool,
    role: Role,
    is_bound: bool,
    meaning: Option<DeclaredAs>,
) -> bool
    ensures { result ≡ (if in_rule then is_call (role_of role) (option_map declared_as_view meaning.entry) else is_use (role_of role) is_bound (option_map declared_as_view meaning.entry)) }
{
    match role {
        Role::AsRule | Role::AsResultCall => in_rule
            && matches!(meaning, Some(DeclaredAs::Rule(_))),
        Role::InTerm => !in_rule && !is_bound && matches!(meaning, Some(DeclaredAs::Derived(_))),
        _ => false,
    }
}

/// Whether a use in this role, in the body of a rule or else of a derived function, can be a step.
pub(crate) fn may_be_step(in_rule: bool, role: Role) -> bool
    ensures { result ≡ false → (is_bound : Bool) → (m : Option names.Meaning) →
        (if in_rule then is_call (role_of role) m else is_use (role_of role) is_bound m) ≡ false }
{
    match role {
        Role::AsRule | Role::AsResultCall => in_rule,
        Role::InTerm => !in_rule,
        _ => false,
    }
}
