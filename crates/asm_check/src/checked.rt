//! Specifications that are well formed.
ghost use Rattle.std.specs.Prelude.{◌≡◌, ◌<◌, Some, ℕ, map, length, IfOk, [], ◌∷◌};
ghost use Rattle.asm_syntax.specs.SourceTree as source;
ghost use Rattle.asm_syntax.specs.code.Views.{spec_of, name_of, term_of, rule_of};
ghost use Rattle.asm_check.specs.Faults.{IsWellFormed, inits};
ghost use Rattle.asm_check.specs.Names as names;
ghost use Rattle.asm_check.specs.Names.{first_declarations};
ghost use Rattle.asm_check.specs.Numbers.{named, functions_of, derived_of, rules_of, elements_of, declared_with_number, name_at};
ghost use Rattle.asm_check.specs.code.numbers.NumberTables.{IsNumberingOf, AreBodiesOf, IsMain, IsInRange};
ghost use Rattle.asm_check.specs.Shapes.{shape_of};
ghost use Rattle.asm_check.specs.declared.checked.NameNumber.TheVariants as number;

use crate::numbers::body_indices::BodyIndices;
use crate::numbers::declared_signature::signature_of;
use crate::numbers::numbering::Numbering;
use asm_state::signature::Signature;
use asm_syntax::name::{Name, Text};
use asm_syntax::rule::Rule;
use asm_syntax::spec::{Item, Spec};
use asm_syntax::term::Term;
use std::alloc::{AllocError, Global};

/// What a name stands for if no binder hides it, with its number among its
/// like, in the order of the text.
#[derive(Clone, Copy, Debug, PartialEq, Eq)]
pub enum NameNumber {
    Universe(usize),
    Element(usize),
    /// A controlled or static function: its number in the signature.
    Function(usize),
    Derived(usize),
    Rule(usize),
}

/// A specification without faults, with what its names stand for at hand. Its readers take no
/// memory, and constant time.
#[derive(Drop)]
pub struct Checked {
    pub spec: Spec,
    signature: Signature,
    numbering: Numbering,
    bodies: BodyIndices,
    main: usize,
    pub ghost well_formed: { IsWellFormed (spec_of spec) },
    ghost shaped: { signature ≡ shape_of (spec_of spec) },
    ghost numbered: { IsNumberingOf (first_declarations (spec_of spec)) numbering },
    ghost indexed: { AreBodiesOf (spec_of spec).items bodies },
    ghost starts: { IsMain (spec_of spec) main },
}

impl Checked {
    /// The well-formed specification, made ready.
    pub(crate) fn of(alloc: Global, spec: Spec, numbering: Numbering) -> Result<Checked, AllocError>
        requires good { IsWellFormed (spec_of spec) }
        requires numbered { IsNumberingOf (first_declarations (spec_of spec)) numbering }
        ensures { IfOk result (λ c. c.spec ≡ spec) }
    {
        let bodies = BodyIndices::of(alloc, &spec.items)?;
        let signature = signature_of(alloc, &spec, &numbering)?;
        let main = main_of(&spec, &numbering);
        Ok(Checked {
            spec,
            signature,
            numbering,
            bodies,
            main,
        })
    }

    /// The universes, and the controlled and static functions.
    pub fn signature(&self) -> &Signature
        ensures { result.now ≡ shape_of (spec_of self.now.spec) }
    {
        &self.signature
    }

    /// What a name stands for if no binder hides it.
    pub fn named(&self, name: &str) -> Option<NameNumber>
        ensures named { result ≡ named (spec_of self.now.spec) name.now }
        ensures in_range { IsInRange (spec_of self.now.spec) result }
    {
        self.numbering.found(name.as_bytes())
    }

    /// The same of a name of a tree, whose key mostly spares the look-up.
    #[inline(never)]
    pub fn named_text(&self, name: &Text) -> Option<NameNumber>
        ensures named { result ≡ named (spec_of self.now.spec) name.now }
        ensures in_range { IsInRange (spec_of self.now.spec) result }
    {
        self.numbering.named(name)
    }

    /// How many rules there are.
    pub fn rules(&self) -> usize
        ensures { result ≡ length (rules_of (spec_of self.now.spec)) }
    {
        self.bodies.rules.len()
    }

    /// The parameters and the body of the rule with this number.
    pub fn rule(&self, r: usize) -> (&[Name], &Rule)
        requires { r < length (rules_of (spec_of self.now.spec)) }
        ensures { declared_with_number (rules_of (spec_of self.now.spec)) r ≡ Some (names.NamedRule (map name_of result.0.now) (rule_of result.1.now)) }
    {
        match &self.spec.items[self.bodies.rules[r]] {
            Item::Rule {
                parameters,
                body,
                ..
            } => (parameters, body),
            _ => unreachable!(),
        }
    }

    /// How many derived functions there are.
    pub fn derived_functions(&self) -> usize
        ensures { result ≡ length (derived_of (spec_of self.now.spec)) }
    {
        self.bodies.derived.len()
    }

    /// The parameters and the body of the derived function with this number.
    pub fn derived(&self, d: usize) -> (&[Name], &Term)
        requires { d < length (derived_of (spec_of self.now.spec)) }
        ensures { declared_with_number (derived_of (spec_of self.now.spec)) d ≡ Some (names.Derived (map name_of result.0.now) (term_of result.1.now)) }
    {
        match &self.spec.items[self.bodies.derived[d]] {
            Item::Derived {
                parameters,
                body,
                ..
            } => (parameters, body),
            _ => unreachable!(),
        }
    }

    /// The number of the rule that is named after `init`.
    pub fn main(&self) -> usize
        ensures in_range { result < length (rules_of (spec_of self.now.spec)) }
        ensures main { (x : source.Name) → inits (spec_of self.now.spec) ≡ x ∷ [] → named (spec_of self.now.spec) x.text ≡ Some (number.Rule result) }
        ensures one { (x : source.Name) × (inits (spec_of self.now.spec) ≡ x ∷ []) }
    {
        self.main
    }

    /// The name of the controlled or static function with this number.
    pub fn function_name(&self, f: usize) -> &[u8]
        requires { f < length (functions_of (spec_of self.now.spec)) }
        ensures { name_at (functions_of (spec_of self.now.spec)) f ≡ Some result.now }
    {
        self.numbering.function_name(f)
    }

    /// How many elements there are.
    pub fn elements(&self) -> usize
        ensures { result ≡ length (elements_of (spec_of self.now.spec)) }
    {
        self.numbering.elements()
    }

    /// The name of the element with this number.
    pub fn element_name(&self, e: usize) -> &[u8]
        requires { e < length (elements_of (spec_of self.now.spec)) }
        ensures { name_at (elements_of (spec_of self.now.spec)) e ≡ Some result.now }
    {
        self.numbering.element_name(e)
    }
}

/// The number of the rule that a well-formed specification starts with.
fn main_of(spec: &Spec, numbering: &Numbering) -> usize
    requires good { IsWellFormed (spec_of spec.now) }
    requires numbered { IsNumberingOf (first_declarations (spec_of spec.now)) numbering.now }
    ensures { IsMain (spec_of spec.now) result }
{
    let start = main_name_of(spec);
    match numbering.named(&start.text).unwrap() {
        NameNumber::Rule(main) => main,
        _ => unreachable!(),
    }
}

/// The name of that rule.
fn main_name_of(spec: &Spec) -> &Name
    requires { IsWellFormed (spec_of spec.now) }
    ensures { inits (spec_of spec.now) ≡ name_of result.now ∷ [] }
{
    for item in &spec.items {
        if let Item::Init(name) = item {
            return name;
        }
    }
    unreachable!()
}
