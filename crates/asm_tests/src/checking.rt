//! What calls of a checked specification return.

use crate::checked_text::checked_of;
use asm_check::{Checked, NameNumber};
use asm_syntax::name::Text;
use asm_syntax::rule::Rule;
use asm_syntax::term::Term;
use std::alloc::{AllocError, Global};
use std::test::Fail;

const TEXT: &[u8] =
    b"CoreASM T init M enum E = { a, b } universe U = 0 .. 3 function controlled f : U -> E initially a \
function static g : E * U initially { (b, 3) -> 7 } derived d(x) = x + 1 rule M = r(d(1)) rule r(p) = f(p) := b";

/// What the number of a name leads to.
#[derive(Clone, Copy, PartialEq, Eq)]
enum Lead {
    /// No call takes it.
    Nowhere,
    ToName,
    /// A rule's body with this many parameters.
    ToAssignment(usize),
    ToCall(usize),
    /// A derived function's body with this many parameters.
    ToChain(usize),
}

/// A name, the number that it stands for, and where that leads.
type Named = (&'static str, Option<NameNumber>, Lead);

static NAMES: [Named; 12] = [
    ("E", Some(NameNumber::Universe(0)), Lead::Nowhere),
    ("U", Some(NameNumber::Universe(1)), Lead::Nowhere),
    ("a", Some(NameNumber::Element(0)), Lead::ToName),
    ("b", Some(NameNumber::Element(1)), Lead::ToName),
    ("f", Some(NameNumber::Function(0)), Lead::ToName),
    ("g", Some(NameNumber::Function(1)), Lead::ToName),
    ("d", Some(NameNumber::Derived(0)), Lead::ToChain(1)),
    ("M", Some(NameNumber::Rule(0)), Lead::ToCall(0)),
    ("r", Some(NameNumber::Rule(1)), Lead::ToAssignment(1)),
    ("NUMBER", None, Lead::Nowhere),
    ("p", None, Lead::Nowhere),
    ("T", None, Lead::Nowhere),
];

fn rule_lead(parameters: usize, body: &Rule) -> Option<Lead> {
    match body {
        Rule::Assign { .. } => Some(Lead::ToAssignment(parameters)),
        Rule::Call { .. } => Some(Lead::ToCall(parameters)),
        _ => None,
    }
}

fn derived_lead(parameters: usize, body: &Term) -> Option<Lead> {
    match body {
        Term::Chain { .. } => Some(Lead::ToChain(parameters)),
        _ => None,
    }
}

/// Where the number of a name leads; none: to another name, or to a body of another kind.
fn lead_of(checked: &Checked, name: &str) -> Option<Lead> {
    match checked.named(name) {
        Some(NameNumber::Function(f)) => {
            (checked.function_name(f) == name.as_bytes()).then_some(Lead::ToName)
        }
        Some(NameNumber::Element(e)) => {
            (checked.element_name(e) == name.as_bytes()).then_some(Lead::ToName)
        }
        Some(NameNumber::Rule(r)) => {
            let (parameters, body) = checked.rule(r);
            rule_lead(parameters.len(), body)
        }
        Some(NameNumber::Derived(d)) => {
            let (parameters, body) = checked.derived(d);
            derived_lead(parameters.len(), body)
        }
        Some(NameNumber::Universe(_)) | None => Some(Lead::Nowhere),
    }
}

/// Whether a name stands for its number, as a word and as a name of a tree, and that leads there.
fn is_numbered(alloc: Global, checked: &Checked, row: &Named) -> Result<bool, AllocError> {
    let (name, number, lead) = row;
    let text = Text::new(alloc, name.as_bytes())?;
    Ok(
        checked.named(*name) == *number
            && checked.named_text(&text) == *number
            && lead_of(checked, *name) == Some(*lead),
    )
}

/// Whether the name of the whole stands for no number, the main rule is the first, and the
/// signature has all functions and locations.
fn is_whole(checked: &Checked) -> bool {
    checked.named_text(&checked.spec.name.text) == None
        && checked.main() == 0
        && checked.signature().functions() == 2
        && checked.signature().count() == 5
}

/// The first name of a specification that is another one.
fn first_other_of(
    alloc: Global,
    checked: &Checked,
    rows: &'static [Named],
) -> Result<Option<&'static str>, AllocError> {
    if !is_whole(checked) {
        return Ok(Some("the whole"));
    }
    for row in rows {
        if !is_numbered(alloc, checked, row)? {
            return Ok(Some(row.0));
        }
    }
    Ok(None)
}

/// The same of the text.
fn first_other(alloc: Global, rows: &'static [Named]) -> Result<Option<&'static str>, Fail> {
    let checked = checked_of(alloc, TEXT)?;
    let other = first_other_of(alloc, &checked, rows);
    drop(checked);
    Ok(other?)
}

#[test]
fn names_and_numbers_lead_to_each_other(rt: HostRuntime) -> Result<(), Fail> {
    assert_eq!(rt; first_other(rt.alloc(), &NAMES)?, None);
    Ok(())
}
