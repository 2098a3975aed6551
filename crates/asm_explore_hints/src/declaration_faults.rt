//! What cures a declaration or an `init` with a fault.
use crate::declarations::{Declaration, Meaning};
use crate::known_names::KnownNames;
use crate::sentence::{push_count, shown};
use crate::uses::Role;
use asm_syntax::name::Name;
use asm_syntax::spec::{Item, Spec};
use std::alloc::AllocError;

/// Says where the name was declared before that is declared at an offset.
pub(crate) fn push_twice(
    out: &mut String,
    known: &KnownNames<'_>,
    name: &[u8],
    at: usize,
) -> Result<(), AllocError> {
    let again = known
        .all()
        .iter()
        .any(|declaration| declaration.name.at == at);
    if !again {
        return out.push_str("this list of parameters has the name twice");
    }
    match known.declared(name) {
        Some(first) if first.name.at != at => known.push_declared(out, first),
        _ => out.push_str("`NUMBER`, `BOOLEAN` and `ANY` are declared by the language"),
    }
}

/// Says what cures an `init` that is missing, or the one at an offset.
pub(crate) fn push_init(
    out: &mut String,
    known: &KnownNames<'_>,
    spec: &Spec,
    name: &[u8],
    at: usize,
) -> Result<(), AllocError> {
    let Some(first) = first_init(spec) else {
        return push_missing_init(out, known);
    };
    match known.declared(name) {
        Some(
            Declaration {
                meaning: Meaning::Rule(0),
                ..
            },
        ) if first.at != at => {
            out.push_str("the first `init` is in ")?;
            known.push_line(out, first.at)?;
            out.push_str(": leave one out")
        }
        Some(declared) => push_no_main(out, known, declared),
        None => push_unknown_main(out, known, name),
    }
}

/// Says what an `init` could name, where there is none.
fn push_missing_init(out: &mut String, known: &KnownNames<'_>) -> Result<(), AllocError> {
    let mains = known
        .all()
        .iter()
        .filter(|declared| declared.meaning == Meaning::Rule(0));
    match mains.copied().next() {
        Some(main) => {
            let name = shown(main.name.text.as_bytes());
            write!(out, "add `init {name}`, if this rule, declared in ")?;
            known.push_line(out, main.name.at)?;
            out.push_str(", is to make each step")
        }
        None => out.push_str("declare a rule without parameters, and name it: `init Main`"),
    }
}

/// Says why what is declared so can't be the main rule.
fn push_no_main(
    out: &mut String,
    known: &KnownNames<'_>,
    declared: Declaration<'_>,
) -> Result<(), AllocError> {
    known.push_declared(out, declared)?;
    match declared.meaning {
        Meaning::Rule(count) => {
            out.push_str(": it has ")?;
            push_count(out, count, "parameter")
        }
        _ => out.push_str(": `init` names a rule"),
    }
}

/// Says which rule may be meant by a name that is none.
fn push_unknown_main(
    out: &mut String,
    known: &KnownNames<'_>,
    name: &[u8],
) -> Result<(), AllocError> {
    match known.nearest(name, Role::Rule) {
        Some(near) => {
            known.push_declared(out, near)?;
            out.push_str(", and has nearly this name")
        }
        None => {
            let name = shown(name);
            write!(
                out,
                "no rule has nearly this name: declare it, as in `rule {name} = skip`"
            )
        }
    }
}

/// The name after the first `init`, if there is one.
fn first_init(spec: &Spec) -> Option<&Name> {
    for item in &spec.items {
        if let Item::Init(name) = item {
            return Some(name);
        }
    }
    None
}
