//! What is said of an assignment.
ghost use Rattle.std.specs.Prelude.{◌≡◌, ◌==◌, ◌++◌, [], IfOk, IsTrue, OnOk};
ghost use Rattle.std.specs.List.{list_all, list_any};
ghost use Rattle.std.specs.Str.{bytes_eq};
ghost use Rattle.asm_syntax.specs.code.Views.{spec_of};
ghost use Rattle.asm_run.specs.Written.{names_in};
ghost use Rattle.asm_explore_texts.specs.Positions as positions;
ghost use Rattle.asm_explore_run.specs.ClashText.{AreApart, AreNamesFor, IsLineOf, IsPlacedLine, assignment_text, bound_text, bound_value, located};
ghost use Rattle.asm_explore_run.specs.code.NameOffsets.{offsets};

use asm_check::Checked;
use asm_clash::assignment::Assignment;
use asm_explore_texts::position_text::{is_name_at, name_at, push_name, push_position};
use asm_explore_texts::rule_in_text::{RuleInText, rule_in_text};
use asm_run::end::End;
use asm_run::locations::{push_location, push_path, push_value};
use asm_state::word::Word;
use asm_syntax::name::Name;
use std::alloc::{AllocError, Global};

/// Says of an assignment of the main rule where it is in the text, at which location it puts which
/// value in a run that ends so, and which values the names have that are bound there, the innermost
/// first. If the text hasn't a name there, or not one for each of the values, it says no more than
/// which value the assignment puts where.
pub(crate) fn assignment_line(
    alloc: Global,
    text: &[u8],
    checked: &Checked,
    assignment: &Assignment,
    end: &End,
) -> Result<Vec<u8>, AllocError>
    ensures { let names = names_in (spec_of checked.now.spec) in
        IfOk result (λ line. IsLineOf text.now names end.now assignment.now line.items) }
{
    match rule_in_text(alloc, checked, assignment.path.as_slice())? {
        Some(rule) if are_names(text, &rule, assignment.bound.as_slice()) => {
            placed_line(alloc, text, checked, assignment, end, &rule)
        }
        _ => {
            let mut line = Vec::new(alloc);
            push_assignment(&mut line, checked, assignment, end)?;
            Ok(line)
        }
    }
}

/// Whether a name of the text is where a rule is, and one for each value that is bound there.
fn are_names(text: &[u8], rule: &RuleInText<'_>, values: &[Word]) -> bool
    ensures { IsTrue result → AreNamesFor text.now rule.now.name.now.at (offsets rule.now.bound.items) values.now }
{
    if rule.bound.len() != values.len() {
        return false;
    }
    let names = rule.bound.as_slice();
    if !are_apart(names) {
        return false;
    }
    is_name_at(text, rule.name.at) && are_all_in(text, names)
}

/// Whether no two of these are at the same offset.
fn are_apart(names: &[&Name]) -> bool
    ensures { IsTrue result → AreApart (offsets names.now) }
{
    for i in 0..names.len() {
        if is_one_at(&names[i + 1..], names[i]) {
            return false;
        }
    }
    true
}

/// Whether one of these is at the same offset.
fn is_one_at(names: &[&Name], name: &Name) -> bool
    ensures { result ≡ list_any (λ other. other.now.at == name.now.at) names.now }
{
    names.iter().any(|other| other.at == name.at)
}

/// Whether each of these is a name of the text.
fn are_all_in(text: &[u8], names: &[&Name]) -> bool
    ensures { result ≡ list_all (λ name. positions.is_name_at text.now name.now.at) names.now }
{
    names.iter().all(|name| is_name_at(text, name.at))
}

/// Says of the assignment which this rule of the text is where it is, what it is, and what is bound
/// there.
fn placed_line(
    alloc: Global,
    text: &[u8],
    checked: &Checked,
    assignment: &Assignment,
    end: &End,
    rule: &RuleInText<'_>,
) -> Result<Vec<u8>, AllocError>
    requires { AreNamesFor text.now rule.now.name.now.at (offsets rule.now.bound.items) assignment.now.bound.items }
    ensures { let names = names_in (spec_of checked.now.spec) in
        IfOk result (λ line. IsPlacedLine text.now names end.now assignment.now line.items) }
{
    let mut line = Vec::new(alloc);
    push_position(alloc, &mut line, text, rule.name.at)?;
    line.extend_from_slice(b", ")?;
    push_assignment(&mut line, checked, assignment, end)?;
    let values = assignment.bound.as_slice();
    push_bound(&mut line, text, checked, rule.bound.as_slice(), values)?;
    Ok(line)
}

/// Adds the path of an assignment, and at which location it puts which value in a run that ends so.
fn push_assignment(
    line: &mut Vec<u8>,
    checked: &Checked,
    assignment: &Assignment,
    end: &End,
) -> Result<(), AllocError>
    ensures { let names = names_in (spec_of checked.now.spec) in
        let location = located names end.now assignment.now.arguments.items in
        OnOk result (line.new.items ≡ line.old.items ++ assignment_text names location assignment.now) }
{
    line.extend_from_slice(b"place ")?;
    push_path(line, assignment.path.as_slice())?;
    line.extend_from_slice(b": ")?;
    push_located(line, checked, end, assignment.arguments.as_slice())?;
    line.extend_from_slice(b" := ")?;
    push_value(line, checked, assignment.value)
}

/// Adds the location at which an assignment with these arguments puts its value, in a run that ends
/// so.
fn push_located(
    line: &mut Vec<u8>,
    checked: &Checked,
    end: &End,
    arguments: &[Word],
) -> Result<(), AllocError>
    ensures { let names = names_in (spec_of checked.now.spec) in
        OnOk result (line.new.items ≡ line.old.items ++ located names end.now arguments.now) }
{
    match end {
        End::Clash {
            function,
            arguments: own,
            ..
        } => push_location(line, checked, *function, own.as_slice()),
        End::Outside { function, .. } => push_location(line, checked, *function, arguments),
        End::Limit | End::Exhausted { .. } => Ok(()),
    }
}

/// Adds these names, the innermost first, each with its value, without those that an inner one
/// hides.
fn push_bound(
    line: &mut Vec<u8>,
    text: &[u8],
    checked: &Checked,
    names: &[&Name],
    values: &[Word],
) -> Result<(), AllocError>
    ensures { let names_there = names_in (spec_of checked.now.spec) in
        OnOk result (line.new.items ≡ line.old.items ++ bound_text text.now names_there [] (offsets names.now) values.now) }
{
    for i in 0..names.len().min(values.len()) {
        push_unless_hidden(line, text, checked, &names[..i], names[i], &values[i])?;
    }
    Ok(())
}

/// Adds a name with its value, unless one of these inner ones hides it.
fn push_unless_hidden(
    line: &mut Vec<u8>,
    text: &[u8],
    checked: &Checked,
    inner: &[&Name],
    name: &Name,
    value: &Word,
) -> Result<(), AllocError>
    ensures { let names = names_in (spec_of checked.now.spec) in
        OnOk result (line.new.items ≡ line.old.items ++ bound_value text.now names (offsets inner.now) name.now.at value.now) }
{
    if is_among(text, inner, name) {
        return Ok(());
    }
    line.extend_from_slice(b", ")?;
    push_name(line, text, name.at)?;
    line.extend_from_slice(b" = ")?;
    push_value(line, checked, *value)
}

/// Whether one of these names of the text is the same.
fn is_among(text: &[u8], names: &[&Name], name: &Name) -> bool
    ensures { let own = positions.name_at text.now name.now.at in
        result ≡ list_any (λ other. bytes_eq (positions.name_at text.now other.now.at) own) names.now }
{
    let own = name_at(text, name.at);
    names.iter().any(|other| name_at(text, other.at) == own)
}
