//! Where a rule of a step is in the text.
ghost use Rattle.std.specs.Prelude.{◌≡◌, ◌∷◌, ◌++◌, [], None, Some, map, option_map, true, IfOk, IsFalse, IsTrue, OnOk};
ghost use Rattle.asm_syntax.specs.code.Views.{name_of, rule_of, rules_of, spec_of};
ghost use Rattle.asm_check.specs.Faults.{inits};
ghost use Rattle.asm_explore_texts.specs.Places.{body_of, element_of, main_body as main_body_of, one_of_two as rule_of_two, part_at, part_in_turn, place_at, rule_number};
ghost use Rattle.asm_explore_texts.specs.code.TextPlaces.{AreEven, branch_said, elements_said, place_said, place_with};

use crate::first_name::first_name;
use asm_check::laws::signature_numbers;
use asm_check::{Checked, NameNumber};
use asm_state::word::Word;
use asm_syntax::name::Name;
use asm_syntax::rule::Rule;
use std::alloc::{AllocError, Global};

/// A rule of the text.
#[derive(Drop)]
pub struct RuleInText<'c> {
    pub rule: &'c Rule,
    /// The first name in it.
    pub name: &'c Name,
    /// The names that are bound there, the innermost first. One that an inner one hides is among
    /// them.
    pub bound: Vec<&'c Name>,
}

/// Where a path leads in the text.
#[derive(Drop)]
pub struct PlaceInText<'c> {
    pub rule: &'c Rule,
    /// Whether the path is in a turn of the rule, which is a `while`, and not yet in its body.
    pub is_turn: bool,
    /// The names that are bound there, the outermost first.
    pub bound: Vec<&'c Name>,
    /// The variables of the foralls around it, the outermost first.
    pub variables: Vec<&'c Name>,
    /// Their elements, as many.
    pub elements: Vec<Word>,
}

impl<'c> PlaceInText<'c> {
    /// Goes on to the part with this number. Returns whether there is one.
    fn go_on(&mut self, checked: &'c Checked, number: u64) -> Result<bool, AllocError>
        requires { AreEven self.old }
        ensures even { OnOk result (AreEven self.new) }
        ensures on { IfOk result (λ on. IsTrue on → part_at (spec_of checked.now.spec) number (place_said self.old) ≡ Some (place_said self.new)) }
        ensures off { IfOk result (λ on. IsFalse on → part_at (spec_of checked.now.spec) number (place_said self.old) ≡ None) }
    {
        match self.part(checked, number)? {
            Some(part) => {
                self.rule = part;
                Ok(true)
            }
            None => Ok(false),
        }
    }

    /// The part with this number, whose names become bound.
    fn part(&mut self, checked: &'c Checked, number: u64) -> Result<Option<&'c Rule>, AllocError>
        requires { AreEven self.old }
        ensures even { OnOk result (AreEven self.new) }
        ensures part { IfOk result (λ part. option_map (λ P. place_with (rule_of P.now) self.new) part ≡ part_at (spec_of checked.now.spec) number (place_said self.old)) }
    {
        if self.is_turn {
            return Ok(self.part_of_turn(number));
        }
        match self.rule {
            Rule::Par(parts) => Ok(part_of(parts.as_slice(), number)),
            Rule::Seq(parts) => Ok(part_of(parts.as_slice(), number)),
            Rule::If { yes, no, .. } => Ok(one_of_two(yes, no, number)),
            Rule::Let { name, body, .. } => self.body(name, body),
            Rule::Forall {
                name,
                over,
                body,
                ..
            } => self.element(checked, name, over, body, number),
            Rule::Choose {
                name,
                body,
                none,
                ..
            } => self.chosen(name, body, none, number),
            Rule::Iterate(body) => Ok(Some(body)),
            Rule::While { .. } => Ok(Some(self.turn())),
            Rule::Call { name, .. } => self.called(checked, name),
            Rule::Skip | Rule::Assign { .. } | Rule::SetResult { .. } => Ok(None),
        }
    }

    /// A turn of the rule, which is a `while`.
    fn turn(&mut self) -> &'c Rule
        ensures rule { result.now ≡ self.old.rule.now }
        ensures turn { self.new ≡ record self.old { is_turn = true } }
    {
        self.is_turn = true;
        self.rule
    }

    /// The body of a `while` in a turn of it.
    fn part_of_turn(&mut self, number: u64) -> Option<&'c Rule>
        ensures variables { self.new.variables ≡ self.old.variables }
        ensures elements { self.new.elements ≡ self.old.elements }
        ensures part { option_map (λ P. place_with (rule_of P.now) self.new) result ≡ part_in_turn (rule_of self.old.rule.now) number (place_said self.old) }
    {
        self.is_turn = false;
        match self.rule {
            Rule::While { body, .. } => { if number == 0 { Some(body) } else { None } }
            _ => None,
        }
    }

    /// The body of a rule that binds a name.
    fn body(&mut self, name: &'c Name, body: &'c Rule) -> Result<Option<&'c Rule>, AllocError>
        ensures is { IfOk result (λ part. option_map (λ P. rule_of P.now) part ≡ Some (rule_of body.now)) }
        ensures turn { OnOk result (self.new.is_turn ≡ self.old.is_turn) }
        ensures variables { OnOk result (self.new.variables ≡ self.old.variables) }
        ensures elements { OnOk result (self.new.elements ≡ self.old.elements) }
    {
        self.bound.push(name)?;
        Ok(Some(body))
    }

    /// The body of a `choose`, or the rule that it makes without candidates.
    fn chosen(
        &mut self,
        name: &'c Name,
        body: &'c Rule,
        none: &'c Option<Box<Rule>>,
        number: u64,
    ) -> Result<Option<&'c Rule>, AllocError>
        ensures is { IfOk result (λ part. option_map (λ P. rule_of P.now) part ≡ rule_of_two (rule_of body.now) (branch_said none.now) number) }
        ensures turn { OnOk result (self.new.is_turn ≡ self.old.is_turn) }
        ensures variables { OnOk result (self.new.variables ≡ self.old.variables) }
        ensures elements { OnOk result (self.new.elements ≡ self.old.elements) }
    {
        if number == 0 {
            self.bound.push(name)?;
        }
        Ok(one_of_two(body, none, number))
    }

    /// The body of a `forall`, for the element at this position.
    fn element(
        &mut self,
        checked: &Checked,
        name: &'c Name,
        over: &Name,
        body: &'c Rule,
        position: u64,
    ) -> Result<Option<&'c Rule>, AllocError>
        requires { AreEven self.old }
        ensures is { IfOk result (λ part. option_map (λ P. rule_of P.now) part ≡ Some (rule_of body.now)) }
        ensures turn { OnOk result (self.new.is_turn ≡ self.old.is_turn) }
        ensures even { OnOk result (AreEven self.new) }
        ensures elements { OnOk result (elements_said self.new.variables.items self.new.elements.items ≡ elements_said self.old.variables.items self.old.elements.items ++ (name.now.text, element_of (spec_of checked.now.spec) (name_of over.now) position) ∷ []) }
    {
        let value = element_at(checked, over, position);
        self.variables.push(name)?;
        self.elements.push(value)?;
        let part = self.body(name, body)?;
        Ok(part)
    }

    /// The body of the rule with this name, with its parameters bound, and no other name.
    fn called(&mut self, checked: &'c Checked, name: &Name) -> Result<Option<&'c Rule>, AllocError>
        ensures is { IfOk result (λ part. option_map (λ P. rule_of P.now) part ≡ body_of (spec_of checked.now.spec) (name_of name.now)) }
        ensures turn { OnOk result (self.new.is_turn ≡ self.old.is_turn) }
        ensures variables { OnOk result (self.new.variables ≡ self.old.variables) }
        ensures elements { OnOk result (self.new.elements ≡ self.old.elements) }
    {
        let Some((parameters, body)) = rule_named(checked, name) else {
            return Ok(None);
        };
        self.bound.clear();
        for behind in 0..parameters.len() {
            self.bound.push(&parameters[parameters.len() - 1 - behind])?;
        }
        Ok(Some(body))
    }
}

/// The parameters and the body of the rule with this name.
fn rule_named<'c>(checked: &'c Checked, name: &Name) -> Option<(&'c [Name], &'c Rule)>
    ensures { option_map (λ it. rule_of it.1.now) result ≡ body_of (spec_of checked.now.spec) (name_of name.now) }
{
    match checked.named_text(&name.text) {
        Some(NameNumber::Rule(number)) => Some(checked.rule(number)),
        _ => None,
    }
}

/// The element of a universe at a position, or `undef` if it has none there.
fn element_at(checked: &Checked, universe: &Name, position: u64) -> Word
    ensures { result ≡ element_of (spec_of checked.now.spec) (name_of universe.now) position }
{
    signature_numbers();
    let Some(NameNumber::Universe(number)) = checked.named_text(&universe.text) else {
        return Word::undef();
    };
    let values = checked.signature().universe(number);
    let position = position as usize;
    if position < values.size() {
        values.element(position)
    } else {
        Word::undef()
    }
}

/// The rule with this number.
fn part_of(parts: &[Rule], number: u64) -> Option<&Rule>
    ensures { option_map (λ P. rule_of P.now) result ≡ rule_number (rules_of (map rule_of parts.now)) number }
{
    let at = number as usize;
    if at < parts.len() {
        Some(&parts[at])
    } else {
        None
    }
}

/// The first of two rules, or the other one, which may be left out.
fn one_of_two<'c>(first: &'c Rule, other: &'c Option<Box<Rule>>, number: u64) -> Option<&'c Rule>
    ensures { option_map (λ P. rule_of P.now) result ≡ rule_of_two (rule_of first.now) (branch_said other.now) number }
{
    if number == 0 {
        return Some(first);
    }
    match other {
        Some(rule) => Some(rule),
        None => None,
    }
}

/// The body of the rule that the specification starts with.
fn main_body(checked: &Checked) -> &Rule
    ensures { main_body_of (spec_of checked.now.spec) (inits (spec_of checked.now.spec)) ≡ Some (rule_of result.now) }
{
    let (_, rule) = checked.rule(checked.main());
    rule
}

/// Where a path of the main rule leads.
pub fn place_in_text<'c>(
    alloc: Global,
    checked: &'c Checked,
    path: &[u64],
) -> Result<Option<PlaceInText<'c>>, AllocError>
    ensures { IfOk result (λ found. option_map place_said found ≡ place_at (spec_of checked.now.spec) path.now) }
{
    let mut place = PlaceInText {
        rule: main_body(checked),
        is_turn: false,
        bound: Vec::new(alloc),
        variables: Vec::new(alloc),
        elements: Vec::new(alloc),
    };
    for k in 0..path.len() {
        if !place.go_on(checked, path[k])? {
            return Ok(None);
        }
    }
    Ok(Some(place))
}

/// What is at a path of the main rule, if something with a name is.
pub fn rule_in_text<'c>(
    alloc: Global,
    checked: &'c Checked,
    path: &[u64],
) -> Result<Option<RuleInText<'c>>, AllocError> {
    let Some(place) = place_in_text(alloc, checked, path)? else {
        return Ok(None);
    };
    let PlaceInText {
        rule,
        mut bound,
        ..
    } = place;
    bound.reverse();
    Ok(first_name(rule).map(|name| RuleInText { rule, name, bound }))
}
