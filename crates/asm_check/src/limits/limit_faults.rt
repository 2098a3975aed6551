//! Limits on what is declared. Those of a signature are limits of its specification too: there,
//! functions of all three kinds count as functions. Rules have a limit of their own.
ghost use Rattle.std.specs.Prelude.{◌≡◌, ◌<◌, ◌≤◌, ℕ, IfOk, OnOk, Some, map, List, [], ◌∷◌, ◌++◌, length, option_map, slice_get, All};
ghost use Rattle.asm_state.specs.declared.signature_limits.TheConstants.{MAX_UNIVERSES, MAX_VALUES};
ghost use Rattle.asm_syntax.specs.SourceTree as source;
ghost use Rattle.asm_syntax.specs.code.Views.{name_of, spec_of};
ghost use Rattle.asm_check.specs.code.limits.CountedSizes.{AreCountedSizes, AreElementCounts, AreTotals, counted_from, value_of_entry, size_with};
ghost use Rattle.asm_check.specs.Errors.{found_of};
ghost use Rattle.asm_check.specs.code.FaultLists.{limit_faults, passes_limit};
ghost use Rattle.asm_check.specs.Limits.{counted_size, domain_of, lists_of, range_size, size_of, is_universe};
ghost use Rattle.asm_check.specs.Names as declarations;
ghost use Rattle.asm_check.specs.Names.{declares};
ghost use Rattle.asm_check.specs.code.LeastFaults.{least_after};
ghost use Rattle.asm_check.specs.code.names.Tables.{IsTableOf, declaration_of, declared_as_view};

use crate::error::FaultKind;
use crate::least_fault::LeastFault;
use crate::names::declared_as::{Declaration, DeclaredAs};
use crate::names::first_names::position;
use crate::names::name_table::NameTable;
use asm_state::number::Number;
use asm_state::signature_limits::{
    MAX_ARGUMENTS, MAX_FUNCTIONS, MAX_LOCATIONS, MAX_STATIC_LISTS, MAX_UNIVERSES, MAX_VALUES,
};
use asm_syntax::name::{Name, Text};
use asm_syntax::spec::Spec;
use std::alloc::{AllocError, Global};

/// How many rules there can be.
pub(crate) const MAX_RULES: usize = 256;

/// Notes the declarations that pass a limit, except those of ranks.
pub(crate) fn note_limits(
    alloc: Global,
    spec: &Spec,
    names: &NameTable,
    least: &mut LeastFault,
) -> Result<(), AllocError>
    requires { IsTableOf (spec_of spec.now) names.now }
    ensures { OnOk result (found_of least.new.found ≡ least_after (found_of least.old.found) (limit_faults (spec_of spec.now))) }
{
    let elements = element_counts(alloc, spec, names)?;
    let counted = counted_sizes(alloc, names, elements.as_slice())?;
    let mut totals = Totals::new();
    for i in 0..names.len() {
        let declared = declared_at(names, i);
        let size = size(&declared.meaning, elements.as_slice());
        let lists = lists(domain(&declared.meaning), names, counted.as_slice());
        if totals.add(&declared.meaning, size, lists) {
            least.note(FaultKind::TooMany, declared.at);
        }
    }
    Ok(())
}

/// The declaration at a position of the table.
pub(crate) fn declared_at<'a>(names: &NameTable<'a>, i: usize) -> Declaration<'a>
    requires { i < length names.now }
    ensures { option_map value_of_entry (slice_get names.now i) ≡ Some result }
{
    let (_, declared) = names.get_index(i).unwrap();
    *declared
}

/// Of each enumeration, by its item, how many elements it has in the table.
pub(crate) fn element_counts(
    alloc: Global,
    spec: &Spec,
    names: &NameTable,
) -> Result<Vec<usize>, AllocError>
    requires { IsTableOf (spec_of spec.now) names.now }
    ensures { IfOk result (λ counts. AreElementCounts (spec_of spec.now) counts.items) }
{
    let mut counts = vec![in alloc; 0; spec.items.len()]?;
    for i in 0..names.len() {
        if let DeclaredAs::Element(item) = declared_at(names, i).meaning {
            if item < counts.len() {
                counts[item] += 1;
            }
        }
    }
    Ok(counts)
}

/// How many elements a universe has, if `elements` are those of the enumerations. What is no
/// universe has none.
pub(crate) fn size(meaning: &DeclaredAs, elements: &[usize]) -> usize
    ensures { result ≡ size_with elements.now (declared_as_view meaning.now) }
{
    match *meaning {
        DeclaredAs::Range { first, last } => range_size(first, last),
        DeclaredAs::Enumeration(item) => elements.get(item).copied().unwrap_or(0),
        _ => 0,
    }
}

fn range_size(first: Number, last: Number) -> usize
    ensures { result ≡ range_size first.value last.value }
{
    if first.value <= last.value {
        (last.value - first.value) as usize + 1
    } else {
        0
    }
}

fn is_universe(meaning: &DeclaredAs) -> bool
    ensures { result ≡ is_universe (declared_as_view meaning.now) }
{
    matches!(
        meaning,
        DeclaredAs::Range { .. } | DeclaredAs::Enumeration(_)
    )
}

/// By positions in the table, the sizes of the universes that pass no
/// limit, and 0 for everything else.
pub(crate) fn counted_sizes(
    alloc: Global,
    names: &NameTable,
    elements: &[usize],
) -> Result<Vec<usize>, AllocError>
    ensures small { IfOk result (λ sizes. All (λ n. n ≤ MAX_VALUES) sizes.items) }
    ensures sizes { IfOk result (λ sizes. sizes.items ≡ counted_from (size_with elements.now) MAX_UNIVERSES (map declaration_of names.now)) }
{
    let mut sizes = Vec::new(alloc);
    let mut left = MAX_UNIVERSES;
    for i in 0..names.len() {
        let meaning = declared_at(names, i).meaning;
        let mut counted = 0;
        if left > 0 && is_universe(&meaning) {
            left -= 1;
            let size = size(&meaning, elements);
            if size <= MAX_VALUES {
                counted = size;
            }
        }
        sizes.push(counted)?;
    }
    Ok(sizes)
}

/// The size of the universe of this name, if it passes no limit, and else 0.
fn counted_size(names: &NameTable, name: &Text, sizes: &[usize]) -> usize
    requires { All (λ n. n ≤ MAX_VALUES) sizes.now }
    ensures small { result ≤ MAX_VALUES }
    ensures size { (spec : source.Spec) (at : ℕ) → IsTableOf spec names.now → AreCountedSizes spec names.now sizes.now
        → result ≡ counted_size spec (record { at = at; text = name.now }) }
{
    match position(names, name) {
        Some(i) => sizes.get(i).copied().unwrap_or(0),
        None => 0,
    }
}

/// How many argument lists a domain has: none if it or one of its universes passes a limit.
pub(crate) fn lists(domain: &[Name], names: &NameTable, sizes: &[usize]) -> usize
    requires { All (λ n. n ≤ MAX_VALUES) sizes.now }
    ensures { (spec : source.Spec) → IsTableOf spec names.now → AreCountedSizes spec names.now sizes.now
        → result ≡ lists_of spec (map name_of domain.now) }
{
    if domain.len() > MAX_ARGUMENTS {
        return 0;
    }
    let mut product = 1;
    for name in domain {
        product *= counted_size(names, &name.text, sizes);
    }
    product
}

/// The domain of a function that is no derived one.
fn domain<'a>(meaning: &DeclaredAs<'a>) -> &'a [Name]
    ensures { map name_of result.now ≡ domain_of (declared_as_view meaning.now) }
{
    match *meaning {
        DeclaredAs::Controlled(domain) | DeclaredAs::Static(domain) => domain,
        _ => &[],
    }
}

/// What the declarations so far add together, each total `usize::MAX` at most.
#[derive(Clone, Copy)]
struct Totals {
    universes: usize,
    functions: usize,
    locations: usize,
    static_lists: usize,
    rules: usize,
}

impl Totals {
    fn new() -> Totals
        ensures { (spec : source.Spec) → AreTotals spec [] result }
    {
        Totals {
            universes: 0,
            functions: 0,
            locations: 0,
            static_lists: 0,
            rules: 0,
        }
    }

    /// Adds a declaration, with the size of its universe and the number of its argument lists.
    /// Returns whether it passes a limit.
    fn add(&mut self, meaning: &DeclaredAs, size: usize, lists: usize) -> bool
        ensures { (spec : source.Spec) (before : List declarations.Declaration) (x : source.Name) → AreTotals spec before self.old
            → size ≡ size_of spec (declared_as_view meaning.now) → lists ≡ lists_of spec (domain_of (declared_as_view meaning.now))
            → AreTotals spec (before ++ declares x (declared_as_view meaning.now) ∷ []) self.new
            × (result ≡ passes_limit spec before (declares x (declared_as_view meaning.now))) }
    {
        match *meaning {
            DeclaredAs::Predeclared | DeclaredAs::Element(_) => false,
            DeclaredAs::Range { .. } | DeclaredAs::Enumeration(_) => {
                self.universes = self.universes.saturating_add(1);
                self.universes > MAX_UNIVERSES || size > MAX_VALUES
            }
            DeclaredAs::Controlled(domain) => {
                self.functions = self.functions.saturating_add(1);
                self.locations = self.locations.saturating_add(lists).saturating_add(1);
                self.functions > MAX_FUNCTIONS
                    || domain.len() > MAX_ARGUMENTS
                    || self.locations > MAX_LOCATIONS
            }
            DeclaredAs::Static(domain) => {
                self.functions = self.functions.saturating_add(1);
                self.static_lists = self.static_lists.saturating_add(lists);
                self.functions > MAX_FUNCTIONS
                    || domain.len() > MAX_ARGUMENTS
                    || self.static_lists > MAX_STATIC_LISTS
            }
            DeclaredAs::Derived(_) => {
                self.functions = self.functions.saturating_add(1);
                self.functions > MAX_FUNCTIONS
            }
            DeclaredAs::Rule(_) => {
                self.rules = self.rules.saturating_add(1);
                self.rules > MAX_RULES
            }
        }
    }
}
