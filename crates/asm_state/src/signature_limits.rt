//! The limits of a signature.
ghost use Rattle.std.specs.Prelude.{◌≡◌, ◌≢◌, ◌↔◌, ◌<◌, ◌≤◌, ℕ, List, IsTrue, false, [], length, slice_index_or, All};
ghost use Rattle.asm_state.specs.declared.value.Value.{Value as Argument};
ghost use Rattle.asm_state.specs.SignatureLimits.{Fits, IsDomainOf, static_count};
ghost use Rattle.asm_state.specs.Signature.{count_of, domain_in};
ghost use Rattle.asm_state.specs.Tables.{argument_lists, AreEntriesIn, IsTableOf};
ghost use Rattle.asm_state.specs.Universe.{IsUniverse};

use crate::argument_lists::{list_count, list_position};
use crate::arguments::Arguments;
use crate::function::{Function, FunctionKind, Table};
use crate::layout::check_universes;
use crate::universe::Universe;
use crate::word::Word;

/// How many universes there can be.
pub const MAX_UNIVERSES: usize = 64;

/// How many values a universe can have.
pub const MAX_VALUES: usize = 4096;

/// How many functions there can be.
pub const MAX_FUNCTIONS: usize = 256;

/// How many universes a domain can have.
pub const MAX_ARGUMENTS: usize = 4;

/// How many locations there can be, stray ones with them.
pub const MAX_LOCATIONS: usize = 65_536;

/// How many argument lists all static functions together can have.
pub const MAX_STATIC_LISTS: usize = 16_384;

/// Whether there can be a signature of these functions over these universes: none of the limits is
/// passed, each domain names universes of the list, and each table has entries in its function's
/// domain alone, none of them twice. A table whose entries don't rise is looked through once more
/// for each entry.
pub fn fits(universes: &[Universe], functions: &[Function]) -> bool
    ensures { IsTrue result ↔ Fits (record { universes = universes.now; functions = functions.now }) }
{
    check_universes(universes);
    if universes.len() > MAX_UNIVERSES || functions.len() > MAX_FUNCTIONS {
        return false;
    }
    if !domains_fit(universes, functions) || !counts_fit(universes, functions) {
        return false;
    }
    tables_fit(universes, functions)
}

fn domains_fit(universes: &[Universe], functions: &[Function]) -> bool
    ensures { IsTrue result ↔ All (λ f. IsDomainOf universes.now f.domain) functions.now }
{
    functions.iter().all(|function| domain_fits(universes, function.domain.as_slice()))
}

fn domain_fits(universes: &[Universe], domain: &[usize]) -> bool
    ensures { IsTrue result ↔ IsDomainOf universes.now domain.now }
{
    domain.len() <= MAX_ARGUMENTS && domain.iter().all(|n| *n < universes.len())
}

fn counts_fit(universes: &[Universe], functions: &[Function]) -> bool
    requires domains { All (λ f. IsDomainOf universes.now f.domain) functions.now }
    requires few { length functions.now ≤ MAX_FUNCTIONS }
    ensures { IsTrue result ↔ ((count_of (record { universes = universes.now; functions = functions.now }) ≤ MAX_LOCATIONS)
        × (static_count (record { universes = universes.now; functions = functions.now }) ≤ MAX_STATIC_LISTS)) }
{
    let mut locations = 0;
    let mut static_lists = 0;
    for f in 0..functions.len() {
        let function = &functions[f];
        let lists = list_count(universes, function.domain.as_slice());
        match function.kind {
            FunctionKind::Controlled => locations += lists + 1,
            FunctionKind::Static => static_lists += lists,
        }
    }
    locations <= MAX_LOCATIONS && static_lists <= MAX_STATIC_LISTS
}

fn tables_fit(universes: &[Universe], functions: &[Function]) -> bool
    requires domains { All (λ f. IsDomainOf universes.now f.domain) functions.now }
    requires sound { All IsUniverse universes.now }
    ensures { IsTrue result ↔ All (λ f. IsTableOf (domain_in universes.now f.domain) f.table) functions.now }
{
    for function in functions {
        if !table_fits(universes, function.domain.as_slice(), &function.table) {
            return false;
        }
    }
    true
}

fn table_fits(universes: &[Universe], domain: &[usize], table: &Table) -> bool
    requires domain { IsDomainOf universes.now domain.now }
    requires sound { All IsUniverse universes.now }
    ensures { IsTrue result ↔ IsTableOf (domain_in universes.now domain.now) table.now }
{
    match table {
        Table::Same(_) => true,
        Table::Entries(entries) => entries_fit(universes, domain, entries.as_slice()),
    }
}

fn entries_fit(universes: &[Universe], domain: &[usize], entries: &[(Arguments, Word)]) -> bool
    requires domain { IsDomainOf universes.now domain.now }
    requires sound { All IsUniverse universes.now }
    ensures { IsTrue result ↔ AreEntriesIn (domain_in universes.now domain.now) entries.now }
{
    // The lists of the entries so far are before this position.
    let mut end = 0;
    for i in 0..entries.len() {
        let Some(k) = list_position(universes, domain, entries[i].0.as_slice()) else {
            return false;
        };
        if k < end && is_earlier_entry(universes, domain, entries, i, k) {
            return false;
        }
        end = end.max(k + 1);
    }
    true
}

/// Whether one of the first entries has the argument list at a position.
fn is_earlier_entry(
    universes: &[Universe],
    domain: &[usize],
    entries: &[(Arguments, Word)],
    i: usize,
    k: usize,
) -> bool
    requires domain { IsDomainOf universes.now domain.now }
    requires sound { All IsUniverse universes.now }
    requires known { i ≤ length entries.now }
    requires in_range { k < length (argument_lists (domain_in universes.now domain.now)) }
    ensures found { IsTrue result → (j : ℕ) × (j < i) × ((d : List Argument × Argument) →
        (slice_index_or entries.now j d).0 ≡ slice_index_or (argument_lists (domain_in universes.now domain.now)) k []) }
    ensures missed { result ≡ false → (j : ℕ) (d : List Argument × Argument) → j < i →
        (slice_index_or entries.now j d).0 ≢ slice_index_or (argument_lists (domain_in universes.now domain.now)) k [] }
{
    for j in 0..i {
        if let Some(p) = list_position(universes, domain, entries[j].0.as_slice()) {
            if p == k {
                return true;
            }
        }
    }
    false
}
