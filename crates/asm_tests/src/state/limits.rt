//! What still fits into a signature, and what doesn't.
use super::*;
use crate::plain::{FIVE, ONE, THREE, TWO};
use crate::signatures::{NO_VALUE, all_fit};

const ZERO: Plain = Plain::Number(0);

/// There are 4,096 locations or 4,095 argument lists over universe 0, one more over universe 1, the
/// stray location alone and no list over universe 2, and two locations and one list without
/// arguments.
static UNIVERSES: [Many<PlainUniverse>; 5] = [
    (1, PlainUniverse::Elements(0, 4095)),
    (1, PlainUniverse::Elements(0, 4096)),
    (1, PlainUniverse::Numbers(5, 4)),
    (1, PlainUniverse::Elements(4096, 128)),
    (1, PlainUniverse::Numbers(0, 1)),
];

/// Functions of one kind, by their domains, and whether they fit.
type Domains = (FunctionKind, &'static [Many<&'static [usize]>], bool);

static DOMAINS: [Domains; 30] = [
    (FunctionKind::Controlled, &[], true),
    (FunctionKind::Controlled, &[(1, &[])], true),
    (FunctionKind::Controlled, &[(1, &[1])], true),
    // From 65,536 locations on.
    (FunctionKind::Controlled, &[(16, &[0])], true),
    (FunctionKind::Controlled, &[(16, &[0]), (1, &[2])], false),
    (FunctionKind::Controlled, &[(16, &[0]), (1, &[])], false),
    (
        FunctionKind::Controlled,
        &[(15, &[0]), (1, &[3]), (1, &[3])],
        true,
    ),
    (FunctionKind::Controlled, &[(15, &[0]), (1, &[1])], false),
    (FunctionKind::Controlled, &[(14, &[0]), (1, &[1])], true),
    (
        FunctionKind::Controlled,
        &[(14, &[0]), (1, &[1]), (1, &[1])],
        false,
    ),
    (
        FunctionKind::Controlled,
        &[(1, &[3, 3, 4]), (1, &[3, 3])],
        true,
    ),
    (
        FunctionKind::Controlled,
        &[(1, &[3, 3, 4]), (1, &[3, 3, 4])],
        false,
    ),
    (FunctionKind::Controlled, &[(1, &[3, 3, 4, 4])], false),
    (
        FunctionKind::Controlled,
        &[(1, &[0, 4, 4, 4]), (1, &[0, 4, 4])],
        true,
    ),
    (FunctionKind::Controlled, &[(1, &[1, 1, 1, 1])], false),
    // Universes in a domain.
    (FunctionKind::Controlled, &[(1, &[4, 4, 4, 4])], true),
    (FunctionKind::Controlled, &[(1, &[4, 4, 4, 4, 4])], false),
    (FunctionKind::Controlled, &[(1, &[2, 2, 2, 2])], true),
    (FunctionKind::Controlled, &[(1, &[2, 2, 2, 2, 2])], false),
    // Universes that aren't there.
    (FunctionKind::Controlled, &[(1, &[5])], false),
    (FunctionKind::Controlled, &[(1, &[]), (1, &[4, 5])], false),
    (FunctionKind::Controlled, &[(1, &[0]), (1, &[5])], false),
    // From 16,384 argument lists on.
    (
        FunctionKind::Static,
        &[(1, &[1]), (1, &[1]), (1, &[1]), (1, &[1])],
        true,
    ),
    (
        FunctionKind::Static,
        &[(1, &[1]), (1, &[1]), (1, &[1]), (1, &[1]), (1, &[2])],
        true,
    ),
    (
        FunctionKind::Static,
        &[(1, &[1]), (1, &[1]), (1, &[1]), (1, &[1]), (1, &[])],
        false,
    ),
    (FunctionKind::Static, &[(1, &[3, 3])], true),
    (FunctionKind::Static, &[(1, &[3, 3]), (1, &[])], false),
    (FunctionKind::Static, &[(1, &[1, 1, 1, 1])], false),
    (FunctionKind::Static, &[(1, &[4, 4, 4, 4, 4])], false),
    (FunctionKind::Static, &[(1, &[5])], false),
];

/// The argument lists of a table over the numbers from 0 to 2, and whether it fits.
static TABLES: [(&[&[Plain]], bool); 14] = [
    (&[], true),
    (&[&[ZERO], &[ONE], &[TWO]], true),
    (&[&[TWO], &[ONE], &[ZERO]], true),
    (&[&[ONE], &[TWO], &[ZERO]], true),
    // Outside the domain, also after an entry within it.
    (&[&[THREE]], false),
    (&[&[ZERO], &[THREE]], false),
    // Other numbers of arguments.
    (&[&[]], false),
    (&[&[ONE, ONE]], false),
    (&[&[ZERO], &[ONE, ONE]], false),
    // Repeated lists: next to one another, and apart.
    (&[&[ONE], &[ONE]], false),
    (&[&[ZERO], &[ONE], &[ZERO]], false),
    (&[&[ONE], &[ZERO], &[ONE]], false),
    (&[&[TWO], &[ONE], &[ZERO], &[ONE]], false),
    (&[&[TWO], &[ONE], &[ZERO], &[TWO]], false),
];

/// Whether functions of one kind with these domains fit, which have no value but `Undef`.
fn domains_fit(
    alloc: Global,
    kind: FunctionKind,
    domains: &'static [Many<&'static [usize]>],
) -> Result<bool, AllocError> {
    let mut functions = Vec::new(alloc);
    for (times, domain) in domains {
        functions.push((*times, (kind, *domain, NO_VALUE)))?;
    }
    all_fit(alloc, &UNIVERSES, functions.as_slice())
}

#[test]
fn as_many_locations_and_lists_as_fit(rt: HostRuntime) -> Result<(), Fail> {
    for (kind, domains, expected) in &DOMAINS {
        let fit = domains_fit(rt.alloc(), *kind, domains)?;
        assert!(rt; fit == *expected, "{kind:?} {domains:?}");
    }
    Ok(())
}

/// Whether a table fits that has the value 5 for these lists.
fn table_fits(alloc: Global, lists: &'static [&'static [Plain]]) -> Result<bool, AllocError> {
    let function: PlainFunction = (FunctionKind::Static, &[0], PlainTable::At(lists, FIVE));
    all_fit(
        alloc,
        &[(1, PlainUniverse::Numbers(0, 2))],
        &[(1, function)],
    )
}

#[test]
fn tables_with_entries_in_the_domain_and_apart(rt: HostRuntime) -> Result<(), Fail> {
    for (i, (lists, expected)) in TABLES.iter().enumerate() {
        assert!(rt; table_fits(rt.alloc(), lists)? == *expected, "{i}");
    }
    Ok(())
}

/// How many universes, how many static functions without arguments, and whether they fit.
static COUNTS: [(usize, usize, bool); 4] = [
    (64, 0, true),
    (65, 0, false),
    (0, 256, true),
    (0, 257, false),
];

const CONSTANT: PlainFunction = (FunctionKind::Static, &[], NO_VALUE);

#[test]
fn as_many_universes_and_functions_as_fit(rt: HostRuntime) -> Result<(), Fail> {
    for (universes, functions, expected) in &COUNTS {
        let over = [(*universes, PlainUniverse::Elements(0, 1))];
        let fit = all_fit(rt.alloc(), &over, &[(*functions, CONSTANT)])?;
        assert!(rt; fit == *expected, "{universes} {functions}");
    }
    Ok(())
}
