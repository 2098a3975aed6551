//! What signatures have: their locations by number, initial contents, and the values of static
//! functions.
ghost use Rattle.std.specs.Prelude.{◌≡◌};
ghost use Rattle.asm_state.specs.Signature.{count_of};

use super::locations::{Given, Numbered, are_numbered, give_values};
use super::*;
use crate::plain::{FIVE, NOTHING, ONE};
use crate::signatures::{NO_VALUE, TWO, functions_of, signature_of, signature_of_two};
use asm_state::number::Number;
use asm_state::signature_limits::fits;
use asm_state::state::State;
use asm_state::universe::Universe;

const ZERO: Plain = Plain::Number(0);

const SEVEN: Plain = Plain::Number(7);

const CONTROLLED: FunctionKind = FunctionKind::Controlled;

const STATIC: FunctionKind = FunctionKind::Static;

/// What a signature has.
struct Shown {
    signature: PlainSignature,
    functions: usize,
    count: usize,
    numbered: &'static [Numbered],
    given: &'static [Given],
    /// Those of the initial state; none: they aren't looked at.
    contents: &'static [Plain],
}

/// A function over two universes.
const PAIRS: PlainSignature = PlainSignature {
    universes: &[
        (1, PlainUniverse::Numbers(0, 1)),
        (1, PlainUniverse::Elements(0, 3)),
    ],
    functions: &[(1, (CONTROLLED, &[0, 1], NO_VALUE))],
};

/// A function over an empty range, whose value would be 7.
const EMPTY: PlainSignature = PlainSignature {
    universes: &[(1, PlainUniverse::Numbers(5, 4))],
    functions: &[(1, (CONTROLLED, &[0], PlainTable::Same(SEVEN)))],
};

/// A function with a table over the numbers from 0 to 2, and one with the same value for each of
/// them.
const BEGINNINGS: PlainSignature = PlainSignature {
    universes: &[(1, PlainUniverse::Numbers(0, 2))],
    functions: &[
        (
            1,
            (
                CONTROLLED,
                &[0],
                PlainTable::Entries(&[(&[ONE], FIVE), (&[ZERO], Plain::True)]),
            ),
        ),
        (1, (CONTROLLED, &[0], PlainTable::Same(SEVEN))),
    ],
};

/// The static functions 0, the same everywhere on the numbers from 0 to 2, and 2, with a table over
/// them and two elements. Between them is a controlled one.
const GIVING: PlainSignature = PlainSignature {
    universes: &[
        (1, PlainUniverse::Numbers(0, 2)),
        (1, PlainUniverse::Elements(3, 2)),
    ],
    functions: &[
        (1, (STATIC, &[0], PlainTable::Same(Plain::Number(9)))),
        (1, (CONTROLLED, &[], PlainTable::Same(ONE))),
        (
            1,
            (
                STATIC,
                &[0, 1],
                PlainTable::Entries(&[
                    (&[ONE, Plain::Element(4)], Plain::Number(8)),
                    (&[Plain::Number(2), Plain::Element(3)], Plain::True),
                ]),
            ),
        ),
    ],
};

/// Sixteen functions with all locations, and four with all argument lists.
const GREATEST: PlainSignature = PlainSignature {
    universes: &[
        (1, PlainUniverse::Elements(0, 4095)),
        (1, PlainUniverse::Elements(0, 4096)),
    ],
    functions: &[
        (16, (CONTROLLED, &[0], NO_VALUE)),
        (4, (STATIC, &[1], NO_VALUE)),
    ],
};

static SHOWN: [Shown; 6] = [
    Shown {
        signature: TWO,
        functions: 2,
        count: 7,
        numbered: &[
            (0, &[Plain::Number(3)], 3, true),
            (0, &[Plain::Number(9)], 4, false),
            (0, &[], 4, false),
            (1, &[], 5, true),
            (1, &[Plain::Number(3)], 6, false),
        ],
        given: &[],
        contents: &NOTHING,
    },
    // A location for each pair, and a stray one.
    Shown {
        signature: PAIRS,
        functions: 1,
        count: 7,
        numbered: &[
            (0, &[ZERO, Plain::Element(0)], 0, true),
            (0, &[ZERO, Plain::Element(1)], 1, true),
            (0, &[ZERO, Plain::Element(2)], 2, true),
            (0, &[ONE, Plain::Element(0)], 3, true),
            (0, &[ONE, Plain::Element(1)], 4, true),
            (0, &[ONE, Plain::Element(2)], 5, true),
            (0, &[Plain::Element(0), ONE], 6, false),
            (0, &[ONE], 6, false),
        ],
        given: &[],
        contents: &NOTHING,
    },
    // The stray location alone, with no content.
    Shown {
        signature: EMPTY,
        functions: 1,
        count: 1,
        numbered: &[(0, &[FIVE], 0, false)],
        given: &[],
        contents: &[Plain::Undef],
    },
    Shown {
        signature: BEGINNINGS,
        functions: 2,
        count: 8,
        numbered: &[(0, &[SEVEN], 3, false), (1, &[SEVEN], 7, false)],
        given: &[],
        contents: &[
            Plain::True,
            FIVE,
            Plain::Undef,
            Plain::Undef,
            SEVEN,
            SEVEN,
            SEVEN,
            Plain::Undef,
        ],
    },
    Shown {
        signature: GIVING,
        functions: 3,
        count: 2,
        numbered: &[(1, &[], 0, true)],
        given: &[
            (0, &[ZERO], Some(Plain::Number(9))),
            (0, &[Plain::Number(2)], Some(Plain::Number(9))),
            (0, &[Plain::Number(3)], Some(Plain::Undef)),
            (0, &[], Some(Plain::Undef)),
            (2, &[ONE, Plain::Element(4)], Some(Plain::Number(8))),
            (2, &[Plain::Number(2), Plain::Element(3)], Some(Plain::True)),
            (2, &[ONE, Plain::Element(3)], Some(Plain::Undef)),
            (
                2,
                &[Plain::Number(2), Plain::Element(4)],
                Some(Plain::Undef),
            ),
            (
                2,
                &[Plain::Number(3), Plain::Element(3)],
                Some(Plain::Undef),
            ),
            (2, &[ONE, Plain::Element(5)], Some(Plain::Undef)),
            (2, &[Plain::Element(4), ONE], Some(Plain::Undef)),
            (2, &[ONE], Some(Plain::Undef)),
            (2, &[], Some(Plain::Undef)),
            (2, &[ONE, Plain::Element(4), ONE], Some(Plain::Undef)),
            (1, &[], None),
        ],
        contents: &[ONE, Plain::Undef],
    },
    // The last location, the last stray one and the last list.
    Shown {
        signature: GREATEST,
        functions: 20,
        count: 65_536,
        numbered: &[
            (15, &[Plain::Element(4094)], 65_534, true),
            (15, &[Plain::Element(4095)], 65_535, false),
        ],
        given: &[(19, &[Plain::Element(4095)], Some(Plain::Undef))],
        contents: &[],
    },
];

/// Whether the initial state and a copy of it have these contents.
fn begins_with(
    alloc: Global,
    signature: &Signature,
    contents: &[Plain],
) -> Result<bool, AllocError> {
    let state = State::initial(alloc, signature)?;
    let copy = state.copy(alloc)?;
    Ok(has_contents(signature, &state, contents) && has_contents(signature, &copy, contents))
}

/// Whether a signature has what the row says.
fn has_all(alloc: Global, signature: &Signature, row: &Shown) -> Result<bool, AllocError> {
    if signature.functions() != row.functions || signature.count() != row.count {
        return Ok(false);
    }
    if !are_numbered(alloc, signature, row.numbered)?
        || !give_values(alloc, signature, row.given)?
    {
        return Ok(false);
    }
    if row.contents.is_empty() {
        return Ok(true);
    }
    begins_with(alloc, signature, row.contents)
}

fn is_shown(alloc: Global, row: &Shown) -> Result<bool, Fail> {
    let signature = signature_of(alloc, &row.signature)?;
    Ok(has_all(alloc, &signature, row)?)
}

#[test]
fn locations_contents_and_values(rt: HostRuntime) -> Result<(), Fail> {
    for (i, row) in SHOWN.iter().enumerate() {
        assert!(rt; is_shown(rt.alloc(), row)?, "{i}");
    }
    Ok(())
}

static SET: [Plain; 7] = [
    Plain::Undef,
    Plain::Undef,
    Plain::Undef,
    ONE,
    Plain::Undef,
    Plain::Undef,
    Plain::Undef,
];

/// Whether setting a content changes this one alone, and leaves a copy of the state as it was.
fn sets_one_content(alloc: Global, signature: &Signature) -> Result<bool, AllocError>
    requires { count_of signature.now ≡ 7 }
{
    let mut state = State::initial(alloc, signature)?;
    let copy = state.copy(alloc)?;
    let is_empty = has_contents(signature, &state, &NOTHING);
    state.set(3, value(ONE));
    Ok(
        is_empty
            && has_contents(signature, &state, &SET)
            && has_contents(signature, &copy, &NOTHING),
    )
}

#[test]
fn a_content_is_set(rt: HostRuntime) -> Result<(), Fail> {
    let signature = signature_of_two(rt.alloc())?;
    assert!(rt; sets_one_content(rt.alloc(), &signature)?);
    Ok(())
}

static ORDERED: [Many<PlainFunction>; 2] = [
    (1, (STATIC, &[], NO_VALUE)),
    (1, (CONTROLLED, &[1], NO_VALUE)),
];

/// Whether the numbers of universes and functions lead to them, in their order.
fn keeps_their_order(alloc: Global) -> Result<bool, Fail> {
    let universes = vec![in alloc;
        Universe::elements(0, 3),
        Universe::range(Number { value: 0 }, Number { value: 1 }),
    ]?;
    let functions = functions_of(alloc, &ORDERED)?;
    if !fits(&universes, &functions) {
        return Err(Fail::new("the signature doesn't fit"));
    }
    let signature = Signature::build(alloc, universes, functions)?;
    Ok(
        signature.universe(0).size() == 3
            && signature.universe(1).size() == 2
            && signature.functions() == 2
            && signature.function(0).kind == STATIC
            && signature.function(1).kind == CONTROLLED
            && signature.function(1).domain.as_slice() == [1].as_slice(),
    )
}

#[test]
fn universes_and_functions_by_number(rt: HostRuntime) -> Result<(), Fail> {
    assert!(rt; keeps_their_order(rt.alloc())?);
    Ok(())
}
