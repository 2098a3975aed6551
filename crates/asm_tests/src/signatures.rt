//! Signatures as the tests write them.
ghost use Rattle.std.specs.Prelude.{◌≡◌, IfOk};
ghost use Rattle.asm_state.specs.Signature.{count_of};

use crate::plain::{Plain, value, values_of};
use asm_state::arguments::Arguments;
use asm_state::domain::Domain;
use asm_state::entries::Entries;
use asm_state::function::{Function, FunctionKind, Table};
use asm_state::number::Number;
use asm_state::signature::Signature;
use asm_state::signature_limits::fits;
use asm_state::universe::Universe;
use std::alloc::{AllocError, Global};
use std::test::Fail;

/// How many there are, and each of them.
pub type Many<T> = (usize, T);

/// A universe that a static can hold.
#[derive(Clone, Copy)]
pub enum PlainUniverse {
    /// From a number to another one.
    Numbers(u8, u8),
    /// From the number of an element on, this many, and no more than a universe has.
    Elements(u16, u16),
}

/// The values that a static can give a function.
#[derive(Clone, Copy)]
pub enum PlainTable {
    Same(Plain),
    /// One value at these lists of arguments.
    At(&'static [&'static [Plain]], Plain),
    Entries(&'static [(&'static [Plain], Plain)]),
}

/// A function that a static can hold: its kind, its domain and its values.
pub type PlainFunction = (FunctionKind, &'static [usize], PlainTable);

/// Functions over universes, as a static can hold them.
#[derive(Clone, Copy)]
pub struct PlainSignature {
    pub universes: &'static [Many<PlainUniverse>],
    pub functions: &'static [Many<PlainFunction>],
}

/// No value but `Undef`.
pub const NO_VALUE: PlainTable = PlainTable::Same(Plain::Undef);

fn universe(plain: PlainUniverse) -> Universe {
    match plain {
        PlainUniverse::Numbers(first, last) => Universe::range(
            Number {
                value: i64::from(first),
            },
            Number {
                value: i64::from(last),
            },
        ),
        PlainUniverse::Elements(first, count) => {
            Universe::elements(u32::from(first), usize::from(count).min(4096))
        }
    }
}

fn table(alloc: Global, plain: PlainTable) -> Result<Table, AllocError> {
    match plain {
        PlainTable::Same(given) => Ok(Table::Same(value(given))),
        PlainTable::At(lists, given) => {
            let mut entries = Vec::new(alloc);
            for arguments in lists {
                entries.push((Arguments::new(values_of(alloc, arguments)?), value(given)))?;
            }
            Ok(Table::Entries(Entries::new(entries)))
        }
        PlainTable::Entries(rows) => {
            let mut entries = Vec::new(alloc);
            for (arguments, given) in rows {
                entries.push((Arguments::new(values_of(alloc, arguments)?), value(*given)))?;
            }
            Ok(Table::Entries(Entries::new(entries)))
        }
    }
}

fn function(alloc: Global, plain: &PlainFunction) -> Result<Function, AllocError> {
    let (kind, domain, plain) = plain;
    Ok(Function {
        kind: *kind,
        domain: Domain::new(domain.to_vec(alloc)?),
        table: table(alloc, *plain)?,
    })
}

fn universes_of(alloc: Global, plain: &[Many<PlainUniverse>]) -> Result<Vec<Universe>, AllocError> {
    let mut universes = Vec::new(alloc);
    for (times, one) in plain {
        for _ in 0..*times {
            universes.push(universe(*one))?;
        }
    }
    Ok(universes)
}

pub fn functions_of(
    alloc: Global,
    plain: &[Many<PlainFunction>],
) -> Result<Vec<Function>, AllocError> {
    let mut functions = Vec::new(alloc);
    for (times, one) in plain {
        for _ in 0..*times {
            functions.push(function(alloc, one)?)?;
        }
    }
    Ok(functions)
}

/// Whether functions over universes fit.
pub fn all_fit(
    alloc: Global,
    universes: &[Many<PlainUniverse>],
    functions: &[Many<PlainFunction>],
) -> Result<bool, AllocError> {
    let universes = universes_of(alloc, universes)?;
    let functions = functions_of(alloc, functions)?;
    Ok(fits(&universes, &functions))
}

/// The signature, if it fits.
pub fn fitting(alloc: Global, plain: &PlainSignature) -> Result<Option<Signature>, AllocError> {
    let universes = universes_of(alloc, plain.universes)?;
    let functions = functions_of(alloc, plain.functions)?;
    if !fits(&universes, &functions) {
        return Ok(None);
    }
    Ok(Some(Signature::build(alloc, universes, functions)?))
}

/// The signature, which fits.
pub fn signature_of(alloc: Global, plain: &PlainSignature) -> Result<Signature, Fail> {
    match fitting(alloc, plain)? {
        Some(signature) => Ok(signature),
        None => Err(Fail::new("the signature doesn't fit")),
    }
}

/// A function over the numbers from 0 to 3, with the locations 0 to 4, and one without arguments,
/// with 5 and 6. The last of each is its stray one.
pub const TWO: PlainSignature = PlainSignature {
    universes: &[(1, PlainUniverse::Numbers(0, 3))],
    functions: &[
        (1, (FunctionKind::Controlled, &[0], NO_VALUE)),
        (1, (FunctionKind::Controlled, &[], NO_VALUE)),
    ],
};

/// The signature of two functions.
pub fn signature_of_two(alloc: Global) -> Result<Signature, Fail>
    ensures { IfOk result (λ s. count_of s ≡ 7) }
{
    let signature = signature_of(alloc, &TWO)?;
    if signature.count() != 7 {
        return Err(Fail::new("there are seven locations"));
    }
    Ok(signature)
}
