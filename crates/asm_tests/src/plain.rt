//! Values, contents and entries as the tests write them.
ghost use Rattle.std.specs.Prelude.{◌≡◌, IfOk, length};
ghost use Rattle.asm_state.specs.Signature.{count_of};

use asm_state::element::Element;
use asm_state::number::Number;
use asm_state::signature::Signature;
use asm_state::state::State;
use asm_state::value::Value;
use asm_state::word::Word;
use asm_updates::summary::Summary;
use std::alloc::{AllocError, Global};

/// A value that a static can hold.
#[derive(Clone, Copy)]
pub enum Plain {
    Undef,
    True,
    Number(u16),
    Element(u16),
}

/// The number of a location, and the least and the greatest value at it.
pub type Entry = (usize, Plain, Plain);

/// The contents of seven locations if there are none.
pub const NOTHING: [Plain; 7] = [Plain::Undef; 7];

pub const ONE: Plain = Plain::Number(1);

pub const TWO: Plain = Plain::Number(2);

pub const THREE: Plain = Plain::Number(3);

pub const FOUR: Plain = Plain::Number(4);

pub const FIVE: Plain = Plain::Number(5);

pub fn value(plain: Plain) -> Word {
    Word::of(match plain {
        Plain::Undef => Value::Undef,
        Plain::True => Value::Truth(true),
        Plain::Number(value) => Value::Number(Number {
            value: i64::from(value),
        }),
        Plain::Element(index) => Value::Element(Element {
            index: u32::from(index),
        }),
    })
}

pub fn values_of(alloc: Global, plains: &[Plain]) -> Result<Vec<Word>, AllocError> {
    let mut values = Vec::new(alloc);
    for plain in plains {
        values.push(value(*plain))?;
    }
    Ok(values)
}

/// Whether a state has these contents and no others, by the numbers of their locations.
pub fn has_contents(signature: &Signature, state: &State, contents: &[Plain]) -> bool
    requires { length state.now ≡ count_of signature.now }
{
    if signature.count() != contents.len() {
        return false;
    }
    for (n, content) in contents.iter().enumerate() {
        if state.content(n) != value(*content) {
            return false;
        }
    }
    true
}

/// Adds these entries, one after the other, except those that are out of range or of order.
pub fn add_all(summary: &mut Summary, entries: &[Entry]) -> Result<(), AllocError>
    ensures { summary.new.count ≡ summary.old.count }
{
    for (n, low, high) in entries {
        let (low, high) = (value(*low), value(*high));
        if *n < summary.count() && low.code() <= high.code() {
            summary.add(*n, low, high)?;
        }
    }
    Ok(())
}

/// A summary to which these entries were added so.
pub fn summary_of(alloc: Global, count: usize, entries: &[Entry]) -> Result<Summary, AllocError>
    ensures { IfOk result (λ s. s.count ≡ count) }
{
    let mut summary = Summary::new(alloc, count);
    add_all(&mut summary, entries)?;
    Ok(summary)
}

/// Whether a summary has these entries and no others.
pub fn has_entries(summary: &Summary, entries: &[Entry]) -> bool {
    for (n, low, high) in entries {
        if summary.get(*n) != Some((value(*low), value(*high))) {
            return false;
        }
    }
    summary.len() == entries.len()
}
