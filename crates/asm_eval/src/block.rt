//! Blocks: up to sixteen values that are worked on at once, each by itself.
//!
//! A block is the first `count` values of an array. The functions change each of them in place, or
//! keep some of them, in order.
ghost use Rattle.std.specs.Prelude.{◌≡◌, ◌≤◌, ◌<◌, ◌+◌, ◌*◌, ℕ, Bool, length, take, drop};
ghost use Rattle.std.specs.List.{filter};
ghost use Rattle.asm_state.specs.Operation.{op};
ghost use Rattle.asm_state.specs.declared.operation.Op.TheVariants.{Add, Remainder, Equal};
ghost use Rattle.asm_state.specs.declared.value.Value.{Value as Content};
ghost use Rattle.asm_state.specs.declared.value.Value.TheVariants.{Number as Whole};
ghost use Rattle.asm_meaning.specs.Value.{is_true};
ghost use Rattle.asm_eval.specs.code.ShownViews.{shown};
ghost use Rattle.asm_code.specs.code.Readings as reading;
ghost use Rattle.asm_code.specs.code.Readings.{position_from};
ghost use Rattle.asm_code.specs.code.SoundCodes.{AreCells};
ghost use Rattle.asm_eval.specs.code.Blocks.{at};

use crate::applied::{added, applied, equal_to, remainder_by};
use crate::location_values::{in_grid, in_row, is_true};
use crate::view::View;
use asm_code::code::{CodeRange, Grid};
use asm_code::modulus::Modulus;
use asm_state::number::Number;
use asm_state::operation::Op;
use asm_state::universe::Universe;
use asm_state::word::Word;

/// How many values a block has room for.
pub(crate) const BLOCK: usize = 16;

/// The values of a universe from a position on.
pub(crate) fn elements_from(universe: &Universe, from: usize, count: usize) -> [Word; BLOCK]
    requires few { count ≤ 16 }
    requires within { from + count ≤ length universe.now }
    ensures { take count result ≡ take count (drop from universe.now) }
{
    // The call says that positions are small.
    let _size = universe.size();
    let mut elements = [Word::undef(); BLOCK];
    for k in 0..count {
        elements[k] = universe.element(from + k);
    }
    elements
}

/// Puts the same value at each position.
#[inline(always)]
pub(crate) fn fill(value: Word, values: &mut [Word; BLOCK])
    ensures { (k : ℕ) → k < 16 → at values.new k ≡ value }
{
    let all = [value; BLOCK];
    *values = all;
}

/// Each value plus a number.
pub(crate) fn add_each(count: usize, right: Number, values: &mut [Word; BLOCK])
    requires { count ≤ 16 }
    ensures { (k : ℕ) → k < count → at values.new k ≡ op Add (at values.old k) (Whole right) }
{
    for k in 0..count {
        values[k] = added(values[k], right);
    }
}

/// The remainder of each value.
pub(crate) fn remainder_of_each(count: usize, right: Modulus, values: &mut [Word; BLOCK])
    requires { count ≤ 16 }
    ensures { (k : ℕ) → k < count → at values.new k ≡ op Remainder (at values.old k) (Whole right.number) }
{
    for k in 0..count {
        values[k] = remainder_by(values[k], right);
    }
}

/// Whether each value is this one.
pub(crate) fn equal_each(count: usize, right: Word, values: &mut [Word; BLOCK])
    requires { count ≤ 16 }
    ensures { (k : ℕ) → k < count → at values.new k ≡ op Equal (at values.old k) right }
{
    for k in 0..count {
        values[k] = equal_to(values[k], right);
    }
}

/// An operation on each value and what is known.
pub(crate) fn apply_each(operation: Op, count: usize, right: Word, values: &mut [Word; BLOCK])
    requires { count ≤ 16 }
    ensures { (k : ℕ) → k < count → at values.new k ≡ op operation (at values.old k) right }
{
    for k in 0..count {
        values[k] = applied(operation, values[k], right);
    }
}

/// An operation on each value and the one at the same position of another block.
pub(crate) fn apply_to_pairs(
    operation: Op,
    count: usize,
    values: &mut [Word; BLOCK],
    others: &[Word; BLOCK],
)
    requires { count ≤ 16 }
    ensures { (k : ℕ) → k < count → at values.new k ≡ op operation (at values.old k) (at others.now k) }
{
    for k in 0..count {
        values[k] = applied(operation, values[k], others[k]);
    }
}

/// The content of a location by each value.
pub(crate) fn rows_at(
    view: &View,
    first: usize,
    over: CodeRange,
    count: usize,
    values: &mut [Word; BLOCK],
)
    requires few { count ≤ 16 }
    requires cells { AreCells view.now.signature.now first over.count }
    ensures { (k : ℕ) → k < count → at values.new k ≡ reading.in_row view.now.signature.now (shown view.now) first (position_from over.low over.count (at values.old k)) }
{
    for k in 0..count {
        values[k] = in_row(view, first, over, values[k]);
    }
}

/// The content of a location by each value and the one at the same position of another block.
pub(crate) fn grids_at(
    view: &View,
    place: &Grid,
    count: usize,
    values: &mut [Word; BLOCK],
    others: &[Word; BLOCK],
)
    requires few { count ≤ 16 }
    requires cells { AreCells view.now.signature.now place.now.first (place.now.rows.count * place.now.columns.count) }
    ensures { (k : ℕ) → k < count → at values.new k ≡ reading.in_grid view.now.signature.now (shown view.now) place.now.first place.now.columns.count
        (position_from place.now.rows.low place.now.rows.count (at values.old k)) (position_from place.now.columns.low place.now.columns.count (at others.now k)) }
{
    for k in 0..count {
        values[k] = in_grid(view, place, values[k], others[k]);
    }
}

/// Keeps the elements whose test, at the same position, is the truth value true. Returns how many
/// they are.
pub(crate) fn keep_tested(
    count: usize,
    tests: &[Word; BLOCK],
    elements: &mut [Word; BLOCK],
) -> usize
    requires { count ≤ 16 }
    ensures few { result ≤ count }
    ensures room { length elements.new ≡ 16 }
    ensures kept { (p : Content → Bool) → ((k : ℕ) → k < count → is_true (at tests.now k) ≡ p (at elements.old k)) →
        take result elements.new ≡ filter p (take count elements.old) }
{
    let mut kept = 0;
    for k in 0..count {
        if is_true(tests[k]) {
            elements[kept] = elements[k];
            kept += 1;
        }
    }
    kept
}
