//! Values of locations and of functions, and numbers of locations, which need no frame.
ghost use Rattle.std.specs.Prelude.{◌≡◌, ◌≤◌, ◌<◌, ◌+◌, ◌*◌, ◌||◌, slice_get};
ghost use Rattle.asm_state.specs.declared.signature_limits.TheConstants.{MAX_LOCATIONS};
ghost use Rattle.asm_state.specs.code.FirstLocations.{position_in_grid};
ghost use Rattle.asm_state.specs.Signature.{count_of, functions_of};
ghost use Rattle.asm_meaning.specs.Declarations.{function_at};
ghost use Rattle.asm_meaning.specs.code.TermValues.{held};
ghost use Rattle.asm_eval.specs.code.ShownViews.{shown};
ghost use Rattle.asm_meaning.specs.Value as spec;
ghost use Rattle.asm_code.specs.code.Readings as reading;
ghost use Rattle.asm_code.specs.code.Readings.{position_from, content};
ghost use Rattle.asm_code.specs.code.RuleMeaning.{number_from};
ghost use Rattle.asm_code.specs.code.SoundCodes.{IsCell, AreCells};
ghost use Rattle.asm_eval.specs.code.AndChains as conditions;

use crate::view::View;
use asm_code::code::{CodeRange, Grid};
use asm_state::function::FunctionKind;
use asm_state::word::Word;

/// Whether a value is the truth value true.
#[inline(always)]
pub(crate) fn is_true(value: Word) -> bool
    ensures { result ≡ spec.is_true value }
{
    value.code() == 3
}

/// Whether a value is the truth value false.
#[inline(always)]
pub(crate) fn is_false(value: Word) -> bool
    ensures { result ≡ conditions.is_false value }
{
    value.code() == 2
}

/// Whether a value is a truth value.
#[inline(always)]
pub(crate) fn is_truth(value: Word) -> bool
    ensures { result ≡ (spec.is_true value || conditions.is_false value) }
{
    let code = value.code();
    code == 2 || code == 3
}

/// The content of a location that isn't stray.
#[inline(always)]
pub(crate) fn cell(view: &View, n: usize) -> Word
    requires { IsCell view.now.signature.now n }
    ensures { result ≡ content view.now.signature.now (shown view.now) n }
{
    view.content(n)
}

/// The same by a call, so that whoever asks for it keeps its own frame small.
#[inline(never)]
pub(crate) fn cell_by_call(view: &View, n: usize) -> Word
    requires { IsCell view.now.signature.now n }
    ensures { result ≡ content view.now.signature.now (shown view.now) n }
{
    cell(view, n)
}

/// The content of the location with this number: `Undef` at a stray one.
#[inline(never)]
pub(crate) fn located(view: &View, n: usize) -> Word
    requires { n < count_of view.now.signature.now }
    ensures { result ≡ content view.now.signature.now (shown view.now) n }
{
    match view.signature.stray(n) {
        Some(_) => Word::undef(),
        None => view.content(n),
    }
}

/// The position of a value among those of a span, if it is one of them.
#[inline(always)]
fn position(over: CodeRange, value: Word) -> Option<usize>
    ensures { result ≡ position_from over.low over.count value }
{
    let code = value.code();
    if over.low <= code && code - over.low < over.count as u64 {
        Some((code - over.low) as usize)
    } else {
        None
    }
}

/// The content at the position of an argument, from the first location of a function on.
#[inline(always)]
pub(crate) fn in_row(view: &View, first: usize, over: CodeRange, argument: Word) -> Word
    requires cells { AreCells view.now.signature.now first over.count }
    ensures { result ≡ reading.in_row view.now.signature.now (shown view.now) first (position_from over.low over.count argument) }
{
    match position(over, argument) {
        None => Word::undef(),
        Some(i) => cell(view, first + i),
    }
}

/// The same at the positions of two arguments.
#[inline(always)]
pub(crate) fn in_grid(view: &View, place: &Grid, row: Word, column: Word) -> Word
    requires cells { AreCells view.now.signature.now place.now.first (place.now.rows.count * place.now.columns.count) }
    ensures { result ≡ reading.in_grid view.now.signature.now (shown view.now) place.now.first place.now.columns.count (position_from place.now.rows.low place.now.rows.count row) (position_from place.now.columns.low place.now.columns.count column) }
{
    match (position(place.rows, row), position(place.columns, column)) {
        (Some(i), Some(j)) => cell(view, place.first + (i * place.columns.count + j)),
        _ => Word::undef(),
    }
}

/// The number of the location at the position of an argument, from the first one of a function on:
/// that of the stray one if the argument has no position.
#[inline(always)]
pub(crate) fn number_in_row(first: usize, over: CodeRange, argument: Word) -> usize
    requires { first + over.count ≤ MAX_LOCATIONS }
    ensures { result ≡ number_from first over.count (position_from over.low over.count argument) }
{
    match position(over, argument) {
        None => first + over.count,
        Some(i) => first + i,
    }
}

/// The same at the positions of two arguments.
#[inline(always)]
pub(crate) fn number_in_grid(place: &Grid, row: Word, column: Word) -> usize
    requires { place.now.first + place.now.rows.count * place.now.columns.count ≤ MAX_LOCATIONS }
    ensures { result ≡ number_from place.now.first (place.now.rows.count * place.now.columns.count) (position_in_grid (position_from place.now.rows.low place.now.rows.count row) place.now.columns.count (position_from place.now.columns.low place.now.columns.count column)) }
{
    match (position(place.rows, row), position(place.columns, column)) {
        (Some(i), Some(j)) => place.first + (i * place.columns.count + j),
        _ => place.first + place.rows.count * place.columns.count,
    }
}

/// The value of the controlled or static function with this number.
pub(crate) fn function_value(view: &View, f: usize, values: &[Word]) -> Word
    requires { f < functions_of view.now.signature.now }
    ensures { let shape = view.now.signature.now in
        result ≡ held (function_at shape f (slice_get shape.functions f)) values.now (shown view.now) }
{
    match view.signature.function(f).kind {
        FunctionKind::Controlled => view.read(f, values),
        FunctionKind::Static => view.signature.given(f, values),
    }
}
