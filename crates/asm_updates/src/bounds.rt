//! Bounds of values at one location.
ghost use Rattle.std.specs.Prelude.{◌≡◌, Some, false};
ghost use Rattle.asm_state.specs.Updates.{lesser, greater, widen};
ghost use Rattle.asm_updates.specs.code.SummaryRanges.{range};

use asm_state::word::Word;

/// The bounds of all values that lie within the ones or the others.
pub(crate) fn widened(first: (Word, Word), second: (Word, Word)) -> (Word, Word)
    ensures { Some (range result) ≡ widen (Some (range first)) (Some (range second)) }
{
    (lesser_of(first.0, second.0), greater_of(first.1, second.1))
}

/// Whether bounds differ.
#[inline(always)]
pub(crate) fn differ(low: Word, high: Word) -> bool
    ensures { result ≡ false → low ≡ high }
{
    low.code() != high.code()
}

/// Whether one of two marks is there.
#[inline(always)]
pub(crate) fn is_either(first: bool, second: bool) -> bool
    ensures first { result ≡ false → first ≡ false }
    ensures second { result ≡ false → second ≡ false }
{
    first || second
}

fn lesser_of(a: Word, b: Word) -> Word
    ensures { result ≡ lesser a b }
{
    if b.code() < a.code() { b } else { a }
}

fn greater_of(a: Word, b: Word) -> Word
    ensures { result ≡ greater a b }
{
    if a.code() < b.code() { b } else { a }
}
