//! Truth values.
ghost use Rattle.std.specs.Prelude.{◌≡◌};
ghost use Rattle.asm_meaning.specs.Value as meaning;
ghost use Rattle.asm_explore_because.specs.Parts as parts;

use asm_state::value::Value;
use asm_state::word::Word;

/// Whether a value is the truth value true.
pub(crate) fn is_true(value: Word) -> bool
    ensures { result ≡ meaning.is_true value }
{
    match value.value() {
        Value::Truth(truth) => truth,
        _ => false,
    }
}

/// Whether a value is a truth value.
pub(crate) fn is_boolean(value: Word) -> bool
    ensures { result ≡ parts.is_boolean value }
{
    match value.value() {
        Value::Truth(_) => true,
        _ => false,
    }
}

/// Whether a term that has this value decides what this is wanted of.
pub(crate) fn decides(wanted: bool, value: Word) -> bool
    ensures { result ≡ parts.decides_with wanted value }
{
    if wanted {
        return !is_true(value);
    }
    is_true(value)
}
