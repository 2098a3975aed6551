//! Values that a byte stands for.
ghost use Rattle.std.specs.Prelude.{◌≡◌, ◌≢◌, false, IfSome, IsTrue};
ghost use Rattle.asm_explore.specs.code.ByteValues.{code_of_byte, content_of_byte};

use asm_state::word::Word;

/// What the code of a number from -32 to 95 has more than its byte.
const CODES_BEFORE_NUMBERS: u64 = 99_999_999_999_999_968;

/// What the code of one of the first 124 elements has more than its byte.
const CODES_BEFORE_ELEMENTS: u64 = 199_999_999_999_999_873;

/// The first byte of a number, after those of `undef`, which are 0 and 1, and the truth values.
const FIRST_NUMBER: u64 = 4;

/// The first byte of an element.
const FIRST_ELEMENT: u64 = 132;

/// The code of the value that a byte stands for.
#[inline(always)]
fn code_of(byte: u8) -> u64
    ensures { result ≡ code_of_byte byte }
{
    let byte = u64::from(byte);
    if byte < FIRST_NUMBER {
        byte.max(1)
    } else if byte < FIRST_ELEMENT {
        byte + CODES_BEFORE_NUMBERS
    } else {
        byte + CODES_BEFORE_ELEMENTS
    }
}

/// The value that a byte stands for.
#[inline(always)]
pub(crate) fn content_of(byte: u8) -> Word
    ensures { result ≡ content_of_byte byte }
{
    match Word::from_code(code_of(byte)) {
        Some(word) => word,
        None => Word::undef(),
    }
}

/// Whether a byte stands for this value.
#[inline(always)]
pub(crate) fn is_of(byte: u8, word: Word) -> bool
    ensures same { IsTrue result → content_of_byte byte ≡ word }
    ensures other { result ≡ false → content_of_byte byte ≢ word }
{
    code_of(byte) == word.code()
}

/// The byte that stands for a value, if one does.
#[inline(always)]
pub(crate) fn byte_of(word: Word) -> Option<u8>
    ensures { IfSome result (λ byte. content_of_byte byte ≡ word) }
{
    let code = word.code();
    let byte = if code < FIRST_NUMBER {
        code
    } else if FIRST_NUMBER + CODES_BEFORE_NUMBERS <= code
        && code < FIRST_ELEMENT + CODES_BEFORE_NUMBERS
    {
        code - CODES_BEFORE_NUMBERS
    } else if FIRST_ELEMENT + CODES_BEFORE_ELEMENTS <= code && code <= 255 + CODES_BEFORE_ELEMENTS {
        code - CODES_BEFORE_ELEMENTS
    } else {
        return None;
    };
    Some(byte as u8)
}
