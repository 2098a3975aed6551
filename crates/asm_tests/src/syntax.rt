//! Tokens of texts, and faults of their bytes.
use asm_syntax::name::Text;
use asm_syntax::{InputError, Keyword, Kind, LexError, Symbol, Token, tokens};
use std::alloc::{AllocError, Global};
use std::test::Fail;

/// A text, and its tokens.
type Tokens = (&'static [u8], &'static [Token]);

static TOKENS: [Tokens; 9] = [
    (
        b"0..3",
        &[
            Token {
                kind: Kind::Number(0),
                start: 0,
                end: 1,
            },
            Token {
                kind: Kind::Symbol(Symbol::Dots),
                start: 1,
                end: 3,
            },
            Token {
                kind: Kind::Number(3),
                start: 3,
                end: 4,
            },
        ],
    ),
    (
        b"a<-1",
        &[
            Token {
                kind: Kind::Name,
                start: 0,
                end: 1,
            },
            Token {
                kind: Kind::Symbol(Symbol::LeftArrow),
                start: 1,
                end: 3,
            },
            Token {
                kind: Kind::Number(1),
                start: 3,
                end: 4,
            },
        ],
    ),
    (
        b"a < -",
        &[
            Token {
                kind: Kind::Name,
                start: 0,
                end: 1,
            },
            Token {
                kind: Kind::Symbol(Symbol::Less),
                start: 2,
                end: 3,
            },
            Token {
                kind: Kind::Symbol(Symbol::Minus),
                start: 4,
                end: 5,
            },
        ],
    ),
    (
        b"CoreASM coreASM i_ // end",
        &[
            Token {
                kind: Kind::Keyword(Keyword::CoreAsm),
                start: 0,
                end: 7,
            },
            Token {
                kind: Kind::Name,
                start: 8,
                end: 15,
            },
            Token {
                kind: Kind::Name,
                start: 16,
                end: 18,
            },
        ],
    ),
    (
        b"CoreASM coreASM in",
        &[
            Token {
                kind: Kind::Keyword(Keyword::CoreAsm),
                start: 0,
                end: 7,
            },
            Token {
                kind: Kind::Name,
                start: 8,
                end: 15,
            },
            Token {
                kind: Kind::Keyword(Keyword::In),
                start: 16,
                end: 18,
            },
        ],
    ),
    // Comments, and numbers at the edges of what is one.
    (b" \t\r\n// x\n/* $ /* **/", &[]),
    (
        b"/**/x",
        &[Token {
            kind: Kind::Name,
            start: 4,
            end: 5,
        }],
    ),
    (
        b"00100000000000000000",
        &[Token {
            kind: Kind::Number(100_000_000_000_000_000),
            start: 0,
            end: 20,
        }],
    ),
    (
        b"1000000000000001",
        &[Token {
            kind: Kind::Number(1_000_000_000_000_001),
            start: 0,
            end: 16,
        }],
    ),
];

/// A text, and the fault that is first in it.
type Faulty = (&'static [u8], LexError);

static FAULTS: [Faulty; 10] = [
    (b"x /*/ y", LexError::OpenComment { at: 2 }),
    (b"CoreASM T /*", LexError::OpenComment { at: 10 }),
    (b"CoreASM T$", LexError::BadByte { at: 9 }),
    (b"a / b", LexError::BadByte { at: 2 }),
    (b"a.", LexError::BadByte { at: 1 }),
    (b"!", LexError::BadByte { at: 0 }),
    (b"x 12_ $", LexError::BadNumber { at: 2 }),
    (b"100000000000000001", LexError::BadNumber { at: 0 }),
    (b"18446744073709551617", LexError::BadNumber { at: 0 }),
    (
        b"100000000000000000000000000000000",
        LexError::BadNumber { at: 0 },
    ),
];

/// Whether the text has just these tokens.
fn gives(alloc: Global, text: &[u8], wanted: &[Token]) -> bool {
    match tokens(alloc, text) {
        Ok(found) => found.as_slice() == wanted,
        Err(_) => false,
    }
}

#[test]
fn longest_tokens(rt: HostRuntime) {
    for (i, (text, wanted)) in TOKENS.iter().enumerate() {
        assert!(rt; gives(rt.alloc(), text, wanted), "{i}");
    }
}

/// Whether the text has this fault.
fn fails(alloc: Global, text: &[u8], wanted: LexError) -> bool {
    match tokens(alloc, text) {
        Err(InputError::Named(fault)) => fault == wanted,
        _ => false,
    }
}

#[test]
fn faults(rt: HostRuntime) {
    for (i, (text, wanted)) in FAULTS.iter().enumerate() {
        assert!(rt; fails(rt.alloc(), text, *wanted), "{i}");
    }
}

/// Whether a text is told from another by its bytes, and its copy isn't.
fn compares_bytes(alloc: Global) -> Result<bool, AllocError> {
    let text = Text::new(alloc, b"temperature")?;
    let same = text.copy(alloc)?;
    let other = Text::new(alloc, b"temperaturf")?;
    let is_same = text.is_same_text(&same) && text == same && text.key() == same.key();
    let is_other = !text.is_same_text(&other) && text != other && text.key() != other.key();
    Ok(is_same && is_other && same.as_bytes() == b"temperature".as_slice())
}

#[test]
fn texts_are_compared_by_their_bytes(rt: HostRuntime) -> Result<(), Fail> {
    assert!(rt; compares_bytes(rt.alloc())?);
    Ok(())
}

static TEXTS: [&[u8]; 7] = [
    b"",
    b"\0",
    b"\0\0",
    b"pressure",
    b"pressurf",
    b"qressure",
    b"pressures",
];

fn is_same(alloc: Global, bytes: &[u8], others: &[u8]) -> Result<bool, AllocError> {
    let text = Text::new(alloc, bytes)?;
    let other = Text::new(alloc, others)?;
    Ok(text.is_same_text(&other))
}

#[test]
fn short_texts_are_compared_by_their_keys(rt: HostRuntime) -> Result<(), Fail> {
    for (i, bytes) in TEXTS.iter().enumerate() {
        for (k, others) in TEXTS.iter().enumerate() {
            assert!(rt; is_same(rt.alloc(), bytes, others)? == (i == k), "{i} {k}");
        }
    }
    Ok(())
}
