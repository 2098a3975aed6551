//! Codes of values.
use asm_state::element::{Element, MAX_ELEMENTS};
use asm_state::number::{MAX_NUMBER, Number};
use asm_state::value::Value;
use asm_state::word::Word;

#[test]
fn code_edges(rt: HostRuntime) {
    let cases = [
        (Value::Undef, 1),
        (Value::Truth(false), 2),
        (Value::Truth(true), 3),
        (Value::Number(Number { value: -MAX_NUMBER }), 4),
        (Value::Number(Number { value: 0 }), 100_000_000_000_000_004),
        (
            Value::Number(Number { value: MAX_NUMBER }),
            200_000_000_000_000_004,
        ),
        (
            Value::Element(Element { index: 0 }),
            200_000_000_000_000_005,
        ),
        (
            Value::Element(Element {
                index: MAX_ELEMENTS - 1,
            }),
            200_000_000_000_262_148,
        ),
    ];
    for (value, code) in cases {
        let word = Word::of(value);
        assert_eq!(rt; value.code(), code);
        assert_eq!(rt; word.code(), code);
        assert!(rt; Word::from_code(code) == Some(word));
        assert!(rt; word.value() == value);
    }
}

#[test]
fn the_largest_number(rt: HostRuntime) {
    assert_eq!(rt; MAX_NUMBER, 100_000_000_000_000_000);
}

#[test]
fn no_value_has_a_code_outside(rt: HostRuntime) {
    for code in [0, 200_000_000_000_262_149, u64::MAX] {
        assert!(rt; Word::from_code(code) == None);
    }
}
