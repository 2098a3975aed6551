//! Universes, and positions in them.
use asm_state::element::Element;
use asm_state::number::{MAX_NUMBER, Number};
use asm_state::universe::Universe;
use asm_state::value::Value;
use asm_state::word::Word;

/// A value with its position in a universe; none: it isn't in there.
type Placed = (Value, Option<usize>);

/// Whether a value has this position in a universe, and is the one there.
fn is_placed(universe: &Universe, value: Value, position: Option<usize>) -> bool {
    let word = Word::of(value);
    if universe.position(word) != position {
        return false;
    }
    match position {
        Some(i) => i < universe.size() && universe.element(i) == word,
        None => true,
    }
}

/// Whether a universe has this size, and these values have these positions.
fn has_values(universe: &Universe, size: usize, values: &[Placed]) -> bool {
    for (value, position) in values {
        if !is_placed(universe, *value, *position) {
            return false;
        }
    }
    universe.size() == size
}

#[test]
fn no_numbers_where_the_last_is_below_the_first(rt: HostRuntime) {
    let universe = Universe::range(Number { value: 5 }, Number { value: 4 });
    let values = [
        (Value::Undef, None),
        (Value::Number(Number { value: 4 }), None),
        (Value::Number(Number { value: 5 }), None),
    ];
    assert!(rt; has_values(&universe, 0, &values));
}

#[test]
fn numbers_of_a_range(rt: HostRuntime) {
    let universe = Universe::range(Number { value: 0 }, Number { value: 3 });
    let values = [
        (Value::Number(Number { value: 3 }), Some(3)),
        (Value::Number(Number { value: 9 }), None),
        (Value::Number(Number { value: -1 }), None),
        (Value::Element(Element { index: 0 }), None),
    ];
    assert!(rt; has_values(&universe, 4, &values));
}

#[test]
fn the_least_number_alone(rt: HostRuntime) {
    let least = Number { value: -MAX_NUMBER };
    let universe = Universe::range(least, least);
    let values = [(Value::Number(least), Some(0)), (Value::Truth(true), None)];
    assert!(rt; has_values(&universe, 1, &values));
}

#[test]
fn the_last_elements(rt: HostRuntime) {
    let universe = Universe::elements(262_140, 4);
    let values = [
        (Value::Element(Element { index: 262_143 }), Some(3)),
        (Value::Element(Element { index: 262_139 }), None),
    ];
    assert!(rt; has_values(&universe, 4, &values));
}

#[test]
fn no_elements(rt: HostRuntime) {
    let universe = Universe::elements(3, 0);
    let values = [(Value::Element(Element { index: 3 }), None)];
    assert!(rt; has_values(&universe, 0, &values));
}

#[test]
fn as_many_elements_as_there_can_be(rt: HostRuntime) {
    let universe = Universe::elements(10, 4096);
    let values = [
        (Value::Element(Element { index: 4105 }), Some(4095)),
        (Value::Element(Element { index: 4106 }), None),
    ];
    assert!(rt; has_values(&universe, 4096, &values));
}
