//! Values of terms in the initial state, by way of their codes.
use crate::beginning::{Beginning, main_of};
use crate::checked_text::checked_of_both;
use crate::plain::{FOUR, ONE, Plain, THREE, TWO, value};
use asm_check::Checked;
use asm_state::word::Word;
use asm_step::value_by_code;
use asm_syntax::rule::Rule;
use std::alloc::{AllocError, Global};
use std::test::Fail;

/// What is before a term.
const BEFORE: &str = "CoreASM T init M \
universe Idx = 0 .. 3 universe Near = -2 .. 2 universe One = 7 .. 7 universe Empty = 1 .. 0 \
enum Color = { red, green, blue } enum Two = { one, two } \
function static fixed initially 11 \
function static g : Idx initially { (0) -> 4, (2) -> 6 } \
function static grid : Two * Near initially { (one, -2) -> 3, (two, 2) -> blue } \
function static wide : Color * Two * Idx initially { (red, one, 0) -> 1, (blue, two, 3) -> 2 } \
function static widest : Two * Two * Two * Two initially { (one, two, one, two) -> 12 } \
function controlled x \
function controlled n initially 5 \
function controlled c : Idx initially { (0) -> 1, (1) -> 3, (3) -> true } \
function controlled f : Two * Near initially { (one, -2) -> 8, (two, 0) -> 9 } \
function controlled k : Color * Two * Idx initially { (red, one, 0) -> 13, (blue, two, 3) -> 14 } \
function controlled m : Two * Two * Two * Two initially { (one, one, two, two) -> 22 } \
function controlled only : One initially 21 function controlled none : Empty initially 1 \
derived seven = 7 derived twice(p) = p * 2 derived sum(p, q) = p + q \
derived third(p, q, r) = r - p + q \
derived five(p, q, r, s, t) = p + q * r - s mod t derived nested(p) = twice(sum(p, seven)) \
derived around(p) = (exists i in Idx with c(i) = p) \
derived deep(p, q) = third(nested(p), twice(q), g(p)) or around(q) \
derived hides(x, c) = (forall q in Near holds x + q > c) \
derived many(p0, p1, p2, p3, p4, p5, p6, p7, p8, p9, p10, p11, p12, p13, p14, p15, p16, p17, \
p18, p19, p20, p21, p22, p23, p24, p25, p26, p27, p28, p29, p30, p31, p32, p33, p34, p35, p36, \
p37, p38, p39, p40, p41, p42, p43, p44, p45, p46, p47, p48, p49, p50, p51, p52, p53, p54, p55, \
p56, p57, p58, p59, p60, p61, p62, p63, p64, p65) = \
p0 * 1000 + p1 * 100 + p2 * 10 + p65 \
rule M = x := ";

/// A term with its value.
type Valued = (&'static str, Plain);

static VALUED: [Valued; 82] = [
    ("x", Plain::Undef),
    ("blue", Plain::Element(2)),
    ("1 + 2 * 3 - 4", THREE),
    ("17 mod 5 + 17 div 5", Plain::Number(5)),
    ("(n + 3) mod 4", Plain::Number(0)),
    ("(n - 7) mod 4", TWO),
    ("-7 mod 2", ONE),
    ("x + 1", Plain::Undef),
    ("undef = 1 div 0", Plain::True),
    ("undef = n mod 0", Plain::True),
    ("undef = 100000000000000000 + n", Plain::True),
    ("n > 4 and n < 6 and not false", Plain::True),
    ("n < 4 or n = 5", Plain::True),
    ("not (n = 5 and c(0) = 2)", Plain::True),
    ("fixed - 10", ONE),
    ("g(2)", Plain::Number(6)),
    ("g(1)", Plain::Undef),
    ("c(1) + c(0)", FOUR),
    ("c(7)", Plain::Undef),
    ("c(red)", Plain::Undef),
    ("f(one, -2)", Plain::Number(8)),
    ("f(one, 3)", Plain::Undef),
    ("grid(two, 2)", Plain::Element(2)),
    ("k(blue, two, 3)", Plain::Number(14)),
    ("wide(blue, two, 3)", TWO),
    ("m(one, one, two, two)", Plain::Number(22)),
    ("widest(one, two, one, two)", Plain::Number(12)),
    ("only(7)", Plain::Number(21)),
    ("none(1)", Plain::Undef),
    ("nested(1)", Plain::Number(16)),
    ("third(1, 2, 3)", FOUR),
    ("five(1, 2, 3, 9, 4)", Plain::Number(6)),
    ("around(3)", Plain::True),
    ("hides(n, 2)", Plain::True),
    (
        "(exists i in Idx with (forall j in Idx holds i >= j))",
        Plain::True,
    ),
    ("(forall i in Empty holds false)", Plain::True),
    ("not false", Plain::True),
    ("-n + 6", ONE),
    ("- (n - 5)", Plain::Number(0)),
    ("-100000000000000000 - 1", Plain::Undef),
    ("100000000000000000 * 100000000000000000", Plain::Undef),
    (
        "-100000000000000000 div -1 = 100000000000000000",
        Plain::True,
    ),
    ("-7 div 2 + 5", ONE),
    ("7 div -2 + 5", TWO),
    ("7 mod -2", ONE),
    ("-7 mod -2", ONE),
    ("(n - 100000000000000000) mod 3", ONE),
    ("(n + red) mod 3", Plain::Undef),
    ("(n + 1) mod 0", Plain::Undef),
    ("(n + 1) mod -3", Plain::Number(0)),
    ("n * 2 div 3 mod 4 * 5", Plain::Number(15)),
    ("1 - n - 2 - n + 12", ONE),
    ("(n = 5) = true", Plain::True),
    ("red = red and red != green", Plain::True),
    ("red < green", Plain::Undef),
    ("n < red", Plain::Undef),
    ("true < false", Plain::Undef),
    ("undef <= undef", Plain::Undef),
    ("undef != 1", Plain::True),
    ("n >= 5 and n <= 5", Plain::True),
    ("1 and true", Plain::Undef),
    ("false and 1", Plain::Undef),
    ("true or undef", Plain::Undef),
    ("undef or true", Plain::Undef),
    ("undef and false", Plain::Undef),
    ("not 1", Plain::Undef),
    ("not undef", Plain::Undef),
    ("-true", Plain::Undef),
    ("true and (true and (false or n = 5)) and c(3)", Plain::True),
    ("seven + seven * twice(seven)", Plain::Number(105)),
    ("sum(twice(1), sum(2, x))", Plain::Undef),
    ("deep(2, 3)", Plain::Undef),
    ("not hides(1, n)", Plain::True),
    ("g(g(0) - 4)", FOUR),
    ("c(c(0))", THREE),
    ("f(two, c(0) - 1)", Plain::Number(9)),
    ("f(-2, one)", Plain::Undef),
    ("grid(one, x)", Plain::Undef),
    (
        "(exists i in Color with (exists j in Two with k(i, j, 3) = 14))",
        Plain::True,
    ),
    (
        "(forall i in Near holds (exists j in Near with i + j = 0))",
        Plain::True,
    ),
    (
        "(exists n in Idx with n = 3 and (forall c in One holds c = 7))",
        Plain::True,
    ),
    (
        "many(1, 2, 3, 0, 0, 0, 0, 0, 0, 0, 0, 0, 0, 0, 0, 0, 0, 0, 0, 0, 0, 0, 0, 0, 0, 0, 0, \
0, 0, 0, 0, 0, 0, 0, 0, 0, 0, 0, 0, 0, 0, 0, 0, 0, 0, 0, 0, 0, 0, 0, 0, 0, 0, 0, 0, 0, 0, 0, \
0, 0, 0, 0, 0, 0, 0, 4)",
        Plain::Number(1234),
    ),
];

/// The value that the main rule assigns, if it is an assignment.
fn assigned(alloc: Global, checked: &Checked) -> Result<Option<Word>, AllocError> {
    let Rule::Assign { value: term, .. } = main_of(checked) else {
        return Ok(None);
    };
    let beginning = Beginning::of(alloc, checked)?;
    let found = value_by_code(alloc, checked, &beginning.view(), term)?;
    Ok(Some(found))
}

/// The value of a term, if the main rule assigns it.
fn value_of(alloc: Global, term: &str) -> Result<Option<Word>, Fail> {
    let checked = checked_of_both(alloc, BEFORE, term)?;
    let found = assigned(alloc, &checked);
    drop(checked);
    Ok(found?)
}

/// The first term that has another value.
fn first_other(alloc: Global, rows: &'static [Valued]) -> Result<Option<&'static str>, Fail> {
    for (term, expected) in rows {
        if value_of(alloc, term)? != Some(value(*expected)) {
            return Ok(Some(*term));
        }
    }
    Ok(None)
}

#[test]
fn terms_have_their_values(rt: HostRuntime) -> Result<(), Fail> {
    assert_eq!(rt; first_other(rt.alloc(), &VALUED)?, None);
    Ok(())
}
