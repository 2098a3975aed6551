//! Rules and what they yield in the initial state, and how often a `choose` asks for its number.
ghost use Rattle.asm_reader.specs.ScriptLines.{no_lines};

use crate::checked_text::{Unchecked, checked_of_both};
use crate::plain::{Entry, FIVE, ONE, Plain, TWO, has_entries};
use asm_check::Checked;
use asm_eval::Outcome;
use asm_reader::Picks;
use std::alloc::Global;
use std::sync::atomic::{AtomicU64, Ordering};

/// Returns 0 as a script without lines does, and counts how often it is asked.
#[derive(Drop)]
pub struct Counting {
    asked: AtomicU64,
}

impl Counting {
    pub fn new() -> Counting {
        Counting {
            asked: AtomicU64::new(0),
        }
    }

    /// How often it was asked.
    pub fn times(&self) -> u64 {
        self.asked.load(Ordering::SeqCst)
    }
}

impl Picks for Counting {
    ghost script = { λ _. no_lines };

    fn pick(&self, _step: u64, _path: &[u64]) -> u64 {
        self.asked.fetch_add(1, Ordering::SeqCst);
        0
    }
}

/// What is before the main rule's body.
const BEFORE: &str = "CoreASM T init M \
enum Color = { red, green, blue } enum Two = { one, two } universe Idx = 0 .. 2 universe Empty = 1 .. 0 \
function controlled c : Idx function controlled x \
rule Pick(n) = choose i in Idx do x := i endchoose \
rule Count(n) = seq result := n choose i in Idx with i > 0 do result := result + i endchoose endseq rule M = ";

/// The specification with a main rule with this body.
pub fn specification(alloc: Global, body: &str) -> Result<Checked, Unchecked> {
    checked_of_both(alloc, BEFORE, body)
}

/// A body, and how often it asks.
pub type Asking = (&'static str, u64);

pub static ASKING: [Asking; 25] = [
    ("skip", 0),
    ("choose k in Color do skip endchoose", 1),
    ("choose k in Color with k != red do skip endchoose", 1),
    (
        "choose k in Color with k = blue do x := k ifnone skip endchoose",
        1,
    ),
    ("choose k in Color with k = 1 do skip endchoose", 0),
    (
        "choose k in Color with undef do skip ifnone x := 1 endchoose",
        0,
    ),
    ("choose i in Empty do skip endchoose", 0),
    (
        "choose i in Empty do skip ifnone choose i in Idx do skip endchoose endchoose",
        1,
    ),
    (
        "choose i in Idx do skip ifnone choose i in Idx do skip endchoose endchoose",
        1,
    ),
    (
        "choose i in Idx do choose j in Idx with j > i do skip endchoose endchoose",
        2,
    ),
    (
        "choose i in Idx do choose j in Idx with j < i do skip endchoose endchoose",
        1,
    ),
    (
        "choose i in Idx with (exists k in Color with k = blue) do skip endchoose",
        1,
    ),
    (
        "par choose i in Idx do skip endchoose choose i in Idx do skip endchoose endpar",
        2,
    ),
    ("if false then choose i in Idx do skip endchoose endif", 0),
    (
        "if false then skip else choose i in Idx do skip endchoose endif",
        1,
    ),
    (
        "let v = 1 in choose i in Idx with i > v do skip endchoose endlet",
        1,
    ),
    (
        "forall i in Idx do choose j in Idx with j > i do skip endchoose endforall",
        2,
    ),
    (
        "forall i in Idx with i = 5 do choose j in Idx do skip endchoose endforall",
        0,
    ),
    (
        "seq choose i in Idx do x := i endchoose choose i in Idx with i > x do x := i endchoose endseq",
        2,
    ),
    (
        "seq par x := 1 x := 2 endpar choose i in Idx do skip endchoose endseq",
        0,
    ),
    (
        "seq x := 0 iterate choose i in Idx with i > x do x := i endchoose enditerate endseq",
        2,
    ),
    (
        "seq x := 0 while x < 2 do choose i in Idx with i > x do x := i endchoose endwhile endseq",
        2,
    ),
    ("c(0) <- Count(x)", 1),
    ("Pick(x)", 1),
    ("seq Pick(x) Pick(x + 1) endseq", 2),
];

/// A rule of each kind, and instances under two of them.
const ALL: &str = "par \
choose k in Color with k != red do x := k endchoose \
forall i in Idx with i < 2 do let v = i + 5 in c(i) := v endlet endforall \
choose k in Color with false do skip ifnone forall i in Idx do if i = 2 then c(i) := true endif endforall endchoose \
skip \
endpar";

/// Each location twice, and the stray one of `c`.
const CLASHES: &str = "forall i in Idx do par x := i c(i + 1) := i endpar endforall";

/// A sequence that yields one set.
const SEQUENCE: &str = "seq x := 1 forall i in Idx with i <= x do c(i) := x + i endforall \
iterate if x < 5 then x := x + 2 endif enditerate endseq";

/// Results into two locations, and a `while`.
const ANSWERS: &str =
    "seq x <- Count(3) c(1) <- Count(x - 3) while x < 5 do x := x + 1 endwhile endseq";

/// A body, how often it asks, the number of its instances, and its set.
pub type Yielded = (&'static str, u64, u64, &'static [Entry]);

pub static YIELDED: [Yielded; 4] = [
    (
        ALL,
        1,
        5,
        // The stray location of `c` is between.
        &[
            (0, FIVE, FIVE),
            (1, Plain::Number(6), Plain::Number(6)),
            (2, Plain::True, Plain::True),
            (4, Plain::Element(1), Plain::Element(1)),
        ],
    ),
    (
        CLASHES,
        0,
        3,
        &[
            (1, Plain::Number(0), Plain::Number(0)),
            (2, ONE, ONE),
            (3, TWO, TWO),
            (4, Plain::Number(0), TWO),
        ],
    ),
    (
        SEQUENCE,
        0,
        2,
        &[(0, ONE, ONE), (1, TWO, TWO), (4, FIVE, FIVE)],
    ),
    (ANSWERS, 2, 0, &[(1, TWO, TWO), (4, FIVE, FIVE)]),
];

/// Whether an outcome is a set, and has these instances and entries.
pub fn is_set(outcome: Outcome, instances: u64, entries: &[Entry]) -> bool {
    match outcome {
        Outcome::Set {
            set,
            instances: found,
        } => found == instances && has_entries(&set, entries),
        Outcome::Exhausted(_) => false,
    }
}

/// Whether an outcome is exhausted, at this path.
pub fn is_exhausted(outcome: Outcome, numbers: &[u64]) -> bool {
    match outcome {
        Outcome::Set { .. } => false,
        Outcome::Exhausted(path) => {
            path.as_slice() == numbers && path.into_vec().as_slice() == numbers
        }
    }
}
