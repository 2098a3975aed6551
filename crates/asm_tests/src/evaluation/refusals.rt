//! Codes for which a call may find no memory. The tests say more if it does:
//! `rt try --test --fail-alloc N`.
use super::outcome_at;
use crate::beginning::Beginning;
use crate::checked_text::{Unchecked, checked_of};
use crate::plain::{Entry, FIVE, TWO};
use crate::rules::{Counting, is_set};
use asm_check::Checked;
use asm_eval::{Choices, Outcome};
use asm_resolve::main_rule::resolve_main;
use std::alloc::{AllocError, Global};
use std::test::Fail;

/// Every kind of rule, and derived functions that share bodies. Its locations are those of `c`,
/// from 0 to 3, and that of `x`.
const TEXT: &[u8] = b"CoreASM T init M \
enum Color = { red, green, blue } universe Idx = 0 .. 2 \
function controlled c : Idx function controlled x initially 0 \
derived inc(p) = p + 1 derived sum(p, q) = inc(p) + q derived far(p, q, r) = sum(inc(p), q * r) \
rule Count(n) = seq result := n while result < 5 do result := inc(result) endwhile endseq \
rule Put(n, k) = par c(n) := k c(2) := far(0, 1, 3) endpar \
rule M = seq x <- Count(sum(0, 1)) par Put(0, x) choose k in Color with k = blue do let v = 1 in \
forall i in Idx with i = v do c(i) := inc(v) endforall endlet ifnone skip endchoose endpar \
iterate if x < 0 then x := 1 endif enditerate endseq";

/// The set of that.
const SET: [Entry; 4] = [
    (0, FIVE, FIVE),
    (1, TWO, TWO),
    (2, FIVE, FIVE),
    (4, FIVE, FIVE),
];

/// The specification, unless memory runs out.
fn specification(alloc: Global) -> Result<Checked, AllocError> {
    match checked_of(alloc, TEXT) {
        Ok(checked) => Ok(checked),
        Err(Unchecked) => Err(AllocError),
    }
}

/// Whether a code is made, or there is no memory for it.
fn resolves_or_is_refused(alloc: Global) -> Result<bool, AllocError> {
    let checked = specification(alloc)?;
    drop(resolve_main(alloc, &checked));
    drop(checked);
    Ok(true)
}

#[test]
fn a_pass_makes_a_code(rt: HostRuntime) -> Result<(), Fail> {
    assert!(rt; resolves_or_is_refused(rt.alloc())?);
    Ok(())
}

/// What the main rule yields by way of its code in the initial state.
fn outcome_of(alloc: Global, checked: &Checked) -> Result<Outcome, AllocError> {
    let beginning = Beginning::of(alloc, checked)?;
    let view = beginning.view();
    let picks = Counting::new();
    let choices = Choices {
        script: &picks,
        step: 1,
    };
    outcome_at(alloc, checked, &view, &choices, &[], 10)
}

/// Whether it is that set, or there is no memory for it.
fn is_the_set_or_refused(alloc: Global) -> Result<bool, AllocError> {
    let checked = specification(alloc)?;
    let outcome = outcome_of(alloc, &checked);
    drop(checked);
    match outcome {
        Ok(outcome) => Ok(is_set(outcome, 1, &SET)),
        Err(AllocError) => Ok(true),
    }
}

#[test]
fn a_refused_outcome_is_no_other(rt: HostRuntime) -> Result<(), Fail> {
    assert!(rt; is_the_set_or_refused(rt.alloc())?);
    Ok(())
}
