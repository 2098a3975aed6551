//! Faults of sets, and their firing, under a signature.
ghost use Rattle.std.specs.Prelude.{◌≡◌, length};
ghost use Rattle.asm_state.specs.Signature.{count_of};

use super::*;
use crate::signatures::signature_of_two;
use asm_state::signature::Signature;
use asm_state::state::State;
use asm_updates::fault::Fault;

/// A fault that a static can hold.
#[derive(Clone, Copy)]
enum PlainFault {
    Outside(usize),
    Clash(Entry),
}

fn fault(plain: PlainFault) -> Fault {
    match plain {
        PlainFault::Outside(function) => Fault::Outside { function },
        PlainFault::Clash((location, low, high)) => Fault::Clash {
            location,
            low: value(low),
            high: value(high),
        },
    }
}

/// Calls, and the fault of the set that they leave.
type Case = (&'static [Call], Option<PlainFault>);

const ONE_AT_TWO: Call = Call::Add(Entries::Proper(&[(2, ONE)]));

const TWO_AT_TWO: Entries = Entries::Proper(&[(2, TWO)]);

const AT_STRAY: Entries = Entries::Any(&[(4, ONE, ONE)]);

static CASES: [Case; 8] = [
    // An update outside the domain comes before a clash at a location that is less.
    (
        &[Call::Add(Entries::Any(&[(5, ONE, TWO), (4, ONE, ONE)]))],
        Some(PlainFault::Outside(0)),
    ),
    // The least location at which values clash.
    (
        &[Call::Add(Entries::Any(&[
            (5, FOUR, FIVE),
            (2, ONE, THREE),
            (6, ONE, ONE),
            (0, TWO, TWO),
        ]))],
        Some(PlainFault::Clash((2, ONE, THREE))),
    ),
    // Of proper locations, until a union gives one of them a second value, and again once a later
    // set has replaced it.
    (&[ONE_AT_TWO], None),
    (
        &[ONE_AT_TWO, Call::Union(TWO_AT_TWO)],
        Some(PlainFault::Clash((2, ONE, TWO))),
    ),
    (
        &[ONE_AT_TWO, Call::Union(TWO_AT_TWO), Call::Merge(TWO_AT_TWO)],
        None,
    ),
    // With a set that names a stray location.
    (
        &[ONE_AT_TWO, Call::Union(AT_STRAY)],
        Some(PlainFault::Outside(0)),
    ),
    (
        &[ONE_AT_TWO, Call::Merge(AT_STRAY)],
        Some(PlainFault::Outside(0)),
    ),
    (&[Call::Add(Entries::Any(&UPDATES))], None),
];

/// Whether the set that calls leave has this fault, or none.
fn tells(alloc: Global, signature: &Signature, case: &Case) -> Result<bool, AllocError> {
    let (calls, told) = case;
    let summary = left_by(alloc, signature.count(), calls)?;
    Ok(summary.first_fault(signature) == told.map(fault))
}

fn first_untold(alloc: Global) -> Result<Option<usize>, Fail> {
    let signature = signature_of_two(alloc)?;
    for (i, case) in CASES.iter().enumerate() {
        if !tells(alloc, &signature, case)? {
            return Ok(Some(i));
        }
    }
    Ok(None)
}

#[test]
fn faults_of_sets(rt: HostRuntime) -> Result<(), Fail> {
    assert_eq!(rt; first_untold(rt.alloc())?, None);
    Ok(())
}

const UPDATES: [Entry; 2] = [(3, ONE, ONE), (5, TWO, TWO)];

static FIRED: [Plain; 7] = [
    Plain::Undef,
    Plain::Undef,
    Plain::Undef,
    ONE,
    Plain::Undef,
    TWO,
    Plain::Undef,
];

static FIRED_AGAIN: [Plain; 7] = [
    Plain::Undef,
    Plain::Undef,
    Plain::Undef,
    FIVE,
    Plain::Undef,
    TWO,
    Plain::Undef,
];

/// A set that was cleared and has another update.
const AGAIN: [Call; 3] = [
    Call::Add(Entries::Any(&UPDATES)),
    Call::Clear,
    Call::Add(Entries::Any(&[(3, FIVE, FIVE)])),
];

/// Whether a set is fired into a new state, and then another into this one.
fn fires(alloc: Global, signature: &Signature, state: &State) -> Result<bool, AllocError>
    requires seven { count_of signature.now ≡ 7 }
    requires whole { length state.now ≡ count_of signature.now }
{
    let set = summary_of(alloc, 7, &UPDATES)?;
    let mut next = set.fire(alloc, signature, state)?;
    let is_new = has_contents(signature, &next, &FIRED) && has_contents(signature, state, &NOTHING);
    left_by(alloc, 7, &AGAIN)?.fire_into(&mut next);
    Ok(is_new && has_contents(signature, &next, &FIRED_AGAIN))
}

fn fires_into_two(alloc: Global) -> Result<bool, Fail> {
    let signature = signature_of_two(alloc)?;
    let state = State::initial(alloc, &signature)?;
    Ok(fires(alloc, &signature, &state)?)
}

#[test]
fn firing_makes_a_new_state(rt: HostRuntime) -> Result<(), Fail> {
    assert!(rt; fires_into_two(rt.alloc())?);
    Ok(())
}
