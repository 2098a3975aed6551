//! Laws of values, operations, locations, states and update sets.
ghost use Rattle.std.specs.Prelude.{◌≡◌};
ghost use Rattle.std.specs.Ordering.{nat_cmp};
ghost use Rattle.asm_state.specs.declared.value.Value.{Value};
ghost use Rattle.asm_state.specs.code.Codes.{code_of};
ghost use Rattle.asm_state.specs.Value.{value_cmp};
ghost use Rattle.asm_state.specs.OperationLaws.{DivisionLaw};
ghost use Rattle.asm_state.specs.ValueLaws.{ValueLaws};
ghost use Rattle.asm_state.specs.BoundLaws.{BoundLaws};
ghost use Rattle.asm_state.specs.DomainLaws.{UniverseLaws, DomainLaws};
ghost use Rattle.asm_state.specs.code.ConsecutiveLaws.{ConsecutiveLaws};
ghost use Rattle.asm_state.specs.code.SignatureLaws.{NumberLaws, StateLaws};
ghost use Rattle.asm_state.specs.code.FirstLocationLaws.{FirstLocationLaws};
ghost use Rattle.asm_state.specs.UpdateLaws.{MemberLaws, TestLaws, SummaryLaws, FireLaws, UnionLaws, MergeLaws, FaultLaws};

/// Codes rise with values.
pub fn codes_rise()
    ensures { (a b : Value) → value_cmp a b ≡ nat_cmp (code_of a) (code_of b) }
{}

/// No two values have one code.
pub fn codes_apart()
    ensures { (a b : Value) → code_of a ≡ code_of b → a ≡ b }
{}

/// The tests of equality test just that, and a number and an element are the values that they give.
pub fn value_laws()
    ensures { ValueLaws }
{}

/// The bounds of values and of signatures.
pub fn bound_laws()
    ensures { BoundLaws }
{}

/// A number is its quotient by another, taken that many times, and its remainder, which is never
/// negative.
pub fn division_law()
    ensures { DivisionLaw }
{}

/// What is in the results of the operations on update sets.
pub fn member_laws()
    ensures { MemberLaws }
{}

/// The tests of emptiness and of consistency test just that.
pub fn test_laws()
    ensures { TestLaws }
{}

/// Each set has just one summary, and that of a union or a merge is made from theirs.
pub fn summary_laws()
    ensures { SummaryLaws }
{}

/// Firing a consistent set changes the locations that it names and no other.
pub fn fire_laws()
    ensures { FireLaws }
{}

/// The union is associative and commutative, and each set is its own union.
pub fn union_laws()
    ensures { UnionLaws }
{}

/// The turbo merge is associative, and to fire it is to fire one set and then the other.
pub fn merge_laws()
    ensures { MergeLaws }
{}

/// A set is consistent if it has no faulty location, and has one first fault at most.
pub fn fault_laws()
    ensures { FaultLaws }
{}

/// A value of a universe and its position are one to one.
pub fn universe_laws()
    ensures { UniverseLaws }
{}

/// The argument lists of a domain are those that are in it, in order.
pub fn domain_laws()
    ensures { DomainLaws }
{}

/// The position of a value among values whose codes follow each other is that of its code.
pub fn consecutive_laws()
    ensures { ConsecutiveLaws }
{}

/// Locations and the numbers below their count are one to one, in order.
pub fn number_laws()
    ensures { NumberLaws }
{}

/// After the first location of a function come the others, at the positions of their arguments, and
/// then the stray one.
pub fn first_location_laws()
    ensures { FirstLocationLaws }
{}

/// What the contents of locations say of a state.
pub fn state_laws()
    ensures { StateLaws }
{}
