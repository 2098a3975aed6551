//! A summary of an update set.
//!
//! A union and a turbo merge take over the mark of the other set (`may_fault`), and only `clear`
//! takes it away, so a set can be marked without a fault. `Stands` says that without the mark no
//! location is faulty.
ghost use Rattle.std.specs.Prelude.{◌≡◌, ◌<◌, ◌≤◌, ◌==◌, ◌↔◌, ◌⊎◌, ℕ, [], Some, None, false, IsTrue, OnOk, OnErr, IfOk, IfNone, IfSome, if◌then◌else◌, length, slice_get, slice_index_or};
ghost use Rattle.std.specs.List.Sorted.{IsStrictlyIncreasing};
ghost use Rattle.std.specs.Map.{keys_of};
ghost use Rattle.std.specs.Option.{option_map};
ghost use Rattle.asm_state.specs.code.Codes.{code_of};
ghost use Rattle.asm_state.specs.code.Contents.{IsStateOf};
ghost use Rattle.asm_state.specs.Signature.{Shape, IsSound, count_of, location_at, state_of};
ghost use Rattle.asm_state.specs.Updates.{UpdateSet, IsConsistent, IsFirstFault, none, one, together, merge, widen, later_range, overwritten, fire, is_proper};
ghost use Rattle.asm_state.specs.declared.value.Value.TheVariants.{Undef};
ghost use Rattle.asm_updates.specs.code.SummaryRanges.{summary_range, first_range, range, AreRanges, Changes};
ghost use Rattle.asm_updates.specs.code.Faults.{fault_of};
ghost use Rattle.asm_updates.specs.code.IndexedRanges.{HasOneValue};
ghost use Rattle.asm_updates.specs.code.Stands.{Stands, MarksFaults};

use crate::bounds::is_either;
use crate::fault::{Fault, fault_at};
use crate::ranges::Ranges;
use asm_state::signature::Signature;
use asm_state::state::State;
use asm_state::word::Word;
use std::alloc::{AllocError, Global};
use std::marker::Model;

/// The least and the greatest value at each location that a set of updates names. Locations go by
/// their numbers, which are below `count`.
#[derive(Debug, Drop)]
pub struct Summary {
    count: usize,
    ranges: Ranges,
    /// Whether a location may be faulty. If it is false, each has one value and is proper.
    may_fault: bool,
}

impl Model for Summary {
    ghost use Rattle.asm_updates.specs.code.SummaryRanges.{SummaryRanges, AreRanges, marked};

    ghost Value = { SummaryRanges };

    ghost view = { λ s. record { count = s.count; ranges = s.ranges.entries; may_fault = marked s.may_fault s.ranges.entries } };

    ghost invariant = { λ s. AreRanges s.count s.ranges.entries };
}

impl Summary {
    /// The summary of the empty set.
    pub fn new(alloc: Global, count: usize) -> Summary
        ensures count { result.count ≡ count }
        ensures entries { (n : ℕ) → summary_range result n ≡ None }
        ensures empty { (shape : Shape) → IsSound shape → count ≡ count_of shape → Stands shape result none }
        ensures ranges { result.ranges ≡ [] }
        ensures mark { result.may_fault ≡ false }
    {
        Summary {
            count,
            ranges: Ranges::new(alloc),
            may_fault: false,
        }
    }

    /// How many locations there are.
    pub fn count(&self) -> usize
        ensures { result ≡ self.now.count }
    {
        self.count
    }

    /// How many locations the set names.
    pub fn len(&self) -> usize
        ensures len { result ≡ length self.now.ranges }
        ensures mark { result ≡ 0 → self.now.may_fault ≡ false }
        ensures sound { AreRanges self.now.count self.now.ranges }
    {
        self.ranges.len()
    }

    /// Whether the set is empty.
    pub fn is_empty(&self) -> bool
        ensures entries { IsTrue result ↔ ((n : ℕ) → summary_range self.now n ≡ None) }
        ensures empty { (shape : Shape) (U : UpdateSet) → Stands shape self.now U → IsTrue result ↔ (U ≡ none) }
    {
        self.len() == 0
    }

    /// Whether the set has memory for a location. If it has none, the set is empty, and takes
    /// memory when it first names one.
    pub fn has_memory(&self) -> bool
        ensures { IsTrue result ⊎ (self.now.ranges ≡ []) }
    {
        self.ranges.has_memory()
    }

    /// The least and the greatest value at a location, if the set names it.
    pub fn get(&self, n: usize) -> Option<(Word, Word)>
        ensures { option_map range result ≡ summary_range self.now n }
    {
        self.ranges.get(n)
    }

    /// The named location at a position, with its least and its greatest value. After `sort`
    /// locations rise with positions.
    pub fn entry_at(&self, i: usize) -> (usize, Word, Word)
        requires { i < length self.now.ranges }
        ensures position { slice_get self.now.ranges i ≡ Some (result.0, (result.1, result.2)) }
        ensures in_range { result.0 < self.now.count }
        ensures entry { summary_range self.now result.0 ≡ Some (range (result.1, result.2)) }
    {
        let (n, (low, high)) = self.ranges.entry_at(i);
        (n, low, high)
    }

    /// Brings the entries into the rising order of their locations.
    pub fn sort(&mut self) -> Result<(), AllocError>
        ensures count { self.new.count ≡ self.old.count }
        ensures len { length self.new.ranges ≡ length self.old.ranges }
        ensures mark { self.new.may_fault ≡ self.old.may_fault }
        ensures entries { (n : ℕ) → summary_range self.new n ≡ summary_range self.old n }
        ensures rising { OnOk result (IsStrictlyIncreasing (keys_of self.new.ranges)) }
        ensures sound { AreRanges self.new.count self.new.ranges }
        ensures err { OnErr result (self.new ≡ self.old) }
    {
        self.ranges.sort(self.count)
    }

    /// Adds a location with its bounds, as the union with the summary of one location does.
    /// `first_fault` looks at the locations then, since the location may be a stray one.
    pub fn add(&mut self, n: usize, low: Word, high: Word) -> Result<(), AllocError>
        requires in_range { n < self.old.count }
        requires ordered { code_of low ≤ code_of high }
        ensures changes { Changes self.old self.new
            (λ k. if k == n then widen (summary_range self.old n) (Some (range (low, high))) else summary_range self.old k) result }
        ensures bounds { OnOk result ((shape : Shape) (U : UpdateSet) → Stands shape self.old U → let l = location_at shape n in
            Stands shape self.new (together U (together (one l low) (one l high)))) }
        ensures value { OnOk result ((shape : Shape) (U : UpdateSet) → low ≡ high → Stands shape self.old U →
            Stands shape self.new (together U (one (location_at shape n) low))) }
        ensures marks { OnOk result ((shape : Shape) → MarksFaults shape self.new) }
    {
        self.ranges.reserve(1)?;
        self.ranges.widen(n, (low, high));
        self.may_fault = true;
        Ok(())
    }

    /// Adds a location that is proper with one value. `first_fault` looks at the locations only if
    /// this is a second value.
    pub fn add_proper(&mut self, n: usize, value: Word) -> Result<(), AllocError>
        requires { n < self.old.count }
        ensures changes { Changes self.old self.new
            (λ k. if k == n then widen (summary_range self.old n) (Some (range (value, value))) else summary_range self.old k) result }
        ensures value { OnOk result ((shape : Shape) (U : UpdateSet) → IsTrue (is_proper (location_at shape n)) → Stands shape self.old U →
            Stands shape self.new (together U (one (location_at shape n) value))) }
    {
        self.ranges.reserve(1)?;
        let has_two = self.ranges.widen_by(n, value);
        let mark = is_either(self.may_fault, has_two);
        self.may_fault = mark;
        Ok(())
    }

    /// Adds what another set names.
    pub fn union(&mut self, other: &Summary) -> Result<(), AllocError>
        requires { other.now.count ≡ self.old.count }
        ensures changes { Changes self.old self.new (λ k. widen (summary_range self.old k) (summary_range other.now k)) result }
        ensures union { OnOk result ((shape : Shape) (U V : UpdateSet) → Stands shape self.old U → Stands shape other.now V →
            Stands shape self.new (together U V)) }
    {
        let marked = self.is_marked_with(other);
        self.ranges.reserve(other.len())?;
        let has_two = widen_all(&mut self.ranges, other);
        let mark = is_either(marked, has_two);
        self.may_fault = mark;
        Ok(())
    }

    /// Goes on with a later set: the turbo merge.
    pub fn merge_with(&mut self, later: &Summary) -> Result<(), AllocError>
        requires { later.now.count ≡ self.old.count }
        ensures changes { Changes self.old self.new (λ k. later_range (summary_range self.old k) (summary_range later.now k)) result }
        ensures merge { OnOk result ((shape : Shape) (U V : UpdateSet) → Stands shape self.old U → Stands shape later.now V →
            Stands shape self.new (merge U V)) }
    {
        let marked = self.is_marked_with(later);
        self.ranges.reserve(later.len())?;
        replace_all(&mut self.ranges, later);
        self.may_fault = marked;
        Ok(())
    }

    /// Goes on with a later set that has one update of a proper location alone.
    pub fn merge_proper(&mut self, n: usize, value: Word) -> Result<(), AllocError>
        requires { n < self.old.count }
        ensures changes { Changes self.old self.new
            (λ k. if k == n then Some (range (value, value)) else summary_range self.old k) result }
        ensures merge { OnOk result ((shape : Shape) (U : UpdateSet) → IsTrue (is_proper (location_at shape n)) → Stands shape self.old U →
            Stands shape self.new (merge U (one (location_at shape n) value))) }
    {
        self.ranges.reserve(1)?;
        self.ranges.insert(n, (value, value));
        Ok(())
    }

    /// Whether one of two sets may have a fault.
    fn is_marked_with(&self, other: &Summary) -> bool
        ensures { result ≡ false → (self.now.may_fault ≡ false) × (other.now.may_fault ≡ false) }
    {
        self.may_fault || other.may_fault
    }

    /// Goes back to the empty set, and keeps its memory for the next one.
    pub fn clear(&mut self)
        ensures count { self.new.count ≡ self.old.count }
        ensures entries { (n : ℕ) → summary_range self.new n ≡ None }
        ensures empty { (shape : Shape) → IsSound shape → self.old.count ≡ count_of shape → Stands shape self.new none }
        ensures ranges { self.new.ranges ≡ [] }
        ensures mark { self.new.may_fault ≡ false }
    {
        self.ranges.clear();
        self.may_fault = false;
    }

    /// The fault at the least faulty location. It looks at the locations only if one may be faulty.
    pub fn first_fault(&self, signature: &Signature) -> Option<Fault>
        requires { self.now.count ≡ count_of signature.now }
        ensures consistent { IfNone result ((U : UpdateSet) → Stands signature.now self.now U → IsConsistent U) }
        ensures first { IfSome result (λ fault. (U : UpdateSet) → Stands signature.now self.now U →
            IsFirstFault U (fault_of signature.now fault)) }
    {
        if self.may_fault {
            self.least_fault(signature)
        } else {
            None
        }
    }

    /// The fault at the least faulty location, found by looking at each.
    fn least_fault(&self, signature: &Signature) -> Option<Fault>
        requires { self.now.count ≡ count_of signature.now }
        ensures consistent { IfNone result ((U : UpdateSet) → Stands signature.now self.now U → IsConsistent U) }
        ensures first { IfSome result (λ fault. (U : UpdateSet) → Stands signature.now self.now U →
            IsFirstFault U (fault_of signature.now fault)) }
    {
        let mut first = None;
        let mut end = self.count;
        for i in 0..self.len() {
            let (n, low, high) = self.entry_at(i);
            if n < end
                && let Some(fault) = fault_at(signature, n, low, high)
            {
                first = Some(fault);
                end = n;
            }
        }
        first
    }

    /// Gives each named location its value in the state.
    pub fn fire_into(&self, state: &mut State)
        requires { length state.old ≡ self.now.count }
        ensures len { length state.new ≡ length state.old }
        ensures contents { (n : ℕ) → slice_index_or state.new n Undef
            ≡ overwritten (summary_range self.now n) (slice_index_or state.old n Undef) }
        ensures fired { (shape : Shape) (U : UpdateSet) → Stands shape self.now U → IsConsistent U →
            state_of shape state.new ≡ fire (state_of shape state.old) U }
        ensures state { (shape : Shape) (U : UpdateSet) → Stands shape self.now U → IsConsistent U → IsStateOf shape state.old →
            IsStateOf shape state.new }
    {
        for i in 0..self.len() {
            let (n, value, _) = self.entry_at(i);
            state.set(n, value);
        }
    }

    /// The state that comes of a state when each named location gets its value.
    pub fn fire(
        &self,
        alloc: Global,
        signature: &Signature,
        state: &State,
    ) -> Result<State, AllocError>
        requires count { self.now.count ≡ count_of signature.now }
        requires whole { length state.now ≡ count_of signature.now }
        ensures whole { IfOk result (λ next. length next ≡ count_of signature.now) }
        ensures contents { IfOk result (λ next. (n : ℕ) → slice_index_or next n Undef
            ≡ overwritten (summary_range self.now n) (slice_index_or state.now n Undef)) }
        ensures fired { IfOk result (λ next. (U : UpdateSet) → Stands signature.now self.now U → IsConsistent U →
            state_of signature.now next ≡ fire (state_of signature.now state.now) U) }
        ensures state { IfOk result (λ next. (U : UpdateSet) → Stands signature.now self.now U → IsConsistent U →
            IsStateOf signature.now state.now → IsStateOf signature.now next) }
    {
        let mut next = state.copy(alloc)?;
        self.fire_into(&mut next);
        Ok(next)
    }

    /// The same summary again.
    pub fn copy(&self, alloc: Global) -> Result<Summary, AllocError>
        ensures { IfOk result (λ s. s ≡ self.now) }
    {
        let ranges = self.ranges.copy(alloc)?;
        Ok(Summary {
            count: self.count,
            ranges,
            may_fault: self.may_fault,
        })
    }
}

/// Widens the bounds of each location by those that the others have, and returns whether one of
/// theirs has two values then. There is room for all of theirs.
fn widen_all(ranges: &mut Ranges, others: &Summary) -> bool
    requires room { length others.now.ranges ≤ ranges.old.spare }
    requires sound { AreRanges others.now.count ranges.old.entries }
    ensures sound { AreRanges others.now.count ranges.new.entries }
    ensures entries { (k : ℕ) → first_range ranges.new.entries k ≡ widen (first_range ranges.old.entries k) (summary_range others.now k) }
    ensures alike { result ≡ false → (k : ℕ) → HasOneValue (first_range ranges.old.entries k) → HasOneValue (first_range ranges.new.entries k) }
{
    let mut some_have_two = false;
    for i in 0..others.len() {
        let (n, low, high) = others.entry_at(i);
        let has_two = ranges.widen(n, (low, high));
        some_have_two = is_either(some_have_two, has_two);
    }
    some_have_two
}

/// Gives each location that the later ones have their bounds. There is room for all of theirs.
fn replace_all(ranges: &mut Ranges, later: &Summary)
    requires room { length later.now.ranges ≤ ranges.old.spare }
    requires sound { AreRanges later.now.count ranges.old.entries }
    ensures sound { AreRanges later.now.count ranges.new.entries }
    ensures entries { (k : ℕ) → first_range ranges.new.entries k ≡ later_range (first_range ranges.old.entries k) (summary_range later.now k) }
{
    for i in 0..later.len() {
        let (n, low, high) = later.entry_at(i);
        ranges.insert(n, (low, high));
    }
}
