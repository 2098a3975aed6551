//! The bounds of the values at each location that a set names.
//!
//! A set looks through its entries until it has more than 16. From then on it also keeps the
//! position of each location in the list (`Positions`), in pages of 64 locations. With positions a
//! look-up takes constant time. A position is believed only if the entry there is that of the
//! location, so `clear` needn't forget any. If a page is refused memory the set goes on without
//! positions, and looks through its entries.
//!
//! `sort` changes nothing if the locations rise already. With positions, and at least one entry for
//! eight locations, it looks each location up; otherwise it sorts the entries.
ghost use Rattle.std.specs.Prelude.{◌≡◌, ◌+◌, ◌<◌, ◌≤◌, ◌==◌, ◌⊎◌, ℕ, [], Some, None, true, false, IsTrue, IfOk, IfSome, IfNone, OnOk, OnErr, if◌then◌else◌, length, slice_get, slice_index_or, nat_eq};
ghost use Rattle.std.specs.List.{IsDistinct};
ghost use Rattle.std.specs.List.Sorted.{IsStrictlyIncreasing};
ghost use Rattle.std.specs.Map.{keys_of};
ghost use Rattle.std.specs.Option.{option_map};
ghost use Rattle.asm_state.specs.code.Codes.{code_of};
ghost use Rattle.asm_state.specs.Updates.{widen};
ghost use Rattle.asm_updates.specs.code.SummaryRanges.{first_range, range, AreRanges};
ghost use Rattle.asm_updates.specs.code.IndexedRanges.{put, HasOneValue, IsAt, HavePositions};
ghost use Rattle.asm_updates.specs.code.Positions.{position_of};

use crate::bounds::{differ, widened};
use crate::positions::Positions;
use asm_state::word::Word;
use std::alloc::{AllocError, Global};
use std::marker::Model;

/// Up to this many entries are looked through one after the other.
const MAX_SCANNED: usize = 16;

/// If one of this many locations has an entry, looking all of them up is cheaper than sorting the
/// entries.
const MAX_LOCATIONS_PER_ENTRY: usize = 8;

/// How many pages of positions are kept for each entry that was there, and how many more.
const MAX_PAGES_PER_ENTRY: usize = 2;

const MAX_MORE_PAGES: usize = 16;

/// Locations, each once, with the least and the greatest value there, in the order in which they
/// came.
#[derive(Debug, Drop)]
pub(crate) struct Ranges {
    entries: Vec<(usize, (Word, Word))>,
    /// Where each location is in the entries.
    positions: Positions,
    /// Whether the positions are those of all entries. They aren't if there are few entries, or
    /// memory was refused.
    placed: bool,
}

impl Model for Ranges {
    ghost use Rattle.std.specs.Prelude.{◌-◌, vec_len, vec_capacity};
    ghost use Rattle.asm_updates.specs.code.IndexedRanges.{IndexedRanges, AreIndexed};
    ghost use Rattle.asm_updates.specs.code.Positions.{position_of};

    ghost Value = { IndexedRanges };

    ghost view = { λ r. record { entries = r.entries.items; spare = vec_capacity r.entries - vec_len r.entries } };

    ghost invariant = { λ r. AreIndexed r.entries.items r.placed (position_of r.positions) };
}

impl Ranges {
    pub fn new(alloc: Global) -> Ranges
        ensures { result.entries ≡ [] }
    {
        Ranges {
            entries: Vec::new(alloc),
            positions: Positions::new(alloc),
            placed: false,
        }
    }

    pub fn len(&self) -> usize
        ensures { result ≡ length self.now.entries }
    {
        self.entries.len()
    }

    /// Whether there is memory for an entry. If there is none, there are no entries.
    pub fn has_memory(&self) -> bool
        ensures { IsTrue result ⊎ (self.now.entries ≡ []) }
    {
        self.entries.capacity() > 0
    }

    /// The bounds at a location, if it has any.
    #[inline(always)]
    pub fn get(&self, n: usize) -> Option<(Word, Word)>
        ensures { option_map range result ≡ first_range self.now.entries n }
    {
        match self.position(n) {
            Some(i) => Some(self.entries[i].1),
            None => None,
        }
    }

    /// The entry at a position.
    #[inline(always)]
    pub fn entry_at(&self, i: usize) -> (usize, (Word, Word))
        requires { i < length self.now.entries }
        ensures entry { slice_get self.now.entries i ≡ Some result }
        ensures found { first_range self.now.entries result.0 ≡ Some (range result.1) }
    {
        self.entries[i]
    }

    /// Where a location is in the entries, if it is there.
    #[inline(always)]
    fn position(&self, n: usize) -> Option<usize>
        ensures some { IfSome result (λ i. IsAt self.now.entries i n) }
        ensures none { IfNone result (first_range self.now.entries n ≡ None) }
    {
        if self.placed {
            known_position(&self.entries, &self.positions, n)
        } else {
            position_among(&self.entries, n)
        }
    }

    /// Makes room for more entries.
    pub fn reserve(&mut self, more: usize) -> Result<(), AllocError>
        ensures same { self.new.entries ≡ self.old.entries }
        ensures room { OnOk result (more ≤ self.new.spare) }
    {
        self.entries.reserve(more)
    }

    /// Gives a location these bounds. There is room for one more entry.
    #[inline(always)]
    pub fn insert(&mut self, n: usize, bounds: (Word, Word))
        requires { 0 < self.old.spare }
        ensures entries { self.new.entries ≡ put self.old.entries n bounds }
        ensures unique { IsDistinct nat_eq (keys_of self.new.entries) }
        ensures room { self.old.spare ≤ self.new.spare + 1 }
    {
        match self.position(n) {
            Some(i) => self.put_at(i, n, bounds),
            None => self.push(n, bounds),
        }
    }

    /// Widens the bounds of a location by these, or gives it these, and returns whether it has two
    /// values then. There is room for one more entry.
    pub fn widen(&mut self, n: usize, bounds: (Word, Word)) -> bool
        requires { 0 < self.old.spare }
        ensures sound { (count : ℕ) → n < count → code_of bounds.0 ≤ code_of bounds.1 → AreRanges count self.old.entries → AreRanges count self.new.entries }
        ensures entries { (k : ℕ) → first_range self.new.entries k
            ≡ (if k == n then widen (first_range self.old.entries n) (Some (range bounds)) else first_range self.old.entries k) }
        ensures room { self.old.spare ≤ self.new.spare + 1 }
        ensures alike { result ≡ false → HasOneValue (first_range self.new.entries n) }
    {
        match self.position(n) {
            Some(i) => {
                let both = widened(self.entry_at(i).1, bounds);
                let has_two = differ(both.0, both.1);
                self.put_at(i, n, both);
                has_two
            }
            None => {
                let has_two = differ(bounds.0, bounds.1);
                self.push(n, bounds);
                has_two
            }
        }
    }

    /// Widens the bounds of a location by one value, or gives it this one, and returns whether it
    /// has two values then. There is room for one more entry.
    pub fn widen_by(&mut self, n: usize, value: Word) -> bool
        requires { 0 < self.old.spare }
        ensures sound { (count : ℕ) → n < count → AreRanges count self.old.entries → AreRanges count self.new.entries }
        ensures entries { (k : ℕ) → first_range self.new.entries k
            ≡ (if k == n then widen (first_range self.old.entries n) (Some (range (value, value))) else first_range self.old.entries k) }
        ensures alike { result ≡ false → HasOneValue (first_range self.new.entries n) }
    {
        match self.position(n) {
            Some(i) => {
                let both = widened(self.entry_at(i).1, (value, value));
                let has_two = differ(both.0, both.1);
                self.put_at(i, n, both);
                has_two
            }
            None => {
                self.push(n, (value, value));
                false
            }
        }
    }

    /// Gives the location at a position these bounds.
    fn put_at(&mut self, i: usize, n: usize, bounds: (Word, Word))
        requires { IsAt self.old.entries i n }
        ensures entries { self.new.entries ≡ put self.old.entries n bounds }
        ensures unique { IsDistinct nat_eq (keys_of self.new.entries) }
        ensures room { self.new.spare ≡ self.old.spare }
    {
        self.entries[i] = (n, bounds);
    }

    /// Adds a location that isn't there. There is room for one more entry.
    fn push(&mut self, n: usize, bounds: (Word, Word))
        requires room { 0 < self.old.spare }
        requires new { first_range self.old.entries n ≡ None }
        ensures entries { self.new.entries ≡ put self.old.entries n bounds }
        ensures unique { IsDistinct nat_eq (keys_of self.new.entries) }
        ensures room { self.old.spare ≤ self.new.spare + 1 }
    {
        self.entries.push_reserved((n, bounds));
        self.placed = set_last_position(&self.entries, self.placed, &mut self.positions);
    }

    /// Brings the entries, whose locations are below a count, into the rising order of their
    /// locations.
    pub fn sort(&mut self, count: usize) -> Result<(), AllocError>
        requires { AreRanges count self.old.entries }
        ensures len { length self.new.entries ≡ length self.old.entries }
        ensures sound { AreRanges count self.new.entries }
        ensures same { (n : ℕ) → first_range self.new.entries n ≡ first_range self.old.entries n }
        ensures rising { OnOk result (IsStrictlyIncreasing (keys_of self.new.entries)) }
        ensures err { OnErr result (self.new.entries ≡ self.old.entries) }
    {
        if are_rising(&self.entries) {
            return Ok(());
        }
        if self.placed && count / MAX_LOCATIONS_PER_ENTRY <= self.entries.len() {
            gather_entries(&mut self.entries, &self.positions, count)?;
        } else {
            sort_entries(&mut self.entries, count)?;
        }
        self.placed = self.placed && set_all_positions(&self.entries, &mut self.positions);
        Ok(())
    }

    /// Forgets all entries. Their memory is kept, except pages of positions that are many more than
    /// the entries were.
    pub fn clear(&mut self)
        ensures { self.new.entries ≡ [] }
    {
        if self.positions.pages() / MAX_PAGES_PER_ENTRY > self.entries.len() + MAX_MORE_PAGES {
            self.positions.forget();
            self.placed = false;
        }
        self.entries.clear();
    }

    /// The same again.
    pub fn copy(&self, alloc: Global) -> Result<Ranges, AllocError>
        ensures { IfOk result (λ r. r.entries ≡ self.now.entries) }
    {
        let entries = self.entries.as_slice().to_vec(alloc)?;
        Ok(Ranges {
            entries,
            positions: Positions::new(alloc),
            placed: false,
        })
    }
}

/// Where a location is in entries, if it is there, found by looking through them.
fn position_among(entries: &[(usize, (Word, Word))], n: usize) -> Option<usize>
    ensures some { IfSome result (λ i. IsAt entries.now i n) }
    ensures none { IfNone result (first_range entries.now n ≡ None) }
{
    for i in 0..entries.len() {
        if entries[i].0 == n {
            return Some(i);
        }
    }
    None
}

/// Whether locations rise already.
fn are_rising(entries: &[(usize, (Word, Word))]) -> bool
    ensures { result ≡ true → IsStrictlyIncreasing (keys_of entries.now) }
{
    for i in 1..entries.len() {
        if entries[i].0 <= entries[i - 1].0 {
            return false;
        }
    }
    true
}

/// Where a location is in entries that all have their positions, if it is there.
#[inline(always)]
fn known_position(
    entries: &[(usize, (Word, Word))],
    positions: &Positions,
    n: usize,
) -> Option<usize>
    requires { HavePositions entries.now true (position_of positions.now) }
    ensures some { IfSome result (λ i. IsAt entries.now i n) }
    ensures none { IfNone result (first_range entries.now n ≡ None) }
{
    let i = positions.at(n);
    if i < entries.len() && entries[i].0 == n {
        Some(i)
    } else {
        None
    }
}

/// Brings entries that have their positions into the rising order of their locations, by looking
/// each location up.
fn gather_entries(
    entries: &mut Vec<(usize, (Word, Word))>,
    positions: &Positions,
    count: usize,
) -> Result<(), AllocError>
    requires sound { AreRanges count entries.old.items }
    requires placed { HavePositions entries.old.items true (position_of positions.now) }
    ensures len { length entries.new.items ≡ length entries.old.items }
    ensures sound { AreRanges count entries.new.items }
    ensures same { (n : ℕ) → first_range entries.new.items n ≡ first_range entries.old.items n }
    ensures rising { OnOk result (IsStrictlyIncreasing (keys_of entries.new.items)) }
    ensures err { OnErr result (entries.new.items ≡ entries.old.items) }
{
    let mut gathered = Vec::with_capacity(*entries.allocator(), entries.len())?;
    for n in 0..count {
        if let Some(i) = known_position(entries, positions, n) {
            gathered.push(entries[i])?;
        }
    }
    if gathered.len() != entries.len() {
        return sort_entries(entries, count);
    }
    *entries = gathered;
    Ok(())
}

/// Brings entries into the rising order of their locations.
fn sort_entries(entries: &mut Vec<(usize, (Word, Word))>, count: usize) -> Result<(), AllocError>
    requires { AreRanges count entries.old.items }
    ensures len { length entries.new.items ≡ length entries.old.items }
    ensures sound { AreRanges count entries.new.items }
    ensures same { (n : ℕ) → first_range entries.new.items n ≡ first_range entries.old.items n }
    ensures rising { OnOk result (IsStrictlyIncreasing (keys_of entries.new.items)) }
    ensures err { OnErr result (entries.new.items ≡ entries.old.items) }
{
    entries.sort_by_key(|entry| entry.0)
}

/// Gives each location of the entries its position there. Returns whether it did.
fn set_all_positions(entries: &[(usize, (Word, Word))], positions: &mut Positions) -> bool
    requires { IsDistinct nat_eq (keys_of entries.now) }
    ensures { HavePositions entries.now result (position_of positions.new) }
{
    for i in 0..entries.len() {
        if !positions.set_position(entries[i].0, i) {
            return false;
        }
    }
    true
}

/// Gives the last location its position, if the others have theirs, or else all of them, if they
/// are no longer few. Returns whether all have theirs then.
fn set_last_position(
    entries: &[(usize, (Word, Word))],
    placed: bool,
    positions: &mut Positions,
) -> bool
    requires some { 0 < length entries.now }
    requires unique { IsDistinct nat_eq (keys_of entries.now) }
    requires before { placed ≡ true → (i : ℕ) → i + 1 < length entries.now → position_of positions.old (slice_index_or (keys_of entries.now) i 0) ≡ i }
    ensures { HavePositions entries.now result (position_of positions.new) }
{
    let last = entries.len() - 1;
    if placed {
        positions.set_position(entries[last].0, last)
    } else {
        last >= MAX_SCANNED && set_all_positions(entries, positions)
    }
}
