//! Positions by location, in pages that are made when one of their locations gets its position.
ghost use Rattle.std.specs.Prelude.{◌≡◌, ◌==◌, ◌<◌, ◌≤◌, ◌*◌, ◌/◌, ◌%◌, ◌⊎◌, ℕ, true, if◌then◌else◌, slice_index_or, length as size};
ghost use Rattle.asm_updates.specs.code.Positions.{page_in, slot_in, position_in, position_of, ArePages, IsMade};

use std::alloc::Global;
use std::marker::Model;

/// How many locations share a page.
const PAGE_LENGTH: usize = 64;

/// A position for each location, which is 0 if none was given.
#[derive(Debug, Drop)]
pub(crate) struct Positions {
    /// The number of each page, or 0 if it isn't made.
    pages: Vec<u32>,
    /// The positions, page by page. Page 0 has 0 at each place.
    positions: Vec<u32>,
}

impl Model for Positions {
    ghost use Rattle.asm_updates.specs.code.Positions.{Paged, ArePages};

    ghost Value = { Paged };

    ghost view = { λ p. record { pages = p.pages.items; positions = p.positions.items } };

    ghost invariant = { λ p. ArePages p.pages.items p.positions.items };
}

impl Positions {
    /// No positions, without memory.
    pub fn new(alloc: Global) -> Positions
        ensures { (n : ℕ) → position_of result n ≡ 0 }
    {
        Positions {
            pages: Vec::new(alloc),
            positions: Vec::new(alloc),
        }
    }

    /// How many pages there is memory for, page 0 among them.
    pub fn pages(&self) -> usize
        ensures { result ≡ size self.now.positions / 64 }
    {
        self.positions.len() / PAGE_LENGTH
    }

    /// The position of a location.
    #[inline(always)]
    pub fn at(&self, n: usize) -> usize
        ensures { result ≡ position_of self.now n }
    {
        let slot = slot_of(&self.pages, n);
        if slot < self.positions.len() {
            self.positions[slot] as usize
        } else {
            0
        }
    }

    /// Gives a location a position, if it fits in 32 bits and there is memory for its page. Returns
    /// whether it did.
    pub fn set_position(&mut self, n: usize, position: usize) -> bool
        ensures { result ≡ true → (k : ℕ) → position_of self.new k ≡ (if k == n then position else position_of self.old k) }
    {
        if position > u32::MAX as usize || !make_page(&mut self.pages, &mut self.positions, n) {
            return false;
        }
        let slot = slot_of(&self.pages, n);
        self.positions[slot] = position as u32;
        true
    }

    /// Forgets all positions, and gives their memory back.
    pub fn forget(&mut self)
        ensures { (n : ℕ) → position_of self.new n ≡ 0 }
    {
        self.pages.clear();
        self.pages.shrink_to_fit();
        self.positions.clear();
        self.positions.shrink_to_fit();
    }
}

/// The number of a page, or 0 if it isn't made.
#[inline(always)]
fn number_of(pages: &[u32], page: usize) -> usize
    ensures { result ≡ page_in pages.now page }
{
    if page < pages.len() {
        pages[page] as usize
    } else {
        0
    }
}

/// Where the position of a location is.
#[inline(always)]
fn slot_of(pages: &[u32], n: usize) -> usize
    ensures { result ≡ slot_in pages.now n }
{
    number_of(pages, n / PAGE_LENGTH) * PAGE_LENGTH + n % PAGE_LENGTH
}

/// Makes the page of a location, if it isn't made. Returns whether it is made then.
fn make_page(pages: &mut Vec<u32>, positions: &mut Vec<u32>, n: usize) -> bool
    requires { ArePages pages.old.items positions.old.items }
    ensures sound { ArePages pages.new.items positions.new.items }
    ensures made { result ≡ true → IsMade pages.new.items n }
    ensures same { (k : ℕ) → position_in pages.new.items positions.new.items k ≡ position_in pages.old.items positions.old.items k }
{
    let page = n / PAGE_LENGTH;
    if number_of(pages, page) != 0 {
        return true;
    }
    let number = next_number(positions.len());
    if number > u32::MAX as usize
        || !lengthen(positions, (number + 1) * PAGE_LENGTH)
        || !lengthen(pages, page + 1)
    {
        return false;
    }
    pages[page] = number as u32;
    true
}

/// The number of the next page, if the pages that are made, page 0 with them, have `places` places.
fn next_number(places: usize) -> usize
    requires { places % 64 ≡ 0 }
    ensures positive { 0 < result }
    ensures behind { (places ≡ 0) ⊎ (places ≡ result * 64) }
{
    if places == 0 { 1 } else { places / PAGE_LENGTH }
}

/// Lengthens a list that is shorter with zeros. Returns whether it has this length at least.
fn lengthen(list: &mut Vec<u32>, length: usize) -> bool
    ensures same { (k : ℕ) → slice_index_or list.new.items k 0 ≡ slice_index_or list.old.items k 0 }
    ensures long { result ≡ true → length ≤ size list.new.items }
    ensures length { (size list.new.items ≡ size list.old.items) ⊎ ((size list.old.items < length) × (size list.new.items ≡ length)) }
{
    list.len() >= length || list.resize(length, 0).is_ok()
}
