//! Bytes as characters.
ghost use Rattle.std.specs.Prelude.{◌≡◌, ◌<◌, ◌≤◌, ◌^◌, length};
ghost use Rattle.std.specs.Iterator.{YieldsFirst, item_count};
ghost use Rattle.asm_explore_texts.specs.Positions.{characters};

/// No character has more bytes.
const MAX_CHARACTER_BYTES: usize = 4;

/// The characters of some bytes, in order. A byte that belongs to none counts as one, which is `?`.
#[derive(Drop)]
pub(crate) struct Characters<'t> {
    rest: &'t [u8],
}

impl<'t> Characters<'t> {
    pub(crate) fn of(bytes: &'t [u8]) -> Characters<'t>
        ensures bytes { result.rest.now ≡ bytes.now }
        ensures fits { length result.rest.now < 2 ^ 63 }
    {
        Characters { rest: bytes }
    }

    /// How many there are.
    pub(crate) fn count_of(bytes: &'t [u8]) -> usize
        ensures value { result ≡ length (characters bytes.now) }
        ensures fits { result < 2 ^ 63 }
    {
        Characters::of(bytes).count()
    }
}

impl Iterator for Characters<'_> {
    type Item = char;

    ghost next_gives = { YieldsFirst (λ c. characters c.rest.now) };

    ghost remaining = { item_count (λ c. characters c.rest.now) };

    fn next(&mut self) -> Option<char> {
        let front = &self.rest[..self.rest.len().min(MAX_CHARACTER_BYTES)];
        let first = front.utf8_chunks().next()?.valid().chars().next();
        self.rest = &self.rest[first.map_or(1, char::len_utf8)..];
        Some(first.unwrap_or('?'))
    }
}
