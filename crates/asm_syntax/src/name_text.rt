//! The bytes of names, each with a key.
ghost use Rattle.std.specs.Prelude.{◌≡◌, ◌≤◌, IfOk, List, ℕ, length, nat_eq};
ghost use Rattle.std.proofs.Common.{ap};
ghost use Rattle.std.specs.Cmp.{partial_equiv_from_equiv};
ghost use Rattle.std.specs.Cmp.Lexicographic.{pointwise, bytes_decides, nat_list_eq_equiv};
ghost use Rattle.std.specs.Hash as fed;
ghost use Rattle.asm_syntax.specs.code.Keys.{key_of, packed, AreBytes};

use std::alloc::{AllocError, Global};
use std::hash::{FoldHasher, Hash, Hasher};
use std::marker::Model;

/// Texts up to this length are told apart by their lengths and keys alone.
const MAX_SHORT_TEXT: usize = 8;

/// The bytes of a name, with a key by which two different ones are mostly told apart at once.
#[derive(Drop)]
pub struct Text {
    bytes: Vec<u8>,
    key: u64,
    ghost keyed: { key ≡ key_of bytes.items },
    ghost in_range: { AreBytes bytes.items },
}

impl Model for Text {
    ghost Value = { List ℕ };

    ghost view = { λ t. t.bytes.items };
}

impl Text {
    /// The text with these bytes.
    pub fn new(alloc: Global, bytes: &[u8]) -> Result<Text, AllocError>
        ensures { IfOk result (λ t. t ≡ bytes.now) }
    {
        let bytes = bytes.to_vec(alloc)?;
        let key = key_of(bytes.as_slice());
        Ok(Text { bytes, key })
    }

    /// Its bytes.
    pub fn as_bytes(&self) -> &[u8]
        ensures { result.now ≡ self.now }
    {
        self.bytes.as_slice()
    }

    /// A number that is the same for the same text, and mostly another for another one.
    pub fn key(&self) -> u64
        ensures { result ≡ key_of self.now }
    {
        self.key
    }

    /// The same text once more.
    pub fn copy(&self, alloc: Global) -> Result<Text, AllocError>
        ensures { IfOk result (λ t. t ≡ self.now) }
    {
        Text::new(alloc, self.as_bytes())
    }

    /// Whether the two texts are one.
    #[inline(always)]
    pub fn is_same_text(&self, other: &Text) -> bool
        ensures { result ≡ pointwise nat_eq self.now other.now }
    {
        let (bytes, others) = (self.as_bytes(), other.as_bytes());
        if self.key != other.key || bytes.len() != others.len() {
            return false;
        }
        bytes.len() <= MAX_SHORT_TEXT || is_same_long_text(bytes, others)
    }
}

/// Whether two texts that are longer have the same bytes.
#[inline(never)]
fn is_same_long_text(bytes: &[u8], others: &[u8]) -> bool
    ensures { result ≡ pointwise nat_eq bytes.now others.now }
{
    bytes == others
}

#[tactic(auto, unfolding(crate::specs::code::Keys::key_of))]
fn key_of(bytes: &[u8]) -> u64
    ensures { result ≡ key_of bytes.now }
{
    if bytes.len() <= MAX_SHORT_TEXT {
        return packed(bytes);
    }
    let mut hasher = FoldHasher::default();
    hasher.write(bytes);
    hasher.finish()
}

/// The bytes side by side.
fn packed(bytes: &[u8]) -> u64
    requires { length bytes.now ≤ MAX_SHORT_TEXT }
    ensures { result ≡ packed 0 bytes.now }
{
    let mut key: u64 = 0;
    let mut rest = bytes;
    while let [byte, behind @ ..] = rest {
        key = 256 * key + *byte as u64;
        rest = behind;
    }
    key
}

impl PartialEq for Text {
    ghost eq = { pointwise nat_eq };

    ghost laws = { partial_equiv_from_equiv nat_list_eq_equiv };

    fn eq(&self, other: &Text) -> bool {
        self.is_same_text(other)
    }
}

impl Eq for Text {
    ghost laws = { nat_list_eq_equiv };
}

/// A text is hashed by its key alone.
impl Hash for Text {
    ghost hash_input = { λ text. fed.u64 (key_of text) };

    ghost respects_eq = { λ x y same. ap (λ text. fed.u64 (key_of text)) ((bytes_decides x y).0 same) };

    fn hash<H: Hasher>(&self, state: &mut H) {
        state.write_u64(self.key);
    }
}
