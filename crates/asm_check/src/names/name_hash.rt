//! A hash of names under a key that all of them make.
ghost use Rattle.std.specs.Prelude.{◌≡◌, ◌≤◌, List, ℕ, ◌++◌, flat_map};
ghost use Rattle.std.specs.Int.{from_le_bytes, w64};
ghost use Rattle.sha2.specs.Sha256.{sha256};
ghost use Rattle.sha2.specs.Hashers.{Holds256};
ghost use Rattle.asm_syntax.specs.code.Views.{spec_of, item_of, name_of};
ghost use Rattle.asm_check.specs.code.names.NameHash.{name_bytes, item_bytes, declared_bytes, eight_from, hasher_under};

use asm_syntax::name::Name;
use asm_syntax::spec::{Item, Spec};
use sha2::{Digest, Sha256};
use std::hash::{BuildHasher, DefaultHasher, Hasher};

/// What makes the hashers of a table of names: each has been given the same key before.
#[derive(Clone, Copy)]
pub(crate) struct KeyedHasher {
    begun: DefaultHasher,
}

impl BuildHasher for KeyedHasher {
    type Hasher = DefaultHasher;

    ghost build_hasher = { λ k. k.begun };

    fn build_hasher(&self) -> DefaultHasher {
        self.begun
    }
}

/// How many names a specification declares, and the key that they make.
#[derive(Clone, Copy)]
pub(crate) struct DeclaredNames {
    pub count: usize,
    pub key: KeyedHasher,
}

/// Of all names that are declared in the text. The key is the first 16 bytes
/// of the SHA-256 of all of them.
pub(crate) fn declared_names(spec: &Spec) -> DeclaredNames
    ensures { result.key.begun ≡ hasher_under (sha256 (declared_bytes (spec_of spec.now).items)) }
{
    let mut digest = NamesDigest {
        count: PREDECLARED_NAMES,
        digest: Sha256::new(),
    };
    digest.items(&spec.items);
    digest.declared()
}

/// How many names are declared before any text.
const PREDECLARED_NAMES: usize = 3;

/// The names so far.
#[derive(Drop)]
struct NamesDigest {
    count: usize,
    digest: Sha256,
}

impl NamesDigest {
    /// The names that these items declare.
    fn items(&mut self, items: &[Item])
        ensures { (m : List ℕ) → Holds256 self.old.digest m → Holds256 self.new.digest (m ++ flat_map (λ item. item_bytes (item_of item)) items.now) }
    {
        for item in items {
            self.item(item);
        }
    }

    /// The names that an item declares.
    fn item(&mut self, item: &Item)
        ensures { (m : List ℕ) → Holds256 self.old.digest m → Holds256 self.new.digest (m ++ item_bytes (item_of item.now)) }
    {
        match item {
            Item::Uses(_) | Item::Init(_) => {}
            Item::Enum { name, elements } => {
                self.name(name);
                self.names(elements);
            }
            Item::Universe { name, .. } => self.name(name),
            Item::Function { name, .. } => self.name(name),
            Item::Derived { name, .. } => self.name(name),
            Item::Rule { name, .. } => self.name(name),
        }
    }

    fn names(&mut self, names: &[Name])
        ensures { (m : List ℕ) → Holds256 self.old.digest m → Holds256 self.new.digest (m ++ flat_map (λ name. name_bytes (name_of name).text) names.now) }
    {
        for name in names {
            self.name(name);
        }
    }

    /// A name, and a byte that is in none.
    fn name(&mut self, name: &Name)
        ensures { (m : List ℕ) → Holds256 self.old.digest m → Holds256 self.new.digest (m ++ name_bytes (name_of name.now).text) }
    {
        self.count = self.count.saturating_add(1);
        self.digest.update(name.text.as_bytes());
        self.digest.update(&[0u8]);
    }

    /// What they make together.
    fn declared(self) -> DeclaredNames
        ensures { (m : List ℕ) → Holds256 self.digest m → result.key.begun ≡ hasher_under (sha256 m) }
    {
        let bytes = self.digest.finalize();
        let mut begun = DefaultHasher::new();
        begun.write_u64(eight_from(&bytes, 0));
        begun.write_u64(eight_from(&bytes, 8));
        DeclaredNames {
            count: self.count,
            key: KeyedHasher { begun },
        }
    }
}

/// Eight bytes of a digest as a number. The first is the lowest.
fn eight_from(bytes: &[u8; 32], i: usize) -> u64
    requires { i ≤ 24 }
    ensures { result ≡ from_le_bytes w64 (eight_from i bytes.now) }
{
    u64::from_le_bytes([
        bytes[i],
        bytes[i + 1],
        bytes[i + 2],
        bytes[i + 3],
        bytes[i + 4],
        bytes[i + 5],
        bytes[i + 6],
        bytes[i + 7],
    ])
}
