//! Names with their numbers, in which a name is found by a hash.
ghost use Rattle.std.specs.Prelude.{◌≡◌, IfOk, IfSome, OnOk, Some, [], ◌∷◌, ◌++◌, cond, length, slice_get, is_some, option_map, nat_eq};
ghost use Rattle.std.specs.Cmp.Lexicographic.{pointwise};
ghost use Rattle.std.specs.Map.{lookup};
ghost use Rattle.std.specs.Map.Iter.{deref_pair};

use crate::checked::NameNumber;
use crate::names::name_hash::KeyedHasher;
use indexmap::IndexMap;
use std::alloc::{AllocError, Global};
use std::marker::Model;

/// What has a number has it here, next to its name. No name is here twice.
#[derive(Drop)]
pub(crate) struct NumberedNames {
    table: IndexMap<Vec<u8>, Option<NameNumber>, KeyedHasher>,
}

impl Model for NumberedNames {
    ghost use Rattle.std.specs.Prelude.{List, Option, ℕ, map};
    ghost use Rattle.asm_check.specs.declared.checked.NameNumber.{NameNumber};

    ghost Value = { List (List ℕ × Option NameNumber) };

    ghost view = { λ n. map (λ e. (e.0.items, e.1)) n.table.entries };
}

impl NumberedNames {
    /// No name yet, and room for `count`.
    pub(crate) fn new(
        alloc: Global,
        key: KeyedHasher,
        count: usize,
    ) -> Result<NumberedNames, AllocError>
        ensures empty { IfOk result (λ names. names ≡ []) }
    {
        Ok(NumberedNames {
            table: IndexMap::with_capacity_and_hasher(alloc, count, key)?,
        })
    }

    /// How many names there are.
    pub(crate) fn len(&self) -> usize
        ensures len { result ≡ length self.now }
    {
        self.table.len()
    }

    /// The name at an index, with its number.
    #[inline(always)]
    pub(crate) fn get_index(&self, index: usize) -> Option<(&[u8], &Option<NameNumber>)>
        ensures entry { option_map deref_pair result ≡ slice_get self.now index }
        ensures value { IfSome result (λ p. lookup (pointwise nat_eq p.0.now) self.now ≡ Some p.1.now) }
    {
        let (name, number) = self.table.get_index(index)?;
        Some((name.as_slice(), number))
    }

    /// What is next to a name.
    pub(crate) fn get(&self, name: &[u8]) -> Option<Option<NameNumber>>
        ensures value { result ≡ lookup (pointwise nat_eq name.now) self.now }
    {
        self.table.get(name).copied()
    }

    /// Takes a name with its number, but not a name that is there.
    pub(crate) fn put(
        &mut self,
        alloc: Global,
        name: &[u8],
        number: Option<NameNumber>,
    ) -> Result<(), AllocError>
        ensures { OnOk result (self.new ≡ cond (is_some (lookup (pointwise nat_eq name.now) self.old)) self.old (self.old ++ (name.now, number) ∷ [])) }
    {
        if self.table.get_index_of(name).is_some() {
            return Ok(());
        }
        self.table.insert(name.to_vec(alloc)?, number)?;
        Ok(())
    }
}
