//! The table of declarations, in which names are found by a hash.
//!
//! The table borrows names and declarations from the syntax tree.
ghost use Rattle.std.specs.Prelude.{◌≡◌, ◌<◌, IfOk, IfSome, Some, [], ◌∷◌, ◌++◌, cond, length, position, slice_get, is_some, not, option_map};
ghost use Rattle.std.specs.Map.{lookup, keys_of};
ghost use Rattle.std.specs.Map.Iter.{deref_pair};
ghost use Rattle.std.specs.Option.{option_copied};
ghost use Rattle.asm_check.specs.code.names.TextKeys.{is_key};

use crate::names::declared_as::Declaration;
use crate::names::guessed_indices::GuessedIndices;
use crate::names::name_hash::KeyedHasher;
use asm_syntax::name::Text;
use indexmap::IndexMap;
use std::alloc::{AllocError, Global};
use std::marker::Model;

/// The declarations that count, the first of each name, in the order of the text.
#[derive(Drop)]
pub(crate) struct NameTable<'a> {
    table: IndexMap<&'a [u8], Declaration<'a>, KeyedHasher>,
    guesses: GuessedIndices,
}

impl<'a> Model for NameTable<'a> {
    ghost use Rattle.std.specs.Prelude.{List};
    ghost use Rattle.std.specs.Coded.{codes};
    ghost use Rattle.asm_syntax.specs.contracts.rule.Rule as rule;
    ghost use Rattle.asm_syntax.specs.contracts.term.Term as term;
    ghost use Rattle.asm_check.specs.code.names.Tables.{Entry};

    ghost Value = { List Entry };

    ghost coded = { Prim.hlevel (codes, term.the_row.coded, rule.the_row.coded) };

    ghost view = { λ n. n.table.entries };
}

impl<'a> NameTable<'a> {
    /// No declaration yet, and room for `count`.
    pub(crate) fn new(
        alloc: Global,
        key: KeyedHasher,
        count: usize,
    ) -> Result<NameTable<'a>, AllocError>
        ensures empty { IfOk result (λ names. names ≡ []) }
    {
        Ok(NameTable {
            guesses: GuessedIndices::new(alloc, count)?,
            table: IndexMap::with_capacity_and_hasher(alloc, count, key)?,
        })
    }

    /// What its hash begins with.
    pub(crate) fn key(&self) -> KeyedHasher {
        *self.table.hasher()
    }

    /// Where names probably are.
    pub(crate) fn guesses(&self) -> &GuessedIndices {
        &self.guesses
    }

    /// How many declarations there are.
    pub(crate) fn len(&self) -> usize
        ensures len { result ≡ length self.now }
    {
        self.table.len()
    }

    /// The declaration at an index, with its name.
    pub(crate) fn get_index(&self, index: usize) -> Option<(&&'a [u8], &Declaration<'a>)>
        ensures entry { option_map deref_pair result ≡ slice_get self.now index }
    {
        self.table.get_index(index)
    }

    /// Where a name is.
    pub(crate) fn get_index_of(&self, name: &[u8]) -> Option<usize>
        ensures index { result ≡ position (is_key name.now) (keys_of self.now) }
        ensures within { IfSome result (λ i. i < length self.now) }
        ensures found { is_some result ≡ is_some (lookup (is_key name.now) self.now) }
    {
        self.table.get_index_of(name)
    }

    /// The declaration of a name.
    #[inline(always)]
    pub(crate) fn get(&self, name: &Text) -> Option<&Declaration<'a>>
        ensures value { option_copied result ≡ lookup (is_key name.now) self.now }
    {
        match self.found_at_once(name) {
            Some(declared) => Some(declared),
            None => self.found(name),
        }
    }

    /// The same, if the name is where it is guessed to be.
    #[inline(always)]
    fn found_at_once(&self, name: &Text) -> Option<&Declaration<'a>>
        ensures { IfSome result (λ declared. lookup (is_key name.now) self.now ≡ Some declared.now) }
    {
        let (text, declared) = self.table.get_index(self.guesses.index(name)?)?;
        if *text == name.as_bytes() {
            Some(declared)
        } else {
            None
        }
    }

    /// The same, by a look-up in the table.
    #[inline(never)]
    fn found(&self, name: &Text) -> Option<&Declaration<'a>>
        ensures { option_copied result ≡ lookup (is_key name.now) self.now }
    {
        self.table.get(name.as_bytes())
    }

    /// Expects the name after all others, from where it is found at once.
    pub(crate) fn expect(&mut self, name: &Text)
        ensures { self.new ≡ self.old }
    {
        self.guesses.put(name, self.table.len());
    }

    /// Takes a declaration, but not of a name that has one. Returns whether it was taken.
    pub(crate) fn put(
        &mut self,
        name: &'a [u8],
        declared: Declaration<'a>,
    ) -> Result<bool, AllocError>
        ensures added { IfOk result (λ added. added ≡ not (is_some (lookup (is_key name.now) self.old))) }
        ensures entries { IfOk result (λ added. self.new ≡ cond added (self.old ++ (name.entry, declared.entry) ∷ []) self.old) }
    {
        if self.table.get_index_of(name).is_some() {
            return Ok(false);
        }
        self.table.insert(name, declared)?;
        Ok(true)
    }
}
