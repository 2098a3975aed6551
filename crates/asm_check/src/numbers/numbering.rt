//! What the names of a specification stand for, by numbers.
ghost use Rattle.std.specs.Prelude.{◌≡◌, ◌<◌, ◌++◌, [], ◌∷◌, List, false, IfOk, IfSome, OnOk, length, slice_get, slice_index, option_map, Some};
ghost use Rattle.std.specs.Option.{option_flatten};
ghost use Rattle.std.specs.Cmp.Lexicographic.{pointwise};
ghost use Rattle.std.specs.Map.{lookup};
ghost use Rattle.std.specs.Prelude.{nat_eq};
ghost use Rattle.asm_syntax.specs.SourceTree as source;
ghost use Rattle.asm_check.specs.Names as declarations;
ghost use Rattle.asm_check.specs.Names.{is_among, first_declarations};
ghost use Rattle.asm_check.specs.code.numbers.NumberTables.{IsIndexed, next_number, IsNumberingOf, text_kept_at};
ghost use Rattle.asm_check.specs.Shapes.{texts_of};
ghost use Rattle.asm_check.specs.code.names.Tables.{declared_as_view, declaration_of, IsTableOf};

use crate::checked::NameNumber;
use crate::names::declared_as::{Declaration, DeclaredAs};
use crate::names::guessed_indices::GuessedIndices;
use crate::names::name_table::NameTable;
use crate::numbers::numbered_names::NumberedNames;
use asm_syntax::name::Text;
use std::alloc::{AllocError, Global};

/// What names stand for, and the names of what has a number.
#[derive(Drop)]
pub(crate) struct Numbering {
    /// All names in the order of their first declarations. A predeclared name has no number.
    names: NumberedNames,
    likely: GuessedIndices,
    indices: Indices,
}

impl Numbering {
    /// The numbering of what a specification declares first, by the table of its names.
    pub(crate) fn of(alloc: Global, names: &NameTable) -> Result<Numbering, AllocError>
        ensures { IfOk result (λ n. (spec : source.Spec) → IsTableOf spec names.now → IsNumberingOf (first_declarations spec) n) }
    {
        let mut numbering = Numbering::new(alloc, names)?;
        for i in 0..names.len() {
            let (name, declared) = entry_at(names, i);
            numbering.add(alloc, name, declared.meaning)?;
        }
        Ok(numbering)
    }

    /// No number yet, and room for those of `names`.
    fn new(alloc: Global, names: &NameTable) -> Result<Numbering, AllocError>
        ensures { IfOk result (IsNumberingOf []) }
    {
        Ok(Numbering {
            likely: names.guesses().copy(alloc)?,
            names: NumberedNames::new(alloc, names.key(), names.len())?,
            indices: Indices::new(alloc),
        })
    }

    /// One more declaration.
    fn add(&mut self, alloc: Global, name: &[u8], meaning: DeclaredAs) -> Result<(), AllocError>
        ensures { OnOk result ((ds : List declarations.Declaration) (d : declarations.Declaration) → d.name.text ≡ name.now → d.meaning ≡ declared_as_view meaning.entry
            → is_among (texts_of ds) name.now ≡ false → IsNumberingOf ds self.old → IsNumberingOf (ds ++ d ∷ []) self.new) }
    {
        let number = self.indices.add(meaning, self.names.len())?;
        self.names.put(alloc, name, number)?;
        Ok(())
    }

    /// What a name stands for, if it has a number.
    #[inline(always)]
    pub(crate) fn named(&self, name: &Text) -> Option<NameNumber>
        ensures { result ≡ option_flatten (lookup (pointwise nat_eq name.now) self.now.names) }
    {
        match self.found_at_once(name) {
            Some(number) => number,
            None => self.found(name.as_bytes()),
        }
    }

    /// What a name has in the table, if it is where it is guessed to be.
    #[inline(always)]
    fn found_at_once(&self, name: &Text) -> Option<Option<NameNumber>>
        ensures { IfSome result (λ number. lookup (pointwise nat_eq name.now) self.now.names ≡ Some number) }
    {
        let (text, number) = self.names.get_index(self.likely.index(name)?)?;
        if text == name.as_bytes() {
            Some(*number)
        } else {
            None
        }
    }

    /// The same, by a look-up in the table.
    #[inline(never)]
    pub(crate) fn found(&self, name: &[u8]) -> Option<NameNumber>
        ensures { result ≡ option_flatten (lookup (pointwise nat_eq name.now) self.now.names) }
    {
        self.names.get(name)?
    }

    /// The name of the function with this number.
    pub(crate) fn function_name(&self, f: usize) -> &[u8]
        requires number { f < length self.now.indices.functions.items }
        requires index { slice_index self.now.indices.functions.items f < length self.now.names }
        ensures { text_kept_at self.now (slice_index self.now.indices.functions.items f) ≡ Some result.now }
    {
        self.name_at(self.indices.functions[f])
    }

    /// How many universes there are.
    pub(crate) fn universes(&self) -> usize
        ensures { result ≡ length self.now.indices.universes.items }
    {
        self.indices.universes.len()
    }

    /// How many elements there are.
    pub(crate) fn elements(&self) -> usize
        ensures { result ≡ length self.now.indices.elements.items }
    {
        self.indices.elements.len()
    }

    /// The name of the element with this number.
    pub(crate) fn element_name(&self, e: usize) -> &[u8]
        requires number { e < length self.now.indices.elements.items }
        requires index { slice_index self.now.indices.elements.items e < length self.now.names }
        ensures { text_kept_at self.now (slice_index self.now.indices.elements.items e) ≡ Some result.now }
    {
        self.name_at(self.indices.elements[e])
    }

    fn name_at(&self, index: usize) -> &[u8]
        requires { index < length self.now.names }
        ensures { text_kept_at self.now index ≡ Some result.now }
    {
        let (name, _) = self.names.get_index(index).unwrap();
        name
    }
}

/// The declaration at an index, with its name.
fn entry_at<'a>(names: &NameTable<'a>, i: usize) -> (&'a [u8], Declaration<'a>)
    requires { i < length names.now }
    ensures { option_map declaration_of (slice_get names.now i) ≡ Some (declaration_of result) }
{
    let (name, declared) = names.get_index(i).unwrap();
    (*name, *declared)
}

/// By number, where a declaration is among all of them.
#[derive(Drop)]
pub(crate) struct Indices {
    universes: Vec<usize>,
    elements: Vec<usize>,
    functions: Vec<usize>,
    derived: Vec<usize>,
    rules: Vec<usize>,
}

impl Indices {
    fn new(alloc: Global) -> Indices
        ensures universes { result.universes.items ≡ [] }
        ensures elements { result.elements.items ≡ [] }
        ensures functions { result.functions.items ≡ [] }
        ensures derived { result.derived.items ≡ [] }
        ensures rules { result.rules.items ≡ [] }
    {
        Indices {
            universes: Vec::new(alloc),
            elements: Vec::new(alloc),
            functions: Vec::new(alloc),
            derived: Vec::new(alloc),
            rules: Vec::new(alloc),
        }
    }

    /// One more declaration, which is at this index. Returns its number.
    fn add(&mut self, meaning: DeclaredAs, index: usize) -> Result<Option<NameNumber>, AllocError>
        ensures number { IfOk result (λ r. r ≡ next_number self.old (declared_as_view meaning.entry)) }
        ensures indexed { OnOk result (IsIndexed self.old index (declared_as_view meaning.entry) self.new) }
    {
        match meaning {
            DeclaredAs::Predeclared => Ok(None),
            DeclaredAs::Range { .. } | DeclaredAs::Enumeration(_) => {
                Ok(Some(NameNumber::Universe(push(&mut self.universes, index)?)))
            }
            DeclaredAs::Element(_) => Ok(Some(NameNumber::Element(push(
                &mut self.elements,
                index,
            )?))),
            DeclaredAs::Controlled(_) | DeclaredAs::Static(_) => {
                Ok(Some(NameNumber::Function(push(&mut self.functions, index)?)))
            }
            DeclaredAs::Derived(_) => Ok(Some(NameNumber::Derived(push(
                &mut self.derived,
                index,
            )?))),
            DeclaredAs::Rule(_) => Ok(Some(NameNumber::Rule(push(&mut self.rules, index)?))),
        }
    }
}

/// Puts an index after the others, and returns its number.
fn push(indices: &mut Vec<usize>, index: usize) -> Result<usize, AllocError>
    ensures number { IfOk result (λ n. n ≡ length indices.old.items) }
    ensures items { OnOk result (indices.new.items ≡ indices.old.items ++ index ∷ []) }
{
    let number = indices.len();
    indices.push(index)?;
    Ok(number)
}
