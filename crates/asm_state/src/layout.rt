//! Where a signature keeps the values of functions.
ghost use Rattle.std.specs.Prelude.{◌≡◌, ◌<◌, ◌≤◌, ◌+◌, ◌^◌, ◌++◌, [], ◌∷◌, length, map, replicate, All, IfOk, OnOk};
ghost use Rattle.asm_state.specs.declared.signature_limits.TheConstants.{MAX_VALUES};
ghost use Rattle.asm_state.specs.declared.value.Value.TheVariants.{Undef};
ghost use Rattle.asm_state.specs.SignatureLimits.{Fits, IsDomainOf};
ghost use Rattle.asm_state.specs.code.Layout.{IsLayoutOf, IsNext};
ghost use Rattle.asm_state.specs.Signature.{domain_in};
ghost use Rattle.asm_state.specs.Tables.{argument_lists, table_value};
ghost use Rattle.asm_state.specs.Universe.{IsUniverse};

use crate::argument_lists::{list_count, list_position};
use crate::function::{Function, FunctionKind, Table};
use crate::universe::Universe;
use crate::word::Word;
use std::alloc::{AllocError, Global};

/// The values of a function: the position of the first one, and how many argument lists there are.
#[derive(Clone, Copy, Debug)]
pub(crate) struct Stretch {
    pub start: usize,
    pub lists: usize,
}

/// The extent of each function, the function and the initial content of each location, and the
/// values of static functions.
#[derive(Debug, Drop)]
pub(crate) struct Layout {
    pub extents: Vec<Stretch>,
    pub owners: Vec<usize>,
    pub initial: Vec<Word>,
    pub given: Vec<Word>,
}

/// The values that a table has for all argument lists of a domain, in their order.
fn table_values(
    alloc: Global,
    universes: &[Universe],
    domain: &[usize],
    table: &Table,
    lists: usize,
) -> Result<Vec<Word>, AllocError>
    requires domain { IsDomainOf universes.now domain.now }
    requires lists { lists ≡ length (argument_lists (domain_in universes.now domain.now)) }
    requires sound { All IsUniverse universes.now }
    ensures { IfOk result (λ v. v.items ≡ map (table_value table.now) (argument_lists (domain_in universes.now domain.now))) }
{
    match table {
        Table::Same(value) => vec![in alloc; *value; lists],
        Table::Entries(entries) => {
            let mut values = vec![in alloc; Word::undef(); lists]?;
            let entries = entries.as_slice();
            for i in 0..entries.len() {
                let (arguments, value) = &entries[entries.len() - 1 - i];
                if let Some(k) = list_position(universes, domain, arguments.as_slice()) {
                    values[k] = *value;
                }
            }
            Ok(values)
        }
    }
}

impl Layout {
    /// The layout of these functions over these universes.
    pub(crate) fn of(
        alloc: Global,
        universes: &[Universe],
        functions: &[Function],
    ) -> Result<Layout, AllocError>
        requires { Fits (record { universes = universes.now; functions = functions.now }) }
        ensures { IfOk result (IsLayoutOf (record { universes = universes.now; functions = functions.now })) }
    {
        check_universes(universes);
        let mut layout = Layout {
            extents: Vec::with_capacity(alloc, functions.len())?,
            owners: Vec::new(alloc),
            initial: Vec::new(alloc),
            given: Vec::new(alloc),
        };
        for f in 0..functions.len() {
            layout.push(alloc, universes, f, &functions[f])?;
        }
        Ok(layout)
    }

    /// Adds the function with the next number.
    fn push(
        &mut self,
        alloc: Global,
        universes: &[Universe],
        f: usize,
        function: &Function,
    ) -> Result<(), AllocError>
        requires domain { IsDomainOf universes.now function.now.domain }
        requires sound { All IsUniverse universes.now }
        ensures { OnOk result (IsNext universes.now f function.now self.old self.new) }
    {
        let domain = function.domain.as_slice();
        let lists = list_count(universes, domain);
        let values = table_values(alloc, universes, domain, &function.table, lists)?;
        match function.kind {
            FunctionKind::Controlled => self.push_controlled(alloc, f, lists, &values),
            FunctionKind::Static => self.push_static(lists, &values),
        }
    }

    fn push_controlled(
        &mut self,
        alloc: Global,
        f: usize,
        lists: usize,
        values: &[Word],
    ) -> Result<(), AllocError>
        requires { lists < 2 ^ 63 }
        ensures extents { OnOk result (self.new.extents.items ≡ self.old.extents.items ++ record { start = length self.old.initial.items; lists = lists } ∷ []) }
        ensures owners { OnOk result (self.new.owners.items ≡ self.old.owners.items ++ replicate (lists + 1) f) }
        ensures initial { OnOk result (self.new.initial.items ≡ self.old.initial.items ++ values.now ++ Undef ∷ []) }
        ensures given { OnOk result (self.new.given.items ≡ self.old.given.items) }
    {
        let start = self.initial.len();
        let owners = vec![in alloc; f; lists + 1]?;
        self.owners.extend_from_slice(&owners)?;
        self.initial.extend_from_slice(values)?;
        self.initial.push(Word::undef())?;
        self.extents.push(Stretch { start, lists })?;
        Ok(())
    }

    fn push_static(&mut self, lists: usize, values: &[Word]) -> Result<(), AllocError>
        ensures extents { OnOk result (self.new.extents.items ≡ self.old.extents.items ++ record { start = length self.old.given.items; lists = lists } ∷ []) }
        ensures owners { OnOk result (self.new.owners.items ≡ self.old.owners.items) }
        ensures initial { OnOk result (self.new.initial.items ≡ self.old.initial.items) }
        ensures given { OnOk result (self.new.given.items ≡ self.old.given.items ++ values.now) }
    {
        let start = self.given.len();
        self.given.extend_from_slice(values)?;
        self.extents.push(Stretch { start, lists })?;
        Ok(())
    }
}

/// A universe has no value twice, and no more of them than the bound says.
pub(crate) fn check_universes(universes: &[Universe])
    ensures sound { All IsUniverse universes.now }
    ensures few { All (λ vs. length vs ≤ MAX_VALUES) universes.now }
{
    for universe in universes {
        let _size = universe.size();
    }
}
