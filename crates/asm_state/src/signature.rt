//! The signature: which universes, functions and locations there are, by number.
//!
//! The time that `number_of` and `location` take depends only on the number of arguments, which is
//! 4 at most, and `stray` takes constant time. A read calls `proper_number`, which finds out
//! whether the arguments are in the domain while it numbers them, so the read needn't call `stray`.
//! The initial contents and the values of static functions are computed once, when the signature is
//! built (`layout`).
ghost use Rattle.std.specs.Prelude.{◌≡◌, ◌<◌, ◌≤◌, Some, IsTrue, IfOk, IfSome, IfNone, length, map, slice_get};
ghost use Rattle.asm_state.specs.declared.signature_limits.TheConstants.{MAX_LOCATIONS};
ghost use Rattle.asm_state.specs.declared.function.FunctionKind.TheVariants.{Controlled, Static};
ghost use Rattle.asm_state.specs.code.FirstLocations.{first_of};
ghost use Rattle.asm_state.specs.SignatureLimits.{Fits};
ghost use Rattle.asm_state.specs.Location.{Stray};
ghost use Rattle.asm_state.specs.code.CodeLocations.{location_of};
ghost use Rattle.asm_state.specs.Signature.{Shape, IsSound, HasKind, domain_of, functions_of, locations, count_of, location_at, number_at, initial_state, held_value};
ghost use Rattle.asm_state.specs.Tables.{location_in};
ghost use Rattle.asm_state.specs.Updates.{is_proper};

use crate::argument_lists::{list_position, push_list};
use crate::arguments::Arguments;
use crate::function::Function;
use crate::layout::Layout;
use crate::location::Location;
use crate::universe::Universe;
use crate::word::Word;
use std::alloc::{AllocError, Global};
use std::marker::Model;

/// The universes and the controlled and static functions, in the order of their declaration. They
/// go by their numbers in it.
#[derive(Debug, Drop)]
pub struct Signature {
    universes: Vec<Universe>,
    functions: Vec<Function>,
    layout: Layout,
}

impl Model for Signature {
    ghost use Rattle.asm_state.specs.Signature.{Shape};

    ghost Value = { Shape };

    ghost use Rattle.asm_state.specs.code.Layout.{IsLayoutOf};

    ghost view = { λ s. record { universes = s.universes.items; functions = s.functions.items } };

    ghost invariant = { λ s. IsLayoutOf (record { universes = s.universes.items; functions = s.functions.items }) s.layout };
}

impl Signature {
    pub fn build(
        alloc: Global,
        universes: Vec<Universe>,
        functions: Vec<Function>,
    ) -> Result<Signature, AllocError>
        requires { Fits (record { universes = universes.items; functions = functions.items }) }
        ensures { IfOk result (λ s. s ≡ record { universes = universes.items; functions = functions.items }) }
    {
        let layout = Layout::of(alloc, &universes, &functions)?;
        Ok(Signature {
            universes,
            functions,
            layout,
        })
    }

    /// The universe with this number.
    pub fn universe(&self, n: usize) -> &Universe
        requires { n < length self.now.universes }
        ensures { slice_get self.now.universes n ≡ Some result.now }
    {
        &self.universes[n]
    }

    /// How many functions there are.
    pub fn functions(&self) -> usize
        ensures functions { result ≡ functions_of self.now }
        ensures few { result ≤ 256 }
    {
        self.functions.len()
    }

    /// The function with this number.
    pub fn function(&self, f: usize) -> &Function
        requires { f < functions_of self.now }
        ensures { slice_get self.now.functions f ≡ Some result.now }
    {
        &self.functions[f]
    }

    /// How many locations there are, stray ones with them.
    pub fn count(&self) -> usize
        ensures count { result ≡ count_of self.now }
        ensures few { result ≤ MAX_LOCATIONS }
        ensures sound { IsSound self.now }
    {
        self.layout.owners.len()
    }

    /// The number of the location of a controlled function with these arguments: the stray one if
    /// they are outside its domain.
    pub fn number_of(&self, f: usize, arguments: &[Word]) -> usize
        requires { HasKind Controlled self.now f }
        ensures number { result ≡ number_at self.now (location_in f (domain_of self.now f) arguments.now) }
        ensures location { location_at self.now result ≡ location_in f (domain_of self.now f) arguments.now }
        ensures in_range { result < count_of self.now }
    {
        let extent = self.layout.extents[f];
        let domain = self.functions[f].domain.as_slice();
        let list = list_position(&self.universes, domain, arguments);
        extent.start + list.unwrap_or(extent.lists)
    }

    /// The number of the location of a controlled function with these arguments, if they are in its
    /// domain.
    pub fn proper_number(&self, f: usize, arguments: &[Word]) -> Option<usize>
        requires { HasKind Controlled self.now f }
        ensures some { let l = location_in f (domain_of self.now f) arguments.now in
            IfSome result (λ n. (n ≡ number_at self.now l) × (n < count_of self.now) × IsTrue (is_proper l)) }
        ensures none { IfNone result (location_in f (domain_of self.now f) arguments.now ≡ Stray f) }
    {
        let extent = self.layout.extents[f];
        let domain = self.functions[f].domain.as_slice();
        let list = list_position(&self.universes, domain, arguments)?;
        Some(extent.start + list)
    }

    /// The number of the first location of a controlled function. Its others have the numbers after
    /// it: first those with arguments, in order, and then the stray one.
    pub fn first(&self, f: usize) -> usize
        requires { HasKind Controlled self.now f }
        ensures { result ≡ first_of self.now f }
    {
        self.layout.extents[f].start
    }

    /// The number of the stray location of a controlled function.
    pub fn stray_number(&self, f: usize) -> usize
        requires { HasKind Controlled self.now f }
        ensures number { result ≡ number_at self.now (Stray f) }
        ensures location { location_at self.now result ≡ Stray f }
        ensures in_range { result < count_of self.now }
    {
        let extent = self.layout.extents[f];
        extent.start + extent.lists
    }

    /// The location with this number.
    pub fn location(&self, alloc: Global, n: usize) -> Result<Location, AllocError>
        requires { n < count_of self.now }
        ensures { IfOk result (λ location. location_of location ≡ location_at self.now n) }
    {
        let function = self.layout.owners[n];
        let extent = self.layout.extents[function];
        let list = n - extent.start;
        if list == extent.lists {
            return Ok(Location::Stray { function });
        }
        let domain = self.functions[function].domain.as_slice();
        let mut arguments = Vec::with_capacity(alloc, domain.len())?;
        push_list(&self.universes, domain, list, &mut arguments)?;
        Ok(Location::Proper {
            function,
            arguments: Arguments::new(arguments),
        })
    }

    /// The function whose stray location has this number, if it is that of one.
    pub fn stray(&self, n: usize) -> Option<usize>
        requires { n < count_of self.now }
        ensures stray { IfSome result (λ f. location_at self.now n ≡ Stray f) }
        ensures proper { IfNone result (IsTrue (is_proper (location_at self.now n))) }
    {
        let function = self.layout.owners[n];
        let extent = self.layout.extents[function];
        if n - extent.start == extent.lists {
            Some(function)
        } else {
            None
        }
    }

    /// The value of a static function, which is `Undef` outside its domain.
    pub fn given(&self, f: usize, arguments: &[Word]) -> Word
        requires { HasKind Static self.now f }
        ensures { result ≡ held_value self.now f arguments.now }
    {
        let extent = self.layout.extents[f];
        let domain = self.functions[f].domain.as_slice();
        match list_position(&self.universes, domain, arguments) {
            Some(list) => self.layout.given[extent.start + list],
            None => Word::undef(),
        }
    }

    /// The initial contents of all locations, by their numbers.
    pub(crate) fn initial(&self) -> &[Word]
        ensures contents { result.now ≡ map (initial_state self.now) (locations self.now) }
        ensures sound { IsSound self.now }
    {
        self.layout.initial.as_slice()
    }
}
