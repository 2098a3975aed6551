//! Elements of enumerations.
ghost use Rattle.std.specs.Prelude.{◌<◌};
ghost use Rattle.asm_state.specs.declared.element.TheConstants.{MAX_ELEMENTS};

/// How many elements all enumerations together can have.
pub const MAX_ELEMENTS: u32 = 262_144;

/// An element of an enumeration, numbered through over all of them.
#[derive(Clone, Copy, Debug, PartialEq, Eq)]
pub struct Element {
    pub index: u32,
    pub ghost in_range: { index < MAX_ELEMENTS },
}
