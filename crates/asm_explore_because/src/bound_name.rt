//! Names that are bound to values.
use asm_state::value_code::ValueCode;
use asm_syntax::name::Name;

/// A name that is bound to a value.
#[derive(Clone, Copy)]
pub(crate) struct BoundName<'e> {
    pub name: &'e Name,
    pub value: ValueCode,
}
