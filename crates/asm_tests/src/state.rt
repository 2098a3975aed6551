//! Values, universes and signatures: codes, positions, limits, locations by number, and the
//! contents and values at the beginning.
use crate::plain::{Plain, has_contents, value, values_of};
use crate::signatures::{Many, PlainFunction, PlainSignature, PlainTable, PlainUniverse};
use asm_state::function::FunctionKind;
use asm_state::location::Location;
use asm_state::signature::Signature;
use asm_state::word::Word;
use std::alloc::{AllocError, Global};
use std::test::Fail;

mod limits;
mod locations;
mod shown;
mod universes;
mod values;
