//! The names of a frame's positions, while terms and rules are resolved.
//!
//! A scope is linked as a frame is. A use of a name takes one step for each binder inside of the
//! name's own; among more than eight parameters it is then looked up in a map (`Parameters`).
ghost use Rattle.std.specs.Prelude.{◌≡◌, IfOk};
ghost use Rattle.asm_resolve.specs.code.Scopes.{names_of, slots_of};
ghost use Rattle.asm_resolve.specs.code.Slots as slots;
ghost use Rattle.asm_resolve.specs.code.Slots.{found_from};

use crate::parameters::{Parameters, behind};
use asm_syntax::name::Name;
use std::alloc::AllocError;

/// What has a position, from the innermost one on. It refers to what it extends, so that a binder
/// copies nothing.
#[derive(Clone, Copy)]
pub enum Scope<'a> {
    Empty,
    /// One name more, in front, which stands for a value or for a term.
    Within {
        name: &'a Name,
        outer: &'a Scope<'a>,
    },
    /// The parameters of a body.
    Called(&'a Parameters<'a>),
}

/// The position of a name, which is that of the first of its text.
pub(crate) fn position<'a>(scope: &'a Scope<'a>, name: &Name) -> Result<Option<usize>, AllocError>
    ensures { IfOk result (λ o. o ≡ slots.position_of (names_of scope.now) name.now.text) }
{
    match find(scope, name)? {
        None => Ok(None),
        Some((position, _)) => Ok(Some(position)),
    }
}

/// The same if the first of its text stands for a location.
pub(crate) fn result_position<'a>(
    scope: &'a Scope<'a>,
    name: &Name,
) -> Result<Option<usize>, AllocError>
    ensures { IfOk result (λ o. o ≡ slots.result_position (slots_of scope.now) name.now.text) }
{
    match find(scope, name)? {
        None => Ok(None),
        Some((position, is_located)) => {
            if is_located {
                return Ok(Some(position));
            }
            Ok(None)
        }
    }
}

/// The position of a name, and whether the name stands for a location there.
fn find<'a>(scope: &'a Scope<'a>, name: &Name) -> Result<Option<(usize, bool)>, AllocError>
    ensures { IfOk result (λ o. o ≡ found_from 0 (slots_of scope.now) name.now.text) }
{
    let mut rest = scope;
    let mut before = 0;
    while let Scope::Within { name: inner, outer } = rest {
        if inner.text.is_same_text(&name.text) {
            return Ok(Some((before, false)));
        }
        before = behind(before, 1)?;
        rest = outer;
    }
    match *rest {
        Scope::Empty | Scope::Within { .. } => Ok(None),
        Scope::Called(parameters) => parameters.find(before, name),
    }
}
