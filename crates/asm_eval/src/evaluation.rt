//! What stays the same while resolved rules are evaluated.
ghost use Rattle.std.specs.Prelude.{◌<◌, ◌^◌};

use crate::choices::Choices;
use crate::view::View;
use asm_reader::Picks;

/// What rules are evaluated against: what a view shows, the choices of a step, and the limit of
/// turns.
#[derive(Drop)]
pub struct Evaluation<'a, 'v, P: Picks> {
    pub view: &'a View<'v>,
    pub choices: &'a Choices<'a, P>,
    pub turns: u32,
    pub ghost turns_in_range: { turns < 2 ^ 32 },
}
