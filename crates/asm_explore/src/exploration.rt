//! What stays the same while outcomes are listed.
ghost use Rattle.std.specs.Prelude.{◌<◌, ◌^◌};

use asm_eval::View;

/// What rules are explored against: what a view shows, the limit of turns, and how many outcomes
/// may be listed.
#[derive(Clone, Copy)]
pub struct Exploration<'a, 'v> {
    pub view: &'a View<'v>,
    pub turns: u32,
    pub limit: usize,
    pub ghost turns_in_range: { turns < 2 ^ 32 },
}
