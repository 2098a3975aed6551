//! A walk along the candidates of a `choose`.
ghost use Rattle.std.specs.Prelude.{◌≡◌};
ghost use Rattle.asm_eval.specs.code.FoundCandidates.{found_candidate};

use asm_state::universe::Universe;
use asm_state::word::Word;

/// Where a walk along the candidates ends.
#[derive(Clone, Copy)]
pub enum FoundCandidate {
    /// At the candidate that was looked for.
    At(Word),
    /// After the last one: there are that many.
    TooFew(u64),
}

/// Walks to the element with this number, if all are candidates.
pub fn element_at(universe: &Universe, number: u64) -> FoundCandidate
    ensures { result ≡ found_candidate number universe.now }
{
    let size = universe.size() as u64;
    if number < size {
        FoundCandidate::At(universe.element(number as usize))
    } else {
        FoundCandidate::TooFew(size)
    }
}
