//! Laws of the parts that decide.
ghost use Rattle.asm_explore_because.specs.code.PartWeights.{PartsAreLighter};
ghost use Rattle.asm_explore_because.specs.DecidingLaws.{FailsInPart, FollowsFromLine, FollowsFromPart};

use asm_meaning::laws::{
    program_declares, specifications_are_ranked, term_weights_fall, valued_by_cases,
};

/// That a condition isn't true follows from the part that decides it.
pub fn deciding_laws()
    ensures part { FollowsFromPart }
    ensures in_part { FailsInPart }
    ensures line { FollowsFromLine }
{
    valued_by_cases();
    specifications_are_ranked();
    program_declares();
    term_weights_fall();
}

/// The part that decides another one weighs less.
pub(crate) fn lighter_parts()
    ensures { PartsAreLighter }
{
    valued_by_cases();
    specifications_are_ranked();
    program_declares();
    term_weights_fall();
}
