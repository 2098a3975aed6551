//! Laws of the assignments whose updates stand at a location.
ghost use Rattle.asm_clash.specs.StandingLaws.{StandingLaws};

/// If a story gives a set, the values of each location in it are those of the assignments that
/// stand there.
pub fn standing_laws()
    ensures { StandingLaws }
{}
