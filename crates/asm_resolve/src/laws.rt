//! Law. What the code of a rule tells and yields.
ghost use Rattle.asm_resolve.specs.code.ResolvingLaws.{ResolvingLaws};

/// A rule that is resolved when no name is bound tells what the rule does, and yields it, in each
/// state, at each path and under each script.
pub fn resolving_laws()
    ensures { ResolvingLaws }
{}
