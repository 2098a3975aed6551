//! Laws of traces and of refusals.
ghost use Rattle.asm_run.specs.code.Traces.{LineOfEnd, OneTrace, SomeTrace};
ghost use Rattle.asm_run.specs.ResultsTell.{ResultsTell};
ghost use Rattle.asm_run.specs.code.Exclusion.{OneNamedRefusal, NoRunBesideARefusal, RunOrRefusal};

use asm_check::laws::{least_exists, least_is_only};
use asm_reader::{
    no_script_beside_a_refusal, no_tree_beside_a_refusal, one_refusal, one_script_refusal,
    one_tree, script_or_a_refusal, tree_or_a_refusal,
};

/// A run has one trace at most.
pub fn one_trace()
    ensures { OneTrace }
{}

/// Each run of a specification has a trace.
pub fn some_trace()
    ensures { SomeTrace }
{}

/// The end that a run returns, in words and with its step, is the line of it in the trace.
pub fn line_of_end()
    ensures { LineOfEnd }
{}

/// A text, a script and limits have one refusal at most that is of one of them.
pub fn one_named_refusal()
    ensures { OneNamedRefusal }
{
    one_tree();
    no_tree_beside_a_refusal();
    one_refusal();
    least_is_only();
    no_script_beside_a_refusal();
    one_script_refusal();
}

/// A text, a script and limits that have a run have no such refusal.
pub fn no_run_beside_a_refusal()
    ensures { NoRunBesideARefusal }
{
    one_tree();
    no_tree_beside_a_refusal();
    no_script_beside_a_refusal();
}

/// Each text, script and limits have a run, with its trace, or such a refusal.
pub fn run_or_refusal()
    ensures { RunOrRefusal }
{
    tree_or_a_refusal();
    least_exists();
    script_or_a_refusal();
}

/// The result of a run says whether it makes all its steps, ends before, or is one of a text that
/// is refused.
pub fn results_tell()
    ensures { ResultsTell }
{}
