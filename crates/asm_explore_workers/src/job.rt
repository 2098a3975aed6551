//! What the steps from some states lead to, as a job of a pool.
ghost use Rattle.std.specs.Prelude.{◌≡◌, ◌<◌, ◌^◌, length};
ghost use Rattle.asm_syntax.specs.code.Views.{spec_of};
ghost use Rattle.asm_check.specs.Shapes.{shape_of};
ghost use Rattle.asm_code.specs.code.RuleViews.{rule_of};
ghost use Rattle.asm_state.specs.code.Contents.{IsStateOf};
ghost use Rattle.asm_state.specs.Signature.{count_of};
ghost use Rattle.asm_explore.specs.code.OutcomeLists.{Each};
ghost use Rattle.asm_explore_workers.specs.code.Batches.{IsAheadOf, IsMainCode, IsTask, LooksAhead};

use asm_check::Checked;
use asm_code::rule_code::RuleCode;
use asm_explore::specification::step_ahead;
use asm_explore::{Index, Nodes, ResolvedQuestion, StepAhead};
use asm_pool::Job;
use asm_state::state::State;
use std::alloc::Global;

/// How many states a worker has kept.
#[derive(Clone, Copy, Debug)]
pub struct Tally {
    pub states: usize,
}

impl Tally {
    /// Counts the states of one more step.
    fn count(&mut self, ahead: &Option<StepAhead>) {
        let more = match ahead {
            Some(ahead) => ahead.states.len(),
            None => 0,
        };
        self.states = self.states.saturating_add(more);
    }
}

/// The steps of a resolved specification from some states. A task has the number of its state.
#[derive(Clone, Copy)]
pub struct StepsJob<'a, 's> {
    pub alloc: Global,
    pub checked: &'a Checked,
    /// The code of the main rule.
    pub code: &'a RuleCode,
    pub turns: u32,
    /// How many outcomes of a step may be listed.
    pub limit: usize,
    pub states: &'s [State],
    /// What is reached.
    pub nodes: &'s Nodes,
    /// Where the nodes are.
    pub index: &'s Index,
    /// A worker that has kept this many states looks at the first step alone.
    pub room: usize,
    pub ghost turns_in_range: { turns < 2 ^ 32 },
}

/// What the step from a state leads to.
fn look_from(job: &StepsJob<'_, '_>, state: &State) -> Option<StepAhead>
    requires main { IsMainCode job.now.checked.now (rule_of job.now.code.now) }
    requires state { IsStateOf (shape_of (spec_of job.now.checked.now.spec)) state.now }
    requires nodes { Each (λ n. length n.state ≡ count_of (shape_of (spec_of job.now.checked.now.spec))) job.now.nodes.now }
    ensures { IsAheadOf job.now.checked.now job.now.turns job.now.nodes.now state.now result }
{
    let nothing = None;
    let specified = ResolvedQuestion {
        checked: job.checked,
        code: job.code,
        turns: job.turns,
        limit: job.limit,
        always: &nothing,
        within: &nothing,
        when_quiet: &nothing,
    };
    step_ahead(job.alloc, &specified, state, job.nodes, job.index)
}

impl<'a, 's> Job for StepsJob<'a, 's> {
    type Hand = Tally;

    /// What is known of the step, or nothing: the worker has kept enough.
    type Out = Option<Option<StepAhead>>;

    ghost has_task = { λ job n. IsTask job.checked.now (rule_of job.code.now) job.nodes.now job.states.now n };

    ghost takes_hand = { λ job hand. Unit {0} };

    ghost runs = { λ job n before out after. LooksAhead job.checked.now job.turns job.nodes.now job.states.now n out };

    fn run(&self, n: usize, hand: &mut Tally) -> Option<Option<StepAhead>> {
        if n > 0 && hand.states >= self.room {
            return None;
        }
        let states = self.states;
        let ahead = look_from(self, &states[n]);
        hand.count(&ahead);
        Some(ahead)
    }
}
