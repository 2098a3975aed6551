//! Machines whose steps are looked at ahead by a function.
ghost use Rattle.asm_explore.specs.code.StepsAhead.{AreAhead};
ghost use Rattle.asm_explore_workers.specs.code.Lists.{LooksAtThem, TakesStates};

use asm_explore::{Choice, Index, Listed, Machine, Nodes, SearchError, StepAhead};
use asm_state::signature::Signature;
use asm_state::state::State;
use std::alloc::{AllocError, Global};

/// What is known of the steps from some states.
type Steps = Vec<Option<StepAhead>>;

/// It, if there is memory for it.
type MaybeSteps = Result<Steps, AllocError>;

/// A machine, but its steps are looked at ahead by a function, which takes `batch` states at once.
/// It may start threads.
#[derive(Drop)]
pub struct LooksAheadBy<'a, M, F> {
    pub machine: &'a M,
    pub list: &'a F,
    pub batch: usize,
}

impl<'a, M: Machine, F: Fn(Global, &[State], &Nodes, &Index) -> MaybeSteps> Machine
    for LooksAheadBy<'a, M, F> {
    ghost specification = { λ by. M.specification by.machine.now };

    ghost turns = { λ by. M.turns by.machine.now };

    ghost shape = { λ by. M.shape by.machine.now };

    ghost made = { λ by. M.made by.machine.now };

    ghost limit = { λ by. M.limit by.machine.now };

    ghost right = { λ by. M.right by.machine.now };

    ghost within = { λ by. M.within by.machine.now };

    ghost rests = { λ by. M.rests by.machine.now };

    ghost is_sound = { λ by. let m = by.machine.now in
        M.is_sound m × TakesStates (M.shape m) (F.pre by.list.now) × LooksAtThem (AreAhead (M.shape m) (M.specification m) (M.turns m)) (F.post by.list.now) };

    fn signature(&self) -> &Signature {
        self.machine.signature()
    }

    fn batch(&self) -> usize {
        self.batch
    }

    fn outcomes(&self, alloc: Global, state: &State) -> Listed {
        self.machine.outcomes(alloc, state)
    }

    fn is_quiet(&self, alloc: Global, state: &State) -> Result<bool, SearchError> {
        self.machine.is_quiet(alloc, state)
    }

    fn ahead(
        &self,
        alloc: Global,
        states: &[State],
        nodes: &Nodes,
        index: &Index,
    ) -> Result<Vec<Option<StepAhead>>, AllocError> {
        (self.list)(alloc, states, nodes, index)
    }

    fn chosen_text(
        &self,
        alloc: Global,
        back: &[Vec<Choice>],
        steps: u32,
    ) -> Result<Option<String>, AllocError> {
        self.machine.chosen_text(alloc, back, steps)
    }

    fn is_right(&self, alloc: Global, state: &State) -> bool {
        self.machine.is_right(alloc, state)
    }

    fn is_within(&self, alloc: Global, state: &State) -> bool {
        self.machine.is_within(alloc, state)
    }

    fn may_rest(&self, alloc: Global, state: &State) -> bool {
        self.machine.may_rest(alloc, state)
    }
}
