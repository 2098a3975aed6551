//! Regions worked by many workers.
ghost use Rattle.std.specs.Prelude.{◌≡◌, [], length, IfErr, IfOk, IsTrue, OnOk};
ghost use Rattle.asm_state.specs.Signature.{count_of};
ghost use Rattle.asm_eval.specs.code.FormedOutcomes.{Follows, IsFormed, IsSet, IsStoppedAt};
ghost use Rattle.asm_code.specs.code.RuleMeaning.{IsSoundRule};
ghost use Rattle.asm_code.specs.code.RuleViews.{rule_of};
ghost use Rattle.asm_eval.specs.code.Frames.{IsSoundFrame};
ghost use Rattle.asm_eval.specs.code.Regions.{IsFormedOrLeft};
ghost use Rattle.asm_eval.specs.code.Evaluation.{HasLocations, rule_at, rule_shown, evaluation_shape};
ghost use Rattle.asm_limits.specs.Limits.{are_in_range};
ghost use Rattle.asm_step.specs.code.Steps.{HasMainRule, shape_in, step_in};

use crate::add_set::add_set;
use crate::region::work_region;
use crate::rounds::Cutting;
use crate::work_budget::{is_little, may_be_shared};
use asm_code::rule_code::RuleCode;
use asm_eval::evaluation::Evaluation;
use asm_eval::form::form;
use asm_eval::frame::Frame;
use asm_eval::piece::Piece;
use asm_eval::regions::{FormedBy, OnThisThread, RegionOutcome};
use asm_eval::rule_outcome::whole;
use asm_eval::{Choices, Forming, Outcome, Part, Path, Stopped, View};
use asm_limits::run_limits::Limits;
use asm_pool::{Gate, PoolError};
use asm_reader::Picks;
use asm_state::signature::Signature;
use asm_state::state::State;
use asm_step::{ResolvedSpecification, form_step};
use std::alloc::{AllocError, Global};
use std::thread::Threads;

/// Works a region by many workers: in `rounds` rounds it is cut into pieces, which the workers
/// share.
#[derive(Drop)]
pub struct Pooled<'r, R, G> {
    rt: &'r R,
    gate: &'r G,
    shares: Cutting,
}

impl<'r, R: Threads + Sync, G: Gate + Sync> Pooled<'r, R, G> {
    /// As many workers, elements of a piece and rounds as the limits say.
    pub fn new(rt: &'r R, limits: &Limits, gate: &'r G) -> Pooled<'r, R, G>
        requires { IsTrue (are_in_range limits.now) }
    {
        Pooled {
            rt,
            gate,
            shares: Cutting {
                workers: limits.workers as usize,
                cut: limits.cut as usize,
                rounds: limits.rounds,
            },
        }
    }

    /// The same for runs of this rule alone: if no region that it comes to may be worth a thread,
    /// one worker does all of it. If there is one round of opening at most, nothing changes.
    pub(crate) fn for_rule(self, signature: &Signature, rule: &RuleCode) -> Pooled<'r, R, G>
        requires { IsSoundRule signature.now (rule_of rule.now) }
    {
        let Pooled { rt, gate, shares } = self;
        if shares.rounds <= 1 || may_be_shared(signature, rule) {
            return Pooled { rt, gate, shares };
        }
        let Cutting { cut, rounds, .. } = shares;
        let shares = Cutting {
            workers: 1,
            cut,
            rounds,
        };
        Pooled { rt, gate, shares }
    }

    /// What the rule yields at this path, under the frame: the rule is one region, which the
    /// workers share.
    pub fn region<'e, P: Picks + Sync>(
        &self,
        alloc: Global,
        evaluation: &Evaluation<'_, '_, P>,
        frame: &'e Frame<'e>,
        rule: &'e RuleCode,
        path: &[u64],
    ) -> Result<Outcome, AllocError>
        requires sound { IsSoundRule (evaluation_shape evaluation.now) (rule_of rule.now) }
        requires framed { IsSoundFrame (evaluation_shape evaluation.now) frame.now }
        ensures { IfOk result (IsFormed (evaluation_shape evaluation.now) (rule_at evaluation.now frame.now path.now (rule_of rule.now))) }
    {
        if self.shares.workers == 1 || self.is_formed_here(evaluation.view.signature, rule) {
            return whole(alloc, evaluation, frame, rule, path);
        }
        self.work(alloc, evaluation, frame, rule, path)
    }

    /// What the rule yields at this path, as `whole` returns it. The workers share each of its
    /// regions, and this thread does the rest.
    pub fn outcome<'e, P: Picks + Sync>(
        &self,
        alloc: Global,
        evaluation: &Evaluation<'_, '_, P>,
        frame: &'e Frame<'e>,
        rule: &'e RuleCode,
        path: &[u64],
    ) -> Result<Outcome, AllocError>
        requires sound { IsSoundRule (evaluation_shape evaluation.now) (rule_of rule.now) }
        requires framed { IsSoundFrame (evaluation_shape evaluation.now) frame.now }
        ensures { IfOk result (IsFormed (evaluation_shape evaluation.now) (rule_at evaluation.now frame.now path.now (rule_of rule.now))) }
    {
        let mut forming = Forming::at(alloc, evaluation.view.signature, path)?;
        let formed = self.form(alloc, evaluation, frame, rule, &mut forming);
        forming.into_outcome(formed)
    }

    /// Forms what the rule yields at the path where the evaluation is, as `form` does. The
    /// workers share each of its regions, and this thread does the rest.
    pub fn form<'e, P: Picks + Sync>(
        &self,
        alloc: Global,
        evaluation: &Evaluation<'_, '_, P>,
        frame: &'e Frame<'e>,
        rule: &'e RuleCode,
        forming: &mut Forming,
    ) -> Result<(), Stopped>
        requires sound { IsSoundRule (evaluation_shape evaluation.now) (rule_of rule.now) }
        requires framed { IsSoundFrame (evaluation_shape evaluation.now) frame.now }
        requires fits { HasLocations evaluation.now forming.old }
        ensures { Follows (evaluation_shape evaluation.now) (rule_at evaluation.now frame.now forming.old.path.items (rule_of rule.now)) forming.old forming.new result }
    {
        if self.shares.workers == 1 {
            return form(alloc, &mut OnThisThread, evaluation, frame, rule, forming);
        }
        let (rt, gate, shares) = (self.rt, self.gate, self.shares);
        let regions = |alloc: Global, view: &View<'_>, choices: &Choices<
            '_,
            P,
        >, turns: u32, frame: &Frame<'_>, rule: &RuleCode, forming: &mut Forming| -> Result<
            RegionOutcome,
            Stopped,
        >
            requires sound { IsSoundRule view.now.signature.now (rule_of rule.now) }
            requires framed { IsSoundFrame view.now.signature.now frame.now }
            requires fits { forming.old.set.count ≡ count_of view.now.signature.now }
            ensures { IsFormedOrLeft view.now.signature.now (rule_shown P.script view.now choices.now turns frame.now forming.old.path.items (rule_of rule.now)) forming.old forming.new result }
        {
            let pooled = Pooled { rt, gate, shares };
            pooled.take_region(alloc, view, choices, turns, frame, rule, forming)
        };
        let mut by = FormedBy { form: &regions };
        form(alloc, &mut by, evaluation, frame, rule, forming)
    }

    /// Forms what the step from a state yields, as `form_step` does. The workers share each of its
    /// regions, and this thread does the rest.
    pub(crate) fn form_step<P: Picks + Sync>(
        &self,
        alloc: Global,
        resolved: &ResolvedSpecification<'_>,
        choices: &Choices<'_, P>,
        state: &State,
        forming: &mut Forming,
    ) -> Result<(), Stopped>
        requires main { HasMainRule resolved.now }
        requires whole { length state.now ≡ count_of (shape_in resolved.now) }
        requires fits { forming.old.set.count ≡ count_of (shape_in resolved.now) }
        ensures count { forming.new.set.count ≡ forming.old.set.count }
        ensures formed { OnOk result (IsSet (shape_in resolved.now) (step_in resolved.now (P.script choices.now.script.now) choices.now.step state.now) forming.new.set forming.new.instances) }
        ensures path { OnOk result (forming.new.path.items ≡ []) }
        ensures exhausted { IfErr result (IsStoppedAt (step_in resolved.now (P.script choices.now.script.now) choices.now.step state.now) forming.new.path.items) }
    {
        if self.shares.workers == 1 {
            return form_step(alloc, &mut OnThisThread, resolved, choices, state, forming);
        }
        let (rt, gate, shares) = (self.rt, self.gate, self.shares);
        let regions = |alloc: Global, view: &View<'_>, choices: &Choices<
            '_,
            P,
        >, turns: u32, frame: &Frame<'_>, rule: &RuleCode, forming: &mut Forming| -> Result<
            RegionOutcome,
            Stopped,
        >
            requires sound { IsSoundRule view.now.signature.now (rule_of rule.now) }
            requires framed { IsSoundFrame view.now.signature.now frame.now }
            requires fits { forming.old.set.count ≡ count_of view.now.signature.now }
            ensures { IsFormedOrLeft view.now.signature.now (rule_shown P.script view.now choices.now turns frame.now forming.old.path.items (rule_of rule.now)) forming.old forming.new result }
        {
            let pooled = Pooled { rt, gate, shares };
            pooled.take_region(alloc, view, choices, turns, frame, rule, forming)
        };
        let mut by = FormedBy { form: &regions };
        form_step(alloc, &mut by, resolved, choices, state, forming)
    }

    /// Forms a region, as a function by which regions are formed. It leaves none.
    fn take_region<'e, P: Picks + Sync>(
        &self,
        alloc: Global,
        view: &View<'_>,
        choices: &Choices<'_, P>,
        turns: u32,
        frame: &'e Frame<'e>,
        rule: &'e RuleCode,
        forming: &mut Forming,
    ) -> Result<RegionOutcome, Stopped>
        requires sound { IsSoundRule view.now.signature.now (rule_of rule.now) }
        requires framed { IsSoundFrame view.now.signature.now frame.now }
        requires fits { forming.old.set.count ≡ count_of view.now.signature.now }
        ensures { IsFormedOrLeft view.now.signature.now (rule_shown P.script view.now choices.now turns frame.now forming.old.path.items (rule_of rule.now)) forming.old forming.new result }
    {
        let evaluation = Evaluation {
            view,
            choices,
            turns,
        };
        self.form_region(alloc, &evaluation, frame, rule, forming)?;
        Ok(RegionOutcome::Formed)
    }

    /// Whether a region takes so little work that it isn't shared. If there is one round of
    /// opening at most, each region is.
    fn is_formed_here(&self, signature: &Signature, rule: &RuleCode) -> bool
        requires { IsSoundRule signature.now (rule_of rule.now) }
    {
        self.shares.rounds > 1 && is_little(signature, rule)
    }

    /// Forms what a region yields at the path where the evaluation is, by rounds of workers.
    fn form_region<'e, P: Picks + Sync>(
        &self,
        alloc: Global,
        evaluation: &Evaluation<'_, '_, P>,
        frame: &'e Frame<'e>,
        rule: &'e RuleCode,
        forming: &mut Forming,
    ) -> Result<(), Stopped>
        requires sound { IsSoundRule (evaluation_shape evaluation.now) (rule_of rule.now) }
        requires framed { IsSoundFrame (evaluation_shape evaluation.now) frame.now }
        requires fits { HasLocations evaluation.now forming.old }
        ensures { Follows (evaluation_shape evaluation.now) (rule_at evaluation.now frame.now forming.old.path.items (rule_of rule.now)) forming.old forming.new result }
    {
        if self.is_formed_here(evaluation.view.signature, rule) {
            return form(alloc, &mut OnThisThread, evaluation, frame, rule, forming);
        }
        let outcome = self.work(alloc, evaluation, frame, rule, forming.path.as_slice())?;
        match outcome {
            Outcome::Set { set, instances } => add_set(forming, set, instances),
            Outcome::Exhausted(path) => {
                forming.path = path.into_vec();
                Err(Stopped::Exhausted)
            }
        }
    }

    /// What the rule yields at this path, by rounds of workers.
    fn work<'a, P: Picks + Sync>(
        &self,
        alloc: Global,
        evaluation: &'a Evaluation<'a, 'a, P>,
        frame: &'a Frame<'a>,
        rule: &'a RuleCode,
        path: &[u64],
    ) -> Result<Outcome, AllocError>
        requires sound { IsSoundRule (evaluation_shape evaluation.now) (rule_of rule.now) }
        requires framed { IsSoundFrame (evaluation_shape evaluation.now) frame.now }
        ensures { IfOk result (IsFormed (evaluation_shape evaluation.now) (rule_at evaluation.now frame.now path.now (rule_of rule.now))) }
    {
        let mut pieces = Vec::with_capacity(alloc, 1)?;
        pieces.push(Piece {
            rule,
            frame: *frame,
            path: Path::new(path.to_vec(alloc)?),
            part: Part::Whole,
        })?;
        match work_region(
            self.rt,
            alloc,
            &*evaluation,
            self.shares,
            pieces.as_slice(),
            self.gate,
        ) {
            Ok(outcome) => Ok(outcome),
            Err(PoolError::Memory) => Err(AllocError),
        }
    }
}
