//! Who forms regions.
ghost use Rattle.std.specs.Prelude.{◌≡◌};
ghost use Rattle.asm_code.specs.code.RuleMeaning.{IsSoundRule};
ghost use Rattle.asm_code.specs.code.RuleViews.{rule_of};
ghost use Rattle.asm_eval.specs.code.Frames.{IsSoundFrame};
ghost use Rattle.asm_eval.specs.code.Regions.{IsFormedOrLeft, TakesRegions, TakesThem};
ghost use Rattle.asm_eval.specs.code.Evaluation.{HasLocations, rule_at, evaluation_shape};

use crate::choices::Choices;
use crate::evaluation::Evaluation;
use crate::frame::Frame;
use crate::outcome::Forming;
use crate::stopped::Stopped;
use crate::view::View;
use asm_code::rule_code::RuleCode;
use asm_reader::Picks;
use std::alloc::Global;

/// What became of a region.
#[derive(Clone, Copy, Debug, PartialEq, Eq)]
pub enum RegionOutcome {
    /// What it yields was formed.
    Formed,
    /// Nothing was done: the caller forms it.
    Left,
}

/// Who forms regions, which are the `par` and `forall` rules that an evaluation comes to. The work
/// of one may be shared by threads.
pub trait Regions<P: Picks> {
    /// It may be asked for regions.
    ghost is_ready: { Self → Type 0 };

    /// Forms what a region yields, as `form` does, or leaves it to the caller.
    fn region<'e>(
        &mut self,
        alloc: Global,
        evaluation: &Evaluation<'_, '_, P>,
        frame: &'e Frame<'e>,
        rule: &'e RuleCode,
        forming: &mut Forming,
    ) -> Result<RegionOutcome, Stopped>
        requires ready { is_ready self.old }
        requires sound { IsSoundRule (evaluation_shape evaluation.now) (rule_of rule.now) }
        requires framed { IsSoundFrame (evaluation_shape evaluation.now) frame.now }
        requires fits { HasLocations evaluation.now forming.old }
        ensures ready { is_ready self.new }
        ensures taken { IsFormedOrLeft (evaluation_shape evaluation.now) (rule_at evaluation.now frame.now forming.old.path.items (rule_of rule.now)) forming.old forming.new result };
}

/// Leaves each region to the evaluation itself, on its own thread.
#[derive(Clone, Copy, Debug)]
pub struct OnThisThread;

impl<P: Picks> Regions<P> for OnThisThread {
    ghost is_ready = { λ _. Unit {0} };

    #[inline(always)]
    fn region<'e>(
        &mut self,
        _alloc: Global,
        _evaluation: &Evaluation<'_, '_, P>,
        _frame: &'e Frame<'e>,
        _rule: &'e RuleCode,
        _forming: &mut Forming,
    ) -> Result<RegionOutcome, Stopped> {
        Ok(RegionOutcome::Left)
    }
}

/// Regions formed by a function. It may start threads.
#[derive(Drop)]
pub struct FormedBy<'f, F> {
    pub form: &'f F,
}

impl<
    'f,
    P: Picks,
    F: Fn(
        Global,
        &View<'_>,
        &Choices<'_, P>,
        u32,
        &Frame<'_>,
        &RuleCode,
        &mut Forming,
    ) -> Result<RegionOutcome, Stopped>,
> Regions<P> for FormedBy<'f, F> {
    ghost is_ready = { λ by. TakesRegions (F.pre by.form.now) × TakesThem P.script (F.post by.form.now) };

    fn region<'e>(
        &mut self,
        alloc: Global,
        evaluation: &Evaluation<'_, '_, P>,
        frame: &'e Frame<'e>,
        rule: &'e RuleCode,
        forming: &mut Forming,
    ) -> Result<RegionOutcome, Stopped> {
        let Evaluation {
            view,
            choices,
            turns,
            ..
        } = evaluation;
        (self.form)(alloc, view, choices, *turns, frame, rule, forming)
    }
}
