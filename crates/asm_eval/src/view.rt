//! Views of states.
//!
//! A view borrows the state and the summaries over it, and owns nothing. A read looks for the
//! location in the summaries, from the last to the first, and then in the state. So it takes at
//! most one look-up for each summary, and each sequence or loop around the term adds one summary.
ghost use Rattle.std.specs.Prelude.{◌≡◌, ◌<◌, IsTrue, length, slice_index_or};
ghost use Rattle.asm_state.specs.declared.function.FunctionKind.TheVariants.{Controlled};
ghost use Rattle.asm_state.specs.declared.value.Value.TheVariants.{Undef};
ghost use Rattle.asm_state.specs.Signature.{HasKind, IsSound, count_of, domain_of, location_at, state_of};
ghost use Rattle.asm_state.specs.Tables.{location_in};
ghost use Rattle.asm_state.specs.Updates.{UpdateSet, IsConsistent, is_proper, overwritten, fire, none};
ghost use Rattle.asm_updates.specs.code.SummaryRanges.{summary_range};
ghost use Rattle.asm_updates.specs.code.Stands.{Stands};
ghost use Rattle.asm_eval.specs.declared.below.Below.TheVariants.{Nothing};
ghost use Rattle.asm_eval.specs.code.ShownStates.{IsUpon, content_below, shown_over};
ghost use Rattle.asm_meaning.specs.Value.{read};

use crate::below::Below;
use asm_state::signature::Signature;
use asm_state::state::State;
use asm_state::word::Word;
use asm_updates::summary::Summary;

/// A state with sets of updates over it, read as the state in which the sets have been fired one
/// after the other.
#[derive(Clone, Copy)]
pub struct View<'a> {
    pub signature: &'a Signature,
    pub state: &'a State,
    /// The sets that are fired before this view's own.
    pub below: Below<'a>,
    /// The view's own set, which is fired last.
    pub over: &'a Summary,
    ghost whole: { length state.now ≡ count_of signature.now },
    ghost counted: { over.now.count ≡ count_of signature.now },
    ghost sound: { IsSound signature.now },
}

impl<'a> View<'a> {
    /// The state with the set over it: the state itself, if the set is empty.
    pub fn new(signature: &'a Signature, state: &'a State, over: &'a Summary) -> View<'a>
        requires whole { length state.now ≡ count_of signature.now }
        requires counted { over.now.count ≡ count_of signature.now }
        ensures parts { (result.signature.now ≡ signature.now) × (result.state.now ≡ state.now) × (result.over.now ≡ over.now) }
        ensures below { result.below ≡ Nothing }
        ensures fired { (U : UpdateSet) → Stands signature.now over.now U → IsConsistent U →
            shown_over result.signature.now result.state.now result.below result.over.now ≡ fire (state_of signature.now state.now) U }
        ensures alone { Stands signature.now over.now none →
            shown_over result.signature.now result.state.now result.below result.over.now ≡ state_of signature.now state.now }
    {
        // The calls say that no universe has a value twice, and that each entry is of a location
        // below the count.
        let _count = signature.count();
        let _len = over.len();
        View {
            signature,
            state,
            below: Below::Nothing,
            over,
        }
    }

    /// What another view shows, with the set over it. Nothing is copied.
    pub fn upon(lower: &'a View<'a>, over: &'a Summary) -> View<'a>
        requires { over.now.count ≡ count_of lower.now.signature.now }
        ensures parts { (result.signature.now ≡ lower.now.signature.now) × (result.state.now ≡ lower.now.state.now) × (result.over.now ≡ over.now) }
        ensures signature { result.signature.now ≡ lower.now.signature.now }
        ensures over { result.over.now ≡ over.now }
        ensures below { IsUpon result.below lower.now.over.now lower.now.below }
        ensures fired { (U : UpdateSet) → Stands lower.now.signature.now over.now U → IsConsistent U →
            shown_over result.signature.now result.state.now result.below result.over.now
            ≡ fire (shown_over lower.now.signature.now lower.now.state.now lower.now.below lower.now.over.now) U }
    {
        // The call says that each entry is of a location below the count.
        let _len = over.len();
        View {
            signature: lower.signature,
            state: lower.state,
            below: Below::Set {
                over: lower.over,
                below: &lower.below,
            },
            over,
        }
    }

    /// What the view shows at the location with this number.
    #[inline(always)]
    pub fn content(&self, n: usize) -> Word
        requires { n < count_of self.now.signature.now }
        ensures kept { result ≡ overwritten (summary_range self.now.over.now n) (content_below self.now.below n (slice_index_or self.now.state.now n Undef)) }
        ensures shown { let l = location_at self.now.signature.now n in
            IsTrue (is_proper l) → result ≡ shown_over self.now.signature.now self.now.state.now self.now.below self.now.over.now l }
    {
        self.content_at(n)
    }

    /// What the last of the sets that names this number has there, or else the state.
    #[inline(always)]
    fn content_at(&self, n: usize) -> Word
        requires { n < count_of self.now.signature.now }
        ensures { result ≡ overwritten (summary_range self.now.over.now n) (content_below self.now.below n (slice_index_or self.now.state.now n Undef)) }
    {
        if self.over.is_empty() {
            if let Below::Nothing = self.below {
                return self.state.content(n);
            }
        }
        self.content_over(n)
    }

    /// The same if there are sets. It is called, so that a read without sets stays short where it
    /// is inlined.
    #[inline(never)]
    fn content_over(&self, n: usize) -> Word
        requires { n < count_of self.now.signature.now }
        ensures { result ≡ overwritten (summary_range self.now.over.now n) (content_below self.now.below n (slice_index_or self.now.state.now n Undef)) }
    {
        if let Some((value, _)) = self.over.get(n) {
            return value;
        }
        match self.below.content(n) {
            Some(value) => value,
            None => self.state.content(n),
        }
    }

    /// What the view shows at the location of a controlled function with these arguments: `Undef`
    /// outside the domain.
    #[tactic(auto, using(crate::proofs::ViewedLocations::read_at))]
    pub fn read(&self, f: usize, arguments: &[Word]) -> Word
        requires { HasKind Controlled self.now.signature.now f }
        ensures { let at = location_in f (domain_of self.now.signature.now f) arguments.now in
            result ≡ read (shown_over self.now.signature.now self.now.state.now self.now.below self.now.over.now) at }
    {
        match self.signature.proper_number(f, arguments) {
            None => Word::undef(),
            Some(n) => self.content(n),
        }
    }
}
