//! How a search has ended, when deadlocks have been looked for among its last states.
ghost use Rattle.std.specs.Prelude.{◌≡◌};
ghost use Rattle.asm_explore.specs.code.Deadlocks.{before, safe_of};
ghost use Rattle.asm_explore.specs.code.SettledEnds.{IsLastEnd, IsSettled, comes_first};

use crate::fault::Fault;
use crate::search_result::{BadStep, SearchEnd};
use crate::states::deadlocks::Deadlocks;
use std::alloc::Global;

/// How a search has ended, and up to how many steps it is safe, if any.
#[derive(Drop)]
pub(crate) struct Settled {
    pub ended: SearchEnd,
    pub safe: Option<u32>,
}

/// One step less, if there is one.
pub(crate) fn before(whole: u32) -> Option<u32>
    ensures { result ≡ before whole }
{
    if whole == 0 { None } else { Some(whole - 1) }
}

/// Up to how many steps a search is safe, when this is known of the states that `whole` steps lead
/// to.
fn safe_to(deadlocks: &Deadlocks, whole: u32) -> Option<u32>
    ensures { result ≡ safe_of whole deadlocks.now }
{
    match deadlocks {
        Deadlocks::None => Some(whole),
        _ => before(whole),
    }
}

/// The end of a search that nothing has ended before the limit of steps, when this is known of the
/// states there.
fn last_end(alloc: Global, deadlocks: Deadlocks) -> SearchEnd
    ensures { IsLastEnd deadlocks result }
{
    match deadlocks {
        Deadlocks::None => SearchEnd::AtLimit,
        Deadlocks::At(from) => SearchEnd::BadStep(BadStep {
            from,
            choices: Vec::new(alloc),
            fault: Fault::Deadlock,
        }),
        Deadlocks::Unknown(_, crowd) => SearchEnd::TooManyOutcomes(crowd),
        Deadlocks::NoMemory => SearchEnd::Memory,
    }
}

/// Whether what is known of the last states comes before what has ended the search. A fault of the
/// next step is behind each deadlock, and so it isn't told while none is ruled out for lack of
/// memory.
fn comes_first(ended: &SearchEnd, last: &SearchEnd) -> bool
    ensures { result ≡ comes_first ended.now last.now }
{
    match ended {
        SearchEnd::AtLimit => true,
        SearchEnd::BadStep(_) => {
            !matches!(last, SearchEnd::AtLimit | SearchEnd::TooManyOutcomes(_))
        }
        _ => matches!(last, SearchEnd::BadStep(_)),
    }
}

/// How a search has ended that has ended so, when this is known of the states that `whole` steps
/// lead to. A deadlock comes before what else has ended it.
pub(crate) fn settle(alloc: Global, ended: SearchEnd, deadlocks: Deadlocks, whole: u32) -> Settled
    ensures { IsSettled ended deadlocks whole result }
{
    let safe = safe_to(&deadlocks, whole);
    let last = last_end(alloc, deadlocks);
    if comes_first(&ended, &last) {
        return Settled { ended: last, safe };
    }
    Settled { ended, safe }
}
