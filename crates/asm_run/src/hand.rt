//! What workers have for themselves while they share the pieces of a region.
ghost use Rattle.std.specs.Prelude.{◌≡◌, ◌+◌, ◌++◌, All, IfOk, OnOk, vec_len};
ghost use Rattle.asm_state.specs.Updates.{none};
ghost use Rattle.asm_updates.specs.code.Stands.{Stands};
ghost use Rattle.asm_run.specs.code.Hands.{IsNewHand, logs_of, parts_of};

use asm_eval::Forming;
use asm_state::signature::Signature;
use asm_striped::{StripeSeat, Striped};
use std::alloc::{AllocError, Global};

/// A worker's seat at the table of a region, and where it forms the set of a piece. Between two
/// pieces its set is empty, and keeps its memory for the next one.
#[derive(Drop)]
pub struct RegionHand {
    pub seat: StripeSeat,
    pub own: Forming,
}

impl RegionHand {
    /// A hand with this seat, for pieces over this signature. It takes no memory.
    pub fn new(alloc: Global, signature: &Signature, seat: StripeSeat) -> RegionHand
        ensures seat { result.seat ≡ seat }
        ensures own { Stands signature.now result.own.set none }
    {
        RegionHand {
            seat,
            own: Forming::new(alloc, signature),
        }
    }
}

/// A hand for each worker. Each has one part of the table, and has put nothing.
pub(crate) fn split_hands(
    alloc: Global,
    striped: &Striped,
    seat: &mut StripeSeat,
    signature: &Signature,
    workers: usize,
) -> Result<Vec<RegionHand>, AllocError>
    requires table { seat.old.table ≡ striped.now.table }
    requires parts { seat.old.parts ≡ workers + 1 }
    ensures table { OnOk result (seat.new.table ≡ striped.now.table) }
    ensures parts { OnOk result (seat.new.parts ≡ 1) }
    ensures log { OnOk result (seat.new.log ≡ seat.old.log) }
    ensures len { IfOk result (λ v. vec_len v ≡ workers) }
    ensures hands { IfOk result (λ v. All (IsNewHand signature.now striped.now.table) v.items) }
{
    let mut hands = Vec::with_capacity(alloc, workers)?;
    for _i in 0..workers {
        let own = striped.split(seat);
        hands.push(RegionHand::new(alloc, signature, own))?;
    }
    Ok(hands)
}

/// The seat takes in the seats of all hands.
pub(crate) fn join_hands(striped: &Striped, seat: &mut StripeSeat, hands: Vec<RegionHand>)
    requires table { seat.old.table ≡ striped.now.table }
    requires hands { All (λ h. h.seat.table ≡ striped.now.table) hands.items }
    ensures table { seat.new.table ≡ striped.now.table }
    ensures parts { seat.new.parts ≡ seat.old.parts + parts_of hands.items }
    ensures log { seat.new.log ≡ seat.old.log ++ logs_of hands.items }
{
    for hand in hands {
        let RegionHand {
            seat: other,
            own: _,
        } = hand;
        striped.join(seat, other);
    }
}
