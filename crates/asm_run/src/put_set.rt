//! Update sets put into the table of a region.
ghost use Rattle.std.specs.Prelude.{◌≡◌};
ghost use Rattle.asm_updates.specs.code.SummaryRanges.{AreRanges};
ghost use Rattle.asm_run.specs.code.Hands.{LogGrows, puts};

use asm_striped::{StripeSeat, Striped};
use asm_updates::summary::Summary;

/// Puts the least and the greatest value of each location that a set names, for this task.
pub(crate) fn put_set(striped: &Striped, seat: &mut StripeSeat, task: u64, set: &Summary)
    requires table { seat.old.table ≡ striped.now.table }
    requires count { set.now.count ≡ striped.now.count }
    ensures seat { LogGrows seat.old (puts task set.now.ranges) seat.new }
    ensures sound { AreRanges set.now.count set.now.ranges }
{
    for i in 0..set.len() {
        let (n, low, high) = set.entry_at(i);
        striped.put(seat, task, n, low.code(), high.code());
    }
}
