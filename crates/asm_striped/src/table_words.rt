//! The words of a table in which nothing was put, and what words say.
ghost use Rattle.std.specs.Prelude.{◌≡◌, ◌+◌, ◌*◌, ◌^◌, ◌≤◌, IfOk, IfSome};
ghost use Rattle.std.specs.Mem.Slots.{slots_items, slots_len, IsFull};
ghost use Rattle.std.specs.Option.{option_map};
ghost use Rattle.asm_state.specs.code.Codes.{code_of};
ghost use Rattle.asm_state.specs.Signature.{Shape};
ghost use Rattle.asm_updates.specs.code.SummaryRanges.{range};
ghost use Rattle.asm_updates.specs.code.Stands.{MarksFaults};
ghost use Rattle.asm_striped.specs.code.Log.{ShowRange, AreWordsOf};
ghost use Rattle.asm_striped.specs.code.Board.{AreBounds, AreMarks, HasWords};

use asm_state::word::Word;
use asm_updates::summary::Summary;
use atomic_table::Closed;
use std::alloc::{AllocError, Global};

/// The low word of a location where nothing was put. The high word is 0 there.
const LOW_MARK: u64 = u64::MAX;

/// The words of a table in which nothing was put.
pub fn marks(alloc: Global, count: usize) -> Result<Vec<u64>, AllocError>
    requires { count ≤ 2 ^ 32 }
    ensures { IfOk result (λ v. AreMarks count v.items) }
{
    let mut words = Vec::from_elem(alloc, 0u64, 2 * count + 1)?;
    for n in 0..count {
        words[2 * n + 1] = LOW_MARK;
    }
    Ok(words)
}

/// What the words say of each location. They don't say whether it is a stray one, so the summary is
/// marked.
pub fn summary_of(
    alloc: Global,
    closed: &Closed<(), Global>,
    count: usize,
) -> Result<Summary, AllocError>
    requires words { IsFull closed.now.words × (slots_len closed.now.words ≡ 2 * count + 1) }
    requires count { count ≤ 2 ^ 32 }
    requires bounds { AreBounds count (slots_items closed.now.words) }
    ensures words { IfOk result (HasWords count (slots_items closed.now.words)) }
    ensures marks { IfOk result (λ s. (shape : Shape) → MarksFaults shape s) }
{
    let mut summary = Summary::new(alloc, count);
    for n in 0..count {
        let low = closed.word(2 * n + 1);
        let high = closed.word(2 * n + 2);
        if let Some(bounds) = values_of(low, high) {
            summary.add(n, bounds.0, bounds.1)?;
        }
    }
    Ok(summary)
}

/// The values of the codes in a low and a high word, if anything was put there.
fn values_of(low: u64, high: u64) -> Option<(Word, Word)>
    requires { ShowRange low high }
    ensures words { AreWordsOf (option_map range result) low high }
    ensures order { IfSome result (λ v. code_of v.0 ≤ code_of v.1) }
{
    if low == LOW_MARK {
        return None;
    }
    Some((
        Word::from_code(low).unwrap(),
        Word::from_code(high).unwrap(),
    ))
}
