//! The texts of locations, each made when it is first shown.
//!
//! What is kept for a location is its text or nothing (`AreTextsOf`): each function that adds lines
//! of updates requires this and ensures it again.
ghost use Rattle.std.specs.Prelude.{◌≡◌, ◌⊎◌, ◌<◌, [], ℕ, length, OnOk};
ghost use Rattle.asm_run.specs.code.KeptTexts.{kept, span_at};

use std::alloc::{AllocError, Global};
use std::marker::Model;

/// Where a text is among the bytes of all texts. One without bytes is none.
#[derive(Clone, Copy, Debug)]
struct TextSpan {
    start: u32,
    len: u32,
}

/// At most this many bytes are kept. A text that finds no room is made again each time.
const MAX_KEPT_BYTES: usize = 1 << 24;

/// The texts of the locations that were shown, by the numbers of the locations.
#[derive(Debug, Drop)]
pub(crate) struct LocationTexts {
    bytes: Vec<u8>,
    spans: Vec<TextSpan>,
}

impl Model for LocationTexts {
    ghost use Rattle.std.specs.Prelude.{List, ℕ};
    ghost use Rattle.asm_run.specs.code.KeptTexts.{texts_in, AreWithin};

    ghost Value = { List (List ℕ) };

    ghost view = { λ t. texts_in t.bytes.items t.spans.items };

    ghost invariant = { λ t. AreWithin t.bytes.items t.spans.items };
}

impl LocationTexts {
    /// No texts.
    pub(crate) fn new(alloc: Global) -> LocationTexts
        ensures { result ≡ [] }
    {
        LocationTexts {
            bytes: Vec::new(alloc),
            spans: Vec::new(alloc),
        }
    }

    /// The text that is kept for the location with this number: no bytes if none is.
    #[inline(always)]
    pub(crate) fn get(&self, n: usize) -> &[u8]
        ensures { result.now ≡ kept self.now n }
    {
        if n >= self.spans.len() {
            return &[];
        }
        let span = self.spans[n];
        let start = span.start as usize;
        &self.bytes[start..start + span.len as usize]
    }

    /// Keeps the text of the location with this number, if there is room for it.
    pub(crate) fn keep(&mut self, n: usize, text: &[u8]) -> Result<(), AllocError>
        ensures { OnOk result ((m : ℕ) → (kept self.new m ≡ kept self.old m) ⊎ ((m ≡ n) × (kept self.new m ≡ text.now))) }
    {
        let start = self.bytes.len();
        if MAX_KEPT_BYTES < text.len() || MAX_KEPT_BYTES - text.len() < start {
            return Ok(());
        }
        make_span(&mut self.spans, n)?;
        self.bytes.extend_from_slice(text)?;
        self.spans[n] = TextSpan {
            start: start as u32,
            len: text.len() as u32,
        };
        Ok(())
    }
}

/// Makes a place for the span with this number, and leaves all spans as they were.
fn make_span(spans: &mut Vec<TextSpan>, n: usize) -> Result<(), AllocError>
    ensures span { OnOk result (n < length spans.new.items) }
    ensures same { (m : ℕ) → span_at spans.new.items m ≡ span_at spans.old.items m }
{
    while spans.len() <= n {
        spans.push(TextSpan { start: 0, len: 0 })?;
    }
    Ok(())
}
