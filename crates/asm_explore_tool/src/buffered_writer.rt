//! Text that is buffered on its way to a sink.
ghost use Rattle.std.specs.Prelude.{◌≡◌, ◌≤◌};

use asm_files::whole::write_whole;
use asm_run::sink::{Sink, SinkFault};
use std::fmt;
use std::fmt::Write;

/// Writes text to a sink, up to 512 bytes at once.
#[derive(Drop)]
pub(crate) struct BufferedWriter<'e, E> {
    sink: &'e mut E,
    kept: [u8; 512],
    used: usize,
    ghost within: { used ≤ 512 },
}

impl<'e, E: Sink> BufferedWriter<'e, E> {
    pub(crate) fn new(sink: &'e mut E) -> BufferedWriter<'e, E> {
        BufferedWriter {
            sink,
            kept: [0; 512],
            used: 0,
        }
    }

    /// Hands on what is kept.
    pub(crate) fn hand_on(&mut self) -> fmt::Result
        ensures { self.new.used ≡ 0 }
    {
        let kept = self.kept;
        let used = self.used;
        self.used = 0;
        whole(self.sink, &kept[..used])
    }
}

impl<E: Sink> Write for BufferedWriter<'_, E> {
    fn write_str(&mut self, text: &str) -> fmt::Result {
        let bytes = text.as_bytes();
        if bytes.len() > self.kept.len() - self.used {
            self.hand_on()?;
        }
        if bytes.len() > self.kept.len() {
            return whole(self.sink, bytes);
        }
        let end = self.used + bytes.len();
        self.kept[self.used..end].copy_from_slice(bytes);
        self.used = end;
        Ok(())
    }
}

/// Writes the whole text.
fn whole<E: Sink>(sink: &mut E, text: &[u8]) -> fmt::Result {
    match write_whole(sink, text) {
        Ok(()) => Ok(()),
        Err(SinkFault) => Err(fmt::Error),
    }
}
