//! The line on standard error.
ghost use Rattle.std.specs.Prelude.{◌≡◌, ◌++◌, decimal, IsTrue, IsErr, OnOk, OnErr};
ghost use Rattle.std.specs.Io.KnownBytes.{Appends};
ghost use Rattle.asm_run.specs.Sink.{AppendsFront};
ghost use Rattle.asm_tool.specs.ToolPromises.{IsSaid, line_of, numbered, placed};

use crate::fault::Fault;
use asm_files::whole::write_whole;
use asm_run::sink::{Sink, SinkFault};
use itoa::Buffer;
use std::fmt;
use std::fmt::Write;

/// Says what the fault is. If even this can't be written, the status alone tells.
pub(crate) fn say<E: Sink>(fault: &Fault, err: &mut E)
    ensures { IsSaid (E.bytes err.old) (E.bytes err.new) (E.has_failed err.new) (line_of fault.now) }
{
    let _ = match fault {
        Fault::Words(error) => text(err, error),
        Fault::NotText => write_whole(err, b"error: a word is not UTF-8\n"),
        Fault::Read(error) => numbered(err, b"read ", error.number(), b" at ", error.at()),
        Fault::Check(error) => numbered(err, b"check ", error.number(), b" at ", Some(error.at)),
        Fault::Script(error) => numbered(err, b"script ", error.number(), b" line ", error.line()),
        Fault::Memory => write_whole(err, b"memory\n"),
        Fault::File => write_whole(err, b"file\n"),
        Fault::Write => write_whole(err, b"write\n"),
    };
}

/// A sink that text is written to.
#[derive(Drop)]
struct SinkWriter<'e, E> {
    err: &'e mut E,
}

impl<E: Sink> Write for SinkWriter<'_, E> {
    fn write_str(&mut self, text: &str) -> fmt::Result {
        match write_whole(self.err, text.as_bytes()) {
            Ok(()) => Ok(()),
            Err(SinkFault) => Err(fmt::Error),
        }
    }
}

/// Writes the text of the library that read the words.
fn text<E: Sink>(err: &mut E, error: &clap::Error) -> Result<(), SinkFault> {
    match write!(SinkWriter { err }, "{error}") {
        Ok(()) => Ok(()),
        Err(_) => Err(SinkFault),
    }
}

/// Writes a number, and the place of what is wrong, if it has one.
#[tactic(auto, using(crate::proofs::Appending::appending))]
fn numbered<E: Sink>(
    err: &mut E,
    kind: &[u8],
    number: u8,
    before: &[u8],
    place: Option<usize>,
) -> Result<(), SinkFault>
    ensures whole { OnOk result (Appends (E.bytes err.old) (E.bytes err.new) (numbered kind.now number before.now place)) }
    ensures cut { OnErr result (AppendsFront (E.bytes err.old) (E.bytes err.new) (numbered kind.now number before.now place)) }
    ensures failed { IsErr result → IsTrue (E.has_failed err.new) }
{
    write_whole(err, kind)?;
    write_whole(err, Buffer::new().format(number).as_bytes())?;
    placed(err, before, place)
}

/// Writes the place, if there is one, and the end of the line.
#[tactic(auto, using(crate::proofs::Appending::appending))]
fn placed<E: Sink>(err: &mut E, before: &[u8], place: Option<usize>) -> Result<(), SinkFault>
    ensures whole { OnOk result (Appends (E.bytes err.old) (E.bytes err.new) (placed before.now place)) }
    ensures cut { OnErr result (AppendsFront (E.bytes err.old) (E.bytes err.new) (placed before.now place)) }
    ensures failed { IsErr result → IsTrue (E.has_failed err.new) }
{
    match place {
        Some(place) => {
            write_whole(err, before)?;
            write_whole(err, Buffer::new().format(place).as_bytes())?;
            write_whole(err, b"\n")
        }
        None => write_whole(err, b"\n"),
    }
}
