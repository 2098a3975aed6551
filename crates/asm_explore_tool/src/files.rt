//! The files that the program reads, and those that it makes.
ghost use Rattle.std.specs.Prelude.{None, OnOk};
ghost use Rattle.std.specs.Io.KnownBytes.{Appends};

use asm_explore_all::files::NewFiles;
use asm_files::folder::Folder;
use std::io::Write;
use std::rt::Files;
use std::{fs, io};

/// The files of the system. Nothing is known of them.
#[derive(Drop)]
pub struct SystemFiles<'a, R> {
    rt: &'a R,
}

impl<'a, R> SystemFiles<'a, R> {
    /// The files that this runtime opens and makes.
    pub fn new(rt: &'a R) -> SystemFiles<'a, R> {
        SystemFiles { rt }
    }
}

impl<R: Files> Folder for SystemFiles<'_, R> {
    type File = R::File;

    ghost contents = { λ _ _. None };

    fn open(&self, name: &str) -> io::Result<R::File> {
        fs::open(self.rt, name)
    }
}

impl<R: Files> NewFiles for SystemFiles<'_, R> {
    ghost made = { λ _. None };

    fn make(&mut self, name: &str, bytes: &[u8]) -> io::Result<()> {
        let mut file = fs::create(self.rt, name)?;
        write_whole(&mut file, bytes)
    }
}

/// Writes the whole text, and keeps nothing of it back.
fn write_whole<W: Write>(file: &mut W, text: &[u8]) -> io::Result<()>
    ensures { OnOk result (Appends (W.contents file.old) (W.contents file.new) text.now) }
{
    file.write_all(text)?;
    file.flush()
}
