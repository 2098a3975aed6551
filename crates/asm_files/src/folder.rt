//! Files by their names.
ghost use Rattle.std.specs.Prelude.{◌≡◌, ℕ, List, Option, None, Some, IfOk, IfSome};

use std::io::Read;
use std::rt::Files;
use std::{fs, io};

/// Opens files for reading.
pub trait Folder {
    /// A file that is open.
    type File: Read + Drop;

    // The bytes of the file with a name, if they are known.
    ghost contents: { Self → List ℕ → Option (List ℕ) };

    /// The file of this name.
    fn open(&self, name: &str) -> io::Result<Self::File>
        ensures bytes { IfOk result (λ file. IfSome (contents self.now name.now) (λ bytes. Self.File.remaining file ≡ Some bytes)) };
}

/// The files of the system. Nothing is known of them.
#[derive(Drop)]
pub struct Disk<'a, R> {
    rt: &'a R,
}

impl<'a, R> Disk<'a, R> {
    /// The files that this runtime opens.
    pub fn new(rt: &'a R) -> Disk<'a, R> {
        Disk { rt }
    }
}

impl<R: Files> Folder for Disk<'_, R> {
    type File = R::File;

    ghost contents = { λ _ _. None };

    fn open(&self, name: &str) -> io::Result<R::File> {
        fs::open(self.rt, name)
    }
}
