//! Files that are made.
ghost use Rattle.std.specs.Prelude.{◌∷◌, [], List, Option, OnErr, OnOk};
ghost use Rattle.asm_explore_all.specs.MadeFiles.{MadeFile, Makes, StopsAt};

use std::io;

/// Makes files.
pub trait NewFiles {
    // The files that were made, in order, each with its name and its bytes, where known.
    ghost made: { Self → Option (List MadeFile) };

    /// Makes a file of this name, which has these bytes. What a file of this name had may be gone,
    /// even if the new one can't be written.
    fn make(&mut self, name: &str, bytes: &[u8]) -> io::Result<()>
        ensures made { OnOk result (Makes (made self.old) (made self.new) ((name.now, bytes.now) ∷ [])) }
        ensures stopped { OnErr result (StopsAt (made self.old) (made self.new) name.now ((name.now, bytes.now) ∷ [])) };
}
