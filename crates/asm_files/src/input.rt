//! The words, the text and the script that come in.
ghost use Rattle.std.specs.Prelude.{[], Some, option_map, IfOk};
ghost use Rattle.asm_files.specs.Input.{IsFront, bytes_of};

use crate::fault::{NoWords, ReadFault};
use crate::folder::Folder;
use std::alloc::Global;
use std::env;
use std::io::Read;
use std::rt::Env;

/// The words after the program's name.
pub fn words<R: Env + AllocGlobal>(rt: &R) -> Result<Vec<String>, NoWords> {
    match env::args(rt) {
        Ok(words) => Ok(words.skip(1).collect(rt.alloc())?),
        Err(error) => Err(NoWords::of(&error)),
    }
}

/// The front of the text: of its file, or of the input if no file is named.
pub fn text<F: Folder, I: Read + Drop>(
    folder: &F,
    alloc: Global,
    name: Option<&str>,
    input: I,
    most: u64,
) -> Result<Vec<u8>, ReadFault>
    ensures { IfOk result (λ text. IsFront (bytes_of (F.contents folder.now) (I.remaining input) (option_map (λ n. n.now) name.entry)) most text.items) }
{
    match name {
        Some(name) => named(folder, alloc, name, most),
        None => front(alloc, input, most),
    }
}

/// The front of the script: of its file, or nothing if no file is named.
pub fn script<F: Folder>(
    folder: &F,
    alloc: Global,
    name: Option<&str>,
    most: u64,
) -> Result<Vec<u8>, ReadFault>
    ensures { IfOk result (λ script. IsFront (bytes_of (F.contents folder.now) (Some []) (option_map (λ n. n.now) name.entry)) most script.items) }
{
    match name {
        Some(name) => named(folder, alloc, name, most),
        None => Ok(Vec::new(alloc)),
    }
}

/// The front of the file of this name.
fn named<F: Folder>(folder: &F, alloc: Global, name: &str, most: u64) -> Result<Vec<u8>, ReadFault>
    ensures { IfOk result (λ text. IsFront (F.contents folder.now name.now) most text.items) }
{
    match folder.open(name) {
        Ok(file) => front(alloc, file, most),
        Err(error) => Err(ReadFault::of(&error)),
    }
}

/// The input to its end, or `most` bytes of it if it is longer.
pub fn front<I: Read + Drop>(alloc: Global, input: I, most: u64) -> Result<Vec<u8>, ReadFault>
    ensures { IfOk result (λ text. IsFront (I.remaining input) most text.items) }
{
    let mut text = Vec::new(alloc);
    match input.take(most).read_to_end(&mut text) {
        Ok(_) => Ok(text),
        Err(error) => Err(ReadFault::of(&error)),
    }
}
