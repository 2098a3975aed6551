//! The settings that words give, and words that can't be had.
use asm_files::fault::NoWords;
use asm_files::output::Through;
use asm_limits::run_limits::{DEFAULTS, Limits};
use asm_tool::command_line::settings;
use asm_tool::fault::Fault;
use asm_tool::settings::{Settings, WordFault};
use asm_tool::status::refusal;
use std::alloc::Global;
use std::io;

#[test]
fn what_is_left_out_has_a_default(rt: HostRuntime) -> Result<(), WordFault> {
    let words = ["--steps", "7"];
    let limits = Limits {
        steps: 7,
        ..DEFAULTS
    };
    let wanted = Settings {
        spec: None,
        script: None,
        limits,
    };
    assert_eq!(rt; settings(rt.alloc(), words.as_slice())?, wanted);
    Ok(())
}

#[test]
fn each_word_is_read(rt: HostRuntime) -> Result<(), WordFault> {
    let words = [
        "--rounds",
        "5",
        "--script",
        "s",
        "--cut",
        "4",
        "t",
        "--workers",
        "3",
        "--turns",
        "2",
        "--steps",
        "1",
    ];
    let limits = Limits {
        steps: 1,
        turns: 2,
        workers: 3,
        cut: 4,
        rounds: 5,
    };
    let wanted = Settings {
        spec: Some("t"),
        script: Some("s"),
        limits,
    };
    assert_eq!(rt; settings(rt.alloc(), words.as_slice())?, wanted);
    Ok(())
}

/// Whether words that can't be had for such an error are refused with this status and this line.
fn are_refused(alloc: Global, error: io::ErrorKind, status: u8, wanted: &[u8]) -> bool {
    let mut line = Vec::new(alloc);
    let fault = Fault::from(NoWords::of(&io::Error::from(error)));
    let found = refusal(&fault, &mut Through::new(&mut line));
    found == status && line.as_slice() == wanted
}

#[test]
fn words_that_are_no_text(rt: HostRuntime) {
    let (not_text, no_memory) = (io::ErrorKind::InvalidData, io::ErrorKind::OutOfMemory);
    assert!(rt; are_refused(rt.alloc(), not_text, 4, b"error: a word is not UTF-8\n"));
    assert!(rt; are_refused(rt.alloc(), no_memory, 3, b"memory\n"));
}
