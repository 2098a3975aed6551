//! Runs of specifications: what a case wants of one, and what `run` does.
//!
//! After the word `run` of a case come limits, as `steps 3` or `turns 4`, and `whole` if the text
//! is one from its first byte on, then a colon and the name of the case.
use crate::parts::Parts;
use crate::refusal;
use asm_limits::run_limits::{DEFAULTS, Limits};
use asm_run::end::EndKind;
use asm_run::run::run;
use asm_run::through::Through;
use std::alloc::{AllocError, Global};
use std::thread::Threads;

/// The limits of a case that doesn't say others, if one worker makes the run.
const ALONE: Limits = Limits {
    steps: 1,
    ..DEFAULTS
};

/// Those if workers share it.
const SHARED: Limits = Limits {
    workers: 3,
    cut: 1,
    ..ALONE
};

/// In these numbers of rounds, once each: if there is one, each region is shared, and if there are
/// two, one of little work isn't.
const ROUNDS: [u32; 2] = [1, 2];

/// What a case says of its run.
#[derive(Clone, Copy)]
struct Setting {
    is_whole: bool,
    limits: Limits,
}

impl Setting {
    /// The setting that these words say, as ` whole, steps 3`, with these limits if they don't say
    /// others; none if they say nothing.
    fn said(words: &str, limits: Limits) -> Option<Setting> {
        let mut setting = Setting {
            is_whole: false,
            limits,
        };
        if words.is_empty() {
            return Some(setting);
        }
        for word in words.strip_prefix(' ')?.split(", ") {
            if word == "whole" {
                setting.is_whole = true;
            } else {
                setting.limit(word)?;
            }
        }
        Some(setting)
    }

    /// Sets a limit, as `steps 3`; none if there is no such limit.
    fn limit(&mut self, word: &str) -> Option<()> {
        let (name, number) = word.split_once(' ')?;
        let number = number.parse::<u32>().ok()?;
        match name {
            "steps" => self.limits.steps = number,
            "turns" => self.limits.turns = number,
            "workers" => self.limits.workers = number,
            "cut" => self.limits.cut = number,
            "rounds" => self.limits.rounds = number,
            _ => return None,
        }
        Some(())
    }
}

/// What is expected of the run of a case and what is found, both in full: how the run ends or is
/// refused, and after this line what is written. What workers write who share the run is found if
/// one worker writes what is expected.
pub fn answers<R: Threads + Sync>(
    rt: &R,
    alloc: Global,
    header: &str,
    text: &str,
) -> Result<(String, String), AllocError> {
    let (words, _name) = header.split_once(": ").unwrap_or((header, ""));
    let words = words.strip_prefix("run").unwrap_or("");
    let mut answers = answers_within(rt, alloc, ALONE, words, text)?;
    for rounds in ROUNDS {
        if answers.0 != answers.1 {
            break;
        }
        let limits = Limits { rounds, ..SHARED };
        answers = answers_within(rt, alloc, limits, words, text)?;
    }
    Ok(answers)
}

/// What is expected and what is found within these limits, and those that the words say.
fn answers_within<R: Threads + Sync>(
    rt: &R,
    alloc: Global,
    limits: Limits,
    words: &str,
    text: &str,
) -> Result<(String, String), AllocError> {
    let Some(setting) = Setting::said(words, limits) else {
        return unfit(alloc, "such limits");
    };
    let Some(parts) = Parts::new(alloc, text, setting.is_whole)? else {
        return unfit(alloc, "such parts");
    };
    let found = found(rt, alloc, &parts, &setting.limits)?;
    Ok((parts.wanted, found))
}

/// The answers if a case is none.
fn unfit(alloc: Global, missing: &str) -> Result<(String, String), AllocError> {
    let wanted = String::from_str(alloc, "a run")?;
    let found = format!(in alloc; "no run has {missing}")?;
    Ok((wanted, found))
}

/// How the run ends, or why it is refused, and what is written.
fn found<R: Threads + Sync>(
    rt: &R,
    alloc: Global,
    parts: &Parts,
    limits: &Limits,
) -> Result<String, AllocError> {
    let mut out = Through::new(Vec::new(alloc));
    let (text, script) = (parts.text.as_slice(), parts.script.as_slice());
    let ending = match run(rt, alloc, text, script, limits, &mut out) {
        Ok(end) => String::from_str(alloc, ending(end.kind()))?,
        Err(reason) => refusal::of_run(alloc, reason)?,
    };
    let written = String::from_utf8_lossy(alloc, out.get_ref().as_slice())?;
    format!(in alloc; "{ending}\n{written}")
}

/// A kind of end by the word for it in the line of a trace.
fn ending(kind: EndKind) -> &'static str {
    match kind {
        EndKind::Limit => "limit",
        EndKind::Clash => "clash",
        EndKind::Outside => "outside",
        EndKind::Exhausted => "exhausted",
    }
}
