//! Why the program doesn't write what words ask for.
ghost use Rattle.std.specs.Prelude.{◌≡◌};
ghost use Rattle.asm_explore_tool.specs.Faults.{IsToldOf, IsUnread, fault_of_draw, fault_of_no_words, fault_of_read, fault_of_report, status_of};
ghost use Rattle.asm_explore_tool.specs.declared.no_answer.NoAnswer.TheVariants as no_answer;

use asm_explore_random::drawn_script::Undrawn;
use asm_explore_words::fault::{Fault, RefusedText, Source};
use asm_files::fault::{NoWords, ReadFault};
use clap::Error;
use std::alloc::{AllocError, AllocFailed};

/// Why what the words ask for isn't written.
#[derive(Debug, Drop)]
pub enum NoAnswer<'w> {
    /// The words can't be understood.
    Words(Error),
    /// A word isn't text.
    NotText,
    /// The specification, the script or a condition is refused. If the text of the specification is
    /// there, the message may speak of it.
    Text(RefusedText<'w>, Option<Vec<u8>>),
    /// Memory ran out.
    Memory,
    /// A file can't be read.
    File(Source<'w>),
    /// The output failed.
    Write,
    /// The graph of states can't be written to the file of this name.
    Graph(&'w str),
    /// The script to the first quiet state can't be written to the file of this name.
    QuietScript(&'w str),
    /// No function and no location has this name, which is to be shown.
    Name(&'w str),
    /// The script of the run that is drawn from this seed can't be written.
    Draw(u64),
    /// A run that is to be shown ends otherwise than it was found to, or it is refused though its
    /// texts are not.
    Unconfirmed,
}

impl<'w> NoAnswer<'w> {
    /// The program's status.
    pub fn status(&self) -> u8
        ensures { result ≡ status_of self.now }
    {
        match self {
            NoAnswer::Text(..) | NoAnswer::Name(_) => 2,
            NoAnswer::Memory | NoAnswer::File(_) | NoAnswer::Write => 3,
            NoAnswer::Graph(_) | NoAnswer::QuietScript(_) | NoAnswer::Draw(_) => 3,
            NoAnswer::Unconfirmed => 3,
            NoAnswer::Words(_) | NoAnswer::NotText => 4,
        }
    }

    /// Where there is no report, for a specification with this text.
    pub(crate) fn of_report(fault: Fault<'w>, text: Vec<u8>) -> NoAnswer<'w>
        ensures { IsToldOf text.items fault.entry result }
    {
        match fault {
            Fault::Text(refused) => NoAnswer::Text(refused, Some(text)),
            Fault::Memory => NoAnswer::Memory,
            Fault::Graph(name) => NoAnswer::Graph(name),
            Fault::QuietScript(name) => NoAnswer::QuietScript(name),
            Fault::Name(name) => NoAnswer::Name(name),
            Fault::Unconfirmed => NoAnswer::Unconfirmed,
        }
    }

    /// Where the script of a run can't be had that is drawn from this seed.
    pub(crate) fn of_draw(seed: u64, why: Undrawn) -> NoAnswer<'w>
        ensures { result ≡ fault_of_draw seed why }
    {
        match why {
            Undrawn::Memory => NoAnswer::Memory,
            Undrawn::Unwritten => NoAnswer::Draw(seed),
        }
    }

    /// Where the text from this source can't be had.
    pub(crate) fn of_read(source: Source<'w>, fault: ReadFault) -> NoAnswer<'w>
        ensures fault { result ≡ fault_of_read source.entry fault }
        ensures unread { IsUnread (λ s. s ≡ source.entry) result }
    {
        match fault {
            ReadFault::Memory => NoAnswer::Memory,
            ReadFault::File => NoAnswer::File(source),
        }
    }
}

impl<'w> From<AllocError> for NoAnswer<'w> {
    ghost from_gives = { λ _ fault. fault ≡ no_answer.Memory };

    fn from(_error: AllocError) -> NoAnswer<'w> {
        NoAnswer::Memory
    }
}

impl<'w, T: Drop> From<AllocFailed<T>> for NoAnswer<'w> {
    ghost from_gives = { λ _ fault. fault ≡ no_answer.Memory };

    fn from(_error: AllocFailed<T>) -> NoAnswer<'w> {
        NoAnswer::Memory
    }
}

impl<'w> From<Fault<'w>> for NoAnswer<'w> {
    ghost from_gives = { λ report fault. fault ≡ fault_of_report report };

    fn from(fault: Fault<'w>) -> NoAnswer<'w> {
        match fault {
            Fault::Text(refused) => NoAnswer::Text(refused, None),
            Fault::Memory => NoAnswer::Memory,
            Fault::Graph(name) => NoAnswer::Graph(name),
            Fault::QuietScript(name) => NoAnswer::QuietScript(name),
            Fault::Name(name) => NoAnswer::Name(name),
            Fault::Unconfirmed => NoAnswer::Unconfirmed,
        }
    }
}

impl<'w> From<NoWords> for NoAnswer<'w> {
    ghost from_gives = { λ words fault. fault ≡ fault_of_no_words words };

    fn from(fault: NoWords) -> NoAnswer<'w> {
        match fault {
            NoWords::Memory => NoAnswer::Memory,
            NoWords::NotText => NoAnswer::NotText,
        }
    }
}
