//! Which words could stand at a place.
ghost use Rattle.std.specs.Prelude.{◌≡◌, ◌⊎◌, Ok, Err, IfOk, IsTrue};
ghost use Rattle.asm_syntax.specs.declared.input_error.InputError.TheVariants.{Named};
ghost use Rattle.asm_reader.specs.declared.error.ReadError.TheVariants.{UnexpectedEnd};
ghost use Rattle.asm_explore_hints.specs.Beginnings.{IsBeginning, goes_on};
ghost use Rattle.asm_explore_hints.specs.code.Places.{beginning};

use crate::place::Place;
use asm_reader::{ReadError, read, read_term};
use asm_syntax::InputError;
use std::alloc::{AllocError, Global};

/// The words and symbols that are named one by one, bare and in quotes.
static WORDS: [(&str, &str); 27] = [
    ("CoreASM", "`CoreASM`"),
    ("controlled", "`controlled`"),
    ("static", "`static`"),
    ("then", "`then`"),
    ("else", "`else`"),
    ("in", "`in`"),
    ("with", "`with`"),
    ("holds", "`holds`"),
    ("do", "`do`"),
    ("ifnone", "`ifnone`"),
    ("endif", "`endif`"),
    ("endlet", "`endlet`"),
    ("endforall", "`endforall`"),
    ("endchoose", "`endchoose`"),
    ("endpar", "`endpar`"),
    ("endseq", "`endseq`"),
    ("enditerate", "`enditerate`"),
    ("endwhile", "`endwhile`"),
    ("initially", "`initially`"),
    (")", "`)`"),
    ("}", "`}`"),
    (",", "`,`"),
    (":", "`:`"),
    (":=", "`:=`"),
    ("<-", "`<-`"),
    ("->", "`->`"),
    ("..", "`..`"),
];

/// What could stand at a place.
#[derive(Drop)]
pub(crate) struct Candidates {
    pub declaration: bool,
    pub rule: bool,
    pub term: bool,
    /// A constant, and no other term.
    pub constant: bool,
    /// A name, and no rule, term or constant.
    pub name: bool,
    /// A number, and no term or constant.
    pub number: bool,
    pub operator: bool,
    /// A `=` that is no operator.
    pub equal: bool,
    pub open: bool,
    pub open_brace: bool,
    pub star: bool,
    /// Those of the words that could, in quotes.
    pub words: Vec<&'static str>,
}

impl Candidates {
    /// What could stand at the place.
    pub(crate) fn at(alloc: Global, place: &Place<'_>) -> Result<Candidates, AllocError> {
        let can = |word: &str| can_follow(alloc, place, word);
        let (rule, undef, primary) = (can("skip")?, can("undef")?, can("result")?);
        let operator = can("+")?;
        Ok(Candidates {
            declaration: can("rule")?,
            rule,
            term: primary && !rule,
            constant: undef && !primary,
            name: can("x")? && !rule && !undef,
            number: can("1")? && !undef,
            operator,
            equal: can("=")? && !operator,
            open: can("(")? && !undef && !operator,
            open_brace: can("{")?,
            star: can("*")? && !operator,
            words: words_at(alloc, place)?,
        })
    }

    /// Whether nothing could stand there, as behind the most bytes that a text may have.
    pub(crate) fn is_empty(&self) -> bool {
        !(self.declaration || self.rule || self.term || self.constant || self.name)
            && !(self.number || self.operator || self.equal || self.open || self.open_brace)
            && !self.star
            && self.words.is_empty()
    }

    /// Whether this word in quotes, which is among those that are named one by one, could stand
    /// there.
    pub(crate) fn has(&self, quoted: &str) -> bool {
        self.words.iter().any(|other| *other == quoted)
    }
}

/// Those of the words that could stand at the place.
fn words_at(alloc: Global, place: &Place<'_>) -> Result<Vec<&'static str>, AllocError> {
    let mut words = Vec::new(alloc);
    for (word, quoted) in &WORDS {
        if can_follow(alloc, place, *word)? {
            words.push(*quoted)?;
        }
    }
    Ok(words)
}

/// Whether the text before the place could go on with this word.
pub(crate) fn can_follow(alloc: Global, place: &Place<'_>, word: &str) -> Result<bool, AllocError>
    ensures { IfOk result (λ can. IsTrue can → IsBeginning place.now.is_condition (goes_on (beginning place.now.text.now place.now.rest.now) word.now)) }
{
    let mut text = Vec::from_slice(alloc, place.beginning())?;
    text.push(b'\n')?;
    text.extend_from_slice(word.as_bytes())?;
    if place.is_condition {
        return is_begun(read_term(alloc, text.as_slice()));
    }
    is_begun(read(alloc, text.as_slice()))
}

/// Whether a text is read, or ends too early.
fn is_begun<T: Drop>(read: Result<T, InputError<ReadError>>) -> Result<bool, AllocError>
    ensures { IfOk result (λ is. IsTrue is → ((x : T) × (read ≡ Ok x)) ⊎ (read ≡ Err (Named UnexpectedEnd))) }
{
    match read {
        Ok(_) => Ok(true),
        Err(InputError::Memory) => Err(AllocError),
        Err(InputError::Named(ReadError::UnexpectedEnd)) => Ok(true),
        Err(InputError::Named(_)) => Ok(false),
    }
}
