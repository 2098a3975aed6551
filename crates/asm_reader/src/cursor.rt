//! A cursor over tokens, with the steps that every production is made of. None of them takes memory.

ghost use Rattle.std.specs.Prelude.{◌≡◌, ◌≢◌, ◌<◌, [], ◌∷◌, OnOk, IfErr};
ghost use Rattle.asm_state.specs.Numbers.{number_with};
ghost use Rattle.asm_syntax.specs.declared.input_error.InputError.TheVariants.{Memory};
ghost use Rattle.asm_reader.specs.Kinds as kinds;
ghost use Rattle.asm_reader.specs.Productions.{signed};
ghost use Rattle.asm_reader.specs.code.Steps as steps;
ghost use Rattle.asm_reader.specs.code.Steps.{Reads, itself};

use crate::error::ReadError;
use asm_state::number::{MAX_NUMBER, Number};
use asm_syntax::{InputError, Kind, Token};

/// What is read, or why it isn't.
pub type Read<A> = Result<A, InputError<ReadError>>;

/// Whether the two are one kind, or both numbers.
pub fn alike(a: Kind, b: Kind) -> bool
    ensures { result ≡ kinds.alike a b }
{
    match (a, b) {
        (Kind::Name, Kind::Name) => true,
        (Kind::Number(_), Kind::Number(_)) => true,
        (Kind::Symbol(a), Kind::Symbol(b)) => a == b,
        (Kind::Keyword(a), Kind::Keyword(b)) => a == b,
        _ => false,
    }
}

/// What the table has for a kind.
pub fn looked_up<A: Copy>(mut table: &[(Kind, A)], kind: Kind) -> Option<A>
    ensures { result ≡ kinds.looked_up table.entry.now kind }
{
    while let [row, rest @ ..] = table {
        if alike(row.0, kind) {
            return Some(row.1);
        }
        table = rest;
    }
    None
}

/// Whether the table has something for a kind.
#[tactic(auto, using(crate::proofs::Tables::looked_up_keys))]
fn has_key<A: Copy>(table: &[(Kind, A)], kind: Kind) -> bool
    ensures { result ≡ kinds.is_one_of (kinds.keys table.now) kind }
{
    looked_up(table, kind).is_some()
}

/// Whether the kind is one of these.
fn is_one_of(mut all: &[Kind], kind: Kind) -> bool
    ensures { result ≡ kinds.is_one_of all.entry.now kind }
{
    while let [first, rest @ ..] = all {
        if alike(*first, kind) {
            return true;
        }
        all = rest;
    }
    false
}

/// The number with this value, or its negative, if it is in the range.
fn number_with(value: u64, is_negative: bool) -> Option<Number>
    ensures { result ≡ number_with (signed is_negative value) }
{
    if value > MAX_NUMBER as u64 {
        return None;
    }
    let value = value as i64;
    Number::with_value(if is_negative { -value } else { value })
}

/// The tokens that are still to be read.
#[derive(Drop)]
pub struct Cursor<'a> {
    pub rest: &'a [Token],
}

impl<'a> Cursor<'a> {
    /// Whether the next token is of this kind.
    pub fn sees(&self, kind: Kind) -> bool
        ensures { result ≡ kinds.begins (kind ∷ []) self.now.rest.now }
    {
        match self.rest {
            [] => false,
            [token, ..] => alike(kind, token.kind),
        }
    }

    /// Whether the next token is of one of these kinds.
    pub fn sees_any(&self, all: &[Kind]) -> bool
        ensures { result ≡ kinds.begins all.now self.now.rest.now }
    {
        match self.rest {
            [] => false,
            [token, ..] => is_one_of(all, token.kind),
        }
    }

    /// Whether the table has something for the next token.
    pub fn sees_in<A: Copy>(&self, table: &[(Kind, A)]) -> bool
        ensures { result ≡ kinds.begins (kinds.keys table.now) self.now.rest.now }
    {
        match self.rest {
            [] => false,
            [token, ..] => has_key(table, token.kind),
        }
    }

    /// Takes the next token, which has to be a number.
    pub fn number(&mut self, is_negative: bool) -> Read<Number>
        ensures read { Reads itself (steps.number_at is_negative self.old.rest.now) result self.new.rest.now }
        ensures memory { IfErr result (λ e. e ≢ Memory) }
    {
        match self.rest {
            [] => Err(InputError::Named(ReadError::UnexpectedEnd)),
            [token, rest @ ..] => {
                let refused = Err(InputError::Named(ReadError::Unexpected { at: token.start }));
                let Kind::Number(value) = token.kind else {
                    return refused;
                };
                let Some(number) = number_with(value, is_negative) else {
                    return refused;
                };
                self.rest = rest;
                Ok(number)
            }
        }
    }

    /// Takes the next token, which has to be one of the table.
    pub fn choice<A: Copy>(&mut self, table: &[(Kind, A)]) -> Read<A>
        ensures read { Reads itself (steps.choice_at table.now self.old.rest.now) result self.new.rest.now }
        ensures memory { IfErr result (λ e. e ≢ Memory) }
    {
        match self.rest {
            [] => Err(InputError::Named(ReadError::UnexpectedEnd)),
            [token, rest @ ..] => match looked_up(table, token.kind) {
                Some(x) => {
                    self.rest = rest;
                    Ok(x)
                }
                None => Err(InputError::Named(ReadError::Unexpected { at: token.start })),
            },
        }
    }

    /// Takes the next token, which has to be of this kind.
    pub fn expect(&mut self, kind: Kind) -> Read<Token>
        ensures read { Reads itself (steps.expect kind self.old.rest.now) result self.new.rest.now }
        ensures memory { IfErr result (λ e. e ≢ Memory) }
    {
        match self.rest {
            [] => Err(InputError::Named(ReadError::UnexpectedEnd)),
            [token, rest @ ..] => {
                if !alike(kind, token.kind) {
                    return Err(InputError::Named(ReadError::Unexpected { at: token.start }));
                }
                self.rest = rest;
                Ok(*token)
            }
        }
    }

    /// Takes the next token, which has to be of this kind and opens a level. `levels` may open.
    pub fn enter(&mut self, kind: Kind, levels: usize) -> Read<Token>
        ensures read { Reads itself (steps.enter levels kind self.old.rest.now) result self.new.rest.now }
        ensures left { OnOk result (0 < levels) }
        ensures memory { IfErr result (λ e. e ≢ Memory) }
    {
        match self.rest {
            [] => Err(InputError::Named(ReadError::UnexpectedEnd)),
            [token, rest @ ..] => {
                if !alike(kind, token.kind) {
                    return Err(InputError::Named(ReadError::Unexpected { at: token.start }));
                }
                if levels == 0 {
                    return Err(InputError::Named(ReadError::TooDeep { at: token.start }));
                }
                self.rest = rest;
                Ok(*token)
            }
        }
    }
}
