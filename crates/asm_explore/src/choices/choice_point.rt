//! A choice that is made, and the candidates there.
use crate::outcomes::listed_outcome::Choice;
use asm_state::word::Word;

/// A choice that is made, and the candidates there.
#[derive(Drop)]
pub struct ChoicePoint {
    pub choice: Choice,
    pub candidates: Vec<Word>,
}
