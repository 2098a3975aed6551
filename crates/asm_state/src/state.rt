//! States: the content of each location, by its number.
ghost use Rattle.std.specs.Prelude.{◌≡◌, ◌<◌, length, map, slice_index_or, slice_set, IfOk, IsTrue};
ghost use Rattle.asm_state.specs.code.Contents.{IsStateOf};
ghost use Rattle.asm_state.specs.Location.{changed};
ghost use Rattle.asm_state.specs.Signature.{Shape, count_of, location_at, locations, state_of, initial_state};
ghost use Rattle.asm_state.specs.Updates.{is_proper};
ghost use Rattle.asm_state.specs.declared.value.Value.TheVariants.{Undef};

use crate::signature::Signature;
use crate::word::Word;
use std::alloc::{AllocError, Global};
use std::marker::Model;

/// The contents of all locations, by their numbers. Those of stray locations are never used.
#[derive(Debug, Drop)]
pub struct State {
    contents: Vec<Word>,
}

impl Model for State {
    ghost use Rattle.std.specs.Prelude.{List};
    ghost use Rattle.asm_state.specs.declared.value.Value.{Value as Content};

    ghost Value = { List Content };

    ghost view = { λ s. s.contents.items };
}

impl State {
    /// The state in which each location has the value of its function's table.
    pub fn initial(alloc: Global, signature: &Signature) -> Result<State, AllocError>
        ensures initial { IfOk result (λ s. state_of signature.now s ≡ initial_state signature.now) }
        ensures contents { IfOk result (λ s. s ≡ map (initial_state signature.now) (locations signature.now)) }
        ensures whole { IfOk result (λ s. length s ≡ count_of signature.now) }
        ensures state { IfOk result (IsStateOf signature.now) }
    {
        let contents = signature.initial().to_vec(alloc)?;
        Ok(State { contents })
    }

    /// The content of the location with this number: `Undef` at a stray one.
    pub fn content(&self, n: usize) -> Word
        requires { n < length self.now }
        ensures content { result ≡ slice_index_or self.now n Undef }
        ensures location { (shape : Shape) → IsStateOf shape self.now → result ≡ state_of shape self.now (location_at shape n) }
    {
        self.contents[n]
    }

    /// Gives the location with this number a content.
    pub fn set(&mut self, n: usize, value: Word)
        requires { n < length self.old }
        ensures set { self.new ≡ slice_set self.old n value }
        ensures whole { length self.new ≡ length self.old }
        ensures changed { (shape : Shape) → IsStateOf shape self.old → IsTrue (is_proper (location_at shape n)) →
            state_of shape self.new ≡ changed (state_of shape self.old) (location_at shape n) value }
        ensures state { (shape : Shape) → IsStateOf shape self.old → IsTrue (is_proper (location_at shape n)) → IsStateOf shape self.new }
    {
        self.contents[n] = value;
    }

    pub fn copy(&self, alloc: Global) -> Result<State, AllocError>
        ensures { IfOk result (λ s. s ≡ self.now) }
    {
        let contents = self.contents.as_slice().to_vec(alloc)?;
        Ok(State { contents })
    }
}
