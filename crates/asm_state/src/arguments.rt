//! Argument lists.
ghost use Rattle.std.specs.Prelude.{◌≡◌};

use crate::word::Word;
use std::marker::Model;

/// The arguments of a location, or of an entry of a table, in order.
#[derive(Debug, Drop)]
pub struct Arguments {
    values: Vec<Word>,
}

impl Model for Arguments {
    ghost use Rattle.std.specs.Prelude.{List};
    ghost use Rattle.asm_state.specs.declared.value.Value.{Value as Argument};

    ghost Value = { List Argument };

    ghost view = { λ a. a.values.items };
}

impl Arguments {
    pub fn new(values: Vec<Word>) -> Arguments
        ensures { result ≡ values.items }
    {
        Arguments { values }
    }

    pub fn into_vec(self) -> Vec<Word>
        ensures { result.items ≡ self }
    {
        self.values
    }

    pub fn as_slice(&self) -> &[Word]
        ensures { result.now ≡ self.now }
    {
        self.values.as_slice()
    }
}
