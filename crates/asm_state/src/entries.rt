//! Entries of tables.
ghost use Rattle.std.specs.Prelude.{◌≡◌};

use crate::arguments::Arguments;
use crate::word::Word;
use std::marker::Model;

/// Argument lists with the values that a table gives them.
#[derive(Debug, Drop)]
pub struct Entries {
    entries: Vec<(Arguments, Word)>,
}

impl Model for Entries {
    ghost use Rattle.std.specs.Prelude.{List};
    ghost use Rattle.asm_state.specs.declared.value.Value.{Value as Argument};

    ghost Value = { List (List Argument × Argument) };

    ghost view = { λ e. e.entries.items };
}

impl Entries {
    pub fn new(entries: Vec<(Arguments, Word)>) -> Entries
        ensures { result ≡ entries.items }
    {
        Entries { entries }
    }

    pub fn into_vec(self) -> Vec<(Arguments, Word)>
        ensures { result.items ≡ self }
    {
        self.entries
    }

    pub fn as_slice(&self) -> &[(Arguments, Word)]
        ensures { result.now ≡ self.now }
    {
        self.entries.as_slice()
    }
}
