//! Domains of functions.
ghost use Rattle.std.specs.Prelude.{◌≡◌};

use std::marker::Model;

/// The universes that a function's arguments are from, by their numbers in the order of
/// declaration. A function without arguments has none.
#[derive(Debug, Drop)]
pub struct Domain {
    universes: Vec<usize>,
}

impl Model for Domain {
    ghost use Rattle.std.specs.Prelude.{List, ℕ};

    ghost Value = { List ℕ };

    ghost view = { λ d. d.universes.items };
}

impl Domain {
    pub fn new(universes: Vec<usize>) -> Domain
        ensures { result ≡ universes.items }
    {
        Domain { universes }
    }

    pub fn into_vec(self) -> Vec<usize>
        ensures { result.items ≡ self }
    {
        self.universes
    }

    pub fn as_slice(&self) -> &[usize]
        ensures { result.now ≡ self.now }
    {
        self.universes.as_slice()
    }
}
