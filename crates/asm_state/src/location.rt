//! Locations as the code has them.
use crate::arguments::Arguments;

/// A location: a function with arguments from its domain, or the function alone, for all arguments
/// outside the domain.
#[derive(Debug, Drop)]
pub enum Location {
    Proper {
        function: usize,
        arguments: Arguments,
    },
    Stray {
        function: usize,
    },
}
