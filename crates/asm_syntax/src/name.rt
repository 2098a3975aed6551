//! Names, and the offsets where they are.
pub use crate::name_text::Text;

/// A name, with the offset of its first byte in the text of the specification.
#[derive(Drop)]
pub struct Name {
    pub at: usize,
    pub text: Text,
}
