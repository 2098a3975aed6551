//! What a command of the program comes to.

/// What the program prints, and its status.
#[derive(Drop)]
pub struct Report {
    pub text: Vec<u8>,
    pub status: u8,
}
