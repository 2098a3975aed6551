//! Specifications that are explored whole.
pub mod agreement;
pub mod alternating;
pub mod exclusion;
pub mod lift;
pub mod philosophers;
pub mod stack;
pub mod termination;
pub mod voting;
pub mod window;
