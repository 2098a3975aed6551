//! Regions that workers share, and that workers meet in them.
mod meetings;
mod outcomes;
mod questions;
pub mod rows;
mod runs;
mod tasks;
mod upon;
