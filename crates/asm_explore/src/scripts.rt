//! Scripts that are written: their lines and their texts.

pub mod script_line;
pub mod trail_script;
pub mod writing;
pub mod writing_error;
