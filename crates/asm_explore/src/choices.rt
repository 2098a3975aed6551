//! The choices that rules and runs make.

pub mod ask_choices;
pub mod choice_point;
pub mod chosen_text;
pub mod made_choices;
pub mod run_choices;
