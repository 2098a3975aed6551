//! The evaluation of codes: values of terms, outcomes of rules, and pieces of rules; with views of
//! states, and what an outcome is formed in.
#![tactic(auto)]

mod applied;
pub mod below;
mod block;
mod block_values;
pub mod choices;
pub mod choose;
pub mod evaluation;
mod find;
pub mod form;
pub mod forming;
mod found_candidate;
pub mod frame;
mod keep_holding;
pub mod laws;
mod location_values;
mod one_update;
pub mod open;
pub mod outcome;
pub mod part;
pub mod part_set;
pub mod path;
pub mod piece;
pub mod piece_positions;
pub mod regions;
pub mod rule_outcome;
mod sequences;
pub mod shared;
mod spare_sets;
pub mod stopped;
pub mod target;
mod update;
pub mod value;
pub mod view;

pub use choices::Choices;
pub use outcome::{Forming, Outcome};
pub use part::Part;
pub use path::Path;
pub use stopped::Stopped;
pub use view::View;
