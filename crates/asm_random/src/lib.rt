//! Random runs of a specification: the first one that goes wrong, as a short script.
#![tactic(auto)]

mod asked_in;
mod bad_draft;
mod bad_end;
mod deadlock;
mod draft;
pub mod draw;
pub mod draw_question;
mod drawn_run;
mod drawn_step;
mod finding;
mod omission;
mod position;
pub mod progress;
pub mod question;
pub mod random;
pub mod random_result;
mod random_run;
mod random_source;
mod settled_step;
mod shortening;
mod stepping;

pub use draw::drawn_text;
pub use draw_question::DrawQuestion;
pub use progress::RandomProgress;
pub use question::RandomQuestion;
pub use random::random_runs;
pub use random_result::{RandomFinding, RandomResult};
