//! All choices of a specification: the outcomes of one step through all scripts, and the states
//! that come of them.
#![tactic(auto)]

pub mod condition;
pub mod exploration;
pub mod exploration_result;
pub mod explore_all;
pub mod explore_machine;
pub mod fault;
pub mod laws;
mod look_ahead;
pub mod machine;
pub mod progress;
mod quiet_step;
pub mod resolved_question;
mod same_result;
pub mod search;
pub mod search_error;
pub mod search_result;
mod settled;
pub mod specification;
pub mod step_ahead;
pub mod updates;

pub use choices::choice_point::ChoicePoint;
pub use choices::chosen_text::chosen_text;
pub use choices::run_choices::{RunChoices, choices_of_run, choices_of_step, lines_of_run};
pub use exploration::Exploration;
pub use exploration_result::{BadRun, ExplorationResult, Finding, QuietRun, Unwritten};
pub use explore_all::Question;
pub use fault::Fault;
pub use machine::{Listed, Machine};
pub use outcomes::choice_list::ChoiceList;
pub use outcomes::listed_outcome::{Choice, ListedOutcome, RuleResult};
pub use outcomes::outcomes_error::{OutcomesError, RuleOverLimit};
pub use progress::{Progress, Unwatched, Watch};
pub use resolved_question::ResolvedQuestion;
pub use scripts::script_line::{ScriptLine, Zeros};
pub use scripts::writing::script_text;
pub use scripts::writing_error::WritingError;
pub use search::is_same_state;
pub use search_error::SearchError;
pub use search_result::{BadStep, SearchEnd, SearchResult};
pub use states::index::Index;
pub use states::nodes::Nodes;
pub use states::quiet::is_quiet;
pub use step_ahead::StepAhead;
pub use updates::Updates;

mod choices;
mod outcomes;
pub mod scripts;
mod states;
