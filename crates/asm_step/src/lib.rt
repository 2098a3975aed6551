//! One step of a run: what it yields, and where it leads.
#![tactic(auto)]

pub mod resolved_specification;
pub mod states;
pub mod step;
pub mod values;

pub use resolved_specification::ResolvedSpecification;
pub use states::state_after;
pub use step::{Step, form_step, make_step};
pub use values::value_by_code;
