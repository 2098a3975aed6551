//! A run as a table, as a page and as lines of JSON: a row for the first state and one for each
//! step, a column for each location that changes, and what is chosen in each step.
//!
//! No row is kept. The run is made once to find which locations change and how wide the columns are,
//! and once more for each block of columns, or for the rows of a page or of JSON.
#![tactic(auto)]

mod block;
mod cells;
mod changes;
mod chosen_lines;
mod columns;
mod extent;
mod heads;
pub mod json;
mod json_choices;
mod json_rows;
mod json_state;
mod json_texts;
mod json_values;
mod layout;
pub mod limited_run;
mod line;
pub mod names;
pub mod page;
mod page_cells;
mod page_columns;
mod page_heads;
mod page_row;
mod page_style;
mod page_text;
mod page_words;
mod row;
pub mod run_words;
mod step_row;
pub mod table;
