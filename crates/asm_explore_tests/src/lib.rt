//! Tests of the exploration of specifications, through the public call of `asm_explore`.
//!
//! Expected counts are worked out by hand, or those of an explorer that was written apart from this
//! one, in another language; of the philosophers without meals and of mutual exclusion they are
//! also those of a model checker. Four tests take up to a second or two each, and minutes if
//! nothing is proved: there give `rt try --test` a limit, as `--seconds 600`.
#![tactic(auto)]

#[cfg(test)]
mod conditions;
#[cfg(test)]
mod limits;
#[cfg(test)]
mod question;
#[cfg(test)]
mod refusals;
#[cfg(test)]
mod resting;
#[cfg(test)]
mod rules;
#[cfg(test)]
mod scripts;
#[cfg(test)]
mod texts;
#[cfg(test)]
mod told;
#[cfg(test)]
mod verdicts;
