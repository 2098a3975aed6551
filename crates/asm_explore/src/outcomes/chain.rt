//! Chains of choices.
use crate::outcomes::listed_outcome::Choice;
use std::sync::Arc;

/// Choices one after the other, which other chains share.
#[derive(Drop)]
pub(crate) enum Chain {
    One(Choice),
    Both(Arc<Chain>, Arc<Chain>),
}
