//! What a thread knows and decides itself, before anything that is shared is looked at: the cell that a call is about, what it
//! refuses, and its migration count.
#![tactic(auto)]

mod cells;
#[cfg(test)]
mod cells_tests;
mod migration;
#[cfg(test)]
mod migration_tests;
mod refusal;
#[cfg(test)]
mod refusal_tests;

pub use cells::{cell, made_on};
pub use migration::migration_after;
pub use refusal::refuses;
