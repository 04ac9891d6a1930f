//! What holds of the lock machine in a whole state: where no chain walk is pending, each task has its graph
//! priority and no cycle stands; and which cycle goes through a task.
//!
//! Nothing of this is needed to play a script.
#![tactic(auto)]

mod cycle;
#[cfg(test)]
mod laws_tests;
#[cfg(test)]
mod random_tests;
mod rest;

pub use cycle::cycle_at;
pub use rest::at_rest;
