//! The public part of a task: its priorities, the lock that it waits for, and its states.
#![tactic(auto)]

mod kept;
mod kept_tops;
mod lock_set;
mod sleep;
mod task_cell;
#[cfg(test)]
mod task_cell_tests;
#[cfg(test)]
mod wakeup_tests;
mod woken;

pub use task_cell::TaskCell;
pub use woken::Woken;
