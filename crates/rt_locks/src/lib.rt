//! The owner part of a lock: its owner, the waiters bit, and the tasks that wait for it.
#![tactic(auto)]

mod lock_cell;
#[cfg(test)]
mod lock_cell_tests;
mod reason;
#[cfg(test)]
mod stealing_tests;
mod top;

pub use lock_cell::LockCell;
pub use rt_model::Reason;
pub use top::{key_in, task_of_row};
