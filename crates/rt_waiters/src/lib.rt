//! The queue of a lock: a row for each task that waits for it, the one that gets the lock first before
//! all others.
#![tactic(auto)]

mod order;
mod steps;
mod waiters;
#[cfg(test)]
mod waiters_tests;

pub use rt_model::Row;
pub use steps::Steps;
pub use waiters::Waiters;
