//! Judging a journal: whether a text is journal and report of a run of a script, and where it is none's, which
//! of its lines is the first wrong one.
#![tactic(auto)]

mod checking;
mod events;
mod fault;
mod front;
mod report;
#[cfg(test)]
mod tests;
mod why;

pub use checking::check;
pub use fault::CheckFault;
