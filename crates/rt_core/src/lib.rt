//! The lock machine: its state, the one next event of each task, what an event leaves, and the report
//! that tells where tasks and locks stand.
#![tactic(auto)]

mod effect;
mod enabled;
mod graph;
#[cfg(test)]
mod graph_tests;
mod machine;
#[cfg(test)]
mod machine_tests;
mod note;
mod report;
mod spinning;
mod task_set;

pub use machine::Core;
pub use note::Note;
