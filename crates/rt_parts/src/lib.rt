//! The parts of the machine's state: what all tasks share, a thread apart, and the lists with which a core
//! begins. Each method is one step on one cell, or one link of a walk.
#![tactic(auto)]

mod shared;
mod start;
mod thread;

pub use shared::Shared;
pub use start::threads;
pub use thread::Thread;
