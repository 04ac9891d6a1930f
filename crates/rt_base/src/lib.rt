//! The words of the lock machine (tasks, locks, calls, answers) and its outside: where a script comes
//! from and where a journal goes.
#![tactic(auto)]

mod call;
mod ended;
mod failing;
mod fault;
mod id;
mod kind;
pub mod limits;
mod mem_sink;
mod mem_source;
#[cfg(test)]
mod outside_tests;
mod path;
mod prio;
mod reading;
mod reply;
mod sink;
mod source;
mod state;
mod stdio;
#[cfg(test)]
mod stdio_tests;
mod turnstile;
mod writing;

pub use call::Call;
pub use ended::Ended;
pub use fault::{Failed, NoMemory};
pub use id::{Cpu, LockId, TaskId};
pub use kind::Kind;
pub use mem_sink::MemSink;
pub use mem_source::MemSource;
pub use path::Path;
pub use prio::Prio;
pub use reading::{Taken, read_whole};
pub use reply::Reply;
pub use sink::{PlainSink, Sink};
pub use source::{PlainSource, Source};
pub use state::TaskState;
pub use stdio::{StdinSource, StdoutSink};
pub use turnstile::{AlwaysGo, Gate, Turnstile};
pub use writing::write_whole;
