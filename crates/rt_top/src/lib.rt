//! The top call: from the words and the bytes of a lock script to the bytes of a journal, or of what is said of one, and
//! a status.
#![tactic(auto)]

mod checking;
mod command;
#[cfg(test)]
mod fault_tests;
mod generating;
mod message;
mod options;
mod purpose;
mod replaying;
#[cfg(test)]
mod row_tests;
mod status;
mod summary;
#[cfg(test)]
mod test_replays;
mod top;
mod words;
#[cfg(test)]
mod words_tests;

pub use status::Status;
pub use top::rtlab;
