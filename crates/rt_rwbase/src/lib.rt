//! The reader part of a reader/writer lock: how readers and writers come and go, after `rwbase_rt.c` of
//! Linux 6.1.
//!
//! A reader/writer lock has an inner lock with priority inheritance, and a reader part: a count of
//! readers with a bias and a write flag. A writer takes the inner lock, removes the bias ([`unbias`]),
//! waits until no reader is left ([`can_write`]), and sets the write flag ([`write_in`]). A reader gets in
//! as long as the write flag isn't set ([`can_read`], [`read_in`]). The last one that leaves while the bias
//! is removed ([`is_last`], [`read_out`]) is to wake the inner lock's owner. A writer that leaves or gives up
//! sets the bias again ([`write_out`]). Readers are not boosted, and a writer may starve.
//!
//! How far a call is on its way in or out is a phase of its thread, `rt_model::Phase`: `Inner` and
//! `ReadIn` of a reader, `Unbias`, `WTry` and `WWait` of a writer, `Release` of both, and `WakeWriter` of
//! the last reader.
#![tactic(auto)]

mod reading;
#[cfg(test)]
mod rwbase_tests;
mod writing;

pub use reading::{can_read, is_last, read_in, read_out};
pub use rt_model::ReaderCell;
pub use writing::{can_write, unbias, write_in, write_out};
