//! What chooses and plays a run: the picks of a script and then the stated order, with its journal and report written
//! to a sink, or with its events counted. And large scripts, each of which a number gives.
#![tactic(auto)]

mod blocks;
mod counting;
#[cfg(test)]
mod counting_tests;
mod counts;
mod draws;
mod generator;
#[cfg(test)]
mod generator_tests;
mod locks;
mod order;
mod playing;
mod printing;
#[cfg(test)]
mod printing_tests;
mod progress;
mod reporting;

pub use counting::count_replay;
pub use counts::Counts;
pub use generator::generate;
pub use order::pick_next;
pub use playing::{finish, run_picks};
pub use reporting::write_report;
